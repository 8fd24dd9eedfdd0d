// Texts as bytes: the parts between equal bytes, found one by one, and whether two texts are the same. The definitions that the contracts cite are in
// specs/.
#![tactic(auto)]

ghost use Rattle.std.specs.Prelude.{◌≡◌, ◌+◌, ◌<◌, ◌≤◌, length, drop, MatchOption};
ghost use Rattle.backoff.specs.Words.{same_words};
ghost use Rattle.text_parts.specs.Parts.{before};

// Where the first such byte stands, if there is one.
pub fn find_byte(text: &[u8], byte: u8) -> Option<usize>
    ensures { MatchOption result (before byte text.now ≡ length text.now) (λ place. (place ≡ before byte text.now) × (place < length text.now)) }
{
    text.iter().position(|c| *c == byte)
}

// Where the part that begins at `at` ends: at the next such byte, or behind the text where there is none.
pub fn part_end(text: &[u8], at: usize, byte: u8) -> usize
    requires { at ≤ length text.now }
    ensures place { result ≡ at + before byte (drop at text.now) }
    ensures within { result ≤ length text.now }
{
    match find_byte(&text[at..], byte) {
        Some(place) => at + place,
        None => text.len(),
    }
}

// Whether two texts are the same.
pub fn same_bytes(a: &[u8], b: &[u8]) -> bool
    ensures { result ≡ same_words a.now b.now }
{
    a == b
}
