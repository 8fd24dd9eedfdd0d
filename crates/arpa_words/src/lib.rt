// The words of an ARPA text: the number that a text has or gets, and its record in the lent store. The definitions that the contracts cite are in specs/.
// Table, store, chains and words are passed one by one: a struct of them would need two forms, as one function writes what the others read.
#![tactic(auto)]

ghost use Rattle.std.specs.Prelude.{◌≡◌, true, cond, eqb, map, ◌+◌, ◌*◌, ◌-◌, ◌<◌, ◌≤◌, length, get_or};
ghost use Rattle.integer.specs.Integer.{or_else};
ghost use Rattle.backoff.specs.Limits.{order_limit};
ghost use Rattle.word_index.specs.Texts.{texts_from, record_with, given_by};
ghost use Rattle.text_parts.specs.Parts.{parts};
ghost use Rattle.arpa_text.specs.Lines.{is_text, are_texts};
ghost use Rattle.arpa_words.specs.Words.{reserved_number, number_met};
ghost use Rattle.arpa_words.specs.Held.{unless_zero, all_numbers, ShortTexts, Searchable, Adding, TextAdded};

// The largest word number that the index in the table holds.
pub const LINK_LIMIT: usize = 2147483647;

// 1, 2, 3 for `<unk>`, `<s>`, `</s>`, and none for any other text.
#[tactic(auto, using(word_index::proofs::Texts::equal_texts), unfolding(crate::specs::Words::reserved_number))]
fn reserved_number(text: &[u8]) -> Option<usize>
    ensures { result ≡ unless_zero (reserved_number text.now) }
{
    if text == b"<unk>".as_slice() {
        return Some(1);
    }
    if text == b"<s>".as_slice() {
        return Some(2);
    }
    if text == b"</s>".as_slice() {
        return Some(3);
    }
    None
}

// The word from 4 on whose record holds the text, without the index.
fn scan_words(text: &[u8], store: &[u8], words: usize) -> Option<usize>
    requires { (64 * words ≤ length store.now) × ShortTexts store.now words }
    ensures { result ≡ record_with store.now words text.now }
{
    for k in 4..words {
        if word_index::same_text(text, store, k) {
            return Some(k);
        }
    }
    None
}

// The word from 4 on whose record holds the text. The index's links are signed 32-bit numbers.
fn find_text(
    text: &[u8],
    table: &[i32],
    store: &[u8],
    buckets: usize,
    words: usize,
) -> Option<usize>
    requires { Searchable table.now store.now buckets words }
    ensures { result ≡ record_with store.now words text.now }
{
    if words <= 4 {
        return None;
    }
    if LINK_LIMIT < words {
        return scan_words(text, store, words);
    }
    word_index::find_word(text, table, store, buckets)
}

// The number of a reserved word whose record is there.
fn reserved_met(k: usize, store: &[u8]) -> Option<usize>
    requires { k ≤ 3 }
    ensures { result ≡ cond (eqb (get_or store.now (64 * k) 0) 0) None (Some k) }
{
    let at = 64 * k;
    if store.len() <= at || store[at] == 0 {
        return None;
    }
    Some(k)
}

// The number of a text that is met.
pub fn number_met(
    text: &[u8],
    table: &[i32],
    store: &[u8],
    buckets: usize,
    words: usize,
) -> Option<usize>
    requires { Searchable table.now store.now buckets words × (is_text text.now ≡ true) }
    ensures { result ≡ unless_zero (number_met (texts_from store.now 1 (words - 1)) text.now) }
{
    match reserved_number(text) {
        Some(k) => reserved_met(k, store),
        None => find_text(text, table, store, buckets, words),
    }
}

// The number that a text of the one-word section gets, where `met` is the number that it has.
pub fn number_given(text: &[u8], met: Option<usize>, words: usize) -> usize
    ensures { result ≡ given_by met (or_else (reserved_number text.now) words) }
{
    met.or(reserved_number(text)).unwrap_or(words)
}

// Word k gets its record, and from 4 on its place in the index.
pub fn add_text(
    text: &[u8],
    k: usize,
    table: &mut [i32],
    store: &mut [u8],
    buckets: usize,
    words: usize,
)
    requires { Adding table.old store.old buckets words k text.now }
    ensures { TextAdded table.old table.new store.old store.new buckets words k text.now }
{
    if k < 4 || LINK_LIMIT < words {
        word_index::write_record(text, store, k);
        return;
    }
    word_index::add_word(text, table, store, buckets, words);
}

// The numbers of the m words that stand in the text, where none of them is missing.
pub fn numbers_met(
    text: &[u8],
    m: usize,
    table: &[i32],
    store: &[u8],
    buckets: usize,
    words: usize,
) -> Option<[usize; 5]>
    requires { Searchable table.now store.now buckets words × (are_texts m (parts 32 text.now) ≡ true) × (m ≤ order_limit) }
    ensures { result ≡ all_numbers (map (number_met (texts_from store.now 1 (words - 1))) (parts 32 text.now)) }
{
    let mut numbers = [0; 5];
    let mut at = 0;
    for j in 0..m {
        let end = text_parts::part_end(text, at, b' ');
        numbers[j] = number_met(&text[at..end], table, store, buckets, words)?;
        at = end + 1;
    }
    Some(numbers)
}
