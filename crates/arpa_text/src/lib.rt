// A line of a section of an ARPA text: two logs, and the texts of words between them. The definitions that the contracts cite are in specs/.
#![tactic(auto)]

ghost use Rattle.std.specs.Prelude.{◌≡◌};
ghost use Rattle.text_parts.specs.Parts.{parts};
ghost use Rattle.arpa_text.specs.Lines.{is_text, are_texts, read_row};
ghost use Rattle.arpa_text.specs.Held.{backoff_behind, listed_at, Inside};

const TAB: u8 = b'\t';

const SPACE: u8 = b' ';

const TEXT_LIMIT: usize = 63;

// A line of a section: p, b, and where in the line its words stand.
#[derive(Clone, Copy)]
pub struct RowLine {
    pub p: i32,
    pub b: i32,
    pub from: usize,
    pub to: usize,
}

// Whether a text has 1 to 63 bytes, all above the space.
fn is_text(text: &[u8]) -> bool
    ensures { result ≡ is_text text.now }
{
    (1..=TEXT_LIMIT).contains(&text.len()) && text.iter().all(|c| SPACE < *c)
}

// Whether these are m texts parted by one space each.
fn are_texts(words: &[u8], m: usize) -> bool
    ensures { result ≡ are_texts m (parts 32 words.now) }
{
    let mut at = 0;
    for k in 0..m {
        let end = text_parts::part_end(words, at, SPACE);
        if !is_text(&words[at..end]) {
            return false;
        }
        if end == words.len() {
            return k + 1 == m;
        }
        at = end + 1;
    }
    false
}

// The back-off behind the words, with the tab before it: 0 where it is missing.
fn read_backoff(behind: &[u8]) -> Option<i32>
    ensures { result ≡ backoff_behind behind.now }
{
    match behind {
        [] => Some(0),
        [_, log @ ..] => arpa_logs::read_points(log),
    }
}

// A line of the section of length m.
pub fn read_row(line: &[u8], m: usize) -> Option<RowLine>
    ensures row { listed_at line.now result ≡ read_row m line.now }
    ensures inside { Inside line.now result }
{
    let tab = text_parts::find_byte(line, TAB)?;
    let p = arpa_logs::read_points(&line[..tab])?;
    let from = tab + 1;
    let to = text_parts::part_end(line, from, TAB);
    let b = read_backoff(&line[to..])?;
    if !are_texts(&line[from..to], m) {
        return None;
    }
    Some(RowLine { p, b, from, to })
}
