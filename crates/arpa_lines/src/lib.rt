// One line of an ARPA text, read into the lent table and the lent store. The definitions that the contracts cite are in specs/.
#![tactic(auto)]

ghost use Rattle.std.specs.Prelude.{◌≡◌, true, [], ◌∷◌, map, ◌+◌, ◌*◌, ◌<◌, ◌≤◌, length};
ghost use Rattle.backoff.specs.Limits.{order_limit};
ghost use Rattle.text_parts.specs.Parts.{parts};
ghost use Rattle.arpa_text.specs.Lines.{is_text, are_texts, read_row};
ghost use Rattle.arpa_words.specs.Words.{number_met, number_given};
ghost use Rattle.arpa_sections.specs.Sections.{Reading};
ghost use Rattle.arpa_sections.specs.Held.{Held, StepHeld};
ghost use Rattle.arpa_sections.specs.declared.Stage.TheVariants.{Section};
ghost use Rattle.arpa_lines.specs.Reading.{word_step, longer_step, row_step, section_step, line_step};
ghost use Rattle.arpa_lines.specs.Held.{word_field, word_row, long_row, added};

use arpa_sections::{Progress, Stage};
use arpa_text::RowLine;
use backoff::Reason;

// A word's number as a row holds it; 0 where it is too large, of which no list is accepted.
#[tactic(auto, unfolding(crate::specs::Held::word_field))]
fn word_field(k: usize) -> i32
    ensures { result ≡ word_field k }
{
    i32::try_from(k).unwrap_or(0)
}

// Row i of the one-word section. Its numbers 2 and 3 are the index's, and 4 and 5 are 0.
#[tactic(auto, unfolding(crate::specs::Held::word_row))]
fn write_word_row(table: &mut [i32], i: usize, word: usize, p: i32, b: i32)
    requires { 8 * i + 8 ≤ length table.old }
    ensures { table.new ≡ word_row table.old i word p b }
{
    let at = 8 * i;
    table[at] = 1;
    table[at + 1] = word_field(word);
    table[at + 6] = p;
    table[at + 7] = b;
}

// Row i of m words, all eight numbers.
fn write_long_row(table: &mut [i32], i: usize, m: usize, words: [usize; 5], p: i32, b: i32)
    requires { (8 * i + 8 ≤ length table.old) × (m ≤ order_limit) }
    ensures { table.new ≡ long_row table.old i m words p b }
{
    let at = 8 * i;
    table[at] = m as i32;
    for (j, word) in words.iter().enumerate() {
        table[at + 1 + j] = word_field(*word);
    }
    table[at + 6] = p;
    table[at + 7] = b;
}

// One row more; `words` is then the next word's number.
fn row_added(progress: Progress, words: usize) -> Progress
    requires { (progress.rows < 18446744073709551615) × (progress.lines < 18446744073709551615) }
    ensures { result ≡ added progress words }
{
    Progress {
        lines: progress.lines + 1,
        rows: progress.rows + 1,
        words,
        ..progress
    }
}

// A line of the one-word section that has the text, p and b.
fn word_step(
    text: &[u8],
    p: i32,
    b: i32,
    table: &mut [i32],
    store: &mut [u8],
    progress: Progress,
) -> Result<Progress, Reason>
    requires { ((a : Reading) × Held (length table.old) (length store.old) table.old store.old progress a) × (progress.stage ≡ Section 1) × (is_text text.now ≡ true) }
    ensures { (a : Reading) → Held (length table.old) (length store.old) table.old store.old progress a → StepHeld (length table.old) (length store.old) table.new store.new (word_step (length table.old) (length store.old) a (record { p = p; b = b; texts = text.now ∷ [] }) text.now (number_given a.texts text.now)) result }
{
    let words = progress.words;
    let met = arpa_words::number_met(text, table, store, progress.buckets, words);
    let word = arpa_words::number_given(text, met, words);
    if table.len() / 8 <= progress.rows || store.len() / 64 <= word {
        return Err(Reason::ShortSlice);
    }
    if met.is_none() {
        arpa_words::add_text(text, word, table, store, progress.buckets, words);
    }
    write_word_row(table, progress.rows, word, p, b);
    let next = if word < words { words } else { words + 1 };
    Ok(row_added(progress, next))
}

// A line of the section of length m, from 2 on, that has these words, p and b.
fn longer_step(
    text: &[u8],
    m: usize,
    p: i32,
    b: i32,
    table: &mut [i32],
    store: &[u8],
    progress: Progress,
) -> Result<Progress, Reason>
    requires { ((a : Reading) × Held (length table.old) (length store.now) table.old store.now progress a) × (progress.stage ≡ Section m) × (2 ≤ m) × (m ≤ order_limit) × (are_texts m (parts 32 text.now) ≡ true) }
    ensures { (a : Reading) → Held (length table.old) (length store.now) table.old store.now progress a → StepHeld (length table.old) (length store.now) table.new store.now (longer_step (length table.old) a (record { p = p; b = b; texts = parts 32 text.now }) (map (number_met a.texts) (parts 32 text.now))) result }
{
    let words = progress.words;
    let Some(row) = arpa_words::numbers_met(text, m, table, store, progress.buckets, words) else {
        return Err(Reason::UnlistedText);
    };
    if table.len() / 8 <= progress.rows {
        return Err(Reason::ShortSlice);
    }
    write_long_row(table, progress.rows, m, row, p, b);
    Ok(row_added(progress, words))
}

// A line of the section of length m that does not close it.
fn row_step(
    line: &[u8],
    m: usize,
    table: &mut [i32],
    store: &mut [u8],
    progress: Progress,
) -> Result<Progress, Reason>
    requires { ((a : Reading) × Held (length table.old) (length store.old) table.old store.old progress a) × (progress.stage ≡ Section m) × (1 ≤ m) × (m ≤ order_limit) }
    ensures { (a : Reading) → Held (length table.old) (length store.old) table.old store.old progress a → StepHeld (length table.old) (length store.old) table.new store.new (row_step (length table.old) (length store.old) m a (read_row m line.now)) result }
{
    let Some(RowLine { p, b, from, to }) = arpa_text::read_row(line, m) else {
        return Err(Reason::LineForm);
    };
    let text = &line[from..to];
    if m == 1 {
        word_step(text, p, b, table, store, progress)
    } else {
        longer_step(text, m, p, b, table, store, progress)
    }
}

// A line in the section of length m.
fn section_step(
    line: &[u8],
    m: usize,
    table: &mut [i32],
    store: &mut [u8],
    progress: Progress,
) -> Result<Progress, Reason>
    requires { ((a : Reading) × Held (length table.old) (length store.old) table.old store.old progress a) × (progress.stage ≡ Section m) }
    ensures { (a : Reading) → Held (length table.old) (length store.old) table.old store.old progress a → StepHeld (length table.old) (length store.old) table.new store.new (section_step (length table.old) (length store.old) m a line.now) result }
{
    if arpa_sections::closes_section(line, m, progress.order) {
        return arpa_sections::close_section(m, progress);
    }
    row_step(line, m, table, store, progress)
}

// One line.
pub fn line_step(
    line: &[u8],
    table: &mut [i32],
    store: &mut [u8],
    progress: Progress,
) -> Result<Progress, Reason>
    requires { (a : Reading) × Held (length table.old) (length store.old) table.old store.old progress a }
    ensures { (a : Reading) → Held (length table.old) (length store.old) table.old store.old progress a → StepHeld (length table.old) (length store.old) table.new store.new (line_step (length table.old) (length store.old) a line.now) result }
{
    if line.is_empty() {
        return Ok(progress);
    }
    match progress.stage {
        Stage::Start => {
            if arpa_headings::is_data_line(line) {
                Ok(arpa_sections::enter(progress, Stage::Counts))
            } else {
                Err(Reason::LineForm)
            }
        }
        Stage::Counts => arpa_sections::data_step(line, table.len(), progress),
        Stage::Section(m) => section_step(line, m, table, store, progress),
        Stage::Ended => Err(Reason::LineForm),
    }
}
