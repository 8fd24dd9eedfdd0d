// A whole ARPA text: its lines read one by one into a lent table and a lent store, its rows put into list order and checked, and the answer. The
// definitions that the contracts cite are in specs/.
#![tactic(auto)]

ghost use Rattle.std.specs.Prelude.{◌≡◌, eqb, List, ◌++◌, ℕ, ◌*◌, ℤ, pos, length, take, drop, replicate};
ghost use Rattle.backoff.specs.Refusal.{verdict_of};
ghost use Rattle.row_order.specs.RowOrder.{list_order};
ghost use Rattle.text_parts.specs.Parts.{parts};
ghost use Rattle.arpa_sections.specs.Sections.{Reading, unread};
ghost use Rattle.arpa_sections.specs.Held.{Held};
ghost use Rattle.arpa_lines.specs.Reading.{Lines, last_piece, read_lines};
ghost use Rattle.arpa_reading.specs.Rows.{rows_in};
ghost use Rattle.arpa_reading.specs.Held.{EndHeld, LinesHeld, Ordering, Judged, Concluded};

use arpa_sections::{Progress, Stage};
use backoff::{ROW_LIMIT, Reason, Refusal};

// Words from this number on are too large for a list.
const RADIX: usize = backoff::RADIX as usize;

// What the lines came to: the rows, the one-word rows and the next word's number.
#[derive(Clone, Copy)]
pub struct Ending {
    pub rows: usize,
    pub ones: usize,
    pub words: usize,
}

// The last piece of the text, line `place`: it must be empty, behind the end line.
fn last_piece(empty: bool, place: u64, progress: Progress) -> Result<Ending, Refusal<u64>>
    ensures { (a : Reading) (room size : ℕ) (t : List ℤ) (s : List ℕ) (piece : List ℕ) → Held room size t s progress a → empty ≡ eqb (length piece) 0 → LinesHeld room size t s (last_piece a.stage a place piece) result }
{
    match progress.stage {
        Stage::Ended if empty => Ok(Ending {
            rows: progress.rows,
            ones: progress.counts[0] as usize,
            words: progress.words,
        }),
        _ => Err(Refusal {
            reason: Reason::LineForm,
            place,
        }),
    }
}

// All the lines, over a table and a store of zeros.
pub fn read_lines(text: &[u8], table: &mut [i32], store: &mut [u8]) -> Result<Ending, Refusal<u64>>
    requires { (table.old ≡ replicate (length table.old) (pos 0)) × (store.old ≡ replicate (length store.old) 0) }
    ensures { LinesHeld (length table.old) (length store.old) table.new store.new (read_lines (length table.old) (length store.old) unread 1 (parts 10 text.now)) result }
{
    let mut progress = Progress {
        stage: Stage::Start,
        counts: [0; 5],
        order: 0,
        lines: 0,
        rows: 0,
        words: 4,
        buckets: 1,
    };
    let mut place = 1;
    let mut at = 0;
    loop {
        let end = text_parts::part_end(text, at, b'\n');
        if end == text.len() {
            return last_piece(at == end, place, progress);
        }
        match arpa_lines::line_step(&text[at..end], table, store, progress) {
            Ok(next) => progress = next,
            Err(reason) => return Err(Refusal { reason, place }),
        }
        at = end + 1;
        place += 1;
    }
}

// The first rows go into list order.
fn order_rows(table: &mut [i32], rows: usize, words: usize)
    requires { Ordering table.old rows words }
    ensures { table.new ≡ list_order (take (8 * rows) table.old) ++ drop (8 * rows) table.old }
{
    if words <= RADIX {
        row_order::sort_front(table, rows);
    } else {
        row_order::insert_front(table, rows);
    }
}

// The list checks over the rows in list order.
fn judge(table: &mut [i32], ending: Ending, filling: bool) -> Result<(), Refusal>
    requires { (a : Reading) × EndHeld table.old ending.rows ending.ones ending.words a }
    ensures { (a : Reading) → EndHeld table.old ending.rows ending.ones ending.words a → Judged filling table.new a (verdict_of result) (length table.old) }
{
    let Ending { rows, ones, words } = ending;
    if ROW_LIMIT < rows {
        return Err(Reason::TableLength.into());
    }
    word_index::clear_index(table, ones);
    order_rows(table, rows, words);
    list::check_for(&table[..8 * rows], filling)
}

// The answer once the lines have ended: the number of rows.
pub fn conclude(
    table: &mut [i32],
    ending: Result<Ending, Refusal<u64>>,
    filling: bool,
) -> Result<u32, Refusal<u64>>
    requires { (l : Lines) × ((size : ℕ) × ((s : List ℕ) × LinesHeld (length table.old) size table.old s l ending)) }
    ensures { (l : Lines) (size : ℕ) (s : List ℕ) → LinesHeld (length table.old) size table.old s l ending → Concluded filling (length table.old) size table.new s l (rows_in result) }
{
    let ending = ending?;
    judge(table, ending, filling)?;
    Ok(ending.rows as u32)
}
