// The last words of lent rows as rows of the filled list: their p and b, check 5 on them, and their eight numbers. The definitions that the contracts cite are in specs/.
#![tactic(auto)]

ghost use Rattle.std.specs.Prelude.{◌≡◌, true, false, ◌-◌, ◌<◌, ◌≤◌, pos, length, get_or};
ghost use Rattle.backoff.specs.Refusal.{Accepted};
ghost use Rattle.backoff.specs.Model.{in_probability};
ghost use Rattle.rows.specs.Table.{rows_of, length_of, words};
ghost use Rattle.row_search.specs.Search.{find_in, is_at, found_row};
ghost use Rattle.list.specs.Check.{verdict_for};
ghost use Rattle.filled_list.specs.Filled.{filled_row, without_first_words};
ghost use Rattle.filled_list.specs.Next.{last_words};
ghost use Rattle.row_ends.specs.Needed.{addable, all_addable};
ghost use Rattle.row_ends.specs.Points.{words_from, WordsAt, backoff_in, place_points};
ghost use Rattle.row_ends.specs.Steps.{NeedingIs, IsEnd, end_probability, end_backoff};

use backoff::LEAST_PROBABILITY;
use row_search::Row;

// ---- p of an added row

// What the list has of the words at places `from` to `past` - 1.
fn row_of(table: &[i32], from: usize, past: usize) -> Option<Row>
    requires { WordsAt table.now from past }
    ensures { result ≡ found_row table.now (find_in table.now (words_from table.now from (past - from))) }
{
    let found = row_search::find_row(table, &table[from..past]);
    row_search::found_row(table, found)
}

// b of the words at those places, 0 if they are no row.
fn back_off_of(table: &[i32], from: usize, past: usize) -> i32
    requires { WordsAt table.now from past }
    ensures { result ≡ backoff_in (found_row table.now (find_in table.now (words_from table.now from (past - from)))) }
{
    row_of(table, from, past).map_or(0, |row| row.b)
}

// The points of the last of the words at places `from` to `past` - 1, after the others: they are no row.
fn end_points(table: &[i32], from: usize, past: usize) -> i32
    requires { WordsAt table.now from past × (is_at (find_in table.now (words_from table.now from (past - from))) ≡ false) }
    ensures { result ≡ place_points table.now from (past - from) }
{
    let mut owed = 0;
    for at in from..past {
        owed += back_off_of(table, at, past - 1);
        if let Some(row) = row_of(table, at + 1, past) {
            return owed + row.p;
        }
    }
    owed
}

// ---- check 5

// Whether z may be the p of a row.
#[tactic(auto, using(std::proofs::lemmas::Int::ints), unfolding(integer::specs::Integer::between, backoff::specs::Model::in_probability))]
fn is_probability(z: i32) -> bool
    ensures { result ≡ in_probability z }
{
    (LEAST_PROBABILITY..=0).contains(&z)
}

// Whether the last m words of row i, which has k words, are a row, or one whose p is in range.
fn is_addable(table: &[i32], i: usize, k: usize, m: usize) -> bool
    requires { (verdict_for true table.now ≡ Accepted) × (i < rows_of table.now) × (k ≡ length_of table.now i) × (0 < m) × (m ≤ k) }
    ensures { result ≡ addable table.now (last_words table.now i m) }
{
    let start = 8 * i;
    let past = start + (k + 1);
    let from = past - m;
    row_of(table, from, past).is_some() || is_probability(end_points(table, from, past))
}

// Whether each row that row i needs is a row, or one whose p is in range.
fn all_addable(table: &[i32], i: usize) -> bool
    requires { (verdict_for true table.now ≡ Accepted) × (i < rows_of table.now) }
    ensures { result ≡ all_addable table.now (without_first_words (words table.now i)) }
{
    let k = rows::length_of(table, i);
    for m in (2..k).rev() {
        if !is_addable(table, i, k, m) {
            return false;
        }
    }
    true
}

// The first row that needs a row whose p is out of range.
pub fn first_needing(table: &[i32]) -> Option<usize>
    requires { verdict_for true table.now ≡ Accepted }
    ensures { NeedingIs table.now result }
{
    for i in 0..table.len() / 8 {
        if !all_addable(table, i) {
            return Some(i);
        }
    }
    None
}

// ---- p and b of the row

// p of the row of the last m words of row i, which has k words: its own, or where it has more words, which are no row then, their points.
pub fn end_probability(table: &[i32], i: usize, k: usize, m: usize) -> i32
    requires { IsEnd table.now i k m }
    ensures { result ≡ end_probability table.now i m }
{
    if m < k {
        let start = 8 * i;
        let past = start + (k + 1);
        let from = past - m;
        return end_points(table, from, past);
    }
    rows::field(table, i, 6)
}

// b of that row.
pub fn end_backoff(table: &[i32], i: usize, k: usize, m: usize) -> i32
    requires { IsEnd table.now i k m }
    ensures { result ≡ end_backoff table.now i m }
{
    if k == m { rows::field(table, i, 7) } else { 0 }
}

// Whether p of that row is in range.
pub fn end_fits(table: &[i32], i: usize, m: usize) -> bool
    requires { IsEnd table.now i (length_of table.now i) m }
    ensures { result ≡ addable table.now (last_words table.now i m) }
{
    let k = rows::length_of(table, i);
    is_probability(end_probability(table, i, k, m))
}

// ---- the row written

// Word j, 0 past the last, as the row holds it.
fn word_or_zero(words: &[i32], j: usize) -> i32
    ensures { result ≡ get_or words.now j (pos 0) }
{
    words.get(j).copied().unwrap_or(0)
}

// Writes the row of the last m words of row i, which has k words.
pub fn write_row(table: &[i32], i: usize, k: usize, m: usize, row: &mut [i32])
    requires { IsEnd table.now i k m × (length row.old ≡ 8) }
    ensures { row.new ≡ filled_row table.now (last_words table.now i m) }
{
    let past = 8 * i + (k + 1);
    let words = &table[past - m..past];
    row.copy_from_slice(&[
        m as i32,
        word_or_zero(words, 0),
        word_or_zero(words, 1),
        word_or_zero(words, 2),
        word_or_zero(words, 3),
        word_or_zero(words, 4),
        end_probability(table, i, k, m),
        end_backoff(table, i, k, m),
    ]);
}
