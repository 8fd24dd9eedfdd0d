// Pruned lists filled. The definitions that the contracts cite are in specs/.
#![tactic(auto)]

ghost use Rattle.std.specs.Prelude.{◌≡◌, true, ℕ, ◌+◌, ◌*◌, ◌≤◌, length};
ghost use Rattle.backoff.specs.Refusal.{number_in, place_in};
ghost use Rattle.backoff.specs.Run.{written};
ghost use Rattle.backoff.specs.Refusal.{Accepted};
ghost use Rattle.rows.specs.Table.{order_of};
ghost use Rattle.list.specs.Check.{verdict_for};
ghost use Rattle.filled_list.specs.Filled.{filled_rows, filled_table};
ghost use Rattle.filled_list.specs.Found.{ComesNextOf};
ghost use Rattle.filling.specs.Fill.{rows_in, fill_outcome, IsFilled};
ghost use Rattle.filling.specs.Meaning.{FillMeans};
ghost use Rattle.filling.specs.Steps.{Counts, Checks};

use backoff::{ROW_LIMIT, Reason, Refusal};
use filled_list::NextEnd;
use rows::Key;

// ---- the rows, one after the other: two loops walk over them, since a closure in one walk would be no plainer than what each loop keeps

// The first row of the filled list.
fn first_end(table: &[i32], n: usize, near: &mut [usize; 6]) -> Option<NextEnd>
    requires { (verdict_for true table.now ≡ Accepted) × (n ≡ order_of table.now) }
    ensures { ComesNextOf table.now n 0 result }
{
    filled_list::next_end(table, n, 1, Key { high: 0, low: 1 }, near)
}

// The row behind this one.
fn end_after(table: &[i32], n: usize, end: NextEnd, near: &mut [usize; 6]) -> Option<NextEnd>
    requires { (verdict_for true table.now ≡ Accepted) × ((place : ℕ) × ComesNextOf table.now n place (Some end)) }
    ensures { (place : ℕ) → ComesNextOf table.now n place (Some end) → ComesNextOf table.now n (place + 1) result }
{
    filled_list::next_end(table, n, end.words, filled_list::key_after(end.key), near)
}

// ---- the rows counted

// How many rows the filled list has, and whether the p of each is in range.
#[derive(Clone, Copy)]
struct Counted {
    rows: usize,
    // False says only that some p may be out of range, so this is no `Result`.
    fits: bool,
}

fn count_rows(table: &[i32], n: usize) -> Counted
    requires { (verdict_for true table.now ≡ Accepted) × (n ≡ order_of table.now) }
    ensures { Counts table.now result.rows result.fits }
{
    let mut near = [0; 6];
    let mut next = first_end(table, n, &mut near);
    let mut rows = 0;
    let mut fits = true;
    while let Some(end) = next {
        fits &= row_ends::end_fits(table, end.row, end.words);
        rows += 1;
        next = end_after(table, n, end, &mut near);
    }
    Counted { rows, fits }
}

// ---- the refusals

// The refusals of a list that the checks let pass: 5, 1, 15; else the number of rows.
fn check_needed(table: &[i32], size: usize) -> Result<usize, Refusal>
    requires { verdict_for true table.now ≡ Accepted }
    ensures { Checks table.now size result }
{
    let last = table.len() / 8 - 1;
    let counted = count_rows(table, rows::length_of(table, last));
    if !counted.fits {
        if let Some(i) = row_ends::first_needing(table) {
            return Err(Refusal {
                reason: Reason::RowProbability,
                place: (i + 1) as u32,
            });
        }
    }
    if ROW_LIMIT < counted.rows {
        return Err(Reason::TableLength.into());
    }
    if size / 8 < counted.rows {
        return Err(Reason::ShortSlice.into());
    }
    Ok(counted.rows)
}

// The refusals: those of a list that is to be filled, then 5, 1, 15; else the number of rows.
#[tactic(auto, using(crate::proofs::Refusals::fill_listed))]
fn check_all(table: &[i32], size: usize) -> Result<usize, Refusal>
    ensures { Checks table.now size result }
{
    list::check_for(table, true)?;
    check_needed(table, size)
}

// ---- the rows written

// Writes the rows of the filled list.
fn write_rows(table: &[i32], n: usize, filled: &mut [i32])
    requires { (verdict_for true table.now ≡ Accepted) × (n ≡ order_of table.now) × (8 * length (filled_rows table.now) ≤ length filled.old) }
    ensures { filled.new ≡ written (filled_table table.now) filled.old }
{
    let mut near = [0; 6];
    let mut next = first_end(table, n, &mut near);
    let mut start = 0;
    while let Some(end) = next {
        let k = rows::length_of(table, end.row);
        row_ends::write_row(table, end.row, k, end.words, &mut filled[start..start + 8]);
        start += 8;
        next = end_after(table, n, end, &mut near);
    }
}

// ---- the call

// Fills a pruned list: writes the complete one into the second table and returns the number of its rows, or writes nothing where it is refused.
pub fn fill(table: &[i32], filled: &mut [i32]) -> Result<u32, Refusal>
    ensures outcome { IsFilled (fill_outcome table.now filled.old) (number_in result) (place_in result) (rows_in result) filled.new }
    ensures meaning { FillMeans table.now filled.old (number_in result) (place_in result) (rows_in result) filled.new }
{
    let rows = check_all(table, filled.len())?;
    let last = table.len() / 8 - 1;
    write_rows(table, rows::length_of(table, last), filled);
    Ok(rows as u32)
}
