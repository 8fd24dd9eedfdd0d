// The checks of a row against the rows before it: it is after the last of them, and its shorter rows are among them. Then all checks of a row, in their order.
// The definitions that the contracts cite are in specs/.
#![tactic(auto, unfolding(crate::specs::Faults::shorter_listed, crate::specs::Faults::order_fault, crate::specs::Faults::row_fault))]

ghost use Rattle.std.specs.Prelude.{◌≡◌, not, cond, ◌+◌, ◌*◌, ◌<◌, ◌≤◌, length, take, IfOk};
ghost use Rattle.backoff.specs.Limits.{order_limit};
ghost use Rattle.backoff.specs.Refusal.{shorter_row};
ghost use Rattle.rows.specs.Table.{length_of, without_last};
ghost use Rattle.rows.specs.Good.{GoodRow, Good};
ghost use Rattle.row_search.specs.Search.{find_in};
ghost use Rattle.rows_before.specs.Before.{RowOf, fault_in};
ghost use Rattle.rows_before.specs.Faults.{is_after, without_firsts, shorter_listed, order_fault, row_fault};

use backoff::Reason;
use row_search::Span;
use rows::Key;

// Check 7 of row i.
fn is_after(table: &[i32], i: usize) -> bool
    requires { (8 * i + 8 ≤ length table.now) × Good table.now i × GoodRow table.now i }
    ensures { result ≡ is_after table.now i }
{
    if i == 0 {
        return true;
    }
    let before = rows::row_key(table, i - 1);
    rows::key_less(before, rows::row_key(table, i))
}

// The place of the first word that check 8 asks for: the second, or the last where the list is to be filled.
fn first_asked(m: usize, filling: bool) -> usize
    requires { 0 < m }
    ensures place { result ≡ cond filling m 2 }
    ensures bound { (0 < result) × (result ≤ m + 1) }
{
    if filling {
        return m;
    }
    2
}

// Where the row stands that row i, which has m words, is without its first word, or where the list is to be filled without all words but the last. From
// row to row it only moves on, so `near` is where it stood last.
fn find_without_first(
    table: &[i32],
    i: usize,
    m: usize,
    near: usize,
    filling: bool,
) -> Option<usize>
    requires { RowOf table.now i m }
    ensures { result ≡ find_in (take (8 * i) table.now) (without_firsts filling table.now i) }
{
    let start = 8 * i;
    let second = start + first_asked(m, filling);
    let past = start + (m + 1);
    row_search::find_near(&table[..start], &table[second..past], near)
}

// Where the row stands that row i, which has m words, is without its last word, likely among these rows.
fn find_without_last(table: &[i32], i: usize, m: usize, likely: Span) -> Option<usize>
    requires { RowOf table.now i m }
    ensures { result ≡ find_in (take (8 * i) table.now) (without_last table.now i) }
{
    let end = 8 * i;
    let first = end + 1;
    let last = end + m;
    row_search::find_of_length(&table[..end], &table[first..last], likely)
}

// Where the row stands that row i, which has m words, is without its last word, likely among these rows. Where a list has all words, the row of one word is the
// row that the word numbers.
fn find_shorter(table: &[i32], i: usize, m: usize, likely: Span) -> Option<usize>
    requires { RowOf table.now i m }
    ensures { result ≡ find_in (take (8 * i) table.now) (without_last table.now i) }
{
    let word = rows::digit(table, i, 1);
    if m == 2 {
        let row = word as usize - 1;
        if row_search::has_key(&table[..8 * i], row, Key { high: 0, low: word }) {
            return Some(row);
        }
    }
    find_without_last(table, i, m, likely)
}

// What is known of a row that passed: `last` is where the row without its last word stands, if it has one, and `near` where the row without its first word
// stands, or stood last: a hint for the next row, on which no answer depends.
#[derive(Clone, Copy)]
pub struct Checked {
    pub last: Option<usize>,
    pub near: usize,
}

// Check 8 of row i, which has m words.
fn check_shorter(
    table: &[i32],
    i: usize,
    m: usize,
    near: usize,
    likely: Span,
    filling: bool,
) -> Result<Checked, Reason>
    requires { RowOf table.now i m }
    ensures fault { fault_in result ≡ cond (not (shorter_listed filling table.now i)) shorter_row 0 }
    ensures last { IfOk result (λ checked. checked.last ≡ find_in (take (8 * i) table.now) (without_last table.now i)) }
{
    let last = find_shorter(table, i, m, likely).ok_or(Reason::ShorterRow)?;
    let near = find_without_first(table, i, m, near, filling).ok_or(Reason::ShorterRow)?;
    Ok(Checked {
        last: Some(last),
        near,
    })
}

// Checks 7 and 8 of row i.
fn check_order(
    table: &[i32],
    i: usize,
    near: usize,
    likely: Span,
    filling: bool,
) -> Result<Checked, Reason>
    requires { (8 * i + 8 ≤ length table.now) × Good table.now i × GoodRow table.now i }
    ensures fault { fault_in result ≡ order_fault filling table.now i }
    ensures last { IfOk result (λ checked. checked.last ≡ find_in (take (8 * i) table.now) (without_last table.now i)) }
{
    if !is_after(table, i) {
        return Err(Reason::RowOrder);
    }
    let m = rows::length_of(table, i);
    if m < 2 {
        return Ok(Checked { last: None, near });
    }
    check_shorter(table, i, m, near, likely, filling)
}

// Checks 3 to 8 of row i in a list of order n: the first that it does not pass is the reason. The row without its first word is likely soon after `near`,
// the one without its last among these rows.
pub fn check_row(
    table: &[i32],
    i: usize,
    n: usize,
    near: usize,
    likely: Span,
    filling: bool,
) -> Result<Checked, Reason>
    requires { (8 * i + 8 ≤ length table.now) × Good table.now i }
    ensures fault { fault_in result ≡ row_fault filling table.now n i }
    ensures last { IfOk result (λ checked. checked.last ≡ find_in (take (8 * i) table.now) (without_last table.now i)) }
{
    row_fields::check_fields(table, i, n)?;
    check_order(table, i, near, likely, filling)
}
