// The rows of a list that put one more word in front of a row, found by their keys. The definitions that the contracts cite are in specs/.
#![tactic(auto, unfolding(rows::specs::Table::rows_of))]

ghost use Rattle.std.specs.Prelude.{◌≡◌, ◌+◌, ◌*◌, ◌<◌, ◌≤◌, length};
ghost use Rattle.backoff.specs.Words.{radix};
ghost use Rattle.rows.specs.Table.{rows_of, words};
ghost use Rattle.rows.specs.Good.{GoodRow, Good};
ghost use Rattle.rows.specs.Keys.{row_key, key_of};
ghost use Rattle.row_search.specs.ByKey.{Bracket};
ghost use Rattle.list.specs.ListModel.{extended_in};
ghost use Rattle.extensions.specs.Stretch.{Stretch, ChildrenFrom};

use backoff::{RADIX, THREE_DIGITS};
use row_search::Span;
use rows::Key;

// The first row from `from` on whose key is not below k, found row by row.
fn next_bound(table: &[i32], k: Key, from: usize) -> usize
    requires { Good table.now (rows_of table.now) × Bracket table.now (key_of k.high k.low) from (rows_of table.now) }
    ensures { Bracket table.now (key_of k.high k.low) result result }
{
    let rows = table.len() / 8;
    for to in from..rows {
        if !rows::key_less(rows::row_key(table, to), k) {
            return to;
        }
    }
    rows
}

// The first row whose key is not below k: at `near` or soon after, it is found at once.
pub fn lower_bound(table: &[i32], k: Key, near: usize) -> usize
    requires { Good table.now (rows_of table.now) }
    ensures { Bracket table.now (key_of k.high k.low) result result }
{
    let from = row_search::search_start(table, k, near);
    next_bound(table, k, from)
}

// The first row whose key is not below k. It may be anywhere; among the likely rows, it is found sooner.
pub fn first_not_below(table: &[i32], k: Key, likely: Span) -> usize
    requires { Good table.now (rows_of table.now) }
    ensures { Bracket table.now (key_of k.high k.low) result result }
{
    let window = row_search::search_window(table, k, likely);
    if window.to <= window.from {
        return lower_bound(table, k, window.from);
    }
    let last = row_search::last_not_above(table, k, window);
    if rows::key_less(rows::row_key(table, last), k) {
        return last + 1;
    }
    last
}

// The key of the words with a 0 put in front.
pub fn key_shifted(k: Key) -> Key
    requires { k.high < radix }
    ensures { key_of result.high result.low ≡ radix * key_of k.high k.low }
{
    Key {
        high: k.high * RADIX + k.low / THREE_DIGITS,
        low: k.low % THREE_DIGITS * RADIX,
    }
}

// The key that is so much above k.
pub fn key_raised(k: Key, step: u64) -> Key
    requires { k.high < radix * radix }
    ensures { key_of result.high result.low ≡ key_of k.high k.low + step }
{
    let (low, carried) = k.low.overflowing_add(step);
    Key {
        high: k.high + u64::from(carried),
        low,
    }
}

// The key of row i with a 0 put in front: those of the rows with a word there come next.
fn front_key(table: &[i32], i: usize) -> Key
    requires { (8 * i + 8 ≤ length table.now) × GoodRow table.now i }
    ensures { (key_of result.high result.low ≡ radix * row_key table.now i) × (result.high < radix * radix) }
{
    key_shifted(rows::row_key(table, i))
}

// Where the rows end that put one more word in front of row i, which begin at `from`.
pub fn children_end(table: &[i32], i: usize, from: usize) -> usize
    requires { (8 * i + 8 ≤ length table.now) × Good table.now (rows_of table.now) × ChildrenFrom table.now i from }
    ensures { Stretch table.now i from result }
{
    let past = key_raised(front_key(table, i), RADIX);
    next_bound(table, past, from)
}

// The rows that put one more word in front of row i. They may be anywhere; at `near` or soon after, they are found sooner.
pub fn children(table: &[i32], i: usize, near: usize) -> Span
    requires { (8 * i + 8 ≤ length table.now) × Good table.now (rows_of table.now) }
    ensures { Stretch table.now i result.from result.to }
{
    let from = lower_bound(table, front_key(table, i), near);
    let to = children_end(table, i, from);
    Span { from, to }
}

// Whether some row puts one more word in front of row i. It may be anywhere; among the likely rows, it is found sooner.
pub fn extended(table: &[i32], i: usize, likely: Span) -> bool
    requires { (8 * i + 8 ≤ length table.now) × Good table.now (rows_of table.now) }
    ensures { result ≡ extended_in table.now (words table.now i) }
{
    let k = front_key(table, i);
    let first = first_not_below(table, k, likely);
    first < table.len() / 8 && rows::key_less(rows::row_key(table, first), key_raised(k, RADIX))
}
