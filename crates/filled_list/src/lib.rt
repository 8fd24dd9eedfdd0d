// The rows of the filled list of a pruned one, one after the other: which comes next, by the keys of the last words of lent rows. The definitions that the contracts cite are in specs/.
#![tactic(auto, unfolding(rows::specs::Table::rows_of))]

ghost use Rattle.std.specs.Prelude.{◌≡◌, true, ℕ, suc, ◌+◌, ◌*◌, ◌-◌, ◌<◌, ◌≤◌, length};
ghost use Rattle.backoff.specs.Limits.{order_limit};
ghost use Rattle.backoff.specs.Words.{radix};
ghost use Rattle.backoff.specs.Refusal.{Accepted};
ghost use Rattle.rows.specs.Table.{rows_of, length_of};
ghost use Rattle.rows.specs.Good.{GoodRow, Good};
ghost use Rattle.rows.specs.Keys.{key_of};
ghost use Rattle.row_search.specs.ByKey.{Bracket};
ghost use Rattle.list.specs.Check.{verdict_for};
ghost use Rattle.filled_list.specs.Next.{zeros, power, end_key, Filling};
ghost use Rattle.filled_list.specs.Found.{BestOf, ComesNextOf};

use row_search::Span;
use rows::Key;

// The key k with j zeros put in front.
fn with_zeros(k: Key, j: usize) -> Key
    requires { zeros j (key_of k.high k.low) ≤ power order_limit }
    ensures { key_of result.high result.low ≡ zeros j (key_of k.high k.low) }
{
    let mut shifted = k;
    for _ in 0..j {
        shifted = extensions::key_shifted(shifted);
    }
    shifted
}

// The key after k.
pub fn key_after(k: Key) -> Key
    requires { k.high < radix }
    ensures { key_of result.high result.low ≡ key_of k.high k.low + 1 }
{
    extensions::key_raised(k, 1)
}

// The key of the last m words of row i, which has k words.
fn end_key(table: &[i32], i: usize, k: usize, m: usize) -> Key
    requires { (8 * i + 8 ≤ length table.now) × GoodRow table.now i × (k ≡ length_of table.now i) × (k ≤ order_limit) × (m ≤ k) }
    ensures { key_of result.high result.low ≡ end_key table.now i m }
{
    let start = 8 * i;
    let end = start + (k + 1);
    let first = end - m;
    rows::key_of(&table[first..end])
}

// A row whose last words come next, with their key.
#[derive(Clone, Copy)]
struct NextRow {
    row: usize,
    key: Key,
}

// The first row whose key is not below k: by binary search, or from `near` on where that is a row behind the first.
fn first_from(table: &[i32], k: Key, near: usize) -> usize
    requires { Good table.now (rows_of table.now) }
    ensures { Bracket table.now (key_of k.high k.low) result result }
{
    if near == 0 {
        let to = table.len() / 8;
        return extensions::first_not_below(table, k, Span { from: 0, to });
    }
    extensions::lower_bound(table, k, near)
}

// The first row of k words or more whose last m words, if it has k, are not below the floor. From floor to floor it only moves on, so `near` has
// for each k where it stood last, 0 where it is not known: hints, on which no answer depends, so that a 0 is no plainer as a `None`.
fn bound_of(table: &[i32], m: usize, k: usize, floor: Key, near: &mut [usize; 6]) -> usize
    requires { Good table.now (rows_of table.now) × (m ≤ k) × (k ≤ order_limit) × (key_of floor.high floor.low ≤ power m) }
    ensures { Bracket table.now (zeros (k - m) (key_of floor.high floor.low)) result result }
{
    let bound = with_zeros(floor, k - m);
    let row = first_from(table, bound, near[k]);
    near[k] = row;
    row
}

// The better of the best row so far and of the rows of k words.
fn better(
    table: &[i32],
    m: usize,
    k: usize,
    floor: Key,
    best: Option<NextRow>,
    near: &mut [usize; 6],
) -> Option<NextRow>
    requires { Good table.now (rows_of table.now) × (0 < m) × (m ≤ k) × (k ≤ order_limit) × (power (m - 1) ≤ key_of floor.high floor.low) × (key_of floor.high floor.low ≤ power m) × BestOf table.now m (key_of floor.high floor.low) k best }
    ensures { BestOf table.now m (key_of floor.high floor.low) (suc k) result }
{
    let row = bound_of(table, m, k, floor, near);
    if table.len() / 8 <= row || rows::length_of(table, row) != k {
        return best;
    }
    let key = end_key(table, row, k, m);
    if let Some(best_row) = best {
        if !rows::key_less(key, best_row.key) {
            return best;
        }
    }
    Some(NextRow { row, key })
}

// Of the last m words of all rows of m to n words, the least whose key is not below the floor.
fn next_row(table: &[i32], m: usize, n: usize, floor: Key, near: &mut [usize; 6]) -> Option<NextRow>
    requires { Good table.now (rows_of table.now) × (0 < m) × (m ≤ n) × (n ≤ order_limit) × (power (m - 1) ≤ key_of floor.high floor.low) × (key_of floor.high floor.low ≤ power m) }
    ensures { BestOf table.now m (key_of floor.high floor.low) (suc n) result }
{
    let mut best = None;
    for k in m..=n {
        best = better(table, m, k, floor, best, near);
    }
    best
}

// The last `words` words of a row, which come next, with their key.
#[derive(Clone, Copy)]
pub struct NextEnd {
    pub words: usize,
    pub row: usize,
    pub key: Key,
}

// Of the last words of all rows, m or more, the least whose key is not below the floor. `near` goes from call to call, zeros at first.
pub fn next_end(
    table: &[i32],
    n: usize,
    m: usize,
    floor: Key,
    near: &mut [usize; 6],
) -> Option<NextEnd>
    requires { (verdict_for true table.now ≡ Accepted) × ((place : ℕ) × Filling table.now n m floor.high floor.low place) }
    ensures { (place : ℕ) → Filling table.now n m floor.high floor.low place → ComesNextOf table.now n place result }
{
    let mut from = floor;
    for words in m..=n {
        if let Some(next) = next_row(table, words, n, from, near) {
            return Some(NextEnd {
                words,
                row: next.row,
                key: next.key,
            });
        }
        from = with_zeros(Key { high: 0, low: 1 }, words);
        near.fill(0);
    }
    None
}
