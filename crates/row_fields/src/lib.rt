// The checks of one row by itself: its length, its words, p and b. The definitions that the contracts cite are in specs/.
#![tactic(auto, using(std::proofs::lemmas::Int::ints), unfolding(integer::specs::Integer::between, backoff::specs::Model::in_probability, crate::specs::Fields::field_fault))]

ghost use Rattle.std.specs.Prelude.{◌≡◌, ◌+◌, ◌*◌, ◌≤◌, length};
ghost use Rattle.backoff.specs.Limits.{order_limit};
ghost use Rattle.backoff.specs.Model.{in_probability};
ghost use Rattle.backoff.specs.Refusal.{fault_of};
ghost use Rattle.rows.specs.Table.{probability_at, length_of, place_fits, places_fit};
ghost use Rattle.row_fields.specs.Fields.{backoff_fits, field_fault};

use backoff::{LARGEST_BACKOFF, LEAST_BACKOFF, LEAST_PROBABILITY, Reason, WORD_LIMIT};

// A row's words are its numbers 1 to 5.
const WORD_PLACES: usize = 5;

// Check 4 of row i, which has m words, at word place j. In line from the first: as a function by itself it comes to work out both answers at each place.
#[inline(always)]
fn place_fits(table: &[i32], i: usize, m: usize, j: usize) -> bool
    requires { (8 * i + 8 ≤ length table.now) × (m ≡ length_of table.now i) × (1 ≤ j) × (j ≤ order_limit) }
    ensures { result ≡ place_fits table.now i j }
{
    let word = rows::field(table, i, j);
    if j <= m {
        return (1..=WORD_LIMIT).contains(&word);
    }
    word == 0
}

// Check 4 of row i, which has m words.
fn places_fit(table: &[i32], i: usize, m: usize) -> bool
    requires { (8 * i + 8 ≤ length table.now) × (m ≡ length_of table.now i) }
    ensures { result ≡ places_fit table.now i 1 order_limit }
{
    for j in 1..=WORD_PLACES {
        if !place_fits(table, i, m, j) {
            return false;
        }
    }
    true
}

// Check 6 of row i, which has m words, in a list of order n.
fn backoff_fits(table: &[i32], i: usize, m: usize, n: usize) -> bool
    requires { (8 * i + 8 ≤ length table.now) × (m ≡ length_of table.now i) }
    ensures { result ≡ backoff_fits table.now n i }
{
    let b = rows::field(table, i, 7);
    if m == n {
        return b == 0;
    }
    (LEAST_BACKOFF..=LARGEST_BACKOFF).contains(&b)
}

// Check 5 of row i.
fn probability_fits(table: &[i32], i: usize) -> bool
    requires { 8 * i + 8 ≤ length table.now }
    ensures { result ≡ in_probability (probability_at table.now i) }
{
    (LEAST_PROBABILITY..=0).contains(&rows::field(table, i, 6))
}

// Checks 3 to 6 of row i in a list of order n: the first that it does not pass is the reason.
pub fn check_fields(table: &[i32], i: usize, n: usize) -> Result<(), Reason>
    requires { 8 * i + 8 ≤ length table.now }
    ensures { fault_of result ≡ field_fault table.now n i }
{
    let m = rows::length_of(table, i);
    if m == 0 {
        return Err(Reason::RowLength);
    }
    if !places_fit(table, i, m) {
        return Err(Reason::RowWords);
    }
    if !probability_fits(table, i) {
        return Err(Reason::RowProbability);
    }
    if !backoff_fits(table, i, m, n) {
        return Err(Reason::RowBackoff);
    }
    Ok(())
}
