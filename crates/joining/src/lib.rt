// Fragments joined with their neighbours, over any lent double array.
#![tactic(auto)]

ghost use Rattle.std.specs.Prelude.{◌≡◌, true, cond, ◌+◌, ◌*◌, ◌-◌, ◌≤◌, length, nat_abs, leb};
ghost use Rattle.backoff.specs.Limits.{order_limit, run_limit};
ghost use Rattle.backoff.specs.Refusal.{verdict_of};
ghost use Rattle.backoff.specs.State.{empty};
ghost use Rattle.backoff.specs.NineNumbers.{state_in, state_ok};
ghost use Rattle.backoff.specs.Store.{run_over};
ghost use Rattle.double_array.specs.DoubleArray.{order_in, store_in, opened};
ghost use Rattle.carried_state.specs.Numbers.{numbers_of};
ghost use Rattle.fragments.specs.Outcome.{fragment_in, to_numbers, crossed, joined_of};
ghost use Rattle.joining.specs.Outcome.{joined_fragment, joined_as, join_outcome};
ghost use Rattle.joining.specs.Meaning.{JoinMeans};
ghost use Rattle.joining.specs.Inner.{most_points, first_bad, pair_fault, Passed, RescoredAs};

use backoff::{Reason, Refusal};
use carried_state::State;
use double_array::Array;
use fragments::{Fragment, Joined};

// The same words scored from nothing and after a state: both totals and the state that the second scoring leaves.
#[derive(Clone, Copy)]
struct Rescored {
    less: i64,
    plus: i64,
    end: State,
}

// 21 for two fragments.
fn check_fragments(order: usize, one: Fragment, two: Fragment) -> Result<(), Refusal>
    requires { (1 ≤ order) × (order ≤ order_limit) }
    ensures { verdict_of result ≡ pair_fault (first_bad order (fragment_in one) (fragment_in two)) 0 }
{
    let reason = Reason::BadFragment;
    if !fragments::fragment_ok(one, order) {
        return Err(Refusal { reason, place: 1 });
    }
    if !fragments::fragment_ok(two, order) {
        return Err(Refusal { reason, place: 2 });
    }
    Ok(())
}

// What refuses a join over an array of this order before any word is scored: 21 for the first and for the second, then 14 for the words of both.
fn check_pair(order: usize, one: Fragment, two: Fragment) -> Result<(), Refusal>
    requires { (1 ≤ order) × (order ≤ order_limit) }
    ensures { verdict_of result ≡ pair_fault (first_bad order (fragment_in one) (fragment_in two)) (one.count + two.count) }
{
    check_fragments(order, one, two)?;
    if (backoff::RUN_LIMIT as u64) < u64::from(one.count) + u64::from(two.count) {
        return Err(Refusal::from(Reason::WordCount));
    }
    Ok(())
}

// Scores words from nothing, and again after a state; none where either is refused.
fn rescore(array: Array, state: State, words: &[u32]) -> Option<Rescored>
    requires state_value { state_ok (order_in array.check.now) (numbers_of state) ≡ true }
    requires words_len_bound { length words.now ≤ run_limit }
    ensures { RescoredAs (run_over (store_in array.entry.base.now array.entry.check.now) words.now empty 1) (run_over (store_in array.entry.base.now array.entry.check.now) words.now (state_in (numbers_of state)) 1) result }
{
    let alone = sums::sum_words(array, State::default(), words).ok()?;
    let after = sums::sum_words(array, state, words).ok()?;
    Some(Rescored {
        less: alone.total,
        plus: after.total,
        end: after.end,
    })
}

// The end state of two neighbours: the second's where it has n−1 words or more, else what scoring its words after the first left.
fn end_of(order: usize, two: Fragment, end: State) -> State
    requires { 1 ≤ order }
    ensures { result ≡ cond (leb (order - 1) two.count) two.state end }
{
    if order - 1 <= two.count as usize {
        two.state
    } else {
        end
    }
}

// Two neighbours that pass 21 and 14, once the second's kept words are scored twice.
fn merge(order: usize, one: Fragment, two: Fragment, again: Rescored) -> Fragment
    requires le_order { (1 ≤ order) × (order ≤ order_limit) }
    requires passed { Passed order (fragment_in one) (fragment_in two) }
    requires less_bound { (nat_abs again.less ≤ 4 * most_points) × (nat_abs again.plus ≤ 4 * most_points) }
    ensures { result ≡ to_numbers (joined_fragment order (fragment_in one) (fragment_in two) again.less again.plus (numbers_of again.end)) }
{
    let count = one.count + two.count;
    let words = two.first;
    let first = fragments::first_words(
        one.first,
        one.kept as usize,
        &words[..two.kept as usize],
        order - 1,
    );
    Fragment {
        total: one.total + two.total - again.less + again.plus,
        count,
        kept: fragments::kept_of(order, count as usize) as u32,
        first,
        state: end_of(order, two, again.end),
    }
}

// Two neighbours that pass 21 and 14: 12.
fn join_passed(array: Array, one: Fragment, two: Fragment) -> Result<Fragment, Refusal>
    requires { Passed (order_in array.check.now) (fragment_in one) (fragment_in two) }
    ensures { joined_of result ≡ crossed (joined_as (order_in array.entry.check.now) (fragment_in one) (fragment_in two) (run_over (store_in array.entry.base.now array.entry.check.now) (fragment_in two).first empty 1) (run_over (store_in array.entry.base.now array.entry.check.now) (fragment_in two).first (state_in (fragment_in one).end) 1)) }
{
    let words = two.first;
    let again = rescore(array, one.state, &words[..two.kept as usize]).ok_or(Reason::BrokenNode)?;
    Ok(merge(array.order, one, two, again))
}

// 11, 21 with 1 or 2 and 14, and then the two joined.
fn joined_over(
    base: &[i32],
    check: &[i32],
    one: Fragment,
    two: Fragment,
) -> Result<Fragment, Refusal>
    ensures { joined_of result ≡ join_outcome (opened base.now check.now) one two }
{
    let array = Array::open(base, check)?;
    check_pair(array.order, one, two)?;
    join_passed(array, one, two)
}

// Joins two neighbours, whatever they hold: 11, 21 with 1 or 2, 14, 12.
pub fn join_fragments(base: &[i32], check: &[i32], one: Fragment, two: Fragment) -> Joined
    ensures outcome { result ≡ join_outcome (opened base.now check.now) one two }
    ensures meaning { JoinMeans base.now check.now one two result }
{
    Joined::from(joined_over(base, check, one, two))
}
