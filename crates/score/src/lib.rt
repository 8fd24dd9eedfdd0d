// Scoring with a carried state over any lent double array: start and run.
#![tactic(auto)]

ghost use Rattle.std.specs.Prelude.{◌≡◌, true, ◌≤◌, length};
ghost use Rattle.backoff.specs.Limits.{start_word, run_limit};
ghost use Rattle.backoff.specs.Refusal.{fault_of, number_in, place_in};
ghost use Rattle.backoff.specs.State.{empty as emptyState};
ghost use Rattle.backoff.specs.Run.{size_refusal};
ghost use Rattle.backoff.specs.NineNumbers.{nine_zeros, state_ok};
ghost use Rattle.backoff.specs.Store.{word_step, run_outcome, start_step, start_outcome};
ghost use Rattle.double_array.specs.DoubleArray.{order_in, store_in, opened};
ghost use Rattle.carried_state.specs.Numbers.{numbers_of};
ghost use Rattle.run_answer.specs.Answers.{answer_of};
ghost use Rattle.score.specs.Answers.{started_of};
ghost use Rattle.score.specs.Meaning.{StartMeans, RunMeans};
ghost use Rattle.score.specs.Inner.{early_refusal};

use backoff::{Reason, Refusal};
use carried_state::State;
use double_array::Array;
use run_answer::Ran;

// What start returns where 11 does not refuse it.
fn start_in(array: Array) -> Result<State, Refusal>
    ensures { started_of result ≡ start_step (word_step (store_in array.entry.base.now array.entry.check.now) emptyState start_word) }
{
    let mut backoffs = [0i32; 5];
    let begun = word_step::begin(array, &mut backoffs).ok_or(Reason::BrokenNode)?;
    Ok(begun.next.unpack(backoffs))
}

// The paper's start, the state after `<s>`.
pub fn start(base: &[i32], check: &[i32]) -> Result<State, Refusal>
    ensures outcome { started_of result ≡ start_outcome (opened base.now check.now) nine_zeros }
    ensures meaning { StartMeans base.now check.now nine_zeros (number_in result) (place_in result) (started_of result).state }
{
    let array = Array::open(base, check)?;
    start_in(array)
}

// 16 for the state, then 14 and 15 for the words and the slices.
fn check_run(
    array: Array,
    state: State,
    words: usize,
    points: usize,
    lengths: usize,
) -> Result<(), Reason>
    ensures { fault_of result ≡ early_refusal (opened array.entry.base.now array.entry.check.now) (numbers_of state) (size_refusal words points lengths) }
{
    if !state.passes(array.order) {
        return Err(Reason::BadState);
    }
    backoff::check_sizes(words, points, lengths)
}

// A run that no earlier check refuses, where its caller knows it.
pub fn run_passed(
    array: Array,
    state: State,
    words: &[u32],
    points: &mut [i32],
    lengths: &mut [u8],
) -> Result<Ran, Refusal>
    requires state_value { state_ok (order_in array.check.now) (numbers_of state) ≡ true }
    requires words_len_bound { length words.now ≤ run_limit }
    requires words_in_bounds { (length words.now ≤ length points.old) × (length words.now ≤ length lengths.old) }
    ensures { answer_of (numbers_of state) result points.new lengths.new ≡ run_outcome (opened array.entry.base.now array.entry.check.now) (numbers_of state) (record { words = words.entry.now; points = points.old; lengths = lengths.old }) }
{
    run_words::score_words(array, state, words, points, lengths)
}

// The paper's run: each word's points and length byte, their total, and the state that the words leave.
pub fn run(
    base: &[i32],
    check: &[i32],
    state: State,
    words: &[u32],
    points: &mut [i32],
    lengths: &mut [u8],
) -> Result<Ran, Refusal>
    ensures outcome { answer_of (numbers_of state) result points.new lengths.new ≡ run_outcome (opened base.now check.now) (numbers_of state) (record { words = words.entry.now; points = points.old; lengths = lengths.old }) }
    ensures meaning { RunMeans base.now check.now (numbers_of state) (record { words = words.entry.now; points = points.old; lengths = lengths.old }) (answer_of (numbers_of state) result points.new lengths.new) }
{
    let array = Array::open(base, check)?;
    check_run(array, state, words.len(), points.len(), lengths.len())?;
    run_passed(array, state, words, points, lengths)
}
