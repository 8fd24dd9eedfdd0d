// Start and run as they cross to C: the state lies in a lent slice of nine, and another length gives 16 before every other check.
#![tactic(auto)]

ghost use Rattle.backoff.specs.Store.{start_outcome, run_outcome};
ghost use Rattle.double_array.specs.DoubleArray.{opened};
ghost use Rattle.score.specs.Meaning.{StartMeans, RunMeans};
ghost use Rattle.c_scoring.specs.Crossing.{StartedIs, RanIs};

use backoff::{Reason, Refusal};
use c_answers::{Status, Total};
use carried_state::State;

// A state crosses as nine numbers.
const STATE_LENGTH: usize = 9;

// Leaves the state after `<s>` in a slice of nine: 16 for another length, 11, 12.
pub fn start_into(base: &[i32], check: &[i32], state: &mut [i32]) -> Status
    ensures outcome { StartedIs (start_outcome (opened base.now check.now) state.old) result state.new }
    ensures meaning { StartMeans base.now check.now state.old result.number result.place state.new }
{
    if state.len() != STATE_LENGTH {
        return Status::from(Err(Refusal::from(Reason::BadState)));
    }
    match score::start(base, check) {
        Ok(started) => {
            c_states::store(started, state);
            Status::from(Ok(()))
        }
        Err(refusal) => {
            c_states::store(State::default(), state);
            Status::from(Err(refusal))
        }
    }
}

// Scores the words from the state, and leaves the next state in its place: 16 for another length than nine, 11, 16, 14, 15, 12.
pub fn run_from(
    base: &[i32],
    check: &[i32],
    state: &mut [i32],
    words: &[u32],
    points: &mut [i32],
    lengths: &mut [u8],
) -> Total
    ensures outcome { RanIs (run_outcome (opened base.now check.now) state.old (record { words = words.entry.now; points = points.old; lengths = lengths.old })) result state.new points.new lengths.new }
    ensures meaning { RunMeans base.now check.now state.old (record { words = words.entry.now; points = points.old; lengths = lengths.old }) (record { number = result.number; place = result.place; total = result.total; end = state.new; points = points.new; lengths = lengths.new }) }
{
    if state.len() != STATE_LENGTH {
        return Total::from(Err(Refusal::from(Reason::BadState)));
    }
    let ran = score::run(base, check, c_states::load(state), words, points, lengths);
    if let Ok(ran) = ran {
        c_states::store(ran.end, state);
    }
    Total::from(ran.map(|ran| ran.total))
}
