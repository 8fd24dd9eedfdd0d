// One sentence over any lent arrays: a run over its words from start's state, closed with a 3.
#![tactic(auto)]

ghost use Rattle.std.specs.Prelude.{◌≡◌, true, ◌≤◌, length};
ghost use Rattle.backoff.specs.Limits.{run_limit};
ghost use Rattle.backoff.specs.NineNumbers.{state_ok};
ghost use Rattle.backoff.specs.Store.{run_outcome};
ghost use Rattle.double_array.specs.DoubleArray.{order_in, opened};
ghost use Rattle.carried_state.specs.Numbers.{numbers_of};
ghost use Rattle.score.specs.Answers.{started_of, started_over};
ghost use Rattle.closed_sentence.specs.Sentence.{closing_run};
ghost use Rattle.closed_sentence.specs.Inner.{closing_of, SentenceIs};

use backoff::Refusal;
use carried_state::State;
use double_array::Array;

// A sentence that is scored: its total, and the length byte of its closing 3.
#[derive(Clone, Copy)]
pub struct Sentence {
    pub total: i64,
    pub closing: u8,
}

// The closing 3, from the state that a sentence's words left; nothing where it is refused.
fn close(array: Array, end: State) -> Option<Sentence>
    requires { state_ok (order_in array.check.now) (numbers_of end) ≡ true }
    ensures { result ≡ closing_of (run_outcome (opened array.entry.base.now array.entry.check.now) (numbers_of end) closing_run) }
{
    let words = [backoff::END_WORD];
    let mut points = [0];
    let mut lengths = [0];
    let ran = score::run_passed(array, end, &words, &mut points, &mut lengths).ok()?;
    Some(Sentence {
        total: ran.total,
        closing: lengths[0],
    })
}

// One sentence, from what start answered: a run over its words, and the closing 3. Nothing where one of the three is refused.
pub fn score_sentence(
    array: Array,
    started: Result<State, Refusal>,
    words: &[u32],
    points: &mut [i32],
    lengths: &mut [u8],
) -> Option<Sentence>
    requires started_value { started_of started ≡ started_over (opened array.base.now array.check.now) }
    requires words_len_bound { (length words.now ≤ run_limit) × ((length words.now ≤ length points.old) × (length words.now ≤ length lengths.old)) }
    ensures { SentenceIs (opened array.entry.base.now array.entry.check.now) (record { words = words.entry.now; points = points.old; lengths = lengths.old }) result points.new lengths.new }
{
    let state = started.ok()?;
    let ran = score::run_passed(array, state, words, points, lengths).ok()?;
    let closed = close(array, ran.end)?;
    Some(Sentence {
        total: ran.total + closed.total,
        closing: closed.closing,
    })
}
