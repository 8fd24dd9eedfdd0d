// The words of a run over any lent double array, each scored from the state that the words before it leave.
#![tactic(auto)]

ghost use Rattle.std.specs.Prelude.{◌≡◌, true, ◌≤◌, ◌<◌, length, get_or, negsuc};
ghost use Rattle.backoff.specs.Limits.{run_limit};
ghost use Rattle.backoff.specs.NineNumbers.{state_in, state_ok};
ghost use Rattle.backoff.specs.Store.{run_over, ran_answer};
ghost use Rattle.child_slots.specs.Children.{free_check};
ghost use Rattle.double_array.specs.DoubleArray.{order_in, store_in};
ghost use Rattle.carried_state.specs.Numbers.{numbers_of};
ghost use Rattle.carried_state.specs.Packed.{held_in, Carries};
ghost use Rattle.word_step.specs.Inner.{replaced};
ghost use Rattle.run_answer.specs.Answers.{answer_of};
ghost use Rattle.run_words.specs.Next.{next_state, NextIs};

use backoff::Refusal;
use carried_state::{Packed, State};
use double_array::Array;
use run_answer::Ran;

// What word i is scored as, word 1 where there is none.
fn next_word(check: &[i32], words: &[u32], i: usize) -> u32
    requires { get_or check.now 1 free_check ≡ negsuc 0 }
    ensures { i < length words.now → result ≡ replaced check.now (get_or words.now i 0) }
{
    match words.get(i) {
        Some(word) => word_step::replaced(check, *word),
        None => backoff::UNKNOWN_WORD,
    }
}

// The state that the next word is scored from, where a word given as this one has left `left`: behind a 3, whatever it is scored as, that of start.
fn next_state(array: Array, given: u32, left: Packed, backoffs: &mut [i32; 5]) -> Option<Packed>
    requires { Carries (order_in array.check.now) left backoffs.old }
    ensures { NextIs (order_in array.entry.check.now) (next_state (store_in array.entry.base.now array.entry.check.now) given (held_in left backoffs.old)) result backoffs.new }
{
    if given != backoff::END_WORD {
        return Some(left);
    }
    Some(word_step::begin(array, backoffs)?.next)
}

// The words of a run that no earlier check refuses. What a word is scored as is read while the word before it is scored, so that no walk waits for it.
pub fn score_words(
    array: Array,
    state: State,
    words: &[u32],
    points: &mut [i32],
    lengths: &mut [u8],
) -> Result<Ran, Refusal>
    requires state_value { state_ok (order_in array.check.now) (numbers_of state) ≡ true }
    requires words_len_bound { length words.now ≤ run_limit }
    requires words_in_bounds { (length words.now ≤ length points.old) × (length words.now ≤ length lengths.old) }
    ensures { answer_of (numbers_of state) result points.new lengths.new ≡ ran_answer (numbers_of state) (record { words = words.entry.now; points = points.old; lengths = lengths.old }) (run_over (store_in array.entry.base.now array.entry.check.now) words.entry.now (state_in (numbers_of state)) 1) }
{
    let mut carried = state.pack();
    let mut backoffs = state.lent();
    let mut total: i64 = 0;
    let mut ahead = next_word(array.check, words, 0);
    for i in 0..words.len() {
        let word = ahead;
        ahead = next_word(array.check, words, i + 1);
        let Some(stepped) = word_step::step(array, carried, &mut backoffs, word) else {
            return Err(run_answer::refuse_word(points, lengths, words.len(), i));
        };
        total += i64::from(stepped.score.points);
        run_answer::write_word(points, lengths, i, stepped.score);
        let Some(next) = next_state(array, words[i], stepped.next, &mut backoffs) else {
            return Err(run_answer::refuse_word(points, lengths, words.len(), i));
        };
        carried = next;
    }
    Ok(run_answer::all_scored(total, carried, backoffs))
}
