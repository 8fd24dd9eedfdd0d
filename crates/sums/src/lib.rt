// Sums of points over any lent double array, without the slices of a run: the words of a run, and a sentence's last word with its 3.
#![tactic(auto)]

ghost use Rattle.std.specs.Prelude.{◌≡◌, true, [], ◌∷◌, ◌≤◌, length};
ghost use Rattle.backoff.specs.Limits.{end_word, run_limit};
ghost use Rattle.backoff.specs.NineNumbers.{state_in, state_ok};
ghost use Rattle.backoff.specs.Store.{run_over};
ghost use Rattle.double_array.specs.DoubleArray.{order_in, store_in};
ghost use Rattle.carried_state.specs.Numbers.{numbers_of};
ghost use Rattle.carried_state.specs.Packed.{held_in, Carries};
ghost use Rattle.word_step.specs.Inner.{replaced};
ghost use Rattle.sums.specs.Sums.{summed_of, summed};
ghost use Rattle.sums.specs.Closing.{points_over};

use backoff::Refusal;
use carried_state::{Packed, State};
use double_array::Array;
use run_answer::Ran;

// So many words are scored at a time where their points are not asked for.
const PIECE: usize = 64;

// The words of a run without their points and length bytes, which go to a piece's arrays of the function's own.
pub fn sum_words(array: Array, state: State, words: &[u32]) -> Result<Ran, Refusal>
    requires state_value { state_ok (order_in array.check.now) (numbers_of state) ≡ true }
    requires words_len_bound { length words.now ≤ run_limit }
    ensures { summed_of (numbers_of state) result ≡ summed (numbers_of state) (run_over (store_in array.entry.base.now array.entry.check.now) words.now (state_in (numbers_of state)) 1) }
{
    let mut points = [0i32; PIECE];
    let mut lengths = [0u8; PIECE];
    let mut ran = Ran {
        total: 0,
        end: state,
    };
    let mut from = 0;
    // A `while`: the index goes on by pieces.
    while from < words.len() {
        let to = words.len().min(from + PIECE);
        let piece = run_words::score_words(
            array,
            ran.end,
            &words[from..to],
            &mut points,
            &mut lengths,
        );
        match piece {
            Ok(piece) => {
                ran = Ran {
                    total: ran.total + piece.total,
                    end: piece.end,
                };
            }
            Err(refusal) => {
                return Err(Refusal {
                    reason: refusal.reason,
                    place: from as u32 + refusal.place,
                });
            }
        }
        from = to;
    }
    Ok(ran)
}

// A sentence's last word, which is scored as itself, and its 3, which is scored as `closing`, from the state that the words before them left. No sentence is begun behind
// the 3.
pub fn sum_closed(
    array: Array,
    mut carried: Packed,
    mut backoffs: [i32; 5],
    last: u32,
    closing: u32,
) -> Option<i64>
    requires carries { Carries (order_in array.check.now) carried backoffs }
    requires last_value { (last ≡ replaced array.check.now last) × (closing ≡ replaced array.check.now end_word) }
    ensures { result ≡ points_over (store_in array.entry.base.now array.entry.check.now) (last ∷ end_word ∷ []) (held_in carried backoffs) }
{
    let words = [last, closing];
    let mut total: i64 = 0;
    for word in &words {
        let stepped = word_step::step(array, carried, &mut backoffs, *word)?;
        total += i64::from(stepped.score.points);
        carried = stepped.next;
    }
    Some(total)
}
