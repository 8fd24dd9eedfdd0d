// One word from a carried state over any lent double array: the word's answer by its walk, and the state that it leaves.
#![tactic(auto)]

ghost use Rattle.std.specs.Prelude.{◌≡◌, ℕ, length, get_or, negsuc};
ghost use Rattle.backoff.specs.Limits.{start_word};
ghost use Rattle.backoff.specs.State.{empty as emptyState};
ghost use Rattle.backoff.specs.Store.{word_step};
ghost use Rattle.child_slots.specs.Children.{free_check};
ghost use Rattle.double_array.specs.DoubleArray.{order_in, store_in};
ghost use Rattle.carried_state.specs.Packed.{held_in, Carries};
ghost use Rattle.word_step.specs.Inner.{replaced, kind_of, Answerable, answered, SteppedTo};

use carried_state::Packed;
use double_array::Array;
use word_walk::Walked;

// A scored word is known or unknown, and each kind carries its matched length.
#[derive(Clone, Copy)]
pub enum Kind {
    Known(u8),
    Unknown(u8),
}

// What a word has scored; `extended` says whether some row puts a further word in front of the matched one.
#[derive(Clone, Copy)]
pub struct Score {
    pub kind: Kind,
    pub points: i32,
    pub extended: bool,
}

// A word's answer and the state that it leaves.
#[derive(Clone, Copy)]
pub struct Stepped {
    pub score: Score,
    pub next: Packed,
}

// The word or, where the root has no child for it, word 1 in its place. Arithmetic decides: a processor cannot foresee whether a word has a row.
pub fn replaced(check: &[i32], w: u32) -> u32
    requires { get_or check.now 1 free_check ≡ negsuc 0 }
    ensures { result ≡ replaced check.now w }
{
    let known = u32::from(child_slots::root_child(check, w).is_some());
    w * known + (1 - known)
}

// The kind of a word that is scored as this one.
fn kind_of(word: u32, matched: u8) -> Kind
    ensures { result ≡ kind_of word matched }
{
    if word == backoff::UNKNOWN_WORD {
        Kind::Unknown(matched)
    } else {
        Kind::Known(matched)
    }
}

// The answer to a word that is scored as this one, by its walk from a state of these words.
pub fn answered(words: u64, word: u32, walked: Walked) -> Stepped
    requires { Answerable word walked }
    ensures { result ≡ answered words word walked }
{
    Stepped {
        score: Score {
            kind: kind_of(word, walked.passed as u8 + 1),
            points: walked.points,
            extended: walked.extended,
        },
        next: Packed {
            count: walked.kept.count,
            words: words % backoff::THREE_DIGITS * backoff::RADIX + u64::from(word),
            owed: walked.kept.owed,
        },
    }
}

// The step of `<s>` from the empty state, which start takes; none where 12 refuses it.
pub fn begin(array: Array, backoffs: &mut [i32; 5]) -> Option<Stepped>
    requires { length backoffs.old ≡ 5 }
    ensures { SteppedTo (order_in array.entry.check.now) (word_step (store_in array.entry.base.now array.entry.check.now) emptyState start_word) result backoffs.new }
{
    let word = replaced(array.check, backoff::START_WORD);
    let slot = child_slots::root_child(array.check, word)?;
    let walked = word_walk::walk_alone(array, slot, backoffs)?;
    Some(answered(0, word, walked))
}

// One word w from a state, which is scored as `word`; none where 12 refuses it. The sentence that it may end is its caller's. A run's loop is to have it in line: a call
// for each word costs half as much again.
#[inline(always)]
pub fn step(array: Array, carried: Packed, backoffs: &mut [i32; 5], word: u32) -> Option<Stepped>
    requires { Carries (order_in array.check.now) carried backoffs.old }
    ensures { (w : ℕ) → word ≡ replaced array.entry.check.now w → SteppedTo (order_in array.entry.check.now) (word_step (store_in array.entry.base.now array.entry.check.now) (held_in carried backoffs.old) w) result backoffs.new }
{
    let slot = child_slots::root_child(array.check, word)?;
    let reached = word_walk::walk(array, slot, carried, backoffs)?;
    let walked = word_walk::last_node(array, carried.count, reached, backoffs)?;
    Some(answered(carried.words, word, walked))
}
