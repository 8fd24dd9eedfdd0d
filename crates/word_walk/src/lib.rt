// The walk of a word through a state's words over any lent double array.
#![tactic(auto)]

ghost use Rattle.std.specs.Prelude.{◌≡◌, true, false, ℕ, ◌*◌, ◌%◌, ◌≤◌, ◌<◌, length, nat_abs};
ghost use Rattle.backoff.specs.Limits.{slot_limit, largest_backoff};
ghost use Rattle.backoff.specs.Words.{radix};
ghost use Rattle.backoff.specs.State.{State as Carried, empty as emptyState};
ghost use Rattle.backoff.specs.Store.{is_broken};
ghost use Rattle.markers.specs.Markers.{look_marker, marker_in};
ghost use Rattle.child_slots.specs.Children.{child_at};
ghost use Rattle.double_array.specs.DoubleArray.{kept_marker, order_in, store_in};
ghost use Rattle.carried_state.specs.Packed.{held_in, Carries};
ghost use Rattle.word_walk.specs.Rows.{InRange};
ghost use Rattle.word_walk.specs.Walk.{longest_live, ended_at, stored_at, WalkedOver, Readable, ReachedOver};

use carried_state::Packed;
use double_array::Array;
use markers::Entry;

// The number of a row's words, and the sum of the back-offs that a state of these words has.
#[derive(Clone, Copy)]
pub struct Kept {
    pub count: usize,
    pub owed: i32,
}

impl Kept {
    // The row of no words.
    const NOTHING: Kept = Kept { count: 0, owed: 0 };
}

// A whole walk through a state's words: the word's points, how many of the state's words were passed, the longest live row that a state can hold, and whether the last
// row is extended.
#[derive(Clone, Copy)]
pub struct Walked {
    pub points: i32,
    pub passed: usize,
    pub kept: Kept,
    pub extended: bool,
}

// How far a walk through a state's words has come: to its end, as the next word has no child; or to the node behind which there are no more words, which is still to
// be read, with what is owed of the state's back-offs and the sum of those read.
#[derive(Clone, Copy)]
pub enum Reached {
    End(Walked),
    Last {
        slot: usize,
        owed: i32,
        sum: i32,
        kept: Kept,
    },
}

// A state has so many words at most: the compiler, which is told so, unrolls the walk.
const STATE_WORDS: usize = 4;

// The longest live row, once the row of `count` words has been read too. One of n words has neither b nor f.
fn longest_live(kept: Kept, count: usize, owed: i32, b: i32, f: bool) -> Kept
    ensures { result ≡ longest_live kept (record { count = count; owed = owed }) b f }
{
    if (b != 0) | f {
        Kept { count, owed }
    } else {
        kept
    }
}

// The child for the next older word of a state. A sound marker's slot has no parent, so that the word needs no test for 0.
fn next_node(base: &[i32], check: &[i32], s: usize, older: u64) -> Option<usize>
    requires s_in_bounds { s < length base.now }
    requires base_len_bound { length base.now ≤ slot_limit }
    requires s_value { is_broken (look_marker (kept_marker base.now check.now s)) ≡ false }
    ensures { result ≡ child_at base.now check.now s (older % radix) }
{
    let d = base[s] as usize;
    child_slots::beside_marker(check, s, d, (older % backoff::RADIX) as usize)
}

// The end of a walk at a node with this marker, once `passed` of the state's words are passed: `owed` is the sum of the state's back-offs that are left, `sum` that
// of the back-offs of the nodes before this one.
fn end_walk(
    marker: Option<Entry>,
    passed: usize,
    owed: i32,
    sum: i32,
    kept: Kept,
    backoffs: &mut [i32; 5],
) -> Option<Walked>
    requires passed_bound { (passed ≤ 4) × (length backoffs.old ≡ 5) }
    requires owed_bound { (nat_abs owed ≤ 4 * largest_backoff) × (nat_abs sum ≤ 4 * largest_backoff) }
    requires in_range { InRange (look_marker (marker_in marker)) }
    ensures walked { result ≡ ended_at (marker_in marker) passed owed sum kept }
    ensures backoffs { backoffs.new ≡ stored_at (marker_in marker) passed backoffs.old }
{
    let Some(Entry { p, b, e, f }) = marker else {
        return None;
    };
    backoffs[passed] = b;
    Some(Walked {
        points: p + owed,
        passed,
        kept: longest_live(kept, passed + 1, sum + b, b, f),
        extended: e,
    })
}

// The walk from the node in this slot, that of a word v, through the state's words, so far that its last node may be one of n words, or to a node without a sound
// marker. Each node's back-off takes the place of one of the state's.
pub fn walk(array: Array, slot: usize, carried: Packed, backoffs: &mut [i32; 5]) -> Option<Reached>
    requires slot_in_bounds { slot < length array.base.now }
    requires carries { Carries (order_in array.check.now) carried backoffs.old }
    ensures last { (length backoffs.new ≡ 5) × Readable array.entry.base.now result }
    ensures reached { (v : ℕ) → child_at array.entry.base.now array.entry.check.now 0 v ≡ Some slot → ReachedOver array.entry.base.now array.entry.check.now (held_in carried backoffs.old) v carried.count result backoffs.new }
{
    let Array { base, check, .. } = array;
    let count = carried.count;
    let mut older = carried.words;
    let mut owed = carried.owed;
    let mut s = slot;
    let mut passed = 0;
    let mut sum = 0;
    let mut kept = Kept::NOTHING;
    // Both bounds stand in one test: a `for` up to STATE_WORDS that breaks at `count` is no plainer.
    while (passed < count) & (passed < STATE_WORDS) {
        let Some(Entry { p, b, e, f }) = array.kept_marker(s) else {
            return None;
        };
        let old = backoffs[passed];
        backoffs[passed] = b;
        sum += b;
        kept = longest_live(kept, passed + 1, sum, b, f);
        let Some(t) = next_node(base, check, s, older) else {
            return Some(Reached::End(Walked {
                points: p + owed,
                passed,
                kept,
                extended: e,
            }));
        };
        owed -= old;
        older /= backoff::RADIX;
        s = t;
        passed += 1;
    }
    Some(Reached::Last {
        slot: s,
        owed,
        sum,
        kept,
    })
}

// The whole walk of a word from a state of `count` words: what it has reached, or its last node read too.
pub fn last_node(
    array: Array,
    count: usize,
    reached: Reached,
    backoffs: &mut [i32; 5],
) -> Option<Walked>
    requires count_bound { (count ≤ 4) × (length backoffs.old ≡ 5) × Readable array.base.now (Some reached) }
    ensures { (s : Carried) (v : ℕ) → ReachedOver array.entry.base.now array.entry.check.now s v count (Some reached) backoffs.old → WalkedOver (store_in array.entry.base.now array.entry.check.now) s v result backoffs.new }
{
    match reached {
        Reached::End(walked) => Some(walked),
        Reached::Last {
            slot,
            owed,
            sum,
            kept,
        } => {
            let marker = array.read_marker(count + 1, slot);
            end_walk(marker, count, owed, sum, kept, backoffs)
        }
    }
}

// The walk of a word v from the empty state, which reads the node in this slot alone.
pub fn walk_alone(array: Array, slot: usize, backoffs: &mut [i32; 5]) -> Option<Walked>
    requires slot_in_bounds { slot < length array.base.now }
    requires backoffs_len { length backoffs.old ≡ 5 }
    ensures { (v : ℕ) → child_at array.entry.base.now array.entry.check.now 0 v ≡ Some slot → WalkedOver (store_in array.entry.base.now array.entry.check.now) emptyState v result backoffs.new }
{
    end_walk(array.read_marker(1, slot), 0, 0, 0, Kept::NOTHING, backoffs)
}
