// The paper's lookup over any two lent slices: the walk from the root over the words, and its answer. The definitions that the contracts cite are in specs/.
#![tactic(auto)]

ghost use Rattle.std.specs.Prelude.{◌≡◌, ◌∷◌, reverse, ◌<◌, length};
ghost use Rattle.double_array.specs.DoubleArray.{look_from};
ghost use Rattle.lookup.specs.Lookup.{lookup_answer, lookup_of, lookup_outcome, lookup_number, lookup_place, found_of, p_of, b_of, left_of, LookupMeans};

use backoff::{Reason, Refusal};
use double_array::Array;
use markers::Entry;
// A row that was found; `left` says whether some row puts a further word in front of it.
#[derive(Clone, Copy)]
pub struct Listed {
    pub p: i32,
    pub b: i32,
    pub left: bool,
}

// The row of a node that is found to hold this.
impl From<Entry> for Listed {
    ghost from_gives = { λ entry listed. listed ≡ record { p = entry.p; b = entry.b; left = entry.e } };

    fn from(entry: Entry) -> Listed {
        Listed {
            p: entry.p,
            b: entry.b,
            left: entry.e,
        }
    }
}

// The answer of the walk from the root over the newest word and the older ones, which are fewer than n, so that every node on it but the last keeps its marker.
// The root's is sound in every array.
fn walk(array: Array, newest: u32, older: &[u32]) -> Result<Option<Listed>, Refusal>
    requires { length older.now < array.order }
    ensures { lookup_answer result ≡ lookup_of (look_from array.entry.base.now array.entry.check.now 0 0 (newest ∷ reverse older.now)) }
{
    let Some(mut s) = child_slots::root_child(array.check, newest) else {
        return Ok(None);
    };
    for word in older.iter().rev() {
        let Some(_) = array.kept_marker(s) else {
            return Err(Reason::BrokenNode.into());
        };
        let Some(t) = child_slots::find_child(array.base, array.check, s, *word) else {
            return Ok(None);
        };
        s = t;
    }
    let Some(entry) = array.read_marker(older.len() + 1, s) else {
        return Err(Reason::BrokenNode.into());
    };
    Ok(Some(entry.into()))
}

// The paper's lookup: the p, b and left extension of the row that the words are, oldest first.
pub fn look_up(base: &[i32], check: &[i32], words: &[u32]) -> Result<Option<Listed>, Refusal>
    ensures outcome { lookup_answer result ≡ lookup_outcome base.now check.now words.now }
    ensures meaning { LookupMeans base.now check.now words.now (lookup_number (lookup_answer result)) (lookup_place (lookup_answer result)) (found_of (lookup_answer result)) (p_of (lookup_answer result)) (b_of (lookup_answer result)) (left_of (lookup_answer result)) }
{
    let array = Array::open(base, check)?;
    let Some((newest, older)) = words.split_last() else {
        return Err(Reason::WordCount.into());
    };
    if (backoff::ORDER_LIMIT as usize) < words.len() {
        return Err(Reason::WordCount.into());
    }
    if array.order < words.len() {
        return Ok(None);
    }
    walk(array, *newest, older)
}
