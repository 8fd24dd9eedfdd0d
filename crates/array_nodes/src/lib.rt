// The nodes of a lent double array. Every slot climbs to the root by CHECK, so that nothing but the slots is gone through. The definitions that the contracts cite
// are in specs/.
#![tactic(auto)]

ghost use Rattle.std.specs.Prelude.{◌≡◌, ◌<◌, ◌≤◌, length};
ghost use Rattle.array_nodes.specs.Gathering.{FoundAbove, Decides, Gathered};

use backoff::Reason;
use double_array::Array;

// The slot of the node whose child lies in slot t. A slot behind its d is no child where the slot ahead is one for the same word.
fn find_above(array: Array, t: usize) -> Option<usize>
    requires { t < length array.check.now }
    ensures { FoundAbove array.entry.base.now array.entry.check.now t result }
{
    let s = array.check[t];
    if s < 0 {
        return None;
    }
    let slot = s as usize;
    let d = *array.base.get(slot)?;
    if d < 1 {
        return None;
    }
    let word = child_slots::word_at(d as usize, t);
    let found = child_slots::find_child(array.base, array.check, slot, word as u32)?;
    (found == t).then_some(slot)
}

// Whether 1 to n words lead to slot t.
fn is_node(array: Array, t: usize) -> bool
    requires { (1 ≤ t) × (t < length array.check.now) }
    ensures { Decides array.entry.base.now array.entry.check.now t result }
{
    let mut s = t;
    for _ in 0..array.order {
        let Some(above) = find_above(array, s) else {
            return false;
        };
        if above == 0 {
            return true;
        }
        s = above;
    }
    false
}

// The slots of all nodes, by ascending slot; 12 where there are not as many as items.
pub fn gather(array: Array, work: &mut [u32]) -> Result<(), Reason>
    ensures { Gathered array.entry.base.now array.entry.check.now work.new result }
{
    let mut k = 0;
    for t in 1..array.check.len() {
        if is_node(array, t) {
            if k == work.len() {
                return Err(Reason::BrokenNode);
            }
            work[k] = t as u32;
            k += 1;
        }
    }
    if k < work.len() {
        return Err(Reason::BrokenNode);
    }
    Ok(())
}
