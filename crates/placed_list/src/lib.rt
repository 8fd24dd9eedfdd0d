// The array of an accepted list: the slices wiped, the nodes placed, and the links taken out. The definitions that the contracts cite are in specs/.
#![tactic(auto)]

ghost use Rattle.std.specs.Prelude.{◌≡◌, true, ℕ, ◌≤◌, pos, length};
ghost use Rattle.backoff.specs.Refusal.{Accepted, verdict_of};
ghost use Rattle.rows.specs.Table.{rows_of, order_of};
ghost use Rattle.child_slots.specs.Children.{free_check};
ghost use Rattle.double_array.specs.DoubleArray.{head_check, sizes_ok};
ghost use Rattle.placing.specs.Placing.{Room, update};
ghost use Rattle.free_slots.specs.Chain.{Linked, Unlinked, Chain};
ghost use Rattle.placed_list.specs.Build.{checked_build, IsBuilt};
ghost use Rattle.placed_list.specs.Steps.{Wiped};

use backoff::Refusal;
use row_nodes::CheckedList;

// Frees all slots and empties the work items.
fn wipe(base: &mut [i32], check: &mut [i32], work: &mut [u32])
    ensures { Wiped base.old check.old work.old base.new check.new work.new }
{
    base.fill(0);
    check.fill(double_array::FREE);
    work.fill(0);
}

// Takes the links out, where no slot from `top` on is taken. The root's d is 1, and CHECK[0] tells the order.
fn finish(list: CheckedList, base: &mut [i32], check: &mut [i32], top: usize)
    requires { Chain base.old check.old }
    ensures { (N : ℕ) (b c : Room) → Linked N b c base.old check.old → ((t : ℕ) → top ≤ t → c t ≡ free_check) → Unlinked N (update b 0 (pos 1)) (update c 0 (head_check (order_of list.entry.table.now))) base.new check.new }
{
    let head = double_array::head_check(list.order());
    free_slots::unlink_all(base, check, top, 1, head);
}

// Builds the array of an accepted list, whose work items are in hand.
pub fn place_list(
    list: CheckedList,
    base: &mut [i32],
    check: &mut [i32],
    work: &mut [u32],
) -> Result<(), Refusal>
    requires { (sizes_ok base.old check.old ≡ true) × (length work.old ≡ rows_of list.table.now) }
    ensures { IsBuilt (checked_build list.entry.table.now base.old check.old work.old Accepted) (verdict_of result) base.new check.new work.new }
{
    wipe(base, check, work);
    match list_trie::place_nodes(list, base, check, work) {
        Ok(top) => {
            finish(list, base, check, top);
            Ok(())
        }
        Err(reason) => {
            wipe(base, check, work);
            Err(reason.into())
        }
    }
}
