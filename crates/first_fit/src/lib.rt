// A node of the double array placed among the free slots, by first fit along their links. The definitions that the contracts cite are in specs/.
#![tactic(auto)]

ghost use Rattle.std.specs.Prelude.{◌≡◌, true, List, ℕ, ◌≤◌, ◌<◌, ℤ, pos, length};
ghost use Rattle.backoff.specs.Limits.{word_limit, slot_limit};
ghost use Rattle.rows.specs.Table.{rows_of, field, word_of};
ghost use Rattle.child_slots.specs.Children.{child_slot};
ghost use Rattle.placing.specs.Placing.{Room, is_open, all_open, update, own, top_with};
ghost use Rattle.free_slots.specs.Chain.{Linked, Chain};
ghost use Rattle.first_fit.specs.Steps.{ChildRows, oldest_of, Rising, FoundFit, LastWord, ChildSlots, Settles, Fitting, Given, NodePlaced};

// A node to be placed: its slot, and what its marker holds as CHECK and as BASE.
#[derive(Drop)]
pub struct Node {
    pub slot: usize,
    pub mark: i32,
    pub load: i32,
}

// Where a node is to be placed: its d, and whether its children lie behind it.
#[derive(Clone, Copy)]
struct Fit {
    d: usize,
    behind: bool,
}

// The first word of row k.
fn oldest_word(rows: &[i32], k: usize) -> usize
    requires { ChildRows rows.now × (k < rows_of rows.now) }
    ensures { (result ≡ word_of (field rows.now k 1)) × (result ≤ word_limit) }
{
    rows[8 * k + 1] as usize
}

// The word of the child that most often does not fit, the last: 0 where there is none, no `None`, since the slot for the word 0 is d itself, which is free.
fn last_word(rows: &[i32]) -> usize
    requires { ChildRows rows.now }
    ensures { LastWord rows.now result }
{
    let count = rows.len() / 8;
    if count == 0 {
        return 0;
    }
    oldest_word(rows, count - 1)
}

// Whether the slot behind d of the child for word w is at least 1 and free.
fn is_open_behind(check: &[i32], d: usize, w: usize) -> bool
    ensures { (N : ℕ) (b c : Room) (base : List ℤ) → Linked N b c base check.now → result ≡ is_open c (child_slot true d w) }
{
    w < d && free_slots::is_free(check, d - w)
}

// Whether the slots behind d of all children are, where d itself is free. The last child is tried first.
fn all_open_behind(check: &[i32], rows: &[i32], d: usize, last: usize) -> bool
    requires { ChildRows rows.now × LastWord rows.now last }
    ensures { (N : ℕ) (b c : Room) (base : List ℤ) → Linked N b c base check.now → is_open c d ≡ true → result ≡ all_open c true d (oldest_of rows.now) }
{
    if !is_open_behind(check, d, last) {
        return false;
    }
    // `all` with a closure was tried: what it tells of each call does not reach the proof, as `is_open_behind` speaks of every room that the slices may hold.
    for k in 0..rows.len() / 8 {
        if !is_open_behind(check, d, oldest_word(rows, k)) {
            return false;
        }
    }
    true
}

// The smallest d for which d and all the children's slots, behind it or else ahead, are free; slots past the end count as free. Where it is none of the
// slots, their number. On either side the last child is tried first.
fn first_fit(base: &[i32], check: &[i32], rows: &[i32]) -> Fit
    requires { ChildRows rows.now × Chain base.now check.now }
    ensures { (N : ℕ) (b c : Room) → Linked N b c base.now check.now → FoundFit N c rows.now result.d result.behind }
{
    let last = last_word(rows);
    let mut d = 0;
    'free: loop {
        d = free_slots::next(base, d);
        if d == check.len() {
            break 'free Fit { d, behind: false };
        }
        if all_open_behind(check, rows, d, last) {
            break 'free Fit { d, behind: true };
        }
        if !free_slots::is_free(check, d + last) {
            continue 'free;
        }
        for k in 0..rows.len() / 8 {
            if !free_slots::is_free(check, d + oldest_word(rows, k)) {
                continue 'free;
            }
        }
        break 'free Fit { d, behind: false };
    }
}

// One more than the highest slot used, `top` so far, once a node takes d. Ahead of d its last child lies farthest, and behind d all lie below it.
fn new_top(rows: &[i32], fit: Fit, top: usize) -> usize
    requires { ChildRows rows.now × Rising rows.now × (fit.d ≤ slot_limit) }
    ensures { result ≡ top_with top fit.behind fit.d (oldest_of rows.now) }
{
    let farthest = if fit.behind {
        fit.d
    } else {
        fit.d + last_word(rows)
    };
    top.max(farthest + 1)
}

// The node takes d: its children's slots get its own as CHECK, and d its marker.
fn settle(base: &mut [i32], check: &mut [i32], rows: &[i32], node: Node, fit: Fit)
    requires child_rows { ChildRows rows.now }
    requires by_index { (N : ℕ) × (b : Room) × (c : Room) × Settles N b c base.old check.old rows.now node.slot node.mark × Fitting N c rows.now fit.behind fit.d }
    ensures { (N : ℕ) (b c : Room) → Settles N b c base.old check.old rows.now node.slot node.mark → Fitting N c rows.now fit.behind fit.d → Linked N (update (update b fit.d node.load) node.slot (pos fit.d)) (update (own fit.behind fit.d node.slot (oldest_of rows.now) c) fit.d node.mark) base.new check.new }
{
    let Node { slot, mark, load } = node;
    let Fit { d, behind } = fit;
    for k in 0..rows.len() / 8 {
        let t = child_slots::child_slot(behind, d, oldest_word(rows, k));
        free_slots::take(base, check, t, 0, slot as i32);
    }
    free_slots::take(base, check, d, load, mark);
    free_slots::set_base(base, slot, d as i32);
}

// Each child's work item gets its slot.
fn give_slots(work: &mut [u32], rows: &[i32], fit: Fit)
    requires child_rows { ChildRows rows.now × (length work.old ≡ rows_of rows.now) × (fit.d ≤ slot_limit) }
    requires child_slots { ChildSlots fit.behind fit.d rows.now }
    ensures { Given fit.behind fit.d rows.now work.old work.new }
{
    for (k, item) in work.iter_mut().enumerate() {
        *item = child_slots::child_slot(fit.behind, fit.d, oldest_word(rows, k)) as u32;
    }
}

// Places a node, its children's rows and their work items in hand. Answers one more than the highest slot used, `top` so far; where the node has no room,
// a number above that of the slots.
pub fn place_node(
    base: &mut [i32],
    check: &mut [i32],
    rows: &[i32],
    work: &mut [u32],
    node: Node,
    top: usize,
) -> usize
    requires child_rows { ChildRows rows.now × (length work.old ≡ rows_of rows.now) }
    requires by_index { (N : ℕ) × (b : Room) × (c : Room) × Settles N b c base.old check.old rows.now node.slot node.mark }
    ensures { (N : ℕ) (b c : Room) → Settles N b c base.old check.old rows.now node.slot node.mark → NodePlaced N b c rows.now node.slot node.mark node.load top work.old result base.new check.new work.new }
{
    let fit = first_fit(base, check, rows);
    let reached = new_top(rows, fit, top);
    if check.len() < reached {
        return reached;
    }
    settle(base, check, rows, node, fit);
    give_slots(work, rows, fit);
    reached
}
