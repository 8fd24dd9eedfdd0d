// The children of a node of a double array, on either side of its BASE. The definitions that the contracts cite are in specs/.
#![tactic(auto)]

ghost use Rattle.std.specs.Prelude.{◌≡◌, true, cond, ℕ, ◌≤◌, ◌<◌, ltb, length, get_or, negsuc};
ghost use Rattle.backoff.specs.Limits.{word_limit, slot_limit};
ghost use Rattle.child_slots.specs.Children.{free_check, child_slot, word_at, owned_by, on_either_side, child_at, root_child};

// Slot t, which the array has, as a child of the node in slot s: CHECK there names its parent.
fn owned_inside(check: &[i32], s: usize, t: usize) -> Option<usize>
    requires { (s < slot_limit) × (t < length check.now) }
    ensures { result ≡ owned_by check.now s t }
{
    (check[t] == s as i32).then_some(t)
}

// The same of any slot.
fn owned_by(check: &[i32], s: usize, t: usize) -> Option<usize>
    requires { s < slot_limit }
    ensures { result ≡ owned_by check.now s t }
{
    if check.len() <= t {
        return None;
    }
    owned_inside(check, s, t)
}

// The slot of the child for word w, behind d or ahead of it.
pub fn child_slot(behind: bool, d: usize, w: usize) -> usize
    requires { (d ≤ slot_limit) × (w ≤ word_limit) × (behind ≡ true → w ≤ d) }
    ensures { result ≡ child_slot behind d w }
{
    if behind { d - w } else { d + w }
}

// The word of the child in slot t, on whichever side of d that lies.
pub fn word_at(d: usize, t: usize) -> usize
    ensures { result ≡ word_at d t }
{
    if t < d { d - t } else { t - d }
}

// The child for word w of the node in slot s whose BASE is d: the slot ahead decides with one compare, and the slot behind is looked at only where it does not.
fn on_either_side(check: &[i32], s: usize, d: usize, w: usize) -> Option<usize>
    requires { (s < slot_limit) × (d < 2147483648) × (w ≤ word_limit) }
    ensures { result ≡ on_either_side check.now s d w }
{
    if let Some(t) = owned_by(check, s, d + w) {
        return Some(t);
    }
    if d <= w {
        return None;
    }
    owned_by(check, s, d - w)
}

// The slot behind d for word w, or d where that is not at least 1. A carry decides: of a test the compiler would make a branch.
fn slot_behind(d: usize, w: usize) -> usize
    requires { (d < 2147483648) × (w ≤ word_limit) }
    ensures { result ≡ cond (ltb w d) (child_slot true d w) d }
{
    let carry = (d + u32::MAX as usize - w) >> 32;
    d - w * carry
}

// The child for word w of the node in slot s whose marker lies in slot d: the slot ahead decides with one compare. Where it does not, the slot behind is read without a
// branch on whether there is one, which a processor cannot foresee: where there is none, the marker's is read, which has no parent.
pub fn beside_marker(check: &[i32], s: usize, d: usize, w: usize) -> Option<usize>
    requires s_lt_slot_limit { (s < slot_limit) × (d < length check.now) × (d < 2147483648) × (w ≤ word_limit) }
    requires d_value { owned_by check.now s d ≡ None }
    ensures { result ≡ on_either_side check.now s d w }
{
    if let Some(t) = owned_by(check, s, d + w) {
        return Some(t);
    }
    let slot = slot_behind(d, w);
    owned_inside(check, s, slot)
}

// The child for word w of the node in slot s.
pub fn find_child(base: &[i32], check: &[i32], s: usize, w: u32) -> Option<usize>
    requires s_in_bounds { s < length base.now }
    requires base_len_bound { length base.now ≤ slot_limit }
    ensures child { result ≡ child_at base.now check.now s w }
    ensures inside { (t : ℕ) → result ≡ Some t → t < length check.now }
{
    let d = base[s];
    if !((1..=backoff::WORD_LIMIT as u32).contains(&w) & (1 <= d)) {
        return None;
    }
    on_either_side(check, s, d as usize, w as usize)
}

// The root's child for word w, without a look at BASE[0], which is 1 in every array, so that all its children lie ahead. There is none for 0, since slot 1 is the root's own marker.
pub fn root_child(check: &[i32], w: u32) -> Option<usize>
    requires { get_or check.now 1 free_check ≡ negsuc 0 }
    ensures { result ≡ root_child check.now w }
{
    if w > backoff::WORD_LIMIT as u32 {
        return None;
    }
    owned_by(check, 0, 1 + w as usize)
}
