// The double array of document 01, lent as two slices of which nothing is known: its head, and the markers of its nodes. The definitions that the contracts cite
// are in specs/.
#![tactic(auto)]

ghost use Rattle.std.specs.Prelude.{◌≡◌, true, ◌≤◌, ◌<◌, length};
ghost use Rattle.backoff.specs.Limits.{order_limit};
ghost use Rattle.markers.specs.Markers.{marker_in};
ghost use Rattle.double_array.specs.DoubleArray.{head_check, kept_marker, marker_at, sizes_ok, order_ok, head_ok, is_array, order_in};

use backoff::Reason;
use markers::Entry;

// CHECK of a free slot; its BASE is 0.
pub const FREE: i32 = -2147483648;

// CHECK[0] is the order and this.
const HEAD_OFFSET: i32 = 24;

const LEAST_HEAD: i32 = 1 + HEAD_OFFSET;

const LARGEST_HEAD: i32 = backoff::ORDER_LIMIT + HEAD_OFFSET;

// CHECK[0] of an array of this order.
pub fn head_check(order: usize) -> i32
    requires { order ≤ order_limit }
    ensures { result ≡ head_check order }
{
    order as i32 + HEAD_OFFSET
}

// What the marker of the node in slot s says, which keeps one: nothing where it is not sound.
pub fn kept_marker(base: &[i32], check: &[i32], s: usize) -> Option<Entry>
    requires base_len { length base.now ≡ length check.now }
    requires s_in_bounds { s < length base.now }
    ensures { marker_in result ≡ kept_marker base.now check.now s }
{
    let d = base[s];
    if d < 1 {
        return None;
    }
    let t = d as usize;
    let mark = *check.get(t)?;
    markers::marker_of(mark, base[t])
}

// What the node in slot s says, to which `depth` words lead. One of n words has no marker: its own BASE holds p − 1.
pub fn read_marker(
    base: &[i32],
    check: &[i32],
    order: usize,
    depth: usize,
    s: usize,
) -> Option<Entry>
    requires base_len { length base.now ≡ length check.now }
    requires s_in_bounds { s < length base.now }
    requires order_value { order ≡ order_in check.now }
    ensures { marker_in result ≡ marker_at base.now check.now depth s }
{
    if depth == order {
        return markers::marker_of(base[s], 0);
    }
    kept_marker(base, check, s)
}

// Whether BASE and CHECK have lengths that an array can have.
pub fn sizes_ok(base: &[i32], check: &[i32]) -> bool
    ensures { result ≡ sizes_ok base.now check.now }
{
    let n = base.len();
    (n == check.len()) & (2..=backoff::SLOT_LIMIT).contains(&n)
}

// Whether slots 0 and 1 are as a build writes them.
fn head_ok(base: &[i32], check: &[i32]) -> bool
    requires in_bounds { 2 ≤ length base.now }
    requires in_bounds_2 { 2 ≤ length check.now }
    ensures { result ≡ head_ok base.now check.now }
{
    (base[0] == 1)
        & (LEAST_HEAD..=LARGEST_HEAD).contains(&check[0])
        & (check[1] == -1)
        & (3..=backoff::ROW_LIMIT as i32).contains(&base[1])
}

// Whether the slices have the lengths and the head of an array, so that 11 does not refuse them.
pub fn is_array(base: &[i32], check: &[i32]) -> bool
    ensures { result ≡ is_array base.now check.now }
{
    sizes_ok(base, check) && head_ok(base, check)
}

// The order of an array.
pub fn order_of(check: &[i32]) -> usize
    requires { order_ok check.now ≡ true }
    ensures { result ≡ order_in check.now }
{
    (check[0] - HEAD_OFFSET) as usize
}

// A lent double array that 11 does not refuse, with its order.
#[derive(Clone, Copy)]
pub struct Array<'a> {
    pub base: &'a [i32],
    pub check: &'a [i32],
    pub order: usize,
    pub ghost is_array: { is_array base.now check.now ≡ true },
    pub ghost order_is: { order ≡ order_in check.now },
}

impl<'a> Array<'a> {
    ghost use Rattle.double_array.specs.Opened.{Opens};

    // 11 for slices that are no array.
    pub fn open(base: &'a [i32], check: &'a [i32]) -> Result<Array<'a>, Reason>
        ensures { Opens base.now check.now result }
    {
        if !is_array(base, check) {
            return Err(Reason::ArrayHead);
        }
        Ok(Array {
            base,
            check,
            order: order_of(check),
        })
    }

    // What the marker of the node in slot s says, which keeps one: nothing where it is not sound.
    pub fn kept_marker(self, s: usize) -> Option<Entry>
        requires { s < length self.base.now }
        ensures { marker_in result ≡ kept_marker self.entry.base.now self.entry.check.now s }
    {
        kept_marker(self.base, self.check, s)
    }

    // What the node in slot s says, to which `depth` words lead.
    pub fn read_marker(self, depth: usize, s: usize) -> Option<Entry>
        requires { s < length self.base.now }
        ensures { marker_in result ≡ marker_at self.entry.base.now self.entry.check.now depth s }
    {
        read_marker(self.base, self.check, self.order, depth, s)
    }
}
