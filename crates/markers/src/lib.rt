// What a marker's CHECK and BASE say, and the two numbers that say it. The definitions that the contracts cite are in specs/.
#![tactic(auto)]

ghost use Rattle.std.specs.Prelude.{◌≡◌, true};
ghost use Rattle.backoff.specs.Model.{in_probability, in_backoff};
ghost use Rattle.markers.specs.Markers.{marker_check, marker_base, marker_of, marker_in};

// CHECK of a marker whose p is in range is negative and at least this.
const LEAST_CHECK: i32 = backoff::LEAST_PROBABILITY - 1;

// BASE of a marker whose b is in range lies between these.
const LEAST_BASE: i32 = 4 * backoff::LEAST_BACKOFF;

const LARGEST_BASE: i32 = 4 * backoff::LARGEST_BACKOFF + 3;

// What a sound marker holds: a p and a b in range, `e` where some row puts a further word in front of this one, `f` where some row is this row followed by one
// more word.
#[derive(Clone, Copy)]
pub struct Entry {
    pub p: i32,
    pub b: i32,
    pub e: bool,
    pub f: bool,
}

// CHECK of the marker of a row with this p.
pub fn marker_check(p: i32) -> i32
    requires { in_probability p ≡ true }
    ensures { result ≡ marker_check p }
{
    p - 1
}

// BASE of the marker of a row with this b, e and f.
pub fn marker_base(b: i32, e: bool, f: bool) -> i32
    requires { in_backoff b ≡ true }
    ensures { result ≡ marker_base b e f }
{
    4 * b + 2 * i32::from(e) + i32::from(f)
}

// What a marker's CHECK and BASE say, where it is sound.
pub fn marker_of(check: i32, base: i32) -> Option<Entry>
    ensures { marker_in result ≡ marker_of check base }
{
    let inside = (LEAST_CHECK..0).contains(&check) & (LEAST_BASE..=LARGEST_BASE).contains(&base);
    if !inside {
        return None;
    }
    let upper = base >> 1;
    Some(Entry {
        p: check + 1,
        b: upper >> 1,
        e: upper & 1 == 1,
        f: base & 1 == 1,
    })
}
