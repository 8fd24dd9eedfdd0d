// Fragments of a sentence: what one is, how it crosses to C, and check 21.
#![tactic(auto)]

ghost use Rattle.std.specs.Prelude.{◌≡◌, ◌++◌, ◌*◌, ◌-◌, ◌≤◌, min, length, take, get_or, nat_abs, leb};
ghost use Rattle.backoff.specs.Limits.{order_limit, largest_backoff, run_limit};
ghost use Rattle.carried_state.specs.Numbers.{numbers_of};
ghost use Rattle.fragments.specs.Fragment.{fragment_ok, no_words};
ghost use Rattle.fragments.specs.Outcome.{four_places, fragment_in, to_numbers, joined_of, empty_fragment, scored_fragment};

use backoff::Refusal;
use carried_state::State;

// A fragment as it crosses to C. The first `kept` places of `first` hold its first words, as given; the others are written 0 and not read. A fragment of
// the caller's own making may hold any numbers: check 21 decides.
#[repr(C)]
#[derive(Clone, Copy)]
pub struct Fragment {
    pub total: i64,
    pub count: u32,
    pub kept: u32,
    pub first: [u32; 4],
    pub state: State,
}

impl Default for Fragment {
    ghost is_default = { λ fragment. fragment ≡ empty_fragment };

    // The empty fragment.
    fn default() -> Fragment {
        Fragment {
            total: 0,
            count: 0,
            kept: 0,
            first: [0; 4],
            state: State::default(),
        }
    }
}

// The refusal's number and place, 0 and 0 where nothing is refused, and the fragment, the empty one where something is.
#[repr(C)]
#[derive(Clone, Copy)]
pub struct Joined {
    pub number: u32,
    pub place: u32,
    pub fragment: Fragment,
}

impl From<Result<Fragment, Refusal>> for Joined {
    ghost from_gives = { λ answer joined. joined ≡ joined_of answer };

    fn from(answer: Result<Fragment, Refusal>) -> Joined {
        match answer {
            Ok(fragment) => Joined {
                number: 0,
                place: 0,
                fragment,
            },
            Err(Refusal { reason, place }) => Joined {
                number: u32::from(reason),
                place,
                fragment: Fragment::default(),
            },
        }
    }
}

// How many words a fragment of so many words keeps.
pub fn kept_of(order: usize, count: usize) -> usize
    requires { 1 ≤ order }
    ensures { result ≡ min (order - 1) count }
{
    count.min(order - 1)
}

// Whether a total is no further from 0 than `count` times the order times the largest back-off.
fn total_ok(total: i64, count: u32, order: usize) -> bool
    requires { order ≤ order_limit }
    ensures { result ≡ leb (nat_abs total) (count * (order * largest_backoff)) }
{
    let most = i64::from(count) * (order as i64 * i64::from(backoff::LARGEST_BACKOFF));
    (-most..=most).contains(&total)
}

// Check 21.
pub fn fragment_ok(fragment: Fragment, order: usize) -> bool
    requires { (1 ≤ order) × (order ≤ order_limit) }
    ensures { result ≡ fragment_ok order (fragment_in fragment) }
{
    let kept_ok = fragment.kept as usize == kept_of(order, fragment.count as usize);
    let state_ok = fragment.state.passes(order);
    kept_ok & state_ok & total_ok(fragment.total, fragment.count, order)
}

// The i-th of the first words: the first `kept` of a fragment, and then its neighbour's, `most` in all; 0 past the last, as C has it there.
fn word_at(first: [u32; 4], kept: usize, words: &[u32], most: usize, i: usize) -> u32
    requires { (kept ≤ most) × (most ≤ 4) }
    ensures { result ≡ get_or (take most (take kept first ++ words.now)) i 0 }
{
    if i < kept {
        return first[i];
    }
    if i < most {
        return words.get(i - kept).copied().unwrap_or(0);
    }
    0
}

// The first words of two neighbours in their places.
pub fn first_words(first: [u32; 4], kept: usize, words: &[u32], most: usize) -> [u32; 4]
    requires { (kept ≤ most) × (most ≤ 4) }
    ensures { result ≡ four_places (take most (take kept first ++ words.now)) }
{
    [
        word_at(first, kept, words, most, 0),
        word_at(first, kept, words, most, 1),
        word_at(first, kept, words, most, 2),
        word_at(first, kept, words, most, 3),
    ]
}

// The fragment of scored words.
pub fn kept_fragment(order: usize, words: &[u32], total: i64, end: State) -> Fragment
    requires le_order { (1 ≤ order) × (order ≤ order_limit) }
    requires words_len_bound { length words.now ≤ run_limit }
    ensures { result ≡ to_numbers (scored_fragment order words.now total (numbers_of end)) }
{
    let count = words.len();
    Fragment {
        total,
        count: count as u32,
        kept: kept_of(order, count) as u32,
        first: first_words([0; 4], 0, words, order - 1),
        state: end,
    }
}
