// The carried state: as the nine numbers of the papers, with check 16, and as a run carries it.
#![tactic(auto)]

ghost use Rattle.std.specs.Prelude.{◌≡◌, true, [], ◌∷◌, ◌++◌, map, ◌≤◌, take, pos, nat_abs, ◌≤ℤ◌};
ghost use Rattle.integer.specs.Integer.{between, sum};
ghost use Rattle.backoff.specs.Limits.{word_limit};
ghost use Rattle.backoff.specs.Words.{key};
ghost use Rattle.backoff.specs.Model.{in_backoff};
ghost use Rattle.backoff.specs.NineNumbers.{all, padded, nine, nine_zeros, state_ok};
ghost use Rattle.carried_state.specs.Numbers.{numbers_of};
ghost use Rattle.carried_state.specs.Packed.{part_ok, packed_as, held_in};

// The paper's carried state as its nine signed numbers. A state of the caller's own making may hold any: check 16 decides.
#[repr(C)]
#[derive(Clone, Copy)]
pub struct State {
    pub count: i32,
    pub words: [i32; 4],
    pub backoffs: [i32; 4],
}

// A state while a run's words are scored. The words are the digits of one number, the newest the lowest; what lies past `count` is of no account.
// The first `count` items of a lent array are its back-offs, and `owed` is their sum. The array stays apart: a walk writes it in place, while the rest is passed by value.
#[derive(Clone, Copy)]
pub struct Packed {
    pub count: usize,
    pub words: u64,
    pub owed: i32,
}

impl Default for State {
    ghost is_default = { λ state. numbers_of state ≡ nine_zeros };

    // The empty state.
    fn default() -> State {
        State {
            count: 0,
            words: [0; 4],
            backoffs: [0; 4],
        }
    }
}

// Whether the first `count` of a state's words or back-offs lie in low..=high and the others are 0.
fn part_ok(items: [i32; 4], count: usize, low: i32, high: i32) -> bool
    ensures { result ≡ part_ok (between low high) count items }
{
    for (i, item) in items.iter().enumerate() {
        let ok = if i < count {
            (low..=high).contains(item)
        } else {
            *item == 0
        };
        if !ok {
            return false;
        }
    }
    true
}

// The sum of a state's back-offs.
fn sum_of(backoffs: [i32; 4]) -> i32
    requires { all (map in_backoff backoffs) ≡ true }
    ensures { result ≡ sum backoffs }
{
    let [a, b, c, d] = backoffs;
    a + b + c + d
}

// The words of a state as the digits of one number.
fn key_of(words: [i32; 4]) -> u64
    requires { all (map (between (pos 0) (pos word_limit)) words) ≡ true }
    ensures { result ≡ key (map nat_abs words) }
{
    let [a, b, c, d] = words;
    backoff::key_of_four(a as u64, b as u64, c as u64, d as u64)
}

// The first `kept` of five items as a part of a state.
fn cut(items: [i32; 5], kept: usize) -> [i32; 4]
    ensures { result ≡ padded 4 (take kept items) }
{
    let [a, b, c, d, _] = items;
    let mut part = [a, b, c, d];
    // Over all four places, so that no fill of unknown length is called.
    for i in 0..4 {
        if kept <= i {
            part[i] = 0;
        }
    }
    part
}

impl State {
    // Check 16.
    pub fn passes(self, order: usize) -> bool
        requires { 1 ≤ order }
        ensures { result ≡ state_ok order (numbers_of self) }
    {
        let Ok(count) = usize::try_from(self.count) else {
            return false;
        };
        let words_ok = part_ok(self.words, count, 1, backoff::WORD_LIMIT);
        let backoffs_ok = part_ok(
            self.backoffs,
            count,
            backoff::LEAST_BACKOFF,
            backoff::LARGEST_BACKOFF,
        );
        (count < order) & words_ok & backoffs_ok
    }

    // The back-offs in an array to be lent, with room for one more.
    pub fn lent(self) -> [i32; 5]
        ensures { result ≡ self.backoffs ++ (pos 0 ∷ []) }
    {
        let [a, b, c, d] = self.backoffs;
        [a, b, c, d, 0]
    }

    // The state as it is carried; its back-offs are lent apart.
    pub fn pack(self) -> Packed
        requires { (pos 0 ≤ℤ self.count) × ((all (map (between (pos 0) (pos word_limit)) self.words) ≡ true) × (all (map in_backoff self.backoffs) ≡ true)) }
        ensures { result ≡ packed_as self }
    {
        Packed {
            count: self.count as usize,
            words: key_of(self.words),
            owed: sum_of(self.backoffs),
        }
    }
}

impl Packed {
    // The state as its nine numbers, with the back-offs that were lent.
    pub fn unpack(self, backoffs: [i32; 5]) -> State
        requires { self.count ≤ 4 }
        ensures { numbers_of result ≡ nine (held_in self backoffs) }
    {
        let first = self.words;
        let second = first / backoff::RADIX;
        let third = second / backoff::RADIX;
        let fourth = third / backoff::RADIX;
        let words = [
            (first % backoff::RADIX) as i32,
            (second % backoff::RADIX) as i32,
            (third % backoff::RADIX) as i32,
            (fourth % backoff::RADIX) as i32,
            0,
        ];
        State {
            count: self.count as i32,
            words: cut(words, self.count),
            backoffs: cut(backoffs, self.count),
        }
    }
}
