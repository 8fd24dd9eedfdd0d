// What a run answers, and what it leaves in its slices.
#![tactic(auto)]

ghost use Rattle.std.specs.Prelude.{◌≡◌, ◌+◌, ◌≤◌, ◌<◌, length, set, replicate, pos};
ghost use Rattle.backoff.specs.Limits.{run_limit};
ghost use Rattle.backoff.specs.declared.Reason.TheVariants.{BrokenNode};
ghost use Rattle.backoff.specs.Run.{written};
ghost use Rattle.backoff.specs.NineNumbers.{nine};
ghost use Rattle.carried_state.specs.Numbers.{numbers_of};
ghost use Rattle.carried_state.specs.Packed.{held_in};
ghost use Rattle.word_step.specs.Answers.{kind_byte, byte_of};

use backoff::{Reason, Refusal};
use carried_state::{Packed, State};
use word_step::{Kind, Score};

// What an accepted run returns: the sum of its words' points, and the state that they leave.
#[derive(Clone, Copy)]
pub struct Ran {
    pub total: i64,
    pub end: State,
}

// The paper's length byte without its 16.
fn kind_byte(kind: Kind) -> u8
    requires { kind_byte kind < 256 }
    ensures { result ≡ kind_byte kind }
{
    match kind {
        Kind::Known(matched) => matched,
        Kind::Unknown(matched) => matched + 8,
    }
}

// The paper's length byte.
fn length_byte(kind: Kind, extended: bool) -> u8
    requires { byte_of kind extended < 256 }
    ensures { result ≡ byte_of kind extended }
{
    let byte = kind_byte(kind);
    if extended { byte + 16 } else { byte }
}

// A scored word's points, at its place in the run's slice.
fn write_points(points: &mut [i32], i: usize, scored: i32)
    requires { i < length points.old }
    ensures { points.new ≡ set points.old i scored }
{
    points[i] = scored;
}

// A word's score, at its place in the run's slices.
pub fn write_word(points: &mut [i32], lengths: &mut [u8], i: usize, score: Score)
    requires i_in_bounds { (i < length points.old) × (i < length lengths.old) }
    requires extended_bound { byte_of score.kind score.extended < 256 }
    ensures points { points.new ≡ set points.old i score.points }
    ensures lengths { lengths.new ≡ set lengths.old i (byte_of score.kind score.extended) }
{
    write_points(points, i, score.points);
    lengths[i] = length_byte(score.kind, score.extended);
}

// The first `count` points and lengths after refusal 12.
pub fn clear(points: &mut [i32], lengths: &mut [u8], count: usize)
    requires { (count ≤ length points.old) × (count ≤ length lengths.old) }
    ensures points { points.new ≡ written (replicate count (pos 0)) points.old }
    ensures lengths { lengths.new ≡ written (replicate count 0) lengths.old }
{
    points[..count].fill(0);
    lengths[..count].fill(0);
}

// Why a run of `count` words is refused where 12 meets word i, or start behind it.
pub fn refuse_word(points: &mut [i32], lengths: &mut [u8], count: usize, i: usize) -> Refusal
    requires count_in_bounds { (count ≤ length points.old) × (count ≤ length lengths.old) }
    requires i_lt_run_limit { i < run_limit }
    ensures answer { result ≡ record { reason = BrokenNode; place = i + 1 } }
    ensures points { points.new ≡ written (replicate count (pos 0)) points.old }
    ensures lengths { lengths.new ≡ written (replicate count 0) lengths.old }
{
    clear(points, lengths, count);
    Refusal {
        reason: Reason::BrokenNode,
        place: i as u32 + 1,
    }
}

// What a run returns whose words are all scored.
pub fn all_scored(total: i64, carried: Packed, backoffs: [i32; 5]) -> Ran
    requires { carried.count ≤ 4 }
    ensures total { result.total ≡ total }
    ensures end { numbers_of result.end ≡ nine (held_in carried backoffs) }
{
    Ran {
        total,
        end: carried.unpack(backoffs),
    }
}
