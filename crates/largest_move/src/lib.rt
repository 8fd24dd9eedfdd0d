// The largest move: the largest distance between the totals of two small sentences that differ at one place.
#![tactic(auto)]

ghost use Rattle.std.specs.Prelude.{◌≡◌};
ghost use Rattle.double_array.specs.DoubleArray.{opened};
ghost use Rattle.largest_move.specs.Move.{refused_move, move_outcome};
ghost use Rattle.largest_move.specs.Meaning.{MoveMeans};

// What the call returns: the largest distance, and the numbers of the two sentences from 1; 0 and no pair where no two sentences differ at one place.
#[repr(C)]
#[derive(Drop)]
pub struct Move {
    pub number: u32,
    pub place: u32,
    pub distance: i64,
    pub first: u32,
    pub second: u32,
}

// A call that names no pair.
fn unnamed(number: u32) -> Move
    ensures { result ≡ refused_move number }
{
    Move {
        number,
        place: 0,
        distance: 0,
        first: 0,
        second: 0,
    }
}

// The largest move over the sentences of k usable words, which are listed as they are for themselves: 11, 22, 15, 12.
pub fn find_largest_move(
    base: &[i32],
    check: &[i32],
    k: u32,
    words: &mut [u32],
    totals: &mut [i64],
) -> Move
    ensures outcome { record { move = result; words = words.new; totals = totals.new } ≡ move_outcome (opened base.now check.now) k words.old totals.old }
    ensures meaning { MoveMeans base.now check.now k words.old totals.old (record { move = result; words = words.new; totals = totals.new }) }
{
    let counted = match sentences::list_counted(base, check, k, words, totals) {
        Ok(counted) => counted,
        Err(reason) => return unnamed(u32::from(reason)),
    };
    if counted.usable < 2 {
        return unnamed(0);
    }
    let listed = &totals[..counted.sentences as usize];
    match largest_pair::largest_pair(listed, counted.usable, k) {
        Some(pair) => Move {
            number: 0,
            place: 0,
            distance: pair.distance,
            first: pair.first as u32,
            second: pair.second as u32,
        },
        None => unnamed(0),
    }
}
