// The pair of sentences that differ at one place whose totals lie furthest apart. Sentences with the same words at all places but one are a group; groups with
// the same words before that place are a block, and its sentences lie together.
#![tactic(auto)]

ghost use Rattle.std.specs.Prelude.{◌≡◌, ◌+◌, ◌*◌, length, Option.Some};
ghost use Rattle.group_pairs.specs.Groups.{apart_in, Small};
ghost use Rattle.largest_pair.specs.Pairs.{first_largest};
ghost use Rattle.largest_pair.specs.Inner.{better, KeptSoFar, IsListing, IsPlace, IsBlock, IsGroupOf, one_digit};

use group_pairs::{Group, Pair};

// Of two pairs the one whose totals lie further apart, else the earlier one.
#[tactic(auto, unfolding(crate::specs::Inner::better))]
fn keep(kept: Pair, next: Pair) -> Pair
    ensures { result ≡ better kept next }
{
    let order = kept
        .distance
        .cmp(&next.distance)
        .then(next.first.cmp(&kept.first))
        .then(next.second.cmp(&kept.second));
    if order.is_lt() { next } else { kept }
}

// One more group. Most are nearer than the pair that is kept, or as far and later, and change nothing.
fn with_group(
    totals: &[i64],
    kept: Option<Pair>,
    first: usize,
    weight: usize,
    count: usize,
) -> Option<Pair>
    requires small { Small totals.now }
    requires group_of { IsGroupOf totals.now count weight first }
    requires kept_so_far { KeptSoFar totals.now count weight first kept }
    ensures { KeptSoFar totals.now count weight (first + 1) result }
{
    let group = Group {
        totals,
        first,
        weight,
        count,
    };
    let range = group.range();
    let Some(pair) = kept else {
        return Some(group.pair(range));
    };
    if range.distance < pair.distance {
        return kept;
    }
    if range.distance == pair.distance && pair.first <= first {
        return kept;
    }
    Some(keep(pair, group.pair(range)))
}

// The groups of a block.
fn with_block(
    totals: &[i64],
    best: Option<Pair>,
    block: usize,
    weight: usize,
    count: usize,
) -> Option<Pair>
    requires small { Small totals.now }
    requires block { IsBlock totals.now count weight block }
    requires kept_so_far { KeptSoFar totals.now count weight block best }
    ensures { KeptSoFar totals.now count weight (block + weight * count) result }
{
    let mut kept = best;
    for first in block..block + weight {
        kept = with_group(totals, kept, first, weight, count);
    }
    kept
}

// The blocks of a place.
fn at_place(totals: &[i64], best: Option<Pair>, weight: usize, count: usize) -> Option<Pair>
    requires small { Small totals.now }
    requires place { IsPlace totals.now count weight }
    requires kept_so_far { KeptSoFar totals.now count weight 0 best }
    ensures { KeptSoFar totals.now count (weight * count) 0 result }
{
    let mut kept = best;
    let mut block = 0;
    // A `while`, since the blocks lie this far apart: no `for` counts them.
    while block < totals.len() {
        kept = with_block(totals, kept, block, weight, count);
        block += weight * count;
    }
    kept
}

// The pair of all sentences of k words, place by place from the last.
pub fn largest_pair(totals: &[i64], count: usize, k: u32) -> Option<Pair>
    requires small { Small totals.now }
    requires listing { IsListing totals.now count k }
    ensures { result ≡ Some (first_largest (one_digit count k) (apart_in totals.now) (length totals.now)) }
{
    let mut kept = None;
    for place in 0..k {
        kept = at_place(totals, kept, count.pow(place), count);
    }
    kept
}
