// Where the sentences of a sheet end in its slice of words, and what refuses it before any word is scored.
#![tactic(auto)]

ghost use Rattle.std.specs.Prelude.{◌≡◌};
ghost use Rattle.double_array.specs.DoubleArray.{opened};
ghost use Rattle.sentence_ends.specs.Ends.{last_end, bad_end, bad_number, sheet_size, met_by, early_refusal};

use backoff::{Reason, Refusal};
use double_array::Array;

// The first sentence whose end, the count of words up to there, is below the one before or past the words.
fn bad_end(ends: &[u32], words: usize) -> Option<usize>
    ensures { bad_number result ≡ bad_end words 1 0 ends.now }
{
    let mut before = 0;
    for (i, end) in ends.iter().enumerate() {
        let end = *end as usize;
        if end < before || words < end {
            return Some(i);
        }
        before = end;
    }
    None
}

// Where the last sentence ends, 0 if there is none: so many words are before that.
pub fn last_end(ends: &[u32]) -> usize
    ensures { result ≡ last_end 0 ends.now }
{
    match ends.last() {
        Some(end) => *end as usize,
        None => 0,
    }
}

// 14 for too many words or ends, 15 for a slice that is shorter than the last end.
#[tactic(auto, unfolding(crate::specs::Ends::sheet_size))]
fn check_sizes(
    words: usize,
    ends: usize,
    last: usize,
    points: usize,
    lengths: usize,
) -> Result<(), Refusal>
    ensures { met_by result ≡ record { number = sheet_size words ends last points lengths; place = 0 } }
{
    if backoff::RUN_LIMIT < words || backoff::RUN_LIMIT < ends {
        return Err(Reason::WordCount.into());
    }
    if points < last || lengths < last {
        return Err(Reason::ShortSlice.into());
    }
    Ok(())
}

// 20, 14, 15: a sheet over an array that 11 does not refuse.
pub fn check_sheet(
    array: Array,
    words: usize,
    ends: &[u32],
    points: usize,
    lengths: usize,
) -> Result<(), Refusal<u64>>
    ensures { met_by result ≡ early_refusal (opened array.entry.base.now array.entry.check.now) words ends.now points lengths }
{
    if let Some(i) = bad_end(ends, words) {
        return Err(Refusal {
            reason: Reason::SentenceEnd,
            place: i as u64 + 1,
        });
    }
    check_sizes(words, ends.len(), last_end(ends), points, lengths)?;
    Ok(())
}
