// Sentences cut from one slice of words by their ends, each scored on its own stretch, and the matched lengths of their 3s counted.
#![tactic(auto)]

ghost use Rattle.std.specs.Prelude.{◌≡◌, ◌%◌, ◌≤◌, ◌<◌, length, get_or};
ghost use Rattle.backoff.specs.Limits.{run_limit};
ghost use Rattle.double_array.specs.DoubleArray.{opened};
ghost use Rattle.sentence_ends.specs.Ends.{last_end, bad_end};
ghost use Rattle.stretches.specs.Inner.{counted, ScoredAs};

use double_array::Array;

// How many length bytes have each matched length, and how many say that their word is unknown.
#[derive(Clone, Copy)]
pub struct Counts {
    pub matched: [u32; 8],
    pub unknown: u32,
}

impl Counts {
    // One more byte, counted by its matched length, and among the unknown words if it says so.
    pub fn count_byte(&mut self, byte: u8)
        requires { (get_or self.old.matched (byte % 8) 0 < 4294967295) × (self.old.unknown < 4294967295) }
        ensures { self.new ≡ counted byte self.old }
    {
        self.matched[(byte % 8) as usize] += 1;
        self.unknown += u32::from(byte / 8 % 2);
    }
}

// Sentences that are all scored: their total, and their closing 3s counted by matched length alone.
#[derive(Clone, Copy)]
pub struct Scored {
    pub total: i64,
    pub counts: Counts,
}

// Each sentence in turn, from start's state, on its own stretch of the words, of the points and of the lengths; or which of them is refused, counted from 0.
pub fn score_sentences(
    array: Array,
    words: &[u32],
    ends: &[u32],
    points: &mut [i32],
    lengths: &mut [u8],
) -> Result<Scored, usize>
    requires ends_value { bad_end (length words.now) 1 0 ends.now ≡ 0 }
    requires words_len_bound { length words.now ≤ run_limit }
    requires ends_len_bound { (length ends.now ≤ run_limit) × ((last_end 0 ends.now ≤ length points.old) × (last_end 0 ends.now ≤ length lengths.old)) }
    ensures { ScoredAs (opened array.entry.base.now array.entry.check.now) ends.now (record { words = words.entry.now; points = points.old; lengths = lengths.old }) result points.new lengths.new }
{
    let started = score::start(array.base, array.check);
    let mut total: i64 = 0;
    let mut counts = Counts {
        matched: [0; 8],
        unknown: 0,
    };
    let mut from = 0;
    for (i, end) in ends.iter().enumerate() {
        let to = *end as usize;
        let scored = closed_sentence::score_sentence(
            array,
            started,
            &words[from..to],
            &mut points[from..to],
            &mut lengths[from..to],
        );
        let Some(sentence) = scored else {
            return Err(i);
        };
        counts.count_byte(sentence.closing % 8);
        total += sentence.total;
        from = to;
    }
    Ok(Scored { total, counts })
}
