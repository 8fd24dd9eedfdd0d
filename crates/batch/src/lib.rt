// The hourly batch sheet: what refuses it, and what its sentences come to, counted.
#![tactic(auto)]

ghost use Rattle.std.specs.Prelude.{◌≡◌, List, [], ◌++◌, ℕ, ◌+◌, ◌≤◌, ◌<◌, length, take, get_or, replicate, pos};
ghost use Rattle.backoff.specs.Limits.{run_limit};
ghost use Rattle.backoff.specs.Refusal.{reason_number};
ghost use Rattle.backoff.specs.declared.Reason.TheVariants.{BrokenNode};
ghost use Rattle.backoff.specs.Run.{written};
ghost use Rattle.double_array.specs.DoubleArray.{opened};
ghost use Rattle.sentence_ends.specs.Ends.{last_end};
ghost use Rattle.stretches.specs.Inner.{Tallied};
ghost use Rattle.batch.specs.Sheet.{refused_sheet, sheet_outcome};
ghost use Rattle.batch.specs.Meaning.{SheetMeans};
ghost use Rattle.batch.specs.Inner.{sheet_of, counted_sheet, bytes_sheet};

use backoff::{Reason, Refusal};
use double_array::Array;
use stretches::{Counts, Scored};

// What the call returns: sentences, words, unknown words, total points, and for each matched length 1 to 5 how many scored words had it. A refused
// sheet is all zeros but for the refusal's number and its place.
#[repr(C)]
#[derive(Drop)]
pub struct Sheet {
    pub number: u32,
    pub sentences: u32,
    pub place: u64,
    pub total: i64,
    pub words: u32,
    pub unknown: u32,
    pub matched: [u32; 5],
}

// A refused sheet.
impl From<Refusal<u64>> for Sheet {
    ghost from_gives = { λ refusal sheet. sheet ≡ refused_sheet (reason_number refusal.reason) refusal.place };

    fn from(refusal: Refusal<u64>) -> Sheet {
        Sheet {
            number: u32::from(refusal.reason),
            sentences: 0,
            place: refusal.place,
            total: 0,
            words: 0,
            unknown: 0,
            matched: [0; 5],
        }
    }
}

// The words' bytes, counted.
fn count_words(lengths: &[u8], counts: &mut Counts)
    requires counters { length counts.old.matched ≡ 8 }
    requires small { (length lengths.now ≤ run_limit) × (((k : ℕ) → get_or counts.old.matched k 0 ≤ run_limit) × (counts.old.unknown ≤ run_limit)) }
    ensures { (bytes words : List ℕ) → Tallied bytes words counts.old → Tallied (bytes ++ lengths.now) (words ++ lengths.now) counts.new }
{
    for byte in lengths {
        counts.count_byte(*byte);
    }
}

// The sheet of so many sentences and words, once all of them are counted.
fn counted_sheet(sentences: usize, words: usize, total: i64, counts: Counts) -> Sheet
    requires { (sentences ≤ run_limit) × (words ≤ run_limit) }
    ensures { result ≡ counted_sheet sentences words total counts }
{
    let [_, one, two, three, four, five, ..] = counts.matched;
    Sheet {
        number: 0,
        sentences: sentences as u32,
        place: 0,
        total,
        words: words as u32,
        unknown: counts.unknown,
        matched: [one, two, three, four, five],
    }
}

// The sheet of sentences that are all scored: their closing 3s are counted, their words not yet.
fn full_sheet(ends: &[u32], lengths: &[u8], scored: Scored) -> Sheet
    requires ends_len_bound { (length ends.now ≤ run_limit) × ((last_end 0 ends.now ≤ run_limit) × (last_end 0 ends.now ≤ length lengths.now)) }
    requires by_index { ((k : ℕ) → get_or scored.counts.matched k 0 ≤ run_limit) × (scored.counts.unknown ≤ run_limit) }
    ensures { (closing : List ℕ) → Tallied closing [] scored.counts → result ≡ bytes_sheet (length ends.now) (last_end 0 ends.now) scored.total closing (take (last_end 0 ends.now) lengths.now) }
{
    let last = sentence_ends::last_end(ends);
    let mut counts = scored.counts;
    count_words(&lengths[..last], &mut counts);
    counted_sheet(ends.len(), last, scored.total, counts)
}

// 12 where sentence k is refused, counted from 0: no stretch keeps what was written.
fn refuse_sentence(ends: &[u32], points: &mut [i32], lengths: &mut [u8], k: usize) -> Refusal<u64>
    requires k_in_bounds { (k < length ends.now) × (length ends.now ≤ run_limit) }
    requires ends_in_bounds { (last_end 0 ends.now ≤ length points.old) × (last_end 0 ends.now ≤ length lengths.old) }
    ensures refusal { result ≡ record { reason = BrokenNode; place = k + 1 } }
    ensures points { points.new ≡ written (replicate (last_end 0 ends.now) (pos 0)) points.old }
    ensures lengths { lengths.new ≡ written (replicate (last_end 0 ends.now) 0) lengths.old }
{
    let last = sentence_ends::last_end(ends);
    run_answer::clear(points, lengths, last);
    Refusal {
        reason: Reason::BrokenNode,
        place: k as u64 + 1,
    }
}

// The sheet over an array: 20, 14, 15, then the sentences, with 12.
fn score_sheet(
    array: Array,
    words: &[u32],
    ends: &[u32],
    points: &mut [i32],
    lengths: &mut [u8],
) -> Result<Sheet, Refusal<u64>>
    ensures { record { sheet = sheet_of result; points = points.new; lengths = lengths.new } ≡ sheet_outcome (opened array.entry.base.now array.entry.check.now) ends.now (record { words = words.entry.now; points = points.old; lengths = lengths.old }) }
{
    sentence_ends::check_sheet(array, words.len(), ends, points.len(), lengths.len())?;
    match stretches::score_sentences(array, words, ends, points, lengths) {
        Ok(scored) => Ok(full_sheet(ends, lengths, scored)),
        Err(k) => Err(refuse_sentence(ends, points, lengths, k)),
    }
}

// The batch sheet: 11, 20, 14, 15, then the sentences, with 12.
pub fn score_batch(
    base: &[i32],
    check: &[i32],
    words: &[u32],
    ends: &[u32],
    points: &mut [i32],
    lengths: &mut [u8],
) -> Sheet
    ensures outcome { record { sheet = result; points = points.new; lengths = lengths.new } ≡ sheet_outcome (opened base.now check.now) ends.now (record { words = words.entry.now; points = points.old; lengths = lengths.old }) }
    ensures meaning { SheetMeans base.now check.now ends.now (record { words = words.entry.now; points = points.old; lengths = lengths.old }) (record { sheet = result; points = points.new; lengths = lengths.new }) }
{
    let array = match Array::open(base, check) {
        Ok(array) => array,
        Err(reason) => return Sheet::from(Refusal { reason, place: 0 }),
    };
    match score_sheet(array, words, ends, points, lengths) {
        Ok(sheet) => sheet,
        Err(refusal) => Sheet::from(refusal),
    }
}
