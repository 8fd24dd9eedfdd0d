// The calls that cross to C. A slice is a pointer and then a length. Each export is thin: one call, and its answer as numbers.
#![tactic(auto)]

ghost use Rattle.std.specs.Prelude.{◌≡◌, length};
ghost use Rattle.backoff.specs.Store.{start_outcome, run_outcome};
ghost use Rattle.list.specs.Check.{verdict};
ghost use Rattle.list.specs.Meaning.{CheckMeans};
ghost use Rattle.double_array.specs.DoubleArray.{opened};
ghost use Rattle.lookup.specs.Lookup.{lookup_outcome, LookupMeans};
ghost use Rattle.build.specs.Build.{build_outcome};
ghost use Rattle.build.specs.Meaning.{BuildMeans};
ghost use Rattle.score.specs.Meaning.{StartMeans, RunMeans};
ghost use Rattle.batch.specs.Sheet.{sheet_outcome};
ghost use Rattle.batch.specs.Meaning.{SheetMeans};
ghost use Rattle.sentences.specs.Listing.{listing_outcome};
ghost use Rattle.sentences.specs.Meaning.{ListingMeans};
ghost use Rattle.largest_move.specs.Move.{move_outcome};
ghost use Rattle.largest_move.specs.Meaning.{MoveMeans};
ghost use Rattle.fragment_scoring.specs.Outcome.{fragment_outcome};
ghost use Rattle.fragment_scoring.specs.Meaning.{ScoringMeans};
ghost use Rattle.joining.specs.Outcome.{join_outcome};
ghost use Rattle.joining.specs.Meaning.{JoinMeans};
ghost use Rattle.plain.specs.Plain.{run_of, plain_outcome, PlainMeans};
ghost use Rattle.filling.specs.Fill.{fill_outcome};
ghost use Rattle.filling.specs.Meaning.{FillMeans};
ghost use Rattle.unload.specs.Unload.{unload_outcome};
ghost use Rattle.unload.specs.Meaning.{UnloadMeans};
ghost use Rattle.arpa.specs.Outcome.{read_arpa};
ghost use Rattle.arpa.specs.Meaning.{ReadMeans};
ghost use Rattle.c_answers.specs.Answers.{StatusIs, FoundIs, TotalIs};
ghost use Rattle.c_scoring.specs.Crossing.{StartedIs, RanIs};
ghost use Rattle.grader.specs.Exports.{BuiltIs, UnloadedIs, ReadIs, FilledIs};

use backoff::Refusal;
use batch::Sheet;
use c_answers::{Found, RowCount, Status, Total};
use fragments::{Fragment, Joined};
use largest_move::Move;
use sentences::Listing;

// Checks a list: 1, then row by row 3 to 8, then 9.
#[unsafe(no_mangle)]
pub extern "C" fn backoff_check(table: &[i32]) -> Status
    ensures outcome { StatusIs (verdict table.now) result }
    ensures meaning { CheckMeans table.now result.number result.place }
{
    Status::from(list::check_list(table))
}

// Builds the double array of a list: 1, 2, rows 3 to 8, 9, 10. `work` gets the slots of the rows' nodes.
#[unsafe(no_mangle)]
pub extern "C" fn backoff_build(
    table: &[i32],
    base: &mut [i32],
    check: &mut [i32],
    work: &mut [u32],
) -> Status
    ensures outcome { BuiltIs (build_outcome table.now base.old check.old work.old) result base.new check.new work.new }
    ensures meaning { BuildMeans table.now base.old check.old work.old result.number result.place base.new check.new }
{
    Status::from(build::build(table, base, check, work))
}

// Looks up the words, oldest first, in the array: 11, 14, 12.
#[unsafe(no_mangle)]
pub extern "C" fn backoff_lookup(base: &[i32], check: &[i32], words: &[u32]) -> Found
    ensures outcome { FoundIs (lookup_outcome base.now check.now words.now) result }
    ensures meaning { LookupMeans base.now check.now words.now result.number result.place result.found result.p result.b result.left }
{
    Found::from(lookup::look_up(base, check, words))
}

// Leaves the state after `<s>` in a slice of nine: 16 for another length, 11, 12.
#[unsafe(no_mangle)]
pub extern "C" fn backoff_start(base: &[i32], check: &[i32], state: &mut [i32]) -> Status
    ensures outcome { StartedIs (start_outcome (opened base.now check.now) state.old) result state.new }
    ensures meaning { StartMeans base.now check.now state.old result.number result.place state.new }
{
    c_scoring::start_into(base, check, state)
}

// Scores the words from the state, and leaves the next state in its place: 16 for another length than nine, 11, 16, 14, 15, 12.
#[unsafe(no_mangle)]
pub extern "C" fn backoff_run(
    base: &[i32],
    check: &[i32],
    state: &mut [i32],
    words: &[u32],
    points: &mut [i32],
    lengths: &mut [u8],
) -> Total
    ensures outcome { RanIs (run_outcome (opened base.now check.now) state.old (run_of words.now points.old lengths.old)) result state.new points.new lengths.new }
    ensures meaning { RunMeans base.now check.now state.old (run_of words.now points.old lengths.old) (record { number = result.number; place = result.place; total = result.total; end = state.new; points = points.new; lengths = lengths.new }) }
{
    c_scoring::run_from(base, check, state, words, points, lengths)
}

// Scores sentences, each on its own stretch of the slices: 11, 20 with the sentence's number, 14, 15, 12 with the sentence's number.
#[unsafe(no_mangle)]
pub extern "C" fn backoff_batch(
    base: &[i32],
    check: &[i32],
    words: &[u32],
    ends: &[u32],
    points: &mut [i32],
    lengths: &mut [u8],
) -> Sheet
    ensures outcome { record { sheet = result; points = points.new; lengths = lengths.new } ≡ sheet_outcome (opened base.now check.now) ends.now (run_of words.now points.old lengths.old) }
    ensures meaning { SheetMeans base.now check.now ends.now (run_of words.now points.old lengths.old) (record { sheet = result; points = points.new; lengths = lengths.new }) }
{
    batch::score_batch(base, check, words, ends, points, lengths)
}

// Lists every sentence of k usable words in order, with its total from `<s>` to the closing 3: 11, 22, 15, 12.
#[unsafe(no_mangle)]
pub extern "C" fn backoff_sentences(
    base: &[i32],
    check: &[i32],
    k: u32,
    words: &mut [u32],
    totals: &mut [i64],
) -> Listing
    ensures outcome { record { listing = result; words = words.new; totals = totals.new } ≡ listing_outcome (opened base.now check.now) k words.old totals.old }
    ensures meaning { ListingMeans base.now check.now k words.old totals.old (record { listing = result; words = words.new; totals = totals.new }) }
{
    sentences::list_sentences(base, check, k, words, totals)
}

// Lists the same, and finds the largest distance between the totals of two sentences that differ at one place: 11, 22, 15, 12.
#[unsafe(no_mangle)]
pub extern "C" fn backoff_largest_move(
    base: &[i32],
    check: &[i32],
    k: u32,
    words: &mut [u32],
    totals: &mut [i64],
) -> Move
    ensures outcome { record { move = result; words = words.new; totals = totals.new } ≡ move_outcome (opened base.now check.now) k words.old totals.old }
    ensures meaning { MoveMeans base.now check.now k words.old totals.old (record { move = result; words = words.new; totals = totals.new }) }
{
    largest_move::find_largest_move(base, check, k, words, totals)
}

// Scores words without left context, as a fragment: 11, 14, 12. Nothing is written.
#[unsafe(no_mangle)]
pub extern "C" fn backoff_score_fragment(base: &[i32], check: &[i32], words: &[u32]) -> Joined
    ensures outcome { result ≡ fragment_outcome (opened base.now check.now) words.now }
    ensures meaning { ScoringMeans base.now check.now words.now result }
{
    fragment_scoring::score_fragment(base, check, words)
}

// Joins two neighbours, whatever they hold: 11, 21 with 1 or 2 for the first or second, 14, 12.
#[unsafe(no_mangle)]
pub extern "C" fn backoff_join_fragments(
    base: &[i32],
    check: &[i32],
    one: Fragment,
    two: Fragment,
) -> Joined
    ensures outcome { result ≡ join_outcome (opened base.now check.now) one two }
    ensures meaning { JoinMeans base.now check.now one two result }
{
    joining::join_fragments(base, check, one, two)
}

// Scores the words by the list alone, after `<s>` or with no context: 1, rows 3 to 8, 9, then 14, 15.
#[unsafe(no_mangle)]
pub extern "C" fn backoff_plain(
    table: &[i32],
    after_start: bool,
    words: &[u32],
    points: &mut [i32],
    lengths: &mut [u8],
) -> Total
    ensures outcome { TotalIs (plain_outcome table.now after_start (run_of words.now points.old lengths.old)) result points.new lengths.new }
    ensures meaning { PlainMeans table.now after_start (run_of words.now points.old lengths.old) result.number result.place result.total points.new lengths.new }
{
    Total::from(plain::score_plain(table, after_start, words, points, lengths))
}

// Gives the list of an array back, row for row: 11, 15, 12. `work` gets the slots of the rows' nodes.
#[unsafe(no_mangle)]
pub extern "C" fn backoff_unload(
    base: &[i32],
    check: &[i32],
    table: &mut [i32],
    work: &mut [u32],
) -> Status
    ensures outcome { UnloadedIs (unload_outcome base.now check.now table.old work.old) result table.new work.new }
    ensures meaning { UnloadMeans base.now check.now table.old work.old result.number result.place table.new work.new }
{
    Status::from(unload::unload(base, check, table, work))
}

// Reads an ARPA text: 17, 18, 15, 19 with the line, then the list checks with the row, where the list is to be filled 8 for the two cases that filling
// keeps. Refused, table and store are 0.
#[unsafe(no_mangle)]
pub extern "C" fn backoff_arpa(
    text: &[u8],
    to_be_filled: bool,
    table: &mut [i32],
    store: &mut [u8],
) -> RowCount
    ensures outcome { ReadIs (read_arpa to_be_filled (length table.old) (length store.old) text.now) result table.new store.new }
    ensures meaning { ReadMeans to_be_filled text.now result.number result.place result.rows table.new store.new }
{
    RowCount::from(arpa::read_arpa(text, to_be_filled, table, store))
}

// Fills a pruned list: 1, rows 3 to 8, 9, then 5 with the row that needs it, 1, 15. Refused, nothing is written.
#[unsafe(no_mangle)]
pub extern "C" fn backoff_fill(table: &[i32], filled: &mut [i32]) -> RowCount
    ensures outcome { FilledIs (fill_outcome table.now filled.old) result filled.new }
    ensures meaning { FillMeans table.now filled.old result.number result.place result.rows filled.new }
{
    filling::fill(table, filled)
        .map_err(Refusal::<u64>::from)
        .into()
}
