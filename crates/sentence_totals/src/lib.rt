// The totals of small sentences over any lent double array: the sentences and their totals in two slices, written group by group, or cleared.
#![tactic(auto)]

ghost use Rattle.std.specs.Prelude.{◌≡◌, [], ◌∷◌, ◌++◌, ◌+◌, ◌-◌, ◌*◌, ◌^◌, ◌≤◌, ◌<◌, length, take, drop, replicate, pos};
ghost use Rattle.backoff.specs.Limits.{sentence_limit};
ghost use Rattle.double_array.specs.DoubleArray.{opened};
ghost use Rattle.sentence_order.specs.Sentences.{ended_by, sentences_of};
ghost use Rattle.sentence_order.specs.Inner.{sentence_at, AllUsable};
ghost use Rattle.sentence_order.specs.Usable.{listed};
ghost use Rattle.sentence_totals.specs.Inner.{Begins, WrittenOver};

use carried_state::State;
use double_array::Array;
use sentence_order::Usable;

// A sentence's words, from `at` on: the first `count` of these, and its last one.
fn write_sentence(words: &mut [u32], at: usize, first: [u32; 4], count: usize, last: u32)
    requires { (at + count < length words.old) × (count < sentence_limit) }
    ensures { words.new ≡ take at words.old ++ (take count first ++ (last ∷ [])) ++ drop (at + count + 1) words.old }
{
    for j in 0..3 {
        if j < count {
            words[at + j] = first[j];
        }
    }
    words[at + count] = last;
}

// The sentences whose first k - 1 words are those of number g, each with its total; nothing if one of them is refused. What they share is scored once.
fn write_group(
    array: Array,
    state: State,
    usable: &Usable,
    k: usize,
    g: usize,
    words: &mut [u32],
    totals: &mut [i64],
) -> Option<()>
    requires begins { Begins array.base.now array.check.now state }
    requires count_nonzero { (0 < usable.now.count) × AllUsable array.check.now (listed usable.now) }
    requires le_k { (1 ≤ k) × (k ≤ sentence_limit) }
    requires count_in_bounds { (k * usable.now.count ≤ length words.old) × (usable.now.count ≤ length totals.old) }
    ensures { WrittenOver (opened array.entry.base.now array.entry.check.now) (ended_by (listed usable.now) (sentence_at (listed usable.now) (k - 1) g)) words.old totals.old result words.new totals.new }
{
    let shared = k - 1;
    let first = usable.nth_sentence(shared, g);
    let before = sums::sum_words(array, state, &first[..shared]).ok()?;
    let carried = before.end.pack();
    let backoffs = before.end.lent();
    let closing = word_step::replaced(array.check, backoff::END_WORD);
    for (j, last) in usable.words().iter().enumerate() {
        let points = sums::sum_closed(array, carried, backoffs, *last, closing)?;
        write_sentence(words, k * j, first, shared, *last);
        totals[j] = before.total + points;
    }
    Some(())
}

// Each sentence in turn, with its total; nothing if one of them is refused.
pub fn write_all(
    array: Array,
    usable: &Usable,
    k: usize,
    words: &mut [u32],
    totals: &mut [i64],
) -> Option<()>
    requires all_usable { AllUsable array.check.now (listed usable.now) }
    requires le_k { (1 ≤ k) × (k ≤ sentence_limit) }
    requires k_in_bounds { (k * usable.now.count ^ k ≤ length words.old) × (usable.now.count ^ k ≤ length totals.old) }
    ensures { WrittenOver (opened array.entry.base.now array.entry.check.now) (sentences_of k (listed usable.now)) words.old totals.old result words.new totals.new }
{
    if usable.count == 0 {
        return Some(());
    }
    let state = score::start(array.base, array.check).ok()?;
    for g in 0..usable.power(k - 1) {
        let from = g * usable.count;
        write_group(
            array,
            state,
            usable,
            k,
            g,
            &mut words[k * from..],
            &mut totals[from..],
        )?;
    }
    Some(())
}

// Writes 0 over the listing's items, as refusal 12 leaves them.
pub fn clear(words: &mut [u32], totals: &mut [i64], items: usize, sentences: usize)
    requires { (items ≤ length words.old) × (sentences ≤ length totals.old) }
    ensures words { words.new ≡ replicate items 0 ++ drop items words.old }
    ensures totals { totals.new ≡ replicate sentences (pos 0) ++ drop sentences totals.old }
{
    words[..items].fill(0);
    totals[..sentences].fill(0);
}
