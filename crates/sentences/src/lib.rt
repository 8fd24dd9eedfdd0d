// All small sentences: every sentence of k words over the usable words of a lent array, with its total from `<s>` to the closing 3.
#![tactic(auto)]

ghost use Rattle.std.specs.Prelude.{◌≡◌, ◌*◌, ◌^◌, ◌≤◌, length, IfOk};
ghost use Rattle.backoff.specs.Limits.{sentence_limit, usable_limit};
ghost use Rattle.backoff.specs.Refusal.{fault_of};
ghost use Rattle.double_array.specs.DoubleArray.{opened};
ghost use Rattle.sentence_order.specs.Sentences.{sentences_of};
ghost use Rattle.sentence_order.specs.Inner.{AllUsable};
ghost use Rattle.sentence_order.specs.Usable.{listed};
ghost use Rattle.sentences.specs.Listing.{size_refusal, listed as listing_over, usable_over, listing_outcome};
ghost use Rattle.sentences.specs.Inner.{listing_as, listing_of};
ghost use Rattle.sentences.specs.Meaning.{ListingMeans};

use backoff::Reason;
use double_array::Array;
use sentence_order::Usable;

// What the call returns: how many sentences are listed, 0 where it was refused.
#[repr(C)]
#[derive(Drop)]
pub struct Listing {
    pub number: u32,
    pub place: u32,
    pub sentences: u32,
}

// How many sentences are listed, and how many words of the array are usable.
#[derive(Clone, Copy)]
pub struct Counted {
    pub sentences: u32,
    pub usable: usize,
}

impl From<Result<Counted, Reason>> for Listing {
    ghost from_gives = { λ counted listing. listing ≡ listing_of counted };

    fn from(counted: Result<Counted, Reason>) -> Listing {
        match counted {
            Ok(counted) => Listing {
                number: 0,
                place: 0,
                sentences: counted.sentences,
            },
            Err(reason) => Listing {
                number: u32::from(reason),
                place: 0,
                sentences: 0,
            },
        }
    }
}

// The listing where neither 22 nor 15 refuses it, over the words that are handed over: how many sentences it has.
fn list_usable(
    array: Array,
    usable: &Usable,
    k: usize,
    words: &mut [u32],
    totals: &mut [i64],
) -> Result<u32, Reason>
    requires all_usable { AllUsable array.check.now (listed usable.now) }
    requires le_k { (1 ≤ k) × (k ≤ sentence_limit) }
    requires k_in_bounds { (k * usable.now.count ^ k ≤ length words.old) × (usable.now.count ^ k ≤ length totals.old) }
    ensures { record { listing = listing_as result; words = words.new; totals = totals.new } ≡ listing_over (opened array.entry.base.now array.entry.check.now) (sentences_of k (listed usable.now)) words.old totals.old }
{
    let sentences = usable.power(k);
    let Some(()) = sentence_totals::write_all(array, usable, k, words, totals) else {
        sentence_totals::clear(words, totals, k * sentences, sentences);
        return Err(Reason::BrokenNode);
    };
    Ok(sentences as u32)
}

// 22 for k, then 15 for a slice that is too short.
#[tactic(auto, unfolding(crate::specs::Listing::size_refusal))]
fn check_sizes(k: u32, usable: &Usable, words: usize, totals: usize) -> Result<(), Reason>
    ensures { fault_of result ≡ size_refusal k usable.now.count words totals }
{
    if !(1..=backoff::SENTENCE_LIMIT).contains(&k) {
        return Err(Reason::ListingSize);
    }
    let sentences = usable.power(k as usize);
    if words < k as usize * sentences || totals < sentences {
        return Err(Reason::ShortSlice);
    }
    Ok(())
}

// The listing, with the number of usable words: 11, 22, 15, then the sentences, with 12.
pub fn list_counted(
    base: &[i32],
    check: &[i32],
    k: u32,
    words: &mut [u32],
    totals: &mut [i64],
) -> Result<Counted, Reason>
    ensures outcome { record { listing = listing_of result; words = words.new; totals = totals.new } ≡ listing_outcome (opened base.now check.now) k words.old totals.old }
    ensures usable { IfOk result (λ counted. counted.usable ≡ length (usable_over (opened base.now check.now))) }
{
    let array = Array::open(base, check)?;
    let Some(usable) = Usable::of(array) else {
        return Err(Reason::ListingSize);
    };
    check_sizes(k, &usable, words.len(), totals.len())?;
    let sentences = list_usable(array, &usable, k as usize, words, totals)?;
    Ok(Counted {
        sentences,
        usable: usable.count,
    })
}

// Every sentence of k usable words in order, and the total of each: 11, 22, 15, then the sentences, with 12.
pub fn list_sentences(
    base: &[i32],
    check: &[i32],
    k: u32,
    words: &mut [u32],
    totals: &mut [i64],
) -> Listing
    ensures outcome { record { listing = result; words = words.new; totals = totals.new } ≡ listing_outcome (opened base.now check.now) k words.old totals.old }
    ensures meaning { ListingMeans base.now check.now k words.old totals.old (record { listing = result; words = words.new; totals = totals.new }) }
{
    list_counted(base, check, k, words, totals).into()
}
