// Words scored as a fragment, without left context, over any lent double array.
#![tactic(auto)]

ghost use Rattle.std.specs.Prelude.{◌≡◌, ◌≤◌, length};
ghost use Rattle.backoff.specs.Limits.{run_limit};
ghost use Rattle.backoff.specs.State.{empty};
ghost use Rattle.backoff.specs.Store.{run_over};
ghost use Rattle.double_array.specs.DoubleArray.{order_in, store_in, opened};
ghost use Rattle.fragments.specs.Outcome.{crossed, joined_of};
ghost use Rattle.fragment_scoring.specs.Outcome.{scored_as, fragment_outcome};
ghost use Rattle.fragment_scoring.specs.Meaning.{ScoringMeans};

use backoff::{Reason, Refusal};
use carried_state::State;
use double_array::Array;
use fragments::{Fragment, Joined};

// The words scored as a fragment, where neither 11 nor 14 refuses them.
fn scored(array: Array, words: &[u32]) -> Result<Fragment, Refusal>
    requires { length words.now ≤ run_limit }
    ensures { joined_of result ≡ crossed (scored_as (order_in array.entry.check.now) words.now (run_over (store_in array.entry.base.now array.entry.check.now) words.now empty 1)) }
{
    let ran = sums::sum_words(array, State::default(), words)?;
    Ok(fragments::kept_fragment(array.order, words, ran.total, ran.end))
}

// 11 and 14, and then the words scored as a fragment.
fn scored_over(base: &[i32], check: &[i32], words: &[u32]) -> Result<Fragment, Refusal>
    ensures { joined_of result ≡ fragment_outcome (opened base.now check.now) words.now }
{
    let array = Array::open(base, check)?;
    if backoff::RUN_LIMIT < words.len() {
        return Err(Refusal::from(Reason::WordCount));
    }
    scored(array, words)
}

// Scores words without left context: 11, 14, 12.
pub fn score_fragment(base: &[i32], check: &[i32], words: &[u32]) -> Joined
    ensures outcome { result ≡ fragment_outcome (opened base.now check.now) words.now }
    ensures meaning { ScoringMeans base.now check.now words.now result }
{
    Joined::from(scored_over(base, check, words))
}
