// Plain scoring: the back-off rule over the lent list alone. The definitions that the contracts cite are in specs/.
#![tactic(auto)]

ghost use Rattle.std.specs.Prelude.{◌≡◌, true, [], ◌∷◌, ◌≤◌, length};
ghost use Rattle.integer.specs.Integer.{sum};
ghost use Rattle.backoff.specs.Limits.{run_limit};
ghost use Rattle.backoff.specs.Model.{listed};
ghost use Rattle.backoff.specs.Rule.{text_rule, rule_points, rule_bytes};
ghost use Rattle.backoff.specs.Run.{written, front};
ghost use Rattle.backoff.specs.Refusal.{Accepted, number_in, place_in};
ghost use Rattle.rows.specs.Table.{order_of, word_of};
ghost use Rattle.list.specs.Check.{verdict};
ghost use Rattle.list.specs.ListModel.{model_of};
ghost use Rattle.plain_history.specs.History.{IsRecent, in_use};
ghost use Rattle.plain.specs.Plain.{run_of, plain_outcome, total_in, Answers, PlainMeans};
ghost use Rattle.plain.specs.Held.{IsScored, IsNext};

use backoff::Refusal;
use plain_history::Recent;
use row_starts::RowStarts;

#[derive(Clone, Copy)]
struct Scored {
    points: i32,
    byte: u8,
}

// The word, which has a one-word row, after the whole history.
fn score_word(table: &[i32], starts: &RowStarts, recent: Recent, word: i32) -> Scored
    requires { (verdict table.now ≡ Accepted) × IsRecent recent × (listed (model_of table.now) (word_of word ∷ []) ≡ true) }
    ensures { IsScored (text_rule (model_of table.now) (in_use recent) (word_of word)) (word_of word) result }
{
    let words = recent.words;
    let oldest = 4 - recent.count;
    let score = plain_word::score_after(table, starts, &words[oldest..], word);
    Scored {
        points: score.points,
        byte: plain_word::byte_of(table, starts, score, word),
    }
}

// A word's points and length byte, and the history of the word after it.
#[derive(Clone, Copy)]
struct Next {
    points: i32,
    byte: u8,
    recent: Recent,
}

// The given word after the history.
fn score_next(table: &[i32], starts: &RowStarts, most: usize, recent: Recent, word: u32) -> Next
    requires { (verdict table.now ≡ Accepted) × IsRecent recent }
    ensures { IsNext (model_of table.now) most recent word result }
{
    let known = plain_word::replaced(table, starts, word);
    let scored = score_word(table, starts, recent, known);
    Next {
        points: scored.points,
        byte: scored.byte,
        recent: plain_history::push(most, recent, word, known),
    }
}

// Scores each word after all before it, writes its points and length byte, and returns the total.
fn score_words(
    table: &[i32],
    n: usize,
    after_start: bool,
    words: &[u32],
    points: &mut [i32],
    lengths: &mut [u8],
) -> i64
    requires { (verdict table.now ≡ Accepted) × (n ≡ order_of table.now) × (length words.now ≤ run_limit) × (length words.now ≤ length points.old) × (length words.now ≤ length lengths.old) }
    ensures total { result ≡ sum (rule_points (model_of table.now) (front after_start) words.now) }
    ensures points { points.new ≡ written (rule_points (model_of table.now) (front after_start) words.now) points.old }
    ensures lengths { lengths.new ≡ written (rule_bytes (model_of table.now) (front after_start) words.now) lengths.old }
{
    let starts = RowStarts::find(table);
    let most = n - 1;
    let mut recent = plain_history::begin(most, after_start);
    let mut total: i64 = 0;
    for (i, word) in words.iter().enumerate() {
        let next = score_next(table, &starts, most, recent, *word);
        points[i] = next.points;
        lengths[i] = next.byte;
        total += i64::from(next.points);
        recent = next.recent;
    }
    total
}

// Scores the words by the list alone, after `<s>` or with no context: writes points and length bytes, and returns the total.
pub fn score_plain(
    table: &[i32],
    after_start: bool,
    words: &[u32],
    points: &mut [i32],
    lengths: &mut [u8],
) -> Result<i64, Refusal>
    ensures outcome { Answers (plain_outcome table.now after_start (run_of words.now points.old lengths.old)) result points.new lengths.new }
    ensures meaning { PlainMeans table.now after_start (run_of words.now points.old lengths.old) (number_in result) (place_in result) (total_in result) points.new lengths.new }
{
    list::check_list(table)?;
    backoff::check_sizes(words.len(), points.len(), lengths.len())?;
    let n = rows::length_of(table, table.len() / 8 - 1);
    Ok(score_words(table, n, after_start, words, points, lengths))
}
