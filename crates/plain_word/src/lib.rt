// One word after a history, by the lent list alone: the word replaced, its score by the back-off rule, and its length byte. The definitions that the contracts
// cite are in specs/.
#![tactic(auto)]

ghost use Rattle.std.specs.Prelude.{◌≡◌, true, [], ◌∷◌, ◌++◌, ◌+◌, ◌<◌, ◌≤◌, pos, length, take, get_or, reverse};
ghost use Rattle.backoff.specs.Limits.{order_limit};
ghost use Rattle.backoff.specs.Words.{are_words};
ghost use Rattle.backoff.specs.Model.{listed, backoff};
ghost use Rattle.backoff.specs.Rule.{replaced, text_rule, length_byte};
ghost use Rattle.backoff.specs.Refusal.{Accepted};
ghost use Rattle.rows.specs.Table.{rows_of, word_of, words_of, words};
ghost use Rattle.row_search.specs.Search.{find_in, found_row};
ghost use Rattle.list.specs.Check.{verdict};
ghost use Rattle.list.specs.ListModel.{extended_in, model_of};
ghost use Rattle.plain_word.specs.Score.{IsScore};

use backoff::WORD_LIMIT;
use row_search::Row;
use row_starts::RowStarts;

const UNKNOWN_WORD: i32 = backoff::UNKNOWN_WORD as i32;

const LONGEST_ROW: usize = backoff::ORDER_LIMIT as usize;

// The word itself where it has a one-word row, else 1.
pub fn replaced(table: &[i32], starts: &RowStarts, word: u32) -> i32
    requires { verdict table.now ≡ Accepted }
    ensures { result ≡ pos (replaced (model_of table.now) word) }
{
    if word == 0 || word > WORD_LIMIT as u32 {
        return UNKNOWN_WORD;
    }
    let known = word as i32;
    match row_starts::row_of(table, starts, &[known]) {
        Some(_) => known,
        None => UNKNOWN_WORD,
    }
}

// Word j of the history, the given word past its last.
fn word_at(history: &[i32], word: i32, j: usize) -> i32
    ensures { result ≡ get_or history.now j word }
{
    history.get(j).copied().unwrap_or(word)
}

// The history followed by the word, and by that word again in the places left.
fn followed(history: &[i32], word: i32) -> [i32; 5]
    requires { length history.now < order_limit }
    ensures { take (length history.now + 1) result ≡ history.now ++ (word ∷ []) }
{
    let a = word_at(history, word, 0);
    let b = word_at(history, word, 1);
    let c = word_at(history, word, 2);
    [a, b, c, word_at(history, word, 3), word]
}

// The row of the history followed by the word.
fn row_with(table: &[i32], starts: &RowStarts, history: &[i32], word: i32) -> Option<Row>
    requires { (verdict table.now ≡ Accepted) × (are_words (words_of history.now) ≡ true) × (are_words (word_of word ∷ []) ≡ true) }
    ensures { result ≡ found_row table.now (find_in table.now (words_of history.now ++ (word_of word ∷ []))) }
{
    if LONGEST_ROW <= history.len() {
        return None;
    }
    let words = followed(history, word);
    let end = history.len() + 1;
    row_starts::row_of(table, starts, &words[..end])
}

// b of these words, 0 if they are unlisted.
fn back_off_of(table: &[i32], starts: &RowStarts, words: &[i32]) -> i32
    requires { (verdict table.now ≡ Accepted) × (are_words (words_of words.now) ≡ true) }
    ensures { result ≡ backoff (model_of table.now) (reverse (words_of words.now)) }
{
    row_starts::row_of(table, starts, words).map_or(0, |row| row.b)
}

// `row` is where the row whose p was used stands.
#[derive(Clone, Copy)]
pub struct Score {
    pub points: i32,
    pub matched: u8,
    pub row: usize,
}

// The word after the history, oldest word first: by the row of history and word together, else by the history's back-off and the word after the history
// without its oldest word.
pub fn score_after(table: &[i32], starts: &RowStarts, history: &[i32], word: i32) -> Score
    requires { (verdict table.now ≡ Accepted) × (are_words (words_of history.now) ≡ true) × (listed (model_of table.now) (word_of word ∷ []) ≡ true) }
    ensures { IsScore table.now (text_rule (model_of table.now) (words_of history.now) (word_of word)) result }
{
    let row = row_with(table, starts, history, word);
    if let Some(row) = row {
        return Score {
            points: row.p,
            matched: (history.len() + 1) as u8,
            row: row.at,
        };
    }
    let shorter = &history[1..];
    let back_off = back_off_of(table, starts, history);
    let score = score_after(table, starts, shorter, word);
    Score {
        points: back_off + score.points,
        ..score
    }
}

// The matched length, plus 8 if the word is unknown, plus 16 if the matched row is extended.
fn length_byte(matched: u8, word: i32, extended: bool) -> u8
    requires { matched ≤ order_limit }
    ensures { result ≡ length_byte matched (word_of word) «extended» }
{
    let mut byte = matched;
    if word == UNKNOWN_WORD {
        byte += 8;
    }
    if extended {
        byte += 16;
    }
    byte
}

// The length byte of the word with this score.
pub fn byte_of(table: &[i32], starts: &RowStarts, score: Score, word: i32) -> u8
    requires { (verdict table.now ≡ Accepted) × (score.row < rows_of table.now) × (score.matched ≤ order_limit) }
    ensures { result ≡ length_byte score.matched (word_of word) (extended_in table.now (words table.now score.row)) }
{
    let likely = starts.rows_of(score.matched as usize + 1);
    let extended = extensions::extended(table, score.row, likely);
    length_byte(score.matched, word, extended)
}
