// The row of some words, looked for where rows of its length are likely. The definitions that the contracts cite are those of the crates below.
#![tactic(auto)]

ghost use Rattle.std.specs.Prelude.{◌≡◌, true, ◌≤◌, length};
ghost use Rattle.backoff.specs.Limits.{order_limit};
ghost use Rattle.backoff.specs.Words.{are_words};
ghost use Rattle.backoff.specs.Refusal.{Accepted};
ghost use Rattle.rows.specs.Table.{words_of};
ghost use Rattle.row_search.specs.Search.{find_in, found_row};
ghost use Rattle.list.specs.Check.{verdict};

use row_search::{Row, Span};

const LONGEST_ROW: usize = backoff::ORDER_LIMIT as usize;

// How many words up to the largest have no one-word row, where `count` have one.
fn count_missing(table: &[i32], count: usize) -> usize {
    if count == 0 || table.len() / 8 < count {
        return 0;
    }
    let largest = rows::field(table, count - 1, 1);
    usize::try_from(largest).unwrap_or(0).saturating_sub(count)
}

// Where rows are likely, on which no answer depends.
#[derive(Clone, Copy)]
pub struct RowStarts {
    // Item m is the first row of m words or more.
    pub first: [usize; 8],
    // How many words below the largest have no one-word row.
    pub missing: usize,
}

impl RowStarts {
    pub fn find(table: &[i32]) -> RowStarts {
        let rows = table.len() / 8;
        let mut first = [rows; 8];
        first[0] = 0;
        first[1] = 0;
        for i in 0..rows {
            first[rows::length_of(table, i) + 1] = i + 1;
        }
        let missing = count_missing(table, first[2]);
        RowStarts { first, missing }
    }

    // The rows of m words, at most six.
    pub fn rows_of(&self, m: usize) -> Span
        requires { m ≤ 6 }
    {
        Span {
            from: self.first[m],
            to: self.first[m + 1],
        }
    }

    // Where the row of one word is likely: behind those of the smaller words, which are all listed but `missing` of them.
    fn near(&self, word: usize) -> Span {
        Span {
            from: word.saturating_sub(self.missing).saturating_sub(1),
            to: word.min(self.first[2]),
        }
    }

    // Where the row of these words is likely, of which there are at most five.
    fn likely(&self, words: &[i32]) -> Span
        requires { length words.now ≤ order_limit }
    {
        if let [word] = words {
            return self.near(usize::try_from(*word).unwrap_or(0));
        }
        self.rows_of(words.len())
    }
}

// The row of these words, oldest first.
pub fn row_of(table: &[i32], starts: &RowStarts, words: &[i32]) -> Option<Row>
    requires { (verdict table.now ≡ Accepted) × (are_words (words_of words.now) ≡ true) }
    ensures { result ≡ found_row table.now (find_in table.now (words_of words.now)) }
{
    if LONGEST_ROW < words.len() {
        return None;
    }
    let found = row_search::find_among(table, words, starts.likely(words));
    row_search::found_row(table, found)
}
