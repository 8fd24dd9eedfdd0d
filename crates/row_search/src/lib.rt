// The search for a row among rows in list order, by its key. The definitions that the contracts cite are in specs/.
#![tactic(auto, unfolding(rows::specs::Table::rows_of))]

ghost use Rattle.std.specs.Prelude.{◌≡◌, true, ℕ, ◌+◌, ◌*◌, ◌<◌, ◌≤◌, length};
ghost use Rattle.backoff.specs.Limits.{order_limit};
ghost use Rattle.backoff.specs.Words.{are_words, key};
ghost use Rattle.rows.specs.Table.{rows_of, words_of};
ghost use Rattle.rows.specs.Good.{GoodRow, Good};
ghost use Rattle.rows.specs.Keys.{row_key, key_of};
ghost use Rattle.row_search.specs.Search.{Searchable, find_in, is_at, found_row};
ghost use Rattle.row_search.specs.ByKey.{find_key, Bracket, Window};

use rows::Key;

// The first four words of row i as one number: those of rows of one length, at most four words, ascend.
fn low_key(table: &[i32], i: usize) -> u64
    requires { (8 * i + 8 ≤ length table.now) × GoodRow table.now i }
{
    let a = rows::digit(table, i, 1);
    let b = rows::digit(table, i, 2);
    let c = rows::digit(table, i, 3);
    backoff::key_of_four(a, b, c, rows::digit(table, i, 4))
}

// Where to begin a search for k: at `near` if the row before it is below k, else at the first row.
pub fn search_start(table: &[i32], k: Key, near: usize) -> usize
    requires { Good table.now (rows_of table.now) }
    ensures { Bracket table.now (key_of k.high k.low) result (rows_of table.now) }
{
    if near == 0 {
        return 0;
    }
    if table.len() / 8 < near {
        return 0;
    }
    if rows::key_less(rows::row_key(table, near - 1), k) {
        return near;
    }
    0
}

// A listed sequence as the table has it: `at` is where its row stands.
#[derive(Clone, Copy)]
pub struct Row {
    pub at: usize,
    pub p: i32,
    pub b: i32,
}

// The row that was found, if any.
pub fn found_row(table: &[i32], found: Option<usize>) -> Option<Row>
    requires { (i : ℕ) → found ≡ Some i → i < rows_of table.now }
    ensures { result ≡ found_row table.now found }
{
    let i = found?;
    Some(Row {
        at: i,
        p: rows::field(table, i, 6),
        b: rows::field(table, i, 7),
    })
}

// Where to end a search for k: at `to` if that row is above k, else behind the last row.
fn search_end(table: &[i32], k: Key, to: usize) -> usize
    requires { Good table.now (rows_of table.now) }
    ensures { Window table.now (key_of k.high k.low) 0 result }
{
    let rows = table.len() / 8;
    if rows <= to {
        return rows;
    }
    if rows::key_less(k, rows::row_key(table, to)) {
        return to;
    }
    rows
}

// Rows `from` to `to` - 1.
#[derive(Clone, Copy)]
pub struct Span {
    pub from: usize,
    pub to: usize,
}

// Where to search for k: among the rows where it is likely, as far as they are right.
pub fn search_window(table: &[i32], k: Key, likely: Span) -> Span
    requires { Good table.now (rows_of table.now) }
    ensures { Window table.now (key_of k.high k.low) result.from result.to }
{
    let Span { from, to } = likely;
    Span {
        from: search_start(table, k, from),
        to: search_end(table, k, to),
    }
}

// The last of these rows whose key is not above k, the first where there is none. Halving a number of rows needs no branch that depends on a key.
pub fn last_not_above(table: &[i32], k: Key, rows: Span) -> usize
    requires { Good table.now (rows_of table.now) × Window table.now (key_of k.high k.low) rows.from rows.to × (rows.from < rows.to) }
    ensures { Window table.now (key_of k.high k.low) result (result + 1) }
{
    let Span { mut from, to } = rows;
    let mut size = to - from;
    while 1 < size {
        let half = size / 2;
        let middle = from + half;
        if !rows::key_less(k, rows::row_key(table, middle)) {
            from = middle;
        }
        size -= half;
    }
    from
}

// The row with the key k, which is among these or nowhere.
fn find_between(table: &[i32], k: Key, rows: Span) -> Option<usize>
    requires { Good table.now (rows_of table.now) × Window table.now (key_of k.high k.low) rows.from rows.to }
    ensures { result ≡ find_key table.now (key_of k.high k.low) (rows_of table.now) }
{
    if rows.to <= rows.from {
        return None;
    }
    let i = last_not_above(table, k, rows);
    rows::key_equal(rows::row_key(table, i), k).then_some(i)
}

// The row of the part that has these words. It may be anywhere; among the likely rows, it is found sooner.
pub fn find_among(part: &[i32], words: &[i32], likely: Span) -> Option<usize>
    requires { Searchable part.now words.now }
    ensures { result ≡ find_in part.now (words_of words.now) }
{
    if words.is_empty() {
        return None;
    }
    let k = rows::key_of(words);
    find_between(part, k, search_window(part, k, likely))
}

// The row of the part that has these words, by binary search.
pub fn find_row(part: &[i32], words: &[i32]) -> Option<usize>
    requires { Searchable part.now words.now }
    ensures { result ≡ find_in part.now (words_of words.now) }
{
    let rows = part.len() / 8;
    find_among(part, words, Span { from: 0, to: rows })
}

// The row with the key k, if it is the first from `near` on that is not below k.
fn found_near(part: &[i32], k: Key, near: usize) -> Option<usize>
    requires { Good part.now (rows_of part.now) }
    ensures { is_at result ≡ true → result ≡ find_key part.now (key_of k.high k.low) (rows_of part.now) }
{
    for row in near..part.len() / 8 {
        let key = rows::row_key(part, row);
        if !rows::key_less(key, k) {
            return rows::key_equal(key, k).then_some(row);
        }
    }
    None
}

// The row of the part that has these words, whose key is k. It may be anywhere; at `near` or soon after, it is found sooner.
fn find_from(part: &[i32], words: &[i32], k: Key, near: usize) -> Option<usize>
    requires { Searchable part.now words.now × (key_of k.high k.low ≡ key (words_of words.now)) }
    ensures { result ≡ find_in part.now (words_of words.now) }
{
    found_near(part, k, near).or_else(|| find_row(part, words))
}

// 1 where the first four words of row i are not above k, else 0.
fn one_not_above(part: &[i32], i: usize, k: u64) -> usize
    requires { Good part.now (rows_of part.now) × (i < rows_of part.now) }
    ensures { result ≤ 1 }
{
    usize::from(low_key(part, i) <= k)
}

// How many of three rows, `apart` rows apart behind `from`, have first four words that are not above k.
fn three_not_above(part: &[i32], k: u64, from: usize, apart: usize) -> usize
    requires { Good part.now (rows_of part.now) × (from + 3 * apart < rows_of part.now) }
    ensures { result ≤ 3 }
{
    let first = one_not_above(part, from + apart, k);
    let second = one_not_above(part, from + 2 * apart, k);
    first + second + one_not_above(part, from + 3 * apart, k)
}

// The number of these rows, 0 where the part has not all of them.
fn span_size(part: &[i32], rows: Span) -> usize
    ensures { 0 < result → rows.from + result ≤ rows_of part.now }
{
    if part.len() / 8 < rows.to {
        return 0;
    }
    rows.to.saturating_sub(rows.from)
}

// A row soon before the row of at most four words with the key k, among these rows, which have as many. Quartering a number of rows needs no branch that
// depends on a key.
fn quartered(part: &[i32], k: u64, rows: Span) -> usize
    requires { Good part.now (rows_of part.now) }
{
    let mut from = rows.from;
    let mut size = span_size(part, rows);
    while 3 < size {
        let quarter = size / 4;
        from += quarter * three_not_above(part, k, from, quarter);
        size -= 3 * quarter;
    }
    from
}

// The row of the part that has these words. It may be anywhere; at `near` or soon after, it is found sooner.
pub fn find_near(part: &[i32], words: &[i32], near: usize) -> Option<usize>
    requires { Searchable part.now words.now }
    ensures { result ≡ find_in part.now (words_of words.now) }
{
    find_from(part, words, rows::key_of(words), near)
}

// The row of the part that has these words. It may be anywhere; among the likely rows, of as many words, at most four, it is found sooner.
pub fn find_of_length(part: &[i32], words: &[i32], likely: Span) -> Option<usize>
    requires { Searchable part.now words.now }
    ensures { result ≡ find_in part.now (words_of words.now) }
{
    let k = rows::key_of(words);
    find_from(part, words, k, quartered(part, k.low, likely))
}

// Whether the part has a row i, and that row has the key k.
pub fn has_key(part: &[i32], i: usize, k: Key) -> bool
    requires { Good part.now (rows_of part.now) }
    ensures { result ≡ true → (i < rows_of part.now) × (row_key part.now i ≡ key_of k.high k.low) }
{
    i < part.len() / 8 && rows::key_equal(rows::row_key(part, i), k)
}
