// Rows of eight numbers: their fields, lengths and words, and keys that compare as the words do. The definitions that the contracts cite are in specs/.
#![tactic(auto)]

ghost use Rattle.std.specs.Prelude.{◌≡◌, true, [], ◌∷◌, ◌+◌, ◌*◌, ◌<◌, ◌≤◌, eqb, ltb, pos, length, get_or};
ghost use Rattle.backoff.specs.Limits.{order_limit};
ghost use Rattle.backoff.specs.Words.{are_words, radix, key};
ghost use Rattle.rows.specs.Table.{field, length_of, word_of, words_of};
ghost use Rattle.rows.specs.Good.{GoodRow};
ghost use Rattle.rows.specs.Keys.{row_key, key_of};

use backoff::ORDER_LIMIT;

// Number j of row i.
#[tactic(auto, using(std::proofs::lemmas::Int::ints), unfolding(crate::specs::Table::field))]
pub fn field(table: &[i32], i: usize, j: usize) -> i32
    requires { (8 * i + 8 ≤ length table.now) × (j < 8) }
    ensures { result ≡ field table.now i j }
{
    table[8 * i + j]
}

// m of row i where it lies in 1..5, else 0: no `None`, since all but check 3 ask it of rows that have a length.
#[tactic(auto, using(std::proofs::lemmas::Int::ints), unfolding(crate::specs::Table::length_of, integer::specs::Integer::between, integer::specs::Integer::up_to))]
pub fn length_of(table: &[i32], i: usize) -> usize
    requires { 8 * i + 8 ≤ length table.now }
    ensures { (result ≡ length_of table.now i) × (result ≤ order_limit) }
{
    let m = field(table, i, 0);
    if (0..=ORDER_LIMIT).contains(&m) {
        m as usize
    } else {
        0
    }
}

// Words as one number, the last word the highest digit: the first four in `low`, the fifth in `high`.
#[derive(Clone, Copy, PartialEq, Eq, PartialOrd, Ord)]
pub struct Key {
    pub high: u64,
    pub low: u64,
}

// Whether the key a is below the key b: as `<` says, but with no branch that depends on a key.
pub fn key_less(a: Key, b: Key) -> bool
    ensures { result ≡ ltb (key_of a.high a.low) (key_of b.high b.low) }
{
    (a.high < b.high) | ((a.high == b.high) & (a.low < b.low))
}

// Whether the keys are equal: as `==` says, but with no branch that depends on a key.
pub fn key_equal(a: Key, b: Key) -> bool
    ensures { result ≡ eqb (key_of a.high a.low) (key_of b.high b.low) }
{
    (a.high == b.high) & (a.low == b.low)
}

// The key of five digits.
#[tactic(auto, unfolding(backoff::specs::Words::key))]
fn packed(a: u64, b: u64, c: u64, d: u64, e: u64) -> Key
    requires { (a < radix) × (b < radix) × (c < radix) × (d < radix) }
    ensures { key_of result.high result.low ≡ key (a ∷ b ∷ c ∷ d ∷ e ∷ []) }
{
    Key {
        high: e,
        low: backoff::key_of_four(a, b, c, d),
    }
}

// The word at index j, 0 past the last, as the key has it.
fn word_at(words: &[i32], j: usize) -> u64
    requires { are_words (words_of words.now) ≡ true }
    ensures { (result ≡ word_of (get_or words.now j (pos 0))) × (result < radix) }
{
    words.get(j).copied().unwrap_or(0) as u64
}

// The key of at most five words.
pub fn key_of(words: &[i32]) -> Key
    requires { (length words.now ≤ order_limit) × (are_words (words_of words.now) ≡ true) }
    ensures { key_of result.high result.low ≡ key (words_of words.now) }
{
    let a = word_at(words, 0);
    let b = word_at(words, 1);
    let c = word_at(words, 2);
    let d = word_at(words, 3);
    packed(a, b, c, d, word_at(words, 4))
}

// The number at word place j, in 1..5, of a row that passed check 4: a word, or 0.
pub fn digit(table: &[i32], i: usize, j: usize) -> u64
    requires { (8 * i + 8 ≤ length table.now) × GoodRow table.now i × (1 ≤ j) × (j ≤ order_limit) }
    ensures { (result ≡ word_of (field table.now i j)) × (result < radix) }
{
    field(table, i, j) as u64
}

// The key of row i.
pub fn row_key(table: &[i32], i: usize) -> Key
    requires { (8 * i + 8 ≤ length table.now) × GoodRow table.now i }
    ensures { key_of result.high result.low ≡ row_key table.now i }
{
    let a = digit(table, i, 1);
    let b = digit(table, i, 2);
    let c = digit(table, i, 3);
    let d = digit(table, i, 4);
    packed(a, b, c, d, digit(table, i, 5))
}
