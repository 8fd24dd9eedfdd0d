// Words by their texts. The index lies in free numbers of one-word rows: no other memory is lent.
#![tactic(auto)]

ghost use Rattle.std.specs.Prelude.{◌≡◌, true, ℕ, ◌+◌, ◌*◌, ◌-◌, ◌<◌, ◌≤◌, pos, length, get_or, set};
ghost use Rattle.integer.specs.Integer.{between};
ghost use Rattle.backoff.specs.Words.{same_words};
ghost use Rattle.rows.specs.Table.{field};
ghost use Rattle.word_index.specs.Texts.{text_of, record_with, recorded};
ghost use Rattle.backoff.specs.Limits.{text_limit};
ghost use Rattle.word_index.specs.Index.{link_limit, hash, bucket_of, Indexed, Room, linked, cleared};

// A hash is below 2^40, so that its product with an odd number below 2^24 fits.
const HASH_LIMIT: u64 = 1099511627776;

const HASH_FACTOR: u64 = 10368889;

// The hash of a text.
#[tactic(auto, unfolding(crate::specs::Index::hash, crate::specs::Index::hash_from))]
fn hash_of(text: &[u8]) -> u64
    ensures { result ≡ hash text.now }
{
    let mut hash = 0;
    for byte in text {
        hash = (hash * HASH_FACTOR + u64::from(*byte)) % HASH_LIMIT;
    }
    hash
}

// The chain of a text.
#[tactic(auto, unfolding(crate::specs::Index::bucket_of))]
fn bucket_of(text: &[u8], buckets: usize) -> usize
    requires { 1 ≤ buckets }
    ensures { (result ≡ bucket_of buckets text.now) × (result < buckets) }
{
    (hash_of(text) % (buckets as u64)) as usize
}

// Whether record k holds the text.
#[tactic(auto, using(crate::proofs::Texts::equal_texts), unfolding(crate::specs::Texts::text_of))]
pub fn same_text(text: &[u8], store: &[u8], k: usize) -> bool
    requires { (64 * k + 64 ≤ length store.now) × (get_or store.now (64 * k) 0 ≤ text_limit) }
    ensures { result ≡ same_words text.now (text_of store.now k) }
{
    let at = 64 * k + 1;
    let end = at + store[64 * k] as usize;
    text == &store[at..end]
}

// Number j of row i, a word or 0.
fn link_at(table: &[i32], i: usize, j: usize) -> usize
    requires { (8 * i + 8 ≤ length table.now) × (j < 8) × (between (pos 0) (pos link_limit) (field table.now i j) ≡ true) }
    ensures { field table.now i j ≡ pos result }
{
    rows::field(table, i, j) as usize
}

// The word whose record holds the text.
pub fn find_word(text: &[u8], table: &[i32], store: &[u8], buckets: usize) -> Option<usize>
    requires { (words : ℕ) × Indexed table.now store.now buckets words }
    ensures { (words : ℕ) → Indexed table.now store.now buckets words → result ≡ record_with store.now words text.now }
{
    let h = bucket_of(text, buckets);
    let mut k = link_at(table, h, 2);
    while 0 < k {
        if same_text(text, store, k) {
            return Some(k);
        }
        k = link_at(table, k - 4, 3);
    }
    None
}

// Byte i of the text in record k.
fn write_byte(store: &mut [u8], k: usize, i: usize, byte: u8)
    requires { (64 * k + 64 ≤ length store.old) × (i < text_limit) }
    ensures { store.new ≡ set store.old (64 * k + 1 + i) byte }
{
    store[64 * k + 1 + i] = byte;
}

// Writes record k.
#[tactic(auto, unfolding(crate::specs::Texts::recorded))]
pub fn write_record(text: &[u8], store: &mut [u8], k: usize)
    requires { (64 * k + 64 ≤ length store.old) × (length text.now ≤ text_limit) }
    ensures { store.new ≡ recorded store.old k text.now }
{
    store[64 * k] = text.len() as u8;
    for i in 0..text.len() {
        write_byte(store, k, i, text[i]);
    }
}

// Puts word k in front of chain h.
#[tactic(auto, unfolding(crate::specs::Index::linked, rows::specs::Table::field))]
fn link_word(table: &mut [i32], h: usize, k: usize)
    requires { (8 * h + 8 ≤ length table.old) × (4 ≤ k) × (8 * (k - 4) + 8 ≤ length table.old) × (k ≤ link_limit) }
    ensures { table.new ≡ linked table.old h k }
{
    let head = 8 * h + 2;
    let link = 8 * (k - 4) + 3;
    table[link] = table[head];
    table[head] = k as i32;
}

// The text becomes word `words`.
pub fn add_word(text: &[u8], table: &mut [i32], store: &mut [u8], buckets: usize, words: usize)
    requires { Indexed table.old store.old buckets words × Room table.old store.old words × (length text.now ≤ text_limit) × (record_with store.old words text.now ≡ None) }
    ensures { (store.new ≡ recorded store.old words text.now) × (table.new ≡ linked table.old (bucket_of buckets text.now) words) × Indexed table.new store.new buckets (words + 1) }
{
    let h = bucket_of(text, buckets);
    write_record(text, store, words);
    link_word(table, h, words);
}

// Clears the heads and links of the first rows.
#[tactic(auto, unfolding(crate::specs::Index::cleared))]
pub fn clear_index(table: &mut [i32], rows: usize)
    requires { 8 * rows ≤ length table.old }
    ensures { table.new ≡ cleared table.old rows }
{
    for i in 0..rows {
        table[8 * i + 2] = 0;
        table[8 * i + 3] = 0;
    }
}
