// The sentences of k words over the usable words of a lent double array, in their order: the usable words, how many sentences there are, and the one with a number.
#![tactic(auto)]

ghost use Rattle.std.specs.Prelude.{◌≡◌, ◌++◌, ◌-◌, ◌^◌, ◌≤◌, ◌<◌, min, take, get_or, replicate, negsuc, length};
ghost use Rattle.backoff.specs.Limits.{word_limit, sentence_limit, usable_limit};
ghost use Rattle.child_slots.specs.Children.{free_check};
ghost use Rattle.sentence_order.specs.Inner.{usable_child};

use double_array::Array;

// Whether the root has a child for the word, which is neither 2 nor 3.
#[tactic(auto, unfolding(crate::specs::Inner::usable_child))]
fn is_usable(check: &[i32], w: u32) -> bool
    requires { get_or check.now 1 free_check ≡ negsuc 0 }
    ensures { result ≡ usable_child check.now w }
{
    w != backoff::START_WORD
        && w != backoff::END_WORD
        && child_slots::root_child(check, w).is_some()
}

// The largest word that is looked for: none above it has a slot among so many.
fn last_word(slots: usize) -> u32
    ensures { result ≡ min slots word_limit }
{
    slots.min(backoff::WORD_LIMIT as usize) as u32
}

// The usable words of an array, in ascending order: the first `count` of these.
#[derive(Clone, Copy)]
pub struct Usable {
    pub count: usize,
    pub words: [u32; 16],
    pub ghost few: { count ≤ usable_limit },
    pub ghost long: { length words ≡ usable_limit },
}

impl Usable {
    ghost use Rattle.sentence_order.specs.Sentences.{passing};
    ghost use Rattle.sentence_order.specs.Inner.{sentence_at};
    ghost use Rattle.sentence_order.specs.Usable.{listed, Holds};

    // Looked for in ascending order; the seventeenth ends the search, and then there are none.
    pub fn of(array: Array) -> Option<Usable>
        ensures { Holds (passing (usable_child array.entry.check.now) word_limit) result }
    {
        let mut words = [0; 16];
        let mut count = 0;
        for w in 1..last_word(array.check.len()) + 1 {
            if is_usable(array.check, w) {
                if count == backoff::USABLE_LIMIT {
                    return None;
                }
                words[count] = w;
                count += 1;
            }
        }
        Some(Usable { count, words })
    }

    // The words themselves.
    pub fn words(&self) -> &[u32]
        ensures { result.now ≡ listed self.now }
    {
        &self.words[..self.count]
    }

    // How many sentences of k words there are.
    pub fn power(&self, k: usize) -> usize
        requires { k ≤ sentence_limit }
        ensures { (result ≡ self.now.count ^ k) × (result ≤ 65536) }
    {
        self.count.pow(k as u32)
    }

    // The sentence with the number i, counted from 0, and 0s behind it.
    pub fn nth_sentence(&self, k: usize, i: usize) -> [u32; 4]
        requires { (0 < self.now.count) × (k ≤ sentence_limit) }
        ensures { result ≡ sentence_at (listed self.now) k i ++ replicate (4 - k) 0 }
    {
        let mut sentence = [0; 4];
        let mut rest = i;
        for j in (0..k).rev() {
            sentence[j] = self.words[rest % self.count];
            rest /= self.count;
        }
        sentence
    }
}
