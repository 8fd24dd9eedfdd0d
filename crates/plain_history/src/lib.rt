// The history of plain scoring: the newest words, in four places. The definitions that the contracts cite are in specs/.
#![tactic(auto)]

ghost use Rattle.std.specs.Prelude.{◌≡◌, ◌≤◌};
ghost use Rattle.plain_history.specs.History.{first_history, pushed};

const START_WORD: i32 = backoff::START_WORD as i32;

// The history: the newest words, each replaced, oldest first, in the last `count` places. The places before them hold some word and take no part.
// Four places and a count, since there is no heap.
#[derive(Clone, Copy)]
pub struct Recent {
    pub words: [i32; 4],
    pub count: usize,
}

// The history of the run's first word, where a history has at most `most` words.
#[tactic(auto, unfolding(crate::specs::History::first_history))]
pub fn begin(most: usize, after_start: bool) -> Recent
    ensures { result ≡ first_history most after_start }
{
    Recent {
        words: [START_WORD; 4],
        count: if after_start { most.min(1) } else { 0 },
    }
}

// The history once the given word is scored as `known`: after a 3 `<s>` alone, else that word too.
#[tactic(auto, unfolding(crate::specs::History::pushed))]
pub fn push(most: usize, recent: Recent, word: u32, known: i32) -> Recent
    requires { recent.count ≤ 4 }
    ensures { result ≡ pushed most recent word known }
{
    if word == backoff::END_WORD {
        return begin(most, true);
    }
    let mut words = [known; 4];
    words[..3].copy_from_slice(&recent.words[1..]);
    Recent {
        words,
        count: most.min(recent.count + 1),
    }
}
