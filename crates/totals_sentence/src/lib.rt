// The line that the totals program prints for a line of TEXT: its words are read, closed and scored.
#![tactic(auto)]

ghost use Rattle.std.specs.Prelude.{◌≡◌, [], ◌∷◌, ◌-◌, ◌≤◌, length, take, IfSome};
ghost use Rattle.integer.specs.Integer.{sum};
ghost use Rattle.backoff.specs.Limits.{start_word};
ghost use Rattle.backoff.specs.Rule.{rule_points};
ghost use Rattle.backoff.specs.Counts.{says_unknown, count};
ghost use Rattle.backoff.specs.Run.{written};
ghost use Rattle.carried_state.specs.Numbers.{numbers_of};
ghost use Rattle.word_walk.specs.Rows.{array_model};
ghost use Rattle.totals_text.specs.Lines.{is_text_line, text_answer, sentence_line};
ghost use Rattle.totals_sentence.specs.Sentence.{unknown_in};
ghost use Rattle.totals_sentence.specs.Steps.{Closed, Ready, line_output};
ghost use Rattle.totals_sentence.specs.Held.{count_in};

use backoff::Reason;
use carried_state::State;

// A length byte has 8 added where the word is unknown. The matched length is below it, and all else that is added is a multiple of 16.
const UNKNOWN: u8 = 8;

// A line of TEXT that is in form: how many words it has, and the words with the closing word behind them.
#[derive(Drop)]
struct Sentence {
    count: u32,
    words: [u32; 65],
}

// A line that was printed: whether the sentence was accepted, and how many characters the line has. A refused line is printed too, so the length stands beside
// the flag.
#[derive(Drop)]
pub struct Printed {
    pub accepted: bool,
    pub length: usize,
}

// Reads a line of TEXT, if it is in form, and closes it.
fn read_sentence(line: &[u8]) -> Option<Sentence>
    ensures answer { count_in result ≡ text_answer line.now }
    ensures words { IfSome result (λ sentence. Closed line.now sentence.words) }
{
    let mut words = [0u32; 65];
    let count = totals_text::read_text_line(line, &mut words)?;
    words[count as usize] = backoff::END_WORD;
    Some(Sentence { count, words })
}

// How many length bytes are those of unknown words, whose matched row may be extended too.
fn count_unknown(lengths: &[u8]) -> u32
    requires { length lengths.now ≤ 64 }
    ensures { result ≡ count says_unknown lengths.now }
{
    lengths
        .iter()
        .filter(|byte| **byte / UNKNOWN % 2 == 1)
        .count() as u32
}

// The line of a sentence of n words; they are lent with the closing word behind them.
fn score_sentence(
    base: &[i32],
    check: &[i32],
    start: State,
    number: u64,
    n: u32,
    words: &[u32],
    out: &mut [u8; 64],
) -> usize
    requires ready { Ready base.now check.now (numbers_of start) }
    requires in_bounds { (1 ≤ length words.now) × (length words.now ≤ 65) }
    ensures length { result ≡ length (sentence_line number n (unknown_in (array_model base.now check.now) (take (length words.now - 1) words.now)) (sum (rule_points (array_model base.now check.now) (start_word ∷ []) words.now))) }
    ensures room { result ≤ 64 }
    ensures text { out.new ≡ written (sentence_line number n (unknown_in (array_model base.now check.now) (take (length words.now - 1) words.now)) (sum (rule_points (array_model base.now check.now) (start_word ∷ []) words.now))) out.old }
{
    let mut points = [0i32; 65];
    let mut lengths = [0u8; 65];
    let ran = score::run(base, check, start, words, &mut points, &mut lengths);
    let total = ran.map_or(0, |ran| ran.total);
    let count = words.len() - 1;
    let unknown = count_unknown(&lengths[..count]);
    totals_text::sentence_line(number, n, unknown, total, out)
}

// The line that is printed for a line of TEXT.
pub fn print_sentence(
    base: &[i32],
    check: &[i32],
    start: State,
    number: u64,
    line: &[u8],
    out: &mut [u8; 64],
) -> Printed
    requires { Ready base.now check.now (numbers_of start) }
    ensures accepted { result.accepted ≡ is_text_line line.now }
    ensures length { result.length ≡ length (line_output (array_model base.now check.now) number line.now) }
    ensures room { result.length ≤ 64 }
    ensures text { out.new ≡ written (line_output (array_model base.now check.now) number line.now) out.old }
{
    let Some(sentence) = read_sentence(line) else {
        let length = totals_text::refused_line(u32::from(Reason::TextLine), number, out);
        return Printed {
            accepted: false,
            length,
        };
    };
    let n = sentence.count;
    let words = sentence.words;
    let count = n as usize + 1;
    let length = score_sentence(base, check, start, number, n, &words[..count], out);
    Printed {
        accepted: true,
        length,
    }
}
