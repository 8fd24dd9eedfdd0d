// TEXT of the totals program, read piece by piece, and the line of each sentence put behind what was printed.
#![tactic(auto)]

ghost use Rattle.std.specs.Prelude.{◌≡◌, ◌++◌, ◌+◌, ◌<◌, ◌≤◌, ◌^◌, length, take};
ghost use Rattle.std.proofs.Math.Seq.{paste};
ghost use Rattle.backoff.specs.Refusal.{text_line};
ghost use Rattle.carried_state.specs.Numbers.{numbers_of};
ghost use Rattle.word_walk.specs.Rows.{array_model};
ghost use Rattle.totals_text.specs.Lines.{refused_line};
ghost use Rattle.totals_sentence.specs.Steps.{Ready};
ghost use Rattle.totals_lines.specs.Steps.{PrintedAs, Begun, Fed, finished};

use backoff::Reason;
use carried_state::State;
use totals_sentence::Printed;

const LF: u8 = b'\n';

// The longest line of TEXT, 64 words.
const TEXT_LINE: usize = 512;

// How far TEXT is read: the number of the line that has begun, how many characters of it are known, whether the output has ended, as a refusal ends it,
// and how many characters the last piece of TEXT printed. A refusal is printed too, so that `ended` stands beside them.
#[derive(Drop)]
pub struct Progress {
    pub number: u64,
    pub count: usize,
    pub ended: bool,
    pub written: usize,
}

// Puts a text behind what was written, and answers the place behind it. Buffer and place stay two arguments: a struct of them would only lend the buffer once
// more at each call.
fn append(text: &[u8], out: &mut [u8], at: usize) -> usize
    requires { at + length text.now ≤ length out.old }
    ensures place { result ≡ at + length text.now }
    ensures text { out.new ≡ paste out.old at text.now (length text.now) }
{
    let end = at + text.len();
    out[at..end].copy_from_slice(text);
    end
}

// Puts the refusal of a line of TEXT behind what was written, and answers the place behind it.
fn append_refusal(number: u64, out: &mut [u8], at: usize) -> usize
    requires { at + 64 ≤ length out.old }
    ensures room { result ≤ at + 64 }
    ensures text { take result out.new ≡ take at out.old ++ refused_line text_line number }
{
    let mut line = [0u8; 64];
    let length = totals_text::refused_line(u32::from(Reason::TextLine), number, &mut line);
    append(&line[..length], out, at)
}

// Puts the line that is printed for a line of TEXT behind what was written.
fn append_sentence(
    base: &[i32],
    check: &[i32],
    start: State,
    number: u64,
    line: &[u8],
    out: &mut [u8],
    at: usize,
) -> Printed
    requires ready { Ready base.now check.now (numbers_of start) }
    requires at_in_bounds { at + 64 ≤ length out.old }
    ensures text { PrintedAs (array_model base.now check.now) number line.now result (take at out.old) (at + result.length) out.new }
{
    let mut text = [0u8; 64];
    let printed = totals_sentence::print_sentence(base, check, start, number, line, &mut text);
    append(&text[..printed.length], out, at);
    printed
}

// Reads a piece of TEXT behind the characters of the line that has begun, and leaves in out what it prints.
pub fn feed(
    base: &[i32],
    check: &[i32],
    start: State,
    piece: &[u8],
    progress: Progress,
    line: &mut [u8],
    out: &mut [u8],
) -> Progress
    requires ready { Ready base.now check.now (numbers_of start) }
    requires begun { Begun progress line.old }
    requires piece_len_bound { (length piece.now ≤ 1024) × (progress.number + length piece.now < 2 ^ 64) }
    requires out_len { length out.old ≡ 65536 }
    ensures room { result.written ≤ length out.new }
    ensures text { Fed (array_model base.now check.now) piece.now progress line.old result line.new (take result.written out.new) }
{
    let mut after = Progress {
        ended: false,
        written: 0,
        ..progress
    };
    for c in piece {
        if *c == LF {
            let printed = append_sentence(
                base,
                check,
                start,
                after.number,
                &line[..after.count],
                out,
                after.written,
            );
            after.written += printed.length;
            if !printed.accepted {
                after.ended = true;
                return after;
            }
            after.number += 1;
            after.count = 0;
            continue;
        }
        if after.count == TEXT_LINE {
            after.written = append_refusal(after.number, out, after.written);
            after.ended = true;
            return after;
        }
        line[after.count] = *c;
        after.count += 1;
    }
    after
}

// What is printed at the end of TEXT: a refusal where a line has begun.
pub fn finish(progress: Progress, out: &mut [u8; 64]) -> usize
    ensures room { result ≤ length out.new }
    ensures text { take result out.new ≡ finished progress.number progress.count }
{
    if progress.count == 0 {
        return 0;
    }
    totals_text::refused_line(u32::from(Reason::TextLine), progress.number, out)
}
