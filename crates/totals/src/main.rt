// The totals program of document 01: it builds the double array of the rows in LIST, and prints a line for each sentence of TEXT.
#![tactic(auto)]

ghost use Rattle.std.specs.Prelude.{◌+◌, ◌<◌, ◌≤◌, ◌^◌, length};
ghost use Rattle.std.specs.Counts.{IsPrefixLen};
ghost use Rattle.carried_state.specs.Numbers.{numbers_of};
ghost use Rattle.totals_sentence.specs.Steps.{Ready};
ghost use Rattle.totals_lines.specs.Steps.{Begun};
ghost use Rattle.totals.specs.Totals.{HoldsBuilt};

use backoff::{Reason, Refusal};
use carried_state::State;
use std::fs;
use std::io::Read;
use std::rt::Files;
use totals_lines::Progress;

// The most pieces of TEXT that are read: 2^53, of up to 1,024 bytes.
const MOST_PIECES: u64 = 1 << 53;

// Tells on standard error what standard output does not show: that a file counts as empty since it cannot be opened or read, and an output that is not taken.
fn tell(rt: &impl Eprint, text: &str) {
    let _ = rt.eprintln(text);
}

// Writes to standard output: whether it took all.
fn print(rt: &(impl Print + Eprint), text: &[u8]) -> bool {
    let taken = rt.write_all(text).is_ok();
    if !taken {
        tell(rt, "totals: standard output takes no more");
    }
    taken
}

fn print_refusal(rt: &(impl Print + Eprint), refusal: Refusal<u64>) {
    let mut out = [0u8; 64];
    let length = totals_text::refused_line(u32::from(refusal.reason), refusal.place, &mut out);
    print(rt, &out[..length]);
}

fn print_end(rt: &(impl Print + Eprint), progress: Progress) {
    let mut out = [0u8; 64];
    let length = totals_lines::finish(progress, &mut out);
    print(rt, &out[..length]);
}

// Scores a piece of TEXT and prints its lines.
fn print_piece(
    rt: &(impl Print + Eprint),
    base: &[i32],
    check: &[i32],
    start: State,
    piece: &[u8],
    progress: Progress,
    line: &mut [u8],
) -> Progress
    requires ready { Ready base.now check.now (numbers_of start) }
    requires begun_2 { Begun progress line.old }
    requires piece_len_bound { (length piece.now ≤ 1024) × (progress.number + length piece.now < 2 ^ 64) }
    ensures begun { Begun result line.new }
    ensures number { result.number ≤ progress.number + length piece.now }
{
    let mut out = [0u8; 65536];
    let mut after = totals_lines::feed(base, check, start, piece, progress, line, &mut out);
    let written = after.written;
    if !print(rt, &out[..written]) {
        after.ended = true;
    }
    after
}

// Reads a piece of TEXT: how many bytes, which is none at its end and where it cannot be read.
fn read_text(rt: &impl Eprint, file: &mut impl Read, piece: &mut [u8]) -> usize
    ensures { IsPrefixLen result piece.new }
{
    match file.read(piece) {
        Ok(got) => got,
        Err(_) => {
            tell(rt, "totals: TEXT cannot be read");
            0
        }
    }
}

// Reads TEXT piece by piece. A proved loop has to end, and nothing says that a file does: after 2^53 pieces the reading would stop.
fn print_text(
    rt: &(impl Print + Eprint),
    base: &[i32],
    check: &[i32],
    start: State,
    file: &mut impl Read,
)
    requires { Ready base.now check.now (numbers_of start) }
{
    let mut line = [0u8; 512];
    let mut progress = Progress {
        number: 1,
        count: 0,
        ended: false,
        written: 0,
    };
    for turn in 0..MOST_PIECES {
        let mut piece = [0u8; 1024];
        let got = read_text(rt, file, &mut piece);
        if got == 0 {
            print_end(rt, progress);
            return;
        }
        progress = print_piece(rt, base, check, start, &piece[..got], progress, &mut line);
        if progress.ended {
            return;
        }
    }
}

// Opens TEXT and prints its totals.
fn print_file(rt: &(impl Files + Print + Eprint), base: &[i32], check: &[i32], start: State)
    requires { Ready base.now check.now (numbers_of start) }
{
    match fs::open(rt, "TEXT") {
        Ok(mut file) => print_text(rt, base, check, start, &mut file),
        Err(_) => tell(rt, "totals: TEXT cannot be opened"),
    }
}

// Prints the totals of TEXT over the arrays.
fn print_totals(rt: &(impl Files + Print + Eprint), base: &[i32], check: &[i32])
    requires { HoldsBuilt base.now check.now }
{
    let start = score::start(base, check).unwrap_or_default();
    print_file(rt, base, check, start);
}

// Builds the arrays of the rows, and prints the totals over them.
fn build_list(rt: &(impl Files + Print + Eprint), table: &[i32]) {
    let mut base = [0i32; 4096];
    let mut check = [0i32; 4096];
    let mut work = [0u32; 512];
    match build::build(table, &mut base, &mut check, &mut work) {
        Err(refusal) => print_refusal(rt, refusal.into()),
        Ok(()) => print_totals(rt, &base, &check),
    }
}

// Reads until text is full, LIST ends or a read fails: how many bytes there are.
fn read_full(file: &mut impl Read, text: &mut [u8]) -> usize
    ensures { IsPrefixLen result text.new }
{
    let mut done = 0;
    while done < text.len() {
        match file.read(&mut text[done..]) {
            Ok(got) if got > 0 => done += got,
            _ => break,
        }
    }
    done
}

// What `read_full` does not tell: that LIST cannot be read further.
fn tell_unread(rt: &impl Eprint, file: &mut impl Read) {
    let mut further = [0u8; 16];
    if file.read(&mut further).is_err() {
        tell(rt, "totals: LIST cannot be read");
    }
}

// The first bytes of LIST, as many as fit, and how many there are. The first 49,665 decide: 512 lines of 97, and one more.
fn load_list(rt: &(impl Files + Eprint), text: &mut [u8]) -> usize
    ensures { IsPrefixLen result text.new }
{
    match fs::open(rt, "LIST") {
        Ok(mut file) => {
            let count = read_full(&mut file, text);
            tell_unread(rt, &mut file);
            count
        }
        Err(_) => {
            tell(rt, "totals: LIST cannot be opened");
            0
        }
    }
}

fn main(rt: HostRuntime) {
    let mut text = [0u8; 65536];
    let count = load_list(&rt, &mut text);
    let mut table = [0i32; 4096];
    match totals_list::read_list(&text[..count], &mut table) {
        Err(line) => {
            let refusal = Refusal {
                reason: Reason::TextLine,
                place: line,
            };
            print_refusal(&rt, refusal);
        }
        Ok(rows) => {
            let end = 8 * rows;
            build_list(&rt, &table[..end]);
        }
    }
}
