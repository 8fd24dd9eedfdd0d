// The lines of the totals program: of LIST, whose columns have twelve characters, of TEXT, whose columns have eight, and of its output. The definitions
// that the contracts cite are in specs/.
#![tactic(auto)]

ghost use Rattle.std.specs.Prelude.{◌≡◌, true, cond, map, ◌+◌, ◌*◌, ◌≤◌, length};
ghost use Rattle.std.proofs.lemmas.List.Edits.{sets};
ghost use Rattle.backoff.specs.Run.{written};
ghost use Rattle.decimal.specs.Digits.{most_digits};
ghost use Rattle.columns.specs.Columns.{column};
ghost use Rattle.totals_text.specs.Lines.{columns, all_in_form, column_value, is_list_line, list_row, is_text_line, text_words, text_answer, ListLineMeans, TextLineMeans, refused_word, count_columns, sentence_line, refused_line};

// The characters of a column.
const LIST_WIDTH: usize = 12;

const TEXT_WIDTH: usize = 8;

// The characters of a line of LIST, and the most of a line of TEXT.
const LIST_LINE: usize = 8 * LIST_WIDTH;

const LONGEST_TEXT: usize = 64 * TEXT_WIDTH;

// Reads as many columns of a line as there is room for: whether each is a number, and none below the least.
fn read_columns(line: &[u8], width: usize, least: i32, numbers: &mut [i32]) -> bool
    requires { (width ≤ most_digits) × (width * length numbers.old ≤ length line.now) }
    ensures answer { result ≡ all_in_form least (columns width (length numbers.old) line.now) }
    ensures numbers { result ≡ true → numbers.new ≡ map column_value (columns width (length numbers.old) line.now) }
{
    for i in 0..numbers.len() {
        let at = width * i;
        let Some(z) = columns::read_column(&line[at..at + width], width) else {
            return false;
        };
        if z < least {
            return false;
        }
        numbers[i] = z;
    }
    true
}

// Reads a line of LIST, without its LF: whether it is in form, and then its eight numbers. A row that is not accepted is
// left as it was.
pub fn read_list_line(line: &[u8], row: &mut [i32; 8]) -> bool
    ensures answer { result ≡ is_list_line line.now }
    ensures numbers { row.new ≡ cond (is_list_line line.now) (list_row line.now) row.old }
    ensures meaning { ListLineMeans line.now result row.new }
{
    if line.len() != LIST_LINE {
        return false;
    }
    let mut numbers = [0i32; 8];
    if !read_columns(line, LIST_WIDTH, columns::LEAST_NUMBER, &mut numbers) {
        return false;
    }
    *row = numbers;
    true
}

// Reads a line of TEXT, without its LF: how many words it has, if it is in form, and then the words; what stands behind
// them, room for a closing word at least, is left as it was, and so are all where the line is refused.
pub fn read_text_line(line: &[u8], words: &mut [u32; 65]) -> Option<u32>
    ensures answer { result ≡ text_answer line.now }
    ensures words { words.new ≡ cond (is_text_line line.now) (written (text_words line.now) words.old) words.old }
    ensures meaning { TextLineMeans line.now result words.new }
{
    if LONGEST_TEXT < line.len() || line.len() % TEXT_WIDTH != 0 {
        return None;
    }
    let count = line.len() / TEXT_WIDTH;
    let mut room = [0i32; 64];
    let numbers = &mut room[..count];
    if !read_columns(line, TEXT_WIDTH, 0, numbers) {
        return None;
    }
    for i in 0..count {
        words[i] = numbers[i] as u32;
    }
    Some(count as u32)
}

// Writes a total 16 wide, and answers the place behind it.
fn put_total(total: i64, out: &mut [u8], at: usize) -> usize
    requires { at + length (column 16 total) ≤ length out.old }
    ensures place { result ≡ at + length (column 16 total) }
    ensures text { out.new ≡ sets out.old at (column 16 total) }
{
    columns::put_column(total < 0, total.unsigned_abs(), 16, out, at)
}

// Writes the three counts of a sentence, 8 wide each, and answers the place behind them.
fn put_counts(number: u64, words: u32, unknown: u32, out: &mut [u8]) -> usize
    requires { length (count_columns number words unknown) ≤ length out.old }
    ensures place { result ≡ length (count_columns number words unknown) }
    ensures text { out.new ≡ sets out.old 0 (count_columns number words unknown) }
{
    let first = columns::put_column(false, number, 8, out, 0);
    let second = columns::put_column(false, words as u64, 8, out, first);
    columns::put_column(false, unknown as u64, 8, out, second)
}

// Writes a sentence's line and answers its length. Numbers wider than their columns are written in full.
pub fn sentence_line(number: u64, words: u32, unknown: u32, total: i64, out: &mut [u8; 64]) -> usize
    ensures length { result ≡ length (sentence_line number words unknown total) }
    ensures room { result ≤ 64 }
    ensures text { out.new ≡ written (sentence_line number words unknown total) out.old }
{
    let at = put_counts(number, words, unknown, out);
    let end = put_total(total, out, at);
    out[end] = b'\n';
    end + 1
}

// Writes `refused`, and answers the place behind it.
fn put_refused(out: &mut [u8]) -> usize
    requires { 7 ≤ length out.old }
    ensures place { result ≡ length refused_word }
    ensures text { out.new ≡ sets out.old 0 refused_word }
{
    out[..7].copy_from_slice(b"refused");
    7
}

// Writes a refusal's line and answers its length. Numbers wider than their columns are written in full.
pub fn refused_line(number: u32, place: u64, out: &mut [u8; 64]) -> usize
    ensures length { result ≡ length (refused_line number place) }
    ensures room { result ≤ 64 }
    ensures text { out.new ≡ written (refused_line number place) out.old }
{
    let at = put_refused(out);
    let next = columns::put_column(false, number as u64, 8, out, at);
    let end = columns::put_column(false, place, 8, out, next);
    out[end] = b'\n';
    end + 1
}
