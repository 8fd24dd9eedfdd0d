// LIST of the totals program: its lines, read into a table of rows.
#![tactic(auto)]

ghost use Rattle.std.specs.Prelude.{◌≡◌, cond, ◌+◌, ◌≤◌, length};
ghost use Rattle.std.proofs.Math.Seq.{paste};
ghost use Rattle.totals_text.specs.Lines.{is_list_line, list_row};
ghost use Rattle.totals_list.specs.List.{ReadAs};

const LF: u8 = b'\n';

// LIST has at most so many lines.
const LIST_LINES: usize = 512;

// Reads a line of LIST into the table: whether it is in form.
fn read_row(line: &[u8], table: &mut [i32], at: usize) -> bool
    requires { at + 8 ≤ length table.old }
    ensures answer { result ≡ is_list_line line.now }
    ensures row { table.new ≡ cond (is_list_line line.now) (paste table.old at (list_row line.now) 8) table.old }
{
    let mut row = [0i32; 8];
    if !totals_text::read_list_line(line, &mut row) {
        return false;
    }
    table[at..at + 8].copy_from_slice(&row);
    true
}

// Reads LIST into the table: how many rows it has, or the number of its first line that is not in form.
pub fn read_list(text: &[u8], table: &mut [i32]) -> Result<usize, u64>
    requires { length table.old ≡ 4096 }
    ensures { ReadAs text.now result table.new }
{
    let mut at = 0;
    let mut i = 0;
    while at < text.len() {
        let number = i as u64 + 1;
        let end = text_parts::part_end(text, at, LF);
        if end == text.len() {
            return Err(number);
        }
        if i == LIST_LINES {
            return Err(number);
        }
        if !read_row(&text[at..end], table, 8 * i) {
            return Err(number);
        }
        at = end + 1;
        i += 1;
    }
    Ok(i)
}
