// The rows of the nodes of a lent double array, written one after another. The definitions that the contracts cite are in specs/.
#![tactic(auto)]

ghost use Rattle.std.specs.Prelude.{◌≡◌, ◌*◌, length};
ghost use Rattle.array_nodes.specs.Gathering.{IsNode, AllNodes};
ghost use Rattle.node_rows.specs.Steps.{WordsWritten, RowWritten, RowsWritten};

use backoff::Reason;
use double_array::Array;
use markers::Entry;

// Writes the words of the node in slot t into its row, oldest first, 0 past the last, and answers how many there are.
fn write_words(array: Array, t: usize, row: &mut [i32]) -> usize
    requires { IsNode array.base.now array.check.now t × (length row.old ≡ 8) }
    ensures { WordsWritten array.entry.base.now array.entry.check.now t row.new result }
{
    let mut s = t;
    let mut m = 0;
    for j in 0..5 {
        if s == 0 {
            row[j + 1] = 0;
            continue;
        }
        let p = array.check[s] as usize;
        row[j + 1] = child_slots::word_at(array.base[p] as usize, s) as i32;
        m += 1;
        s = p;
    }
    m
}

// Writes the row of the node in slot t; 12 where its marker is broken.
fn write_row(array: Array, t: usize, row: &mut [i32]) -> Result<(), Reason>
    requires { IsNode array.base.now array.check.now t × (length row.old ≡ 8) }
    ensures { RowWritten array.entry.base.now array.entry.check.now t row.new result }
{
    let m = write_words(array, t, row);
    let Entry { p, b, .. } = array.read_marker(m, t).ok_or(Reason::BrokenNode)?;
    row[0] = m as i32;
    row[6] = p;
    row[7] = b;
    Ok(())
}

// Writes the rows of the nodes in these slots; 12 where a marker is broken.
pub fn write_rows(array: Array, work: &[u32], table: &mut [i32]) -> Result<(), Reason>
    requires { AllNodes array.base.now array.check.now work.now × (length table.old ≡ 8 * length work.now) }
    ensures { RowsWritten array.entry.base.now array.entry.check.now work.now table.new result }
{
    for (i, slot) in work.iter().enumerate() {
        let start = 8 * i;
        let end = start + 8;
        write_row(array, *slot as usize, &mut table[start..end])?;
    }
    Ok(())
}
