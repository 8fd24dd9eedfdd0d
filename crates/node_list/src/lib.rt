// The nodes of a lent double array as a list: their rows, and whether these are accepted and every e and f is right. The definitions that the contracts
// cite are in specs/.
#![tactic(auto)]

ghost use Rattle.std.specs.Prelude.{◌≡◌, true, ◌&&◌, ◌*◌, ◌<◌, eqb, length};
ghost use Rattle.backoff.specs.Refusal.{number_of};
ghost use Rattle.rows.specs.Table.{rows_of, order_of};
ghost use Rattle.list.specs.Check.{verdict};
ghost use Rattle.list.specs.Marks.{NoneMarked, Marked};
ghost use Rattle.double_array.specs.DoubleArray.{order_in, marker_at};
ghost use Rattle.array_nodes.specs.Nodes.{slots_of, reached};
ghost use Rattle.node_rows.specs.Rows.{table_of};
ghost use Rattle.node_list.specs.Listed.{rows_in, is_right, is_list};
ghost use Rattle.node_list.specs.Steps.{NodesWritten, NodesAsRows, marks_right, Comparable};

use backoff::Reason;
use double_array::Array;
use row_search::Span;

// Whether the node in a slot, to which `depth` words lead, has a sound marker with this e and f.
fn is_right(array: Array, depth: usize, slot: u32, e: bool, f: bool) -> bool
    requires { slot < length array.base.now }
    ensures { result ≡ is_right (marker_at array.entry.base.now array.entry.check.now depth slot) e f }
{
    let Some(entry) = array.read_marker(depth, slot as usize) else {
        return false;
    };
    entry.e == e && entry.f == f
}

// Whether the marker of each row's node has the e that the rows ask for and the f that is marked.
fn are_right(array: Array, table: &[i32], marks: &[bool], work: &[u32]) -> bool
    requires { Comparable array.base.now array.check.now table.now marks.now work.now }
    ensures { result ≡ marks_right array.entry.base.now array.entry.check.now table.now marks.now 0 work.now }
{
    let mut near = 0;
    for (i, slot) in work.iter().enumerate() {
        let Span { from, to } = extensions::children(table, i, near);
        let depth = rows::length_of(table, i);
        if !is_right(array, depth, *slot, from < to, marks[i]) {
            return false;
        }
        near = to;
    }
    true
}

// Whether the rows are an accepted list of order n; if so, every row is marked that some row is without its last word.
fn is_listed(array: Array, table: &[i32], marks: &mut [bool]) -> bool
    requires { NoneMarked marks.old }
    ensures answer { result ≡ (eqb (number_of (verdict table.now)) 0 && eqb (order_of table.now) (order_in array.entry.check.now)) }
    ensures marks { result ≡ true → Marked table.now (rows_of table.now) marks.new }
{
    if list::check_and_mark(table, false, marks).is_err() {
        return false;
    }
    rows::length_of(table, table.len() / 8 - 1) == array.order
}

// Gathers the nodes, sorts their slots and writes their rows; 12 where there are not as many as rows, or a marker is broken.
pub fn rows_of_nodes(array: Array, table: &mut [i32], work: &mut [u32]) -> Result<(), Reason>
    requires { (length table.old ≡ 8 * rows_in array.base.now) × (length work.old ≡ rows_in array.base.now) }
    ensures { NodesAsRows array.entry.base.now array.entry.check.now table.new work.new result }
{
    array_nodes::gather(array, work)?;
    node_order::sort(array, work, table);
    node_rows::write_rows(array, work, table)
}

// Whether the rows of all nodes are an accepted list of order n, and every e and f is right. The marks of f stand on the stack.
pub fn is_unloaded(array: Array, table: &[i32], work: &[u32]) -> bool
    requires { (table.now ≡ table_of array.base.now array.check.now (reached array.base.now array.check.now (order_in array.check.now))) × (work.now ≡ slots_of (reached array.base.now array.check.now (order_in array.check.now))) × (length work.now ≡ rows_in array.base.now) }
    ensures { result ≡ is_list array.entry.base.now array.entry.check.now (reached array.entry.base.now array.entry.check.now (order_in array.entry.check.now)) }
{
    let mut marks = [false; backoff::ROW_LIMIT];
    let marks = &mut marks[..work.len()];
    is_listed(array, table, marks) && are_right(array, table, marks, work)
}
