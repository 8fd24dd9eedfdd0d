// One node of a list placed: the root's, or that of a row with fewer than n words. The definitions that the contracts cite are in specs/.
#![tactic(auto)]

ghost use Rattle.std.specs.Prelude.{◌≡◌, ◌+◌, ◌<◌, ◌≤◌, length, MatchResult};
ghost use Rattle.backoff.specs.Limits.{order_limit};
ghost use Rattle.backoff.specs.declared.Reason.TheVariants.{NoRoom};
ghost use Rattle.backoff.specs.Refusal.{Accepted};
ghost use Rattle.rows.specs.Table.{rows_of, probability_at, backoff_at, length_of, order_of};
ghost use Rattle.list.specs.Check.{verdict};
ghost use Rattle.extensions.specs.Stretch.{Stretch};
ghost use Rattle.markers.specs.Markers.{marker_check, marker_base};
ghost use Rattle.row_nodes.specs.ListTrie.{RowsBelow};
ghost use Rattle.row_nodes.specs.Steps.{Flags, placed_nodes, Filled, TriedTop};

use backoff::Reason;
use first_fit::Node;
use row_search::Span;

// The order of an accepted list: the number of the last row's words.
pub fn order_of(table: &[i32]) -> usize
    requires { verdict table.now ≡ Accepted }
    ensures { (result ≡ order_of table.now) × (result ≤ order_limit) }
{
    rows::length_of(table, table.len() / 8 - 1)
}

// The number of rows with fewer than m words.
pub fn rows_below(table: &[i32], m: usize) -> usize
    requires { verdict table.now ≡ Accepted }
    ensures { RowsBelow table.now m result }
{
    let rows = table.len() / 8;
    for k in 0..rows {
        if m <= rows::length_of(table, k) {
            return k;
        }
    }
    rows
}

// A list that passed its checks, and the mark of each row: whether some row is this row followed by one more word.
#[derive(Clone, Copy)]
pub struct CheckedList<'a> {
    pub table: &'a [i32],
    pub marks: &'a [bool],
    pub ghost accepted: { verdict table.now ≡ Accepted },
    pub ghost flags: { Flags table.now marks.now },
}

impl<'a> CheckedList<'a> {
    // The order: the number of the last row's words.
    pub fn order(self) -> usize
        ensures { (result ≡ order_of self.entry.table.now) × (result ≤ order_limit) }
    {
        order_of(self.table)
    }

    // The number of rows with fewer than m words.
    pub fn rows_below(self, m: usize) -> usize
        ensures { RowsBelow self.entry.table.now m result }
    {
        rows_below(self.table, m)
    }

    // The node of row i, whose work item is its slot; it is extended and continued or not.
    fn row_node(self, i: usize, item: u32, extended: bool, continued: bool) -> Node
        requires { i < rows_of self.table.now }
        ensures { (result.slot ≡ item) × (result.mark ≡ marker_check (probability_at self.entry.table.now i)) × (result.load ≡ marker_base (backoff_at self.entry.table.now i) extended continued) }
    {
        Node {
            slot: item as usize,
            mark: markers::marker_check(rows::field(self.table, i, 6)),
            load: markers::marker_base(rows::field(self.table, i, 7), extended, continued),
        }
    }
}

// The new top where a node just placed lies below slot N, and else 10.
fn top_within(top: usize, slots: usize) -> Result<usize, Reason>
    ensures { MatchResult result (λ kept. (kept ≡ top) × (top ≤ slots)) (λ reason. (reason ≡ NoRoom) × (slots < top)) }
{
    if slots < top {
        return Err(Reason::NoRoom);
    }
    Ok(top)
}

// Places the node of row i, which has fewer than n words, its children's rows in hand. Answers the new top, or 10. The three slices stay three parameters: 10 leaves
// them in the caller's hands to be wiped, so a struct of them would be taken apart at each call.
pub fn place_row(
    list: CheckedList,
    i: usize,
    children: Span,
    base: &mut [i32],
    check: &mut [i32],
    work: &mut [u32],
    top: usize,
) -> Result<usize, Reason>
    requires row { (i < rows_of list.table.now) × (length_of list.table.now i < order_of list.table.now) × (top ≡ (placed_nodes list.table.now (i + 1)).top) × Stretch list.table.now i children.from children.to }
    requires filled { Filled list.table.now (length check.old) (placed_nodes list.table.now (i + 1)) base.old check.old work.old }
    ensures { TriedTop list.entry.table.now (length check.old) (placed_nodes list.entry.table.now (i + 2)) result base.new check.new work.new }
{
    let Span { from, to } = children;
    let node = list.row_node(i, work[i], from < to, list.marks[i]);
    let first = 8 * from;
    let end = 8 * to;
    let rows = &list.table[first..end];
    let top = first_fit::place_node(base, check, rows, &mut work[from..to], node, top);
    top_within(top, check.len())
}

// Places the root. Answers the top, or 10.
pub fn place_root(
    table: &[i32],
    base: &mut [i32],
    check: &mut [i32],
    work: &mut [u32],
) -> Result<usize, Reason>
    requires table_value { verdict table.now ≡ Accepted }
    requires filled { Filled table.now (length check.old) (placed_nodes table.now 0) base.old check.old work.old }
    ensures { TriedTop table.now (length check.old) (placed_nodes table.now 1) result base.new check.new work.new }
{
    let k = rows_below(table, 2);
    let end = 8 * k;
    let node = Node {
        slot: 0,
        mark: -1,
        load: work.len() as i32,
    };
    let top = first_fit::place_node(base, check, &table[..end], &mut work[..k], node, 1);
    top_within(top, check.len())
}
