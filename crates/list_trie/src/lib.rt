// The nodes of a list placed one by one. The definitions that the contracts cite are in specs/.
#![tactic(auto)]

ghost use Rattle.std.specs.Prelude.{◌≡◌, List, ℕ, ◌+◌, ℤ, length};
ghost use Rattle.rows.specs.Table.{order_of};
ghost use Rattle.row_nodes.specs.ListTrie.{RowsBelow};
ghost use Rattle.row_nodes.specs.Steps.{placed_nodes, Filled, Tried, TriedTop};
ghost use Rattle.list_trie.specs.ListTrie.{placed_list};

use backoff::Reason;
use row_nodes::CheckedList;
pub use row_nodes::order_of;
use row_search::Span;

// Places the nodes of the rows from row `first` on, which have n words: the node's own BASE holds p − 1, and no slot is taken.
fn place_longest(list: CheckedList, first: usize, base: &mut [i32], work: &[u32])
    requires table_value { RowsBelow list.table.now (order_of list.table.now) first }
    requires by_index { (N : ℕ) × (check : List ℤ) × Filled list.table.now N (placed_nodes list.table.now (first + 1)) base.old check work.now }
    ensures { (N : ℕ) (check : List ℤ) → Filled list.entry.table.now N (placed_nodes list.entry.table.now (first + 1)) base.old check work.now → Tried list.entry.table.now N (placed_list list.entry.table.now) (placed_nodes list.entry.table.now (first + 1)).top base.new check work.now }
{
    for i in first..work.len() {
        let mark = markers::marker_check(rows::field(list.table, i, 6));
        free_slots::set_base(base, work[i] as usize, mark);
    }
}

// Places the nodes of the rows, one by one, as long as they have room; the first `shorter` rows have fewer than n words. A row's children stand behind those of
// the row before it. Answers the new top, or 10.
fn place_rows(
    list: CheckedList,
    shorter: usize,
    base: &mut [i32],
    check: &mut [i32],
    work: &mut [u32],
    top: usize,
) -> Result<usize, Reason>
    requires table_value { RowsBelow list.table.now (order_of list.table.now) shorter × (top ≡ (placed_nodes list.table.now 1).top) }
    requires filled { Filled list.table.now (length check.old) (placed_nodes list.table.now 1) base.old check.old work.old }
    ensures { TriedTop list.entry.table.now (length check.old) (placed_list list.entry.table.now) result base.new check.new work.new }
{
    let mut top = top;
    let mut from = list.rows_below(2);
    for i in 0..shorter {
        let to = extensions::children_end(list.table, i, from);
        top = row_nodes::place_row(list, i, Span { from, to }, base, check, work, top)?;
        from = to;
    }
    place_longest(list, shorter, base, work);
    Ok(top)
}

// Places the root and the rows, as long as they have room. Answers the top, or 10.
pub fn place_nodes(
    list: CheckedList,
    base: &mut [i32],
    check: &mut [i32],
    work: &mut [u32],
) -> Result<usize, Reason>
    requires { Filled list.table.now (length check.old) (placed_nodes list.table.now 0) base.old check.old work.old }
    ensures { TriedTop list.entry.table.now (length check.old) (placed_list list.entry.table.now) result base.new check.new work.new }
{
    let top = row_nodes::place_root(list.table, base, check, work)?;
    let shorter = list.rows_below(list.order());
    place_rows(list, shorter, base, check, work, top)
}
