// The builder of the double array. The definitions that the contracts cite are in specs/.
#![tactic(auto)]

ghost use Rattle.std.specs.Prelude.{◌≡◌, true, length};
ghost use Rattle.backoff.specs.Refusal.{verdict_of, number_in, place_in};
ghost use Rattle.rows.specs.Table.{rows_of};
ghost use Rattle.list.specs.Check.{table_fits, verdict};
ghost use Rattle.double_array.specs.DoubleArray.{sizes_ok};
ghost use Rattle.placed_list.specs.Build.{checked_build, IsBuilt};
ghost use Rattle.build.specs.Build.{build_outcome};
ghost use Rattle.build.specs.Meaning.{BuildMeans};

use backoff::{Reason, Refusal};
use row_nodes::CheckedList;

// Checks 3 to 9, then the array of a list that passes them. The check's own searches tell f. Its marks stand on the stack, since before 9 nothing that is lent may be written.
fn check_and_place(
    table: &[i32],
    base: &mut [i32],
    check: &mut [i32],
    work: &mut [u32],
) -> Result<(), Refusal>
    requires { (table_fits (length table.now) ≡ true) × (sizes_ok base.old check.old ≡ true) × (length work.old ≡ rows_of table.now) }
    ensures { IsBuilt (checked_build table.now base.old check.old work.old (verdict table.now)) (verdict_of result) base.new check.new work.new }
{
    let mut marks = [false; backoff::ROW_LIMIT];
    let marks = &mut marks[..work.len()];
    list::check_and_mark(table, false, marks)?;
    placed_list::place_list(CheckedList { table, marks }, base, check, work)
}

// The paper's build. Nothing is written before the list has passed its checks.
pub fn build(
    table: &[i32],
    base: &mut [i32],
    check: &mut [i32],
    work: &mut [u32],
) -> Result<(), Refusal>
    ensures outcome { IsBuilt (build_outcome table.now base.old check.old work.old) (verdict_of result) base.new check.new work.new }
    ensures meaning { BuildMeans table.now base.old check.old work.old (number_in result) (place_in result) base.new check.new }
{
    if !list::table_fits(table.len()) {
        return Err(Reason::TableLength.into());
    }
    let rows = table.len() / 8;
    if !double_array::sizes_ok(base, check) || work.len() < rows {
        return Err(Reason::ArrayLength.into());
    }
    check_and_place(table, base, check, &mut work[..rows])
}
