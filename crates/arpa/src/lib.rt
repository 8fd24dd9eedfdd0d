// The reader of ARPA texts: it fills a lent table with the rows in list order and a lent store with the words' texts. The definitions that the
// contracts cite are in specs/.
#![tactic(auto)]

ghost use Rattle.std.specs.Prelude.{length};
ghost use Rattle.arpa_reading.specs.Rows.{rows_in};
ghost use Rattle.arpa_reading.specs.Outcome.{read_number, read_place, row_count};
ghost use Rattle.arpa.specs.Outcome.{read_arpa, Leaves};
ghost use Rattle.arpa.specs.Meaning.{ReadMeans};

use backoff::Refusal;

// Reads an ARPA text, whose list is taken as it is or to be filled. Accepted, the table has the rows in list order and the store the words' texts, both with 0 behind them; refused, both are 0.
pub fn read_arpa(
    text: &[u8],
    filling: bool,
    table: &mut [i32],
    store: &mut [u8],
) -> Result<u32, Refusal<u64>>
    ensures outcome { Leaves (read_arpa filling (length table.old) (length store.old) text.now) (rows_in result) table.new store.new }
    ensures meaning { ReadMeans filling text.now (read_number (rows_in result)) (read_place (rows_in result)) (row_count (rows_in result)) table.new store.new }
{
    table.fill(0);
    store.fill(0);
    let ending = arpa_reading::read_lines(text, table, store);
    let answer = arpa_reading::conclude(table, ending, filling);
    if answer.is_err() {
        table.fill(0);
        store.fill(0);
    }
    answer
}
