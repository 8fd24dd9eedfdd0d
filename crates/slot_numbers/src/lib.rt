// Slots in ascending order, and the number of one among them. The definitions that the contracts cite are in specs/.
#![tactic(auto)]

ghost use Rattle.std.specs.Prelude.{◌≡◌, true, ℕ, ◌+◌, ◌*◌, ◌≤◌, pos, length, get_or};
ghost use Rattle.backoff.specs.Limits.{row_limit};
ghost use Rattle.slot_numbers.specs.Numbers.{Ascending, number_in};

// The number of the node in a slot, found by halving: the nodes are numbered from 1 by ascending slot, and the root is 0.
fn number_of(work: &[u32], slot: u32) -> usize
    requires { Ascending work.now }
    ensures { result ≡ number_in work.now slot }
{
    work.partition_point(|own| *own <= slot)
}

// Where the number of the node in a slot is noted, behind three numbers for each node: a hint, on which no answer depends.
fn note_place(rows: usize, slot: u32) -> usize
    requires { rows ≤ row_limit }
    ensures { result ≡ 3 * rows + 1 + slot }
{
    3 * rows + 1 + slot as usize
}

// Writes 0 everywhere, then the numbers of the nodes where they are noted, as far as there is room.
pub fn note_numbers(work: &[u32], notes: &mut [i32])
    requires { length work.now ≤ row_limit }
    ensures { (x : ℕ) → x ≤ length work.now → get_or notes.new x (pos 0) ≡ pos 0 }
{
    notes.fill(0);
    for (k, slot) in work.iter().enumerate() {
        let place = note_place(work.len(), *slot);
        if notes.len() <= place {
            return;
        }
        notes[place] = k as i32 + 1;
    }
}

// The number noted in a place, where the table has that place.
fn noted(table: &[i32], place: usize) -> Option<usize> {
    let number = table.get(place)?;
    usize::try_from(*number).ok()
}

// Whether the node in a slot has this number.
fn is_number(work: &[u32], slot: u32, number: usize) -> bool
    requires { Ascending work.now }
    ensures { result ≡ true → number ≡ number_in work.now slot }
{
    if work.len() < number || number < work.len() && work[number] <= slot {
        return false;
    }
    number == 0 || work[number - 1] <= slot
}

// The number of the node in a slot, as it is noted or else by halving.
pub fn number_near(work: &[u32], table: &[i32], slot: u32) -> usize
    requires { Ascending work.now × (length work.now ≤ row_limit) }
    ensures { result ≡ number_in work.now slot }
{
    let number = noted(table, note_place(work.len(), slot)).unwrap_or(0);
    if is_number(work, slot, number) {
        return number;
    }
    number_of(work, slot)
}
