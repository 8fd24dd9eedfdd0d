// A number in a column of text: read from a column of any width, and printed right-justified in one. The definitions that the contracts cite are in
// specs/.
#![tactic(auto)]

ghost use Rattle.std.specs.Prelude.{◌≡◌, ◌+◌, ◌-◌, ◌≤◌, length, replicate};
ghost use Rattle.std.proofs.lemmas.List.Edits.{sets};
ghost use Rattle.decimal.specs.Digits.{most_digits};
ghost use Rattle.columns.specs.Columns.{signed, justified, without_spaces, if_held, read_natural, read_negative, read_numeral, read_column, ColumnMeans};

// The least number that 32 bits hold.
pub const LEAST_NUMBER: i32 = i32::MIN;

// The text behind the spaces before it.
fn without_spaces(text: &[u8]) -> &[u8]
    ensures rest { result.now ≡ without_spaces text.now }
    ensures within { length result.now ≤ length text.now }
{
    let start = text.iter().position(|c| *c != b' ').unwrap_or(text.len());
    &text[start..]
}

// The number z, if 32 bits hold it.
fn if_held(z: i64) -> Option<i32>
    ensures { result ≡ if_held z }
{
    i32::try_from(z).ok()
}

// The number 0 or more that so many characters spell.
fn read_natural(text: &[u8]) -> Option<i32>
    requires { length text.now ≤ most_digits }
    ensures { result ≡ read_natural text.now }
{
    if !decimal::is_natural(text) {
        return None;
    }
    if_held(decimal::value(text) as i64)
}

// The negative number that so many characters behind a minus spell.
fn read_negative(text: &[u8]) -> Option<i32>
    requires { length text.now ≤ most_digits }
    ensures { result ≡ read_negative text.now }
{
    if !decimal::is_natural(text) {
        return None;
    }
    let size = decimal::value(text);
    if size == 0 {
        return None;
    }
    if_held(-(size as i64))
}

// The number that so many characters without spaces before them spell.
fn read_numeral(text: &[u8]) -> Option<i32>
    requires { length text.now ≤ most_digits }
    ensures { result ≡ read_numeral text.now }
{
    match text {
        [] => None,
        [b'-', size @ ..] => read_negative(size),
        _ => read_natural(text),
    }
}

// The number in a column of so many characters.
pub fn read_column(text: &[u8], width: usize) -> Option<i32>
    requires { width ≤ most_digits }
    ensures answer { result ≡ read_column width text.now }
    ensures meaning { ColumnMeans width text.now result }
{
    if text.len() != width {
        return None;
    }
    read_numeral(without_spaces(text))
}

// What follows writes into a lent buffer from a place on: memory is fixed, and a struct of the two would only lend the buffer once more at each call.

// How many characters a minus where it is wanted and the digits of size take.
fn signed_length(negative: bool, size: u64) -> usize
    ensures { result ≡ length (signed negative size) }
{
    usize::from(negative) + decimal::count_digits(size)
}

// Writes a minus where it is wanted and the digits of size, and answers the place behind them.
fn put_signed(negative: bool, size: u64, out: &mut [u8], at: usize) -> usize
    requires { at + length (signed negative size) ≤ length out.old }
    ensures place { result ≡ at + length (signed negative size) }
    ensures text { out.new ≡ sets out.old at (signed negative size) }
{
    if negative {
        out[at] = b'-';
        decimal::put_digits(size, out, at + 1)
    } else {
        decimal::put_digits(size, out, at)
    }
}

// Writes the spaces before a text of so many characters in a column, and answers the place behind them.
fn put_spaces(taken: usize, width: usize, out: &mut [u8], at: usize) -> usize
    requires { at + (width - taken) ≤ length out.old }
    ensures place { result ≡ at + (width - taken) }
    ensures text { out.new ≡ sets out.old at (replicate (width - taken) 32) }
{
    let end = at + width.saturating_sub(taken);
    out[at..end].fill(b' ');
    end
}

// Writes a number right-justified in a column, and answers the place behind it. A number that is wider than the column
// is written in full: document 01 does not say what happens there.
pub fn put_column(negative: bool, size: u64, width: usize, out: &mut [u8], at: usize) -> usize
    requires { at + length (justified width (signed negative size)) ≤ length out.old }
    ensures place { result ≡ at + length (justified width (signed negative size)) }
    ensures text { out.new ≡ sets out.old at (justified width (signed negative size)) }
{
    let taken = signed_length(negative, size);
    let start = put_spaces(taken, width, out, at);
    put_signed(negative, size, out, start)
}
