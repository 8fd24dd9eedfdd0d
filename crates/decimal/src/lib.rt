// Natural numbers in decimal digits: read from a text, and written into one. The definitions that the contracts cite are in specs/.
#![tactic(auto)]

ghost use Rattle.std.specs.Prelude.{◌≡◌, true, ◌+◌, ◌^◌, ◌<◌, ◌≤◌, length};
ghost use Rattle.std.proofs.lemmas.List.Edits.{sets};
ghost use Rattle.decimal.specs.Digits.{digits, most_digits, all_digits, digits_up_to, is_natural, value_from};

// Whether every character is a digit.
pub fn all_digits(text: &[u8]) -> bool
    ensures { result ≡ all_digits text.now }
{
    text.iter().all(|c| c.is_ascii_digit())
}

// Whether the text is one digit at least and at most so many.
pub fn digits_up_to(text: &[u8], most: usize) -> bool
    ensures { result ≡ digits_up_to most text.now }
{
    (1..=most).contains(&text.len()) && all_digits(text)
}

// Whether the text is digits, and the first is 0 only where it stands alone.
pub fn is_natural(text: &[u8]) -> bool
    ensures { result ≡ is_natural text.now }
{
    match text {
        [] => false,
        [b'0', rest @ ..] => rest.is_empty(),
        _ => all_digits(text),
    }
}

// The number that digits make, as many as 63 bits always hold.
pub fn value(text: &[u8]) -> u64
    requires { (all_digits text.now ≡ true) × (length text.now ≤ most_digits) }
    ensures number { result ≡ value_from 0 text.now }
    ensures small { result < 10 ^ length text.now }
{
    let mut sum: u64 = 0;
    for c in text {
        sum = 10 * sum + u64::from(*c - b'0');
    }
    sum
}

// How many digits n has.
pub fn count_digits(n: u64) -> usize
    ensures { result ≡ length (digits n) }
{
    let mut rest = n;
    let mut count = 1;
    while 10 <= rest {
        rest /= 10;
        count += 1;
    }
    count
}

// Writes the digits of n, and answers the place behind them.
pub fn put_digits(n: u64, out: &mut [u8], at: usize) -> usize
    requires { at + length (digits n) ≤ length out.old }
    ensures place { result ≡ at + length (digits n) }
    ensures text { out.new ≡ sets out.old at (digits n) }
{
    let end = at + count_digits(n);
    let mut rest = n;
    for place in (at + 1..end).rev() {
        out[place] = b'0' + (rest % 10) as u8;
        rest /= 10;
    }
    out[at] = b'0' + rest as u8;
    end
}
