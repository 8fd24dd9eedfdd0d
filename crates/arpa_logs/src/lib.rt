// A log as an ARPA text spells it, read as points. The definitions that the contracts cite are in specs/.
#![tactic(auto)]

ghost use Rattle.std.specs.Prelude.{◌≡◌, true, false, ◌*◌, ◌^◌, ◌<◌, ◌≤◌, pos, IfSome, MatchOption};
ghost use Rattle.decimal.specs.Digits.{digits_up_to, value_from};
ghost use Rattle.text_parts.specs.Parts.{parts};
ghost use Rattle.arpa_logs.specs.Logs.{decimals, fraction, unsigned, nearest, read_points};

const DECIMALS: usize = 7;

// Units of a log, 1/10,000,000 each, to a whole.
const UNITS: u64 = 10000000;

// Units to a point, and to half of one.
const UNITS_OF_POINT: u64 = 10;

const HALF_POINT: u64 = UNITS_OF_POINT / 2;

// The units of the digits before a point.
fn read_whole(text: &[u8]) -> Option<u64>
    ensures { MatchOption result (digits_up_to 3 text.now ≡ false) (λ units. (digits_up_to 3 text.now ≡ true) × (units ≡ value_from 0 text.now * 10 ^ decimals) × (units ≤ 999 * 10 ^ decimals)) }
{
    if !decimal::digits_up_to(text, 3) {
        return None;
    }
    Some(decimal::value(text) * UNITS)
}

// The units of the digits behind a point.
fn read_fraction(text: &[u8]) -> Option<u64>
    ensures { MatchOption result (digits_up_to decimals text.now ≡ false) (λ units. (digits_up_to decimals text.now ≡ true) × (units ≡ fraction text.now) × (units < 10 ^ decimals)) }
{
    if !decimal::digits_up_to(text, DECIMALS) {
        return None;
    }
    Some(decimal::value(text) * 10u64.pow((DECIMALS - text.len()) as u32))
}

// The units of a log without its minus.
fn read_size(text: &[u8]) -> Option<u64>
    ensures units { result ≡ unsigned (parts 46 text.now) }
    ensures small { IfSome result (λ units. units < 1000 * 10 ^ decimals) }
{
    match text_parts::find_byte(text, b'.') {
        Some(point) => Some(read_whole(&text[..point])? + read_fraction(&text[point + 1..])?),
        None => read_whole(text),
    }
}

// The nearest point to so many units, a half upwards.
fn nearest_point(units: u64) -> i32
    requires { units < 1000 * 10 ^ decimals }
    ensures { result ≡ pos (nearest units) }
{
    ((units + HALF_POINT) / UNITS_OF_POINT) as i32
}

// The points of a log.
pub fn read_points(text: &[u8]) -> Option<i32>
    ensures { result ≡ read_points text.now }
{
    match text {
        [] => None,
        [b'-', size @ ..] => Some(-nearest_point(read_size(size)?)),
        _ => Some(nearest_point(read_size(text)?)),
    }
}
