//! Exact numbers in decimal, and the numbers that texts show.
ghost use Rattle.std.specs.Prelude.{◌≡◌, ◌+◌, ◌*◌, ◌^◌, ◌<◌, ◌≤◌, length, IfSome, Ok, Some, None, if◌then◌else◌};
ghost use Rattle.modbus_map.specs.Decimals.{are_digits, number_after, with_sign, whole_part, fraction_part, number_of};

use std::str::FromStr;
use thiserror::Error;

/// The most digits that a text may have: so many always fit the units.
const MOST_DIGITS: usize = 38;

/// The most digits that a text may have behind its point.
const MOST_PLACES: usize = 18;

/// An exact number in decimal: so many units of its last place. 215 units with one place are 21.5.
///
/// Two of these are equal where their units and their places are: 1.5 is another than 1.50.
#[derive(Clone, Copy, Debug, PartialEq, Eq)]
pub struct Decimal {
    /// How many units of the last place.
    pub units: i128,
    /// How many digits stand behind the point.
    pub places: u8,
}

/// The text shows no number: it is not digits with one point among them at most and perhaps a minus before them, or it has more than
/// 38 digits, or more than 18 of them behind the point.
#[derive(Clone, Copy, Debug, PartialEq, Eq, Error)]
#[error("no number in decimal")]
pub struct DecimalError;

/// The number that digits show, behind those of `start`; `None` where there is another byte.
pub(crate) fn digits_after(start: u128, digits: &[u8]) -> Option<u128>
    requires { (start + 1) * 10 ^ length digits.now ≤ 10 ^ 38 }
    ensures exact { result ≡ (if are_digits digits.now then Some (number_after start digits.now) else None) }
    ensures below { IfSome result (λ n. n < (start + 1) * 10 ^ length digits.now) }
{
    let mut value = start;
    for byte in digits {
        if !byte.is_ascii_digit() {
            return None;
        }
        value = value * 10 + u128::from(*byte - b'0');
    }
    Some(value)
}

/// A size with its sign.
fn signed(is_negative: bool, size: u128) -> i128
    requires { size < 10 ^ 38 }
    ensures { result ≡ with_sign is_negative size }
{
    let size = size as i128;
    if is_negative { -size } else { size }
}

/// What stands before the first point, and behind it: all and nothing where there is none.
fn split_point(text: &str) -> (&str, &str)
    ensures whole { result.0.now ≡ whole_part text.now }
    ensures fraction { result.1.now ≡ fraction_part text.now }
{
    match text.split_once('.') {
        Some(parts) => parts,
        None => (text, ""),
    }
}

/// The number of the digits before a point and behind it, with its sign.
fn number_of(is_negative: bool, whole: &[u8], fraction: &[u8]) -> Result<Decimal, DecimalError>
    ensures { result ≡ number_of is_negative whole.now fraction.now }
{
    if fraction.len() > MOST_PLACES || whole.len() > MOST_DIGITS - fraction.len() {
        return Err(DecimalError);
    }
    if whole.len() + fraction.len() == 0 {
        return Err(DecimalError);
    }
    let Some(before) = digits_after(0, whole) else {
        return Err(DecimalError);
    };
    let Some(size) = digits_after(before, fraction) else {
        return Err(DecimalError);
    };
    let units = signed(is_negative, size);
    let places = fraction.len() as u8;
    Ok(Decimal { units, places })
}

/// The number of a text without its sign.
fn number_behind(is_negative: bool, text: &str) -> Result<Decimal, DecimalError>
    ensures { result ≡ number_of is_negative (whole_part text.now) (fraction_part text.now) }
{
    let (whole, fraction) = split_point(text);
    number_of(is_negative, whole.as_bytes(), fraction.as_bytes())
}

/// Reads digits with one point among them at most, and perhaps a minus before them: `41`, `-2.5`, `0.1`.
impl FromStr for Decimal {
    ghost use Rattle.modbus_map.specs.Decimals.{number_in};

    type Err = DecimalError;

    ghost from_str_gives = { λ text result. result ≡ number_in text };

    fn from_str(text: &str) -> Result<Decimal, DecimalError> {
        match text.strip_prefix("-") {
            Some(rest) => number_behind(true, rest),
            None => number_behind(false, text),
        }
    }
}
