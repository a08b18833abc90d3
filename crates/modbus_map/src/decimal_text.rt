//! The texts of exact numbers.
ghost use Rattle.std.specs.Prelude.{◌≡◌, ◌/◌, ◌^◌, ◌<◌};
ghost use Rattle.modbus_map.specs.Decimals.{digit_at};

use crate::decimal::Decimal;
use std::fmt;

/// A number without so many of its last digits.
fn without_last(number: u128, places: u8) -> u128
    ensures { result ≡ number / 10 ^ places }
{
    let mut rest = number;
    for _place in 0..places {
        rest /= 10;
    }
    rest
}

/// The digit of a number before which so many others stand.
fn digit_at(number: u128, place: u8) -> u8
    ensures value { result ≡ digit_at place number }
    ensures below { result < 10 }
{
    (without_last(number, place) % 10) as u8
}

/// So many digits of a number, its last ones.
#[derive(Clone, Copy)]
struct LastDigits {
    places: u8,
    number: u128,
}

impl fmt::Display for LastDigits {
    ghost use Rattle.std.specs.Prelude.{Some};
    ghost use Rattle.modbus_map.specs.Decimals.{last_digits};

    ghost output = { λ digits. Some (last_digits digits.places digits.number) };

    fn fmt<W: fmt::Write>(&self, f: &mut fmt::Formatter<W>) -> fmt::Result {
        for i in 0..self.places {
            let digit = digit_at(self.number, self.places - 1 - i);
            write!(f, "{digit}")?;
        }
        Ok(())
    }
}

/// A minus for a number below 0, what stands before the point, and just its places behind it.
impl fmt::Display for Decimal {
    ghost use Rattle.std.specs.Prelude.{Some};
    ghost use Rattle.modbus_map.specs.Decimals.{text_of};

    ghost output = { λ number. Some (text_of number) };

    fn fmt<W: fmt::Write>(&self, f: &mut fmt::Formatter<W>) -> fmt::Result {
        let sign = if self.units < 0 { "-" } else { "" };
        let number = self.units.unsigned_abs();
        let places = self.places;
        let whole = without_last(number, places);
        if places == 0 {
            return write!(f, "{sign}{whole}");
        }
        let digits = LastDigits { places, number };
        write!(f, "{sign}{whole}.{digits}")
    }
}
