//! What the integer of a register is worth.
ghost use Rattle.std.specs.Prelude.{◌≡◌, ◌≤◌, Some, None, if◌then◌else◌};
ghost use Rattle.modbus_map.specs.Scales.{fits_64, units_at};

use crate::decimal::Decimal;
use crate::places::raised;
use thiserror::Error;

/// What an integer is worth: the integer times a factor, and an offset more. Both are in units of one last place: a factor of 0.1 and an
/// offset of -273.15 are 10 and -27315 units with two places.
#[derive(Clone, Copy, Debug, PartialEq, Eq)]
pub struct Scale {
    /// The factor, in units of the last place.
    pub factor: i64,
    /// The offset, in units of the last place.
    pub offset: i64,
    /// How many digits stand behind the point.
    pub places: u8,
}

/// Why a factor and an offset make no scale.
#[derive(Clone, Copy, Debug, PartialEq, Eq, Error)]
pub enum ScaleError {
    /// The factor is 0, so that every integer would be worth the same.
    #[error("a factor of 0")]
    Zero,
    /// With as many places as the longer of the two has, one of them passes 64 bits.
    #[error("a factor or an offset of too many digits")]
    TooLong,
}

impl Scale {
    ghost use Rattle.modbus_map.specs.Scales.{scale_of};

    /// The scale by which an integer is worth itself.
    pub const ONE: Scale = Scale {
        factor: 1,
        offset: 0,
        places: 0,
    };

    /// The scale of a factor and an offset, with as many places as the longer of the two has.
    ///
    /// # Errors
    /// `Zero` where the factor is 0, `TooLong` where one of them has too many digits.
    pub fn new(factor: Decimal, offset: Decimal) -> Result<Scale, ScaleError>
        ensures { result ≡ scale_of factor offset }
    {
        if factor.units == 0 {
            return Err(ScaleError::Zero);
        }
        let places = factor.places.max(offset.places);
        let Some(factor) = units_at(factor, places) else {
            return Err(ScaleError::TooLong);
        };
        let Some(offset) = units_at(offset, places) else {
            return Err(ScaleError::TooLong);
        };
        Ok(Scale {
            factor,
            offset,
            places,
        })
    }
}

/// The units of a number with so many places, no fewer than its own; `None` where they pass 64 bits.
fn units_at(number: Decimal, places: u8) -> Option<i64>
    requires { number.places ≤ places }
    ensures { result ≡ (if fits_64 (units_at places number) then Some (units_at places number) else None) }
{
    let units = raised(number.units, places - number.places)?;
    match i64::try_from(units) {
        Ok(units) => Some(units),
        Err(_) => None,
    }
}
