//! The integer that is worth a number.
ghost use Rattle.std.specs.Prelude.{◌≡◌, ℤ, pos, ◌*ℤ◌, ◌*◌, ◌^◌, ◌<◌, IfOk, IfErr, IfSome, IfNone, FitsSigned};
ghost use Rattle.std.specs.Int.{w128};
ghost use Rattle.modbus_map.specs.Scales.{IsUnitsOf};
ghost use Rattle.modbus_map.specs.Writing.{Refuses, IsOf64, IsWorth, IsOfKind};
ghost use Rattle.modbus_map.specs.Kinds.{width};
ghost use Rattle.modbus_map.specs.Values.{integer_as};

use crate::decimal::Decimal;
use crate::kind::Kind;
use crate::places::{lowered, raised};
use crate::scale::Scale;
use crate::write_error::WriteError;

/// The units of a number at so many places.
fn units_at(number: Decimal, places: u8) -> Result<i128, WriteError>
    ensures ok { IfOk result (λ units. IsUnitsOf places number units) }
    ensures refused { IfErr result (Refuses (FitsSigned w128) (IsUnitsOf places number)) }
{
    if number.places <= places {
        match raised(number.units, places - number.places) {
            Some(units) => Ok(units),
            None => Err(WriteError::OutOfRange),
        }
    } else {
        match lowered(number.units, number.places - places) {
            Some(units) => Ok(units),
            None => Err(WriteError::OffGrid),
        }
    }
}

/// The integer whose product with a factor this is.
fn quotient(product: i128, factor: i64) -> Result<i128, WriteError>
    ensures ok { IfOk result (λ n. n *ℤ factor ≡ product) }
    ensures zero { IfOk result (λ n. factor ≡ pos 0 → n ≡ pos 0) }
    ensures refused { IfErr result (Refuses IsOf64 (λ n. n *ℤ factor ≡ product)) }
{
    let factor = i128::from(factor);
    if factor == 0 {
        return if product == 0 {
            Ok(0)
        } else {
            Err(WriteError::OffGrid)
        };
    }
    let Some(rest) = product.checked_rem(factor) else {
        return Err(WriteError::OutOfRange);
    };
    if rest != 0 {
        return Err(WriteError::OffGrid);
    }
    Ok(product / factor)
}

/// The integer that is worth a number by this scale.
pub(crate) fn integer_worth(scale: Scale, number: Decimal) -> Result<i128, WriteError>
    ensures ok { IfOk result (IsWorth scale number) }
    ensures zero { IfOk result (λ n. scale.factor ≡ pos 0 → n ≡ pos 0) }
    ensures refused { IfErr result (Refuses IsOf64 (IsWorth scale number)) }
{
    let units = match units_at(number, scale.places) {
        Ok(units) => units,
        Err(error) => return Err(error),
    };
    match units.checked_sub(i128::from(scale.offset)) {
        Some(product) => quotient(product, scale.factor),
        None => Err(WriteError::OutOfRange),
    }
}

/// The bits of an integer of this kind, in two's complement where the kind has a sign; `None` where it is not of the kind.
pub(crate) fn bits_of(kind: Kind, n: i128) -> Option<u64>
    ensures some { IfSome result (λ bits. integer_as kind bits ≡ n) }
    ensures below { IfSome result (λ bits. bits < 2 ^ (16 * width kind)) }
    ensures none { IfNone result (¬ IsOfKind kind n) }
{
    match kind {
        Kind::U16 => Some(u64::from(u16::try_from(n).ok()?)),
        Kind::I16 => Some(u64::from(i16::try_from(n).ok()?.cast_unsigned())),
        Kind::U32 => Some(u64::from(u32::try_from(n).ok()?)),
        Kind::I32 => Some(u64::from(i32::try_from(n).ok()?.cast_unsigned())),
        Kind::U64 => u64::try_from(n).ok(),
        Kind::I64 => Some(i64::try_from(n).ok()?.cast_unsigned()),
        _ => None,
    }
}
