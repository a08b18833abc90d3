//! The values that texts stand for.
ghost use Rattle.std.specs.Prelude.{◌≡◌, IfOk, IfErr, Ok};
ghost use Rattle.std.specs.Float.{binary32, binary64};
ghost use Rattle.fast_float.specs.Parse.{parse_float};
ghost use Rattle.modbus_map.specs.Decimals.{number_in};
ghost use Rattle.modbus_map.specs.Reading.{state_in, number_or_none, finite_bits, value_in, IsRefusedBy};

use crate::decimal::Decimal;
use crate::kind::Kind;
use crate::value::PointValue;
use crate::write_error::WriteError;
use modbus_frame::Data;
use std::alloc::Global;

/// The state that a text tells.
fn state_in(text: &str) -> Result<PointValue, WriteError>
    ensures { result ≡ state_in text.now }
{
    if text == "1" || text == "true" {
        return Ok(PointValue::State(true));
    }
    if text == "0" || text == "false" {
        return Ok(PointValue::State(false));
    }
    Err(WriteError::NotOfKind)
}

/// The number that a text shows.
fn number_in(text: &str) -> Result<PointValue, WriteError>
    ensures { result ≡ number_or_none (number_in text.now) }
{
    match text.parse::<Decimal>() {
        Ok(number) => Ok(PointValue::Number(number)),
        Err(_) => Err(WriteError::NotOfKind),
    }
}

/// The bits of the float of 32 bits that is nearest to the number of a text.
fn single_in(text: &str) -> Result<u32, WriteError>
    ensures { result ≡ finite_bits binary32 (parse_float binary32 text.now) }
{
    let Ok(float) = fast_float::parse::<f32, _>(text) else {
        return Err(WriteError::NotOfKind);
    };
    if float.is_nan() {
        return Err(WriteError::NotOfKind);
    }
    if float.is_finite() {
        Ok(float.to_bits())
    } else {
        Err(WriteError::OutOfRange)
    }
}

/// The bits of the float of 64 bits that is nearest to the number of a text.
fn double_in(text: &str) -> Result<u64, WriteError>
    ensures { result ≡ finite_bits binary64 (parse_float binary64 text.now) }
{
    let Ok(float) = fast_float::parse::<f64, _>(text) else {
        return Err(WriteError::NotOfKind);
    };
    if float.is_nan() {
        return Err(WriteError::NotOfKind);
    }
    if float.is_finite() {
        Ok(float.to_bits())
    } else {
        Err(WriteError::OutOfRange)
    }
}

/// The bytes of a text.
fn text_in(alloc: Global, text: &str) -> Result<PointValue, WriteError>
    ensures ok { IfOk result (λ value. value ≡ PointValue.Text text.now) }
    ensures refused { IfErr result (λ error. error ≡ WriteError.NoMemory) }
{
    match Vec::from_slice(alloc, text.as_bytes()) {
        Ok(bytes) => Ok(PointValue::Text(Data::new(bytes))),
        Err(_) => Err(WriteError::NoMemory),
    }
}

/// The value of a kind that a text stands for: a state as `0` or `1`, `false` or `true`; a number in decimal, exactly; the float that is
/// nearest to a number; the bytes of the text.
///
/// # Errors
/// `NotOfKind` where the text stands for no such value, `OutOfRange` for a float that is not finite, `NoMemory` where memory is refused.
pub fn value_in(alloc: Global, kind: Kind, text: &str) -> Result<PointValue, WriteError>
    ensures ok { IfOk result (λ value. value_in kind text.now ≡ Ok value) }
    ensures refused { IfErr result (IsRefusedBy (value_in kind text.now)) }
{
    match kind {
        Kind::Bool | Kind::Bit(_) => state_in(text),
        Kind::F32 => match single_in(text) {
            Ok(bits) => Ok(PointValue::Single(bits)),
            Err(error) => Err(error),
        },
        Kind::F64 => match double_in(text) {
            Ok(bits) => Ok(PointValue::Double(bits)),
            Err(error) => Err(error),
        },
        Kind::Text(_) => text_in(alloc, text),
        _ => number_in(text),
    }
}
