//! The values of points, from the words of their registers.
ghost use Rattle.std.specs.Prelude.{◌≡◌, ◌^◌, ◌<◌, ◌==◌, pos, length, unsigned_abs, IfOk, OnErr};
ghost use Rattle.std.specs.Int.{bit_at};
ghost use Rattle.modbus_map.specs.Kinds.{width};
ghost use Rattle.modbus_map.specs.Orders.{number_in};
ghost use Rattle.modbus_map.specs.Scales.{worth};
ghost use Rattle.modbus_map.specs.Values.{bytes_of, value, IsText};

use crate::decimal::Decimal;
use crate::kind::{ByteOrder, Kind};
use crate::order::number;
use crate::point::Encoding;
use crate::scale::Scale;
use modbus_frame::{Data, Word};
use std::alloc::{AllocError, Global};

/// What a point is at one time.
#[derive(Debug, PartialEq, Eq, Drop)]
pub enum PointValue {
    /// The state of a bit.
    State(bool),
    /// An exact number.
    Number(Decimal),
    /// The bits of a float of 32 bits.
    Single(u32),
    /// The bits of a float of 64 bits.
    Double(u64),
    /// The bytes of a text, in their order.
    Text(Data),
}

/// What an integer of at most 64 bits is worth.
fn worth(scale: Scale, n: i128) -> Decimal
    requires { unsigned_abs n < 2 ^ 64 }
    ensures { result ≡ worth scale n }
{
    Decimal {
        units: n * i128::from(scale.factor) + i128::from(scale.offset),
        places: scale.places,
    }
}

/// What the unsigned number of these words is worth.
fn unsigned(scale: Scale, number: u64) -> PointValue
    ensures { result ≡ PointValue.Number (worth scale (pos number)) }
{
    PointValue::Number(worth(scale, i128::from(number)))
}

/// What a number in two's complement is worth.
fn signed(scale: Scale, number: i64) -> PointValue
    ensures { result ≡ PointValue.Number (worth scale number) }
{
    PointValue::Number(worth(scale, i128::from(number)))
}

/// Whether a bit of a word is set, 0 the least significant.
fn is_bit_set(word: u64, place: u8) -> bool
    requires { word < 2 ^ 16 }
    ensures { result ≡ (bit_at word place == 1) }
{
    place < 16 && (word >> place) & 1 == 1
}

/// The bytes of words, two for each.
fn bytes_of(alloc: Global, order: ByteOrder, words: &[Word]) -> Result<Vec<u8>, AllocError>
    ensures { IfOk result (λ bytes. bytes.items ≡ bytes_of order words.now) }
{
    let mut bytes = Vec::new(alloc);
    for word in words {
        let word = order.word(*word);
        bytes.push((word / 256) as u8)?;
        bytes.push((word % 256) as u8)?;
    }
    Ok(bytes)
}

/// The value of the words of a point's registers, one for each (V1.1b3, section 4.2). A state of a coil or a discrete input is given as
/// one word, 0 where it is off.
///
/// # Errors
/// Refused memory, which comes for a text alone.
pub fn value_of(
    alloc: Global,
    encoding: &Encoding,
    words: &[Word],
) -> Result<PointValue, AllocError>
    requires { length words.now ≡ width encoding.now.kind }
    ensures value { IfOk result (λ found. found ≡ value encoding.now words.now) }
    ensures memory { OnErr result (IsText encoding.now.kind) }
{
    let order = encoding.order;
    let scale = encoding.scale;
    Ok(match encoding.kind {
        Kind::Bool => PointValue::State(number(order, words) > 0),
        Kind::Bit(place) => PointValue::State(is_bit_set(number(order, words), place)),
        Kind::U16 | Kind::U32 | Kind::U64 => unsigned(scale, number(order, words)),
        Kind::I16 => signed(
            scale,
            i64::from((number(order, words) as u16).cast_signed()),
        ),
        Kind::I32 => signed(
            scale,
            i64::from((number(order, words) as u32).cast_signed()),
        ),
        Kind::I64 => signed(scale, number(order, words).cast_signed()),
        Kind::F32 => PointValue::Single(number(order, words) as u32),
        Kind::F64 => PointValue::Double(number(order, words)),
        Kind::Text(_) => PointValue::Text(Data::new(bytes_of(alloc, order, words)?)),
    })
}
