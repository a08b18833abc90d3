//! The values of items, from the words of their registers.
ghost use Rattle.std.specs.Prelude.{◌≡◌, ◌+◌, ◌*◌, ◌^◌, ◌<◌, ◌≤◌, length, IfOk, OnErr, IfSome, IfNone};
ghost use Rattle.modbus_pdu.specs.Word as writing;
ghost use Rattle.modbus_poll.specs.Items.{width};
ghost use Rattle.modbus_poll.specs.Values.{number_in, value, IsText};

use crate::item::{Kind, Order};
use modbus_frame::{Data, Word};
use std::alloc::{AllocError, Global};

/// How many numbers there are of one word.
const WORDS: u64 = 0x1_0000;

/// What an item is at one time.
#[derive(Debug, PartialEq, Eq, Drop)]
pub enum Value {
    /// An unsigned number.
    Unsigned(u64),
    /// A number that may be negative.
    Signed(i64),
    /// The bytes of a text, in their order.
    Text(Data),
}

/// The least significant of words, with this one first, and those above it.
fn split_low(order: Order, words: &[Word]) -> Option<(&Word, &[Word])>
    ensures none { IfNone result (length words.now ≡ 0) }
    ensures value { IfSome result (λ parts.
        number_in order words.now ≡ parts.0.now + 2 ^ 16 * number_in order parts.1.now) }
    ensures rest { IfSome result (λ parts. length parts.1.now + 1 ≡ length words.now) }
{
    match order {
        Order::HighFirst => words.split_last(),
        Order::LowFirst => words.split_first(),
    }
}

/// The number of at most four words, with this one first.
fn number(order: Order, words: &[Word]) -> u64
    requires { length words.now ≤ 4 }
    ensures value { result ≡ number_in order words.now }
    ensures below { result < 2 ^ (16 * length words.now) }
{
    match split_low(order, words) {
        None => 0,
        Some((low, higher)) => u64::from(*low) + WORDS * number(order, higher),
    }
}

/// The bytes of words, two for each, the high one first.
#[tactic(auto, unfolding(modbus_pdu::specs::Word::words))]
fn bytes_of(alloc: Global, words: &[Word]) -> Result<Vec<u8>, AllocError>
    ensures { IfOk result (λ bytes. bytes.items ≡ writing.words words.now) }
{
    let mut bytes = Vec::new(alloc);
    for word in words {
        bytes.extend_from_slice(&word.to_be_bytes())?;
    }
    Ok(bytes)
}

/// The value of an item of this kind that lies in these words, one of each register (V1.1b3, section 4.2).
///
/// # Errors
/// Refused memory, which comes for a text alone.
pub fn value_of(alloc: Global, kind: Kind, words: &[Word]) -> Result<Value, AllocError>
    requires { length words.now ≡ width kind }
    ensures value { IfOk result (λ found. found ≡ value kind words.now) }
    ensures memory { OnErr result (IsText kind) }
{
    Ok(match kind {
        Kind::U16 => Value::Unsigned(number(Order::HighFirst, words)),
        Kind::I16 => {
            let bits = number(Order::HighFirst, words) as u16;
            Value::Signed(i64::from(bits.cast_signed()))
        }
        Kind::U32(order) | Kind::U64(order) => Value::Unsigned(number(order, words)),
        Kind::I32(order) => {
            let bits = number(order, words) as u32;
            Value::Signed(i64::from(bits.cast_signed()))
        }
        Kind::I64(order) => Value::Signed(number(order, words).cast_signed()),
        Kind::Text(_) => Value::Text(Data::new(bytes_of(alloc, words)?)),
    })
}
