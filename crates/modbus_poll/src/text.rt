//! The text of a value.
ghost use Rattle.std.specs.Prelude.{◌≡◌, ◌<◌, ◌++◌, ◌∷◌, [], string_bytes, IfOk, OnOk};
ghost use Rattle.modbus_poll.specs.Text.{hex_digit, is_plain, shown_byte, trimmed, shown_bytes, shown};

use crate::value::Value;
use std::alloc::{AllocError, Global};

/// A digit in base 16, in lower case.
fn hex_digit(digit: u8) -> u8
    requires { digit < 16 }
    ensures value { result ≡ hex_digit digit }
    ensures ascii { result < 128 }
{
    if digit < 10 {
        b'0' + digit
    } else {
        b'a' + (digit - 10)
    }
}

/// Whether a byte stands for itself: printable ASCII but the backslash.
fn is_plain(byte: u8) -> bool
    ensures { result ≡ is_plain byte }
{
    32 <= byte && byte <= 126 && byte != b'\\'
}

/// Appends an ASCII character.
fn push_ascii(text: &mut String, byte: u8) -> Result<(), AllocError>
    requires { byte < 128 }
    ensures { OnOk result (string_bytes text.new ≡ string_bytes text.old ++ byte ∷ []) }
{
    text.push(char::from(byte))
}

/// Appends what is shown for a byte of a text.
fn push_byte(text: &mut String, byte: u8) -> Result<(), AllocError>
    ensures { OnOk result (string_bytes text.new ≡ string_bytes text.old ++ shown_byte byte) }
{
    if is_plain(byte) {
        return push_ascii(text, byte);
    }
    text.push_str("\\x")?;
    push_ascii(text, hex_digit(byte / 16))?;
    push_ascii(text, hex_digit(byte % 16))
}

/// The bytes without the zeros at their end.
fn trimmed(bytes: &[u8]) -> &[u8]
    ensures { result.now ≡ trimmed bytes.now }
{
    let mut end = 0;
    for (place, byte) in bytes.iter().enumerate() {
        if *byte != 0 {
            end = place + 1;
        }
    }
    &bytes[..end]
}

/// What is shown for the bytes of a text.
fn shown_bytes(alloc: Global, bytes: &[u8]) -> Result<String, AllocError>
    ensures { IfOk result (λ text. string_bytes text ≡ shown_bytes bytes.now) }
{
    let mut text = String::new(alloc);
    for byte in bytes {
        push_byte(&mut text, *byte)?;
    }
    Ok(text)
}

/// The text of a value: a number in decimal; a text without the zeros at its end, where a byte that is no printable ASCII, and a
/// backslash, are `\x` and two digits in base 16.
///
/// # Errors
/// Refused memory.
pub fn shown(alloc: Global, value: &Value) -> Result<String, AllocError>
    ensures { IfOk result (λ text. string_bytes text ≡ shown value.now) }
{
    match value {
        Value::Unsigned(number) => format!(in alloc; "{number}"),
        Value::Signed(number) => format!(in alloc; "{number}"),
        Value::Text(bytes) => shown_bytes(alloc, trimmed(bytes.as_slice())),
    }
}
