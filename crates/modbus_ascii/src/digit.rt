//! Hexadecimal digits (MODBUS over Serial Line V1.02, section 2.5.2).
ghost use Rattle.std.specs.Prelude.{◌≡◌, ◌<◌, IfSome, IsSome, ◌↔◌, true};
ghost use Rattle.modbus_ascii.specs.Encoder.{digit};
ghost use Rattle.modbus_ascii.specs.Frames.{is_hex_digit, digit_value};

/// The value of a digit, of either case.
#[inline(always)]
pub(crate) fn value_of_digit(character: u8) -> Option<u8>
    ensures digit { IsSome result ↔ (is_hex_digit character ≡ true) }
    ensures value { IfSome result (λ value. value ≡ digit_value character) }
    ensures below { IfSome result (λ value. value < 16) }
{
    match character {
        b'0'..=b'9' => Some(character - b'0'),
        b'A'..=b'F' => Some(character - b'A' + 10),
        b'a'..=b'f' => Some(character - b'a' + 10),
        _ => None,
    }
}

/// The character of a digit, with upper-case letters.
#[inline(always)]
pub(crate) fn digit_of(value: u8) -> u8
    requires { value < 16 }
    ensures { result ≡ digit value }
{
    if value < 10 {
        value + b'0'
    } else {
        value - 10 + b'A'
    }
}
