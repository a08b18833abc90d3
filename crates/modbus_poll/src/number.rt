//! Numbers in decimal.
ghost use Rattle.std.specs.Prelude.{◌≡◌, ◌≤◌, length, IfSome, Some, None, if◌then◌else◌};
ghost use Rattle.modbus_poll.specs.Notation.{are_digits, number, number_within};

/// The number that these digits show; `None` where there is another byte.
fn number_of(text: &[u8]) -> Option<u32>
    requires { length text.now ≤ 7 }
    ensures { result ≡ (if are_digits text.now then Some (number text.now) else None) }
{
    let mut value: u32 = 0;
    for byte in text {
        if !byte.is_ascii_digit() {
            return None;
        }
        value = value * 10 + u32::from(*byte - b'0');
    }
    Some(value)
}

/// The number that a text shows: one digit to so many, of a value from `least` to `most`.
pub fn number_within(text: &[u8], digits: usize, least: u32, most: u32) -> Option<u32>
    requires { digits ≤ 7 }
    ensures exact { result ≡ number_within digits least most text.now }
    ensures least { IfSome result (λ number. least ≤ number) }
    ensures most { IfSome result (λ number. number ≤ most) }
{
    if text.is_empty() || text.len() > digits {
        return None;
    }
    match number_of(text) {
        Some(number) if number >= least && number <= most => Some(number),
        _ => None,
    }
}
