//! The longitudinal redundancy check of a frame (MODBUS over Serial Line V1.02, section 6.2.1).
ghost use Rattle.std.specs.Prelude.{◌≡◌};
ghost use Rattle.modbus_ascii.specs.Checksum as check;

/// The LRC of bytes: the two's complement of their sum, modulo 256. Bytes and their LRC add up to 0 modulo 256.
pub fn lrc(bytes: &[u8]) -> u8
    ensures { result ≡ check.lrc bytes.now }
{
    let mut sum: u8 = 0;
    for byte in bytes {
        sum = sum.wrapping_add(*byte);
    }
    sum.wrapping_neg()
}
