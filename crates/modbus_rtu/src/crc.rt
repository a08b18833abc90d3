//! The checksum of an RTU frame, CRC-16/MODBUS (MODBUS over Serial Line V1.02, section 6.2.2).
ghost use Rattle.std.specs.Prelude.{◌≡◌, ◌↔◌, fold, IsOk, IfErr};
ghost use Rattle.modbus_rtu.specs.Checksum.{crc, with_byte};

use crate::crc_table::{shift_byte, shift_four_bytes, shift_three_bytes, shift_two_bytes};
use std::error::Error;
use std::fmt;

/// The register before the first byte.
const INITIAL: u16 = 0xFFFF;

/// A checksum isn't the one that was expected.
#[derive(Clone, Copy, Debug, PartialEq, Eq)]
pub struct CrcMismatch {
    pub expected: u16,
    pub actual: u16,
}

impl fmt::Display for CrcMismatch {
    fn fmt<W: fmt::Write>(&self, f: &mut fmt::Formatter<W>) -> fmt::Result {
        write!(
            f,
            "CRC mismatch: expected 0x{:04X}, actual 0x{:04X}",
            self.expected, self.actual
        )
    }
}

impl Error for CrcMismatch {}

/// Takes a byte into the register: eight bit steps at once.
#[inline]
#[tactic(auto, using(crate::proofs::ByteSteps::byte_step))]
fn take_byte(register: u16, byte: u8) -> u16
    ensures { result ≡ with_byte register byte }
{
    (register / 256) ^ shift_byte((register ^ u16::from(byte)) % 256)
}

/// Takes two bytes into the register, each by a row of the table: sixteen bit steps at once.
#[inline]
#[tactic(auto, using(crate::proofs::ByteSteps::two_byte_step))]
fn take_two(register: u16, a: u8, b: u8) -> u16
    ensures { result ≡ with_byte (with_byte register a) b }
{
    let word = register ^ u16::from_le_bytes([a, b]);
    shift_byte(word / 256) ^ shift_two_bytes(word % 256)
}

/// Takes four bytes into the register, each by a row of the table: thirty-two bit steps at once.
#[inline]
#[tactic(auto, using(crate::proofs::ByteSteps::four_byte_step))]
fn take_four(register: u16, a: u8, b: u8, c: u8, d: u8) -> u16
    ensures { result ≡ with_byte (with_byte (with_byte (with_byte register a) b) c) d }
{
    let word = register ^ u16::from_le_bytes([a, b]);
    shift_three_bytes(word / 256)
        ^ shift_four_bytes(word % 256)
        ^ (shift_byte(u16::from(d)) ^ shift_two_bytes(u16::from(c)))
}

/// Takes bytes into the register, four at a time.
#[inline]
fn take_bytes(opening: u16, bytes: &[u8]) -> u16
    ensures { result ≡ fold with_byte opening bytes.now }
{
    let mut register = opening;
    let mut rest = bytes;
    while let [a, b, c, d, more @ ..] = rest {
        register = take_four(register, *a, *b, *c, *d);
        rest = more;
    }
    if let [a, b, more @ ..] = rest {
        register = take_two(register, *a, *b);
        rest = more;
    }
    if let [last, ..] = rest {
        register = take_byte(register, *last);
    }
    register
}

/// The checksum of `bytes`, which a frame carries with its low byte first.
#[tactic(auto, unfolding(crate::specs::Checksum::crc))]
pub fn calc_crc(bytes: &[u8]) -> u16
    ensures { result ≡ crc bytes.now }
{
    take_bytes(INITIAL, bytes)
}

/// Compares the checksum of `bytes` with the one that is expected.
///
/// # Errors
/// `CrcMismatch` with both, exactly where they differ.
pub fn check_crc(bytes: &[u8], expected: u16) -> Result<(), CrcMismatch>
    ensures variant { IsOk result ↔ (crc bytes.now ≡ expected) }
    ensures expected { IfErr result (λ mismatch. mismatch.expected ≡ expected) }
    ensures actual { IfErr result (λ mismatch. mismatch.actual ≡ crc bytes.now) }
{
    let actual = calc_crc(bytes);
    if actual == expected {
        Ok(())
    } else {
        Err(CrcMismatch { expected, actual })
    }
}
