//! Laws of the codes and of the order of slaves.
//!
//! A law with an empty body is a fact about the definitions that contracts cite.
ghost use Rattle.std.specs.Prelude.{◌≡◌, ℕ, ◌↔◌, Some};
ghost use Rattle.std.specs.Ordering.{nat_cmp};
ghost use Rattle.modbus_frame.specs.Codes.{function_number, function_of, exception_number, exception_of, read_code_number, read_code_of, level_number, level_of};
ghost use Rattle.modbus_frame.specs.declared.code.ReadCode.{ReadCode};
ghost use Rattle.modbus_frame.specs.declared.code.ConformityLevel.{ConformityLevel};

use crate::slave::Slave;
use std::cmp::Ordering;

/// The number of the function code or exception code that stands for a number is that number, and the read code or
/// conformity level that stands for the number of one is that one.
pub fn codes_read_back()
    ensures functions { (v : ℕ) → function_number (function_of v) ≡ v }
    ensures exceptions { (v : ℕ) → exception_number (exception_of v) ≡ v }
    ensures reads { (c : ReadCode) → read_code_of (read_code_number c) ≡ Some c }
    ensures levels { (l : ConformityLevel) → level_of (level_number l) ≡ Some l }
{}

/// Slaves are ordered by their numbers, and the order agrees with equality.
pub fn slave_order(a: Slave, b: Slave) -> Ordering
    ensures by_number { result ≡ nat_cmp a.0 b.0 }
    ensures equal { (result ≡ Ordering.Equal) ↔ (a ≡ b) }
{
    a.cmp(&b)
}
