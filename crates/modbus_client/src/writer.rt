//! Calls that write, for every client (Modbus Application Protocol V1.1b3, section 6).
ghost use Rattle.std.specs.Prelude.{length};
ghost use Rattle.modbus_frame.specs.Meaning as asked;
ghost use Rattle.modbus_client.specs.Typed.{Asks, coil_written, register_written, coils_written, registers_written, register_masked};

use crate::client::Client;
use crate::typed::{another_kind, confirmed};
use modbus_frame::{Address, Coil, FunctionCode, Request, Response, Result, Word};
use std::borrow::CowSlice;

/// Calls that write. Every client has them.
///
/// Each makes one [`call`](Client::call) and takes no memory of its own. It answers what that answers: a fault, or the exception of the
/// server, or that the device tells what was written. A response of another kind is `FunctionCodeMismatch` with the function of the
/// request and the response; one of the right kind that tells another address, value or number is `PayloadMismatch` with it.
pub trait Writer: Client {
    /// Writes the coil at `addr` (section 6.5).
    ///
    /// # Errors
    /// Those of `call`. `FunctionCodeMismatch` exactly where the response is of another kind, `PayloadMismatch` exactly where it tells
    /// another address or another state.
    fn write_single_coil(&mut self, addr: Address, coil: Coil) -> Result<()>
        ensures { Asks Self.answers self.old (asked.WriteSingleCoil addr coil)
            (coil_written addr coil) result self.new }
    {
        match self.call(Request::WriteSingleCoil(addr, coil))? {
            Ok(Response::WriteSingleCoil(at, state)) => confirmed(
                at == addr && state == coil,
                Response::WriteSingleCoil(at, state),
            ),
            Ok(other) => Err(another_kind(FunctionCode::WriteSingleCoil, other)),
            Err(exception) => Ok(Err(exception)),
        }
    }

    /// Writes the holding register at `addr` (section 6.6).
    ///
    /// # Errors
    /// Those of `call`. `FunctionCodeMismatch` exactly where the response is of another kind, `PayloadMismatch` exactly where it tells
    /// another address or another content.
    fn write_single_register(&mut self, addr: Address, word: Word) -> Result<()>
        ensures { Asks Self.answers self.old (asked.WriteSingleRegister addr word)
            (register_written addr word) result self.new }
    {
        match self.call(Request::WriteSingleRegister(addr, word))? {
            Ok(Response::WriteSingleRegister(at, content)) => confirmed(
                at == addr && content == word,
                Response::WriteSingleRegister(at, content),
            ),
            Ok(other) => Err(another_kind(FunctionCode::WriteSingleRegister, other)),
            Err(exception) => Ok(Err(exception)),
        }
    }

    /// Writes coils from `addr` on (section 6.11).
    ///
    /// # Errors
    /// Those of `call`. `FunctionCodeMismatch` exactly where the response is of another kind, `PayloadMismatch` exactly where it tells
    /// another address, or that not as many were written.
    fn write_multiple_coils(&mut self, addr: Address, coils: &[Coil]) -> Result<()>
        ensures { Asks Self.answers self.old (asked.WriteMultipleCoils addr coils.now)
            (coils_written addr (length coils.now)) result self.new }
    {
        match self.call(Request::WriteMultipleCoils(addr, CowSlice::Borrowed(coils)))? {
            Ok(Response::WriteMultipleCoils(at, count)) => confirmed(
                at == addr && usize::from(count) == coils.len(),
                Response::WriteMultipleCoils(at, count),
            ),
            Ok(other) => Err(another_kind(FunctionCode::WriteMultipleCoils, other)),
            Err(exception) => Ok(Err(exception)),
        }
    }

    /// Writes holding registers from `addr` on (section 6.12).
    ///
    /// # Errors
    /// Those of `call`. `FunctionCodeMismatch` exactly where the response is of another kind, `PayloadMismatch` exactly where it tells
    /// another address, or that not as many were written.
    fn write_multiple_registers(&mut self, addr: Address, words: &[Word]) -> Result<()>
        ensures { Asks Self.answers self.old (asked.WriteMultipleRegisters addr words.now)
            (registers_written addr (length words.now)) result self.new }
    {
        match self.call(Request::WriteMultipleRegisters(addr, CowSlice::Borrowed(words)))? {
            Ok(Response::WriteMultipleRegisters(at, count)) => confirmed(
                at == addr && usize::from(count) == words.len(),
                Response::WriteMultipleRegisters(at, count),
            ),
            Ok(other) => Err(another_kind(FunctionCode::WriteMultipleRegisters, other)),
            Err(exception) => Ok(Err(exception)),
        }
    }

    /// Changes bits of the holding register at `addr`: it keeps those where `and_mask` has 1, and has those of `or_mask` elsewhere
    /// (section 6.16).
    ///
    /// # Errors
    /// Those of `call`. `FunctionCodeMismatch` exactly where the response is of another kind, `PayloadMismatch` exactly where it tells
    /// another address or another mask.
    fn masked_write_register(&mut self, addr: Address, and_mask: Word, or_mask: Word) -> Result<()>
        ensures { Asks Self.answers self.old (asked.MaskWriteRegister addr and_mask or_mask)
            (register_masked addr and_mask or_mask) result self.new }
    {
        match self.call(Request::MaskWriteRegister(addr, and_mask, or_mask))? {
            Ok(Response::MaskWriteRegister(at, and, or)) => confirmed(
                at == addr && and == and_mask && or == or_mask,
                Response::MaskWriteRegister(at, and, or),
            ),
            Ok(other) => Err(another_kind(FunctionCode::MaskWriteRegister, other)),
            Err(exception) => Ok(Err(exception)),
        }
    }
}

impl<C: Client> Writer for C {}
