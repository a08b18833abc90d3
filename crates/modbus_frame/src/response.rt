//! What a server answers (Application Protocol V1.1b3, sections 6 and 7).
ghost use Rattle.std.specs.Prelude.{◌≡◌, IfOk, Some};
ghost use Rattle.modbus_frame.specs.Answered.{function_answered, exception_response_text};

use crate::code::{ExceptionCode, FunctionCode};
use crate::identification::ReadDeviceIdentificationResponse;
use crate::list::{Address, Coil, Coils, Data, Quantity, Word, Words};
use bytes::Bytes;
use std::alloc::{AllocError, Global};
use std::error::Error;
use std::fmt;

/// An answer that does what was asked, by its kind.
///
/// Responses that read coils carry eight coils for each byte that was received: those past the quantity of the request
/// have no meaning (section 6.1).
#[derive(Debug, PartialEq, Eq, Drop)]
pub enum Response {
    /// The coils (section 6.1).
    ReadCoils(Coils),
    /// The discrete inputs (section 6.2).
    ReadDiscreteInputs(Coils),
    /// The address and the state of the coil that was written (section 6.5).
    WriteSingleCoil(Address, Coil),
    /// The first address, and how many coils were written (section 6.11).
    WriteMultipleCoils(Address, Quantity),
    /// The input registers (section 6.4).
    ReadInputRegisters(Words),
    /// The holding registers (section 6.3).
    ReadHoldingRegisters(Words),
    /// The address and the content of the register that was written (section 6.6).
    WriteSingleRegister(Address, Word),
    /// The first address, and how many registers were written (section 6.12).
    WriteMultipleRegisters(Address, Quantity),
    /// The id of the server, whether it runs, and further bytes (section 6.13).
    ReportServerId(u8, bool, Data),
    /// The address, the AND mask and the OR mask (section 6.16).
    MaskWriteRegister(Address, Word, Word),
    /// The registers that were read (section 6.17).
    ReadWriteMultipleRegisters(Words),
    /// The registers of the queue, the oldest first (section 6.18).
    ReadFifoQueue(Words),
    /// Objects of the device identification (section 6.21).
    ReadDeviceIdentification(ReadDeviceIdentificationResponse),
    /// A response of any other function: the number of the function, and the bytes after it.
    Custom(u8, Bytes),
}

impl Response {
    /// The function of the response. Device identification is [`FunctionCode::EncapsulatedInterfaceTransport`].
    pub fn function_code(&self) -> FunctionCode
        ensures { result ≡ function_answered self.now }
    {
        match self {
            Response::ReadCoils(_) => FunctionCode::ReadCoils,
            Response::ReadDiscreteInputs(_) => FunctionCode::ReadDiscreteInputs,
            Response::WriteSingleCoil(_, _) => FunctionCode::WriteSingleCoil,
            Response::WriteMultipleCoils(_, _) => FunctionCode::WriteMultipleCoils,
            Response::ReadInputRegisters(_) => FunctionCode::ReadInputRegisters,
            Response::ReadHoldingRegisters(_) => FunctionCode::ReadHoldingRegisters,
            Response::WriteSingleRegister(_, _) => FunctionCode::WriteSingleRegister,
            Response::WriteMultipleRegisters(_, _) => FunctionCode::WriteMultipleRegisters,
            Response::ReportServerId(_, _, _) => FunctionCode::ReportServerId,
            Response::MaskWriteRegister(_, _, _) => FunctionCode::MaskWriteRegister,
            Response::ReadWriteMultipleRegisters(_) => FunctionCode::ReadWriteMultipleRegisters,
            Response::ReadFifoQueue(_) => FunctionCode::ReadFifoQueue,
            Response::ReadDeviceIdentification(_) => FunctionCode::EncapsulatedInterfaceTransport,
            Response::Custom(code, _) => FunctionCode::Custom(*code),
        }
    }

    /// An equal response. Refused memory is the one error.
    pub fn try_clone(&self, alloc: Global) -> Result<Self, AllocError>
        ensures { IfOk result (λ copy. copy ≡ self.now) }
    {
        Ok(match self {
            Response::ReadCoils(coils) => Response::ReadCoils(coils.try_clone(alloc)?),
            Response::ReadDiscreteInputs(coils) => Response::ReadDiscreteInputs(coils.try_clone(
                alloc,
            )?),
            Response::WriteSingleCoil(address, coil) => Response::WriteSingleCoil(*address, *coil),
            Response::WriteMultipleCoils(address, quantity) => Response::WriteMultipleCoils(
                *address, *quantity,
            ),
            Response::ReadInputRegisters(words) => Response::ReadInputRegisters(words.try_clone(
                alloc,
            )?),
            Response::ReadHoldingRegisters(words) => Response::ReadHoldingRegisters(words.try_clone(
                alloc,
            )?),
            Response::WriteSingleRegister(address, word) => Response::WriteSingleRegister(
                *address, *word,
            ),
            Response::WriteMultipleRegisters(address, quantity) => {
                Response::WriteMultipleRegisters(*address, *quantity)
            }
            Response::ReportServerId(id, run, data) => Response::ReportServerId(
                *id,
                *run,
                data.try_clone(alloc)?,
            ),
            Response::MaskWriteRegister(address, and_mask, or_mask) => {
                Response::MaskWriteRegister(*address, *and_mask, *or_mask)
            }
            Response::ReadWriteMultipleRegisters(words) => {
                Response::ReadWriteMultipleRegisters(words.try_clone(alloc)?)
            }
            Response::ReadFifoQueue(words) => Response::ReadFifoQueue(words.try_clone(alloc)?),
            Response::ReadDeviceIdentification(found) => {
                Response::ReadDeviceIdentification(found.try_clone(alloc)?)
            }
            Response::Custom(code, data) => Response::Custom(*code, data.clone()?),
        })
    }
}

/// An answer that refuses what was asked (section 7).
#[derive(Clone, Copy, Debug, PartialEq, Eq)]
pub struct ExceptionResponse {
    /// The function of the request, without the bit that marks an exception on the wire.
    pub function: FunctionCode,
    /// Why it was refused.
    pub exception: ExceptionCode,
}

/// The function's number and the exception's name, as `Modbus function 2: Illegal data value`.
impl fmt::Display for ExceptionResponse {
    ghost output = { λ refusal. Some (exception_response_text refusal) };

    fn fmt<W: fmt::Write>(&self, f: &mut fmt::Formatter<W>) -> fmt::Result {
        write!(f, "Modbus function {}: {}", self.function, self.exception)
    }
}

impl Error for ExceptionResponse {}
