//! What a client asks a server (Application Protocol V1.1b3, section 6).
//!
//! A request may borrow its lists, so contracts speak of its meaning: its kind with its numbers and
//! the items of its lists, wherever these lie in memory.
ghost use Rattle.std.specs.Prelude.{◌≡◌, IfOk};
ghost use Rattle.std.specs.Cow.{cow_slice_items};
ghost use Rattle.modbus_frame.specs.Meaning.{meaning, function_asked, only_reads};

use crate::code::{FunctionCode, ReadCode};
use crate::identification::ObjectId;
use crate::list::{Address, Coil, Quantity, Word};
use crate::slave::SlaveId;
use std::alloc::{AllocError, Global};
use std::borrow::CowSlice;

/// A request of a client, by its kind.
///
/// Addresses count from 0. Two requests are equal where their meanings are, whether they own or borrow their lists.
#[derive(Debug, PartialEq, Eq, Drop)]
pub enum Request<'a> {
    /// Read coils (section 6.1): the first address, and how many coils.
    ReadCoils(Address, Quantity),
    /// Read discrete inputs (section 6.2): the first address, and how many inputs.
    ReadDiscreteInputs(Address, Quantity),
    /// Write one coil (section 6.5): its address and its state.
    WriteSingleCoil(Address, Coil),
    /// Write coils (section 6.11): the first address, and the states.
    WriteMultipleCoils(Address, CowSlice<'a, Coil>),
    /// Read input registers (section 6.4): the first address, and how many registers.
    ReadInputRegisters(Address, Quantity),
    /// Read holding registers (section 6.3): the first address, and how many registers.
    ReadHoldingRegisters(Address, Quantity),
    /// Write one holding register (section 6.6): its address and its content.
    WriteSingleRegister(Address, Word),
    /// Write holding registers (section 6.12): the first address, and the contents.
    WriteMultipleRegisters(Address, CowSlice<'a, Word>),
    /// Ask what the server is and whether it runs (section 6.13).
    ReportServerId,
    /// Change single bits of a holding register (section 6.16): its address, the AND mask and the OR mask.
    MaskWriteRegister(Address, Word, Word),
    /// Write holding registers, then read others (section 6.17): the first address to read and how many registers, the
    /// first address to write and the contents.
    ReadWriteMultipleRegisters(Address, Quantity, Address, CowSlice<'a, Word>),
    /// Read a first-in-first-out queue of registers (section 6.18): the address of its count.
    ReadFifoQueue(Address),
    /// Ask for objects of the device identification (section 6.21): which kind of objects, and the first object or the
    /// one that is asked for.
    ReadDeviceIdentification(ReadCode, ObjectId),
    /// A request of any other function: the number of the function, and the bytes after it.
    Custom(u8, CowSlice<'a, u8>),
}

// A copy that borrows where the list is borrowed, and owns new memory where it is owned.
fn copied<'a, T: Copy>(
    items: &CowSlice<'a, T>,
    alloc: Global,
) -> Result<CowSlice<'a, T>, AllocError>
    ensures { IfOk result (λ copy. cow_slice_items copy ≡ cow_slice_items items.now) }
{
    match items {
        CowSlice::Borrowed(slice) => Ok(CowSlice::Borrowed(*slice)),
        CowSlice::Owned(vec) => Ok(CowSlice::Owned(Vec::from_slice(alloc, vec.as_slice())?)),
    }
}

impl<'a> Request<'a> {
    /// The function of the request. Device identification is [`FunctionCode::EncapsulatedInterfaceTransport`].
    pub fn function_code(&self) -> FunctionCode
        ensures { result ≡ function_asked (meaning self.now) }
    {
        match self {
            Request::ReadCoils(_, _) => FunctionCode::ReadCoils,
            Request::ReadDiscreteInputs(_, _) => FunctionCode::ReadDiscreteInputs,
            Request::WriteSingleCoil(_, _) => FunctionCode::WriteSingleCoil,
            Request::WriteMultipleCoils(_, _) => FunctionCode::WriteMultipleCoils,
            Request::ReadInputRegisters(_, _) => FunctionCode::ReadInputRegisters,
            Request::ReadHoldingRegisters(_, _) => FunctionCode::ReadHoldingRegisters,
            Request::WriteSingleRegister(_, _) => FunctionCode::WriteSingleRegister,
            Request::WriteMultipleRegisters(_, _) => FunctionCode::WriteMultipleRegisters,
            Request::ReportServerId => FunctionCode::ReportServerId,
            Request::MaskWriteRegister(_, _, _) => FunctionCode::MaskWriteRegister,
            Request::ReadWriteMultipleRegisters(_, _, _, _) =>
                FunctionCode::ReadWriteMultipleRegisters,
            Request::ReadFifoQueue(_) => FunctionCode::ReadFifoQueue,
            Request::ReadDeviceIdentification(_, _) => FunctionCode::EncapsulatedInterfaceTransport,
            Request::Custom(code, _) => FunctionCode::Custom(*code),
        }
    }

    /// The request with lists of its own, of the same meaning. Refused memory is the one error.
    pub fn into_owned(self, alloc: Global) -> Result<Request<'static>, AllocError>
        ensures { IfOk result (λ owned. meaning owned ≡ meaning self.entry) }
    {
        Ok(match self {
            Request::ReadCoils(address, quantity) => Request::ReadCoils(address, quantity),
            Request::ReadDiscreteInputs(address, quantity) => Request::ReadDiscreteInputs(
                address, quantity,
            ),
            Request::WriteSingleCoil(address, coil) => Request::WriteSingleCoil(address, coil),
            Request::WriteMultipleCoils(address, coils) => {
                Request::WriteMultipleCoils(address, CowSlice::Owned(coils.into_owned(alloc)?))
            }
            Request::ReadInputRegisters(address, quantity) => Request::ReadInputRegisters(
                address, quantity,
            ),
            Request::ReadHoldingRegisters(address, quantity) => Request::ReadHoldingRegisters(
                address, quantity,
            ),
            Request::WriteSingleRegister(address, word) => Request::WriteSingleRegister(
                address, word,
            ),
            Request::WriteMultipleRegisters(address, words) => {
                Request::WriteMultipleRegisters(address, CowSlice::Owned(words.into_owned(alloc)?))
            }
            Request::ReportServerId => Request::ReportServerId,
            Request::MaskWriteRegister(address, and_mask, or_mask) => {
                Request::MaskWriteRegister(address, and_mask, or_mask)
            }
            Request::ReadWriteMultipleRegisters(read_address, quantity, write_address, words) => {
                Request::ReadWriteMultipleRegisters(
                    read_address,
                    quantity,
                    write_address,
                    CowSlice::Owned(words.into_owned(alloc)?),
                )
            }
            Request::ReadFifoQueue(address) => Request::ReadFifoQueue(address),
            Request::ReadDeviceIdentification(code, id) => Request::ReadDeviceIdentification(
                code, id,
            ),
            Request::Custom(code, data) => Request::Custom(
                code,
                CowSlice::Owned(data.into_owned(alloc)?),
            ),
        })
    }

    /// The same request, which borrows its lists from this one.
    pub fn lend(&self) -> Request<'_>
        ensures { meaning result ≡ meaning self.now }
    {
        match self {
            Request::ReadCoils(address, quantity) => Request::ReadCoils(*address, *quantity),
            Request::ReadDiscreteInputs(address, quantity) => {
                Request::ReadDiscreteInputs(*address, *quantity)
            }
            Request::WriteSingleCoil(address, coil) => Request::WriteSingleCoil(*address, *coil),
            Request::WriteMultipleCoils(address, coils) => {
                Request::WriteMultipleCoils(*address, CowSlice::Borrowed(coils.as_slice()))
            }
            Request::ReadInputRegisters(address, quantity) => {
                Request::ReadInputRegisters(*address, *quantity)
            }
            Request::ReadHoldingRegisters(address, quantity) => {
                Request::ReadHoldingRegisters(*address, *quantity)
            }
            Request::WriteSingleRegister(address, word) => {
                Request::WriteSingleRegister(*address, *word)
            }
            Request::WriteMultipleRegisters(address, words) => {
                Request::WriteMultipleRegisters(*address, CowSlice::Borrowed(words.as_slice()))
            }
            Request::ReportServerId => Request::ReportServerId,
            Request::MaskWriteRegister(address, and_mask, or_mask) => {
                Request::MaskWriteRegister(*address, *and_mask, *or_mask)
            }
            Request::ReadWriteMultipleRegisters(read_address, quantity, write_address, words) => {
                Request::ReadWriteMultipleRegisters(
                    *read_address,
                    *quantity,
                    *write_address,
                    CowSlice::Borrowed(words.as_slice()),
                )
            }
            Request::ReadFifoQueue(address) => Request::ReadFifoQueue(*address),
            Request::ReadDeviceIdentification(code, id) => {
                Request::ReadDeviceIdentification(*code, *id)
            }
            Request::Custom(code, data) => {
                Request::Custom(*code, CowSlice::Borrowed(data.as_slice()))
            }
        }
    }

    /// Whether it only reads: a device that does it twice is as if it had done it once (sections 6.1 to 6.4, 6.13, 6.18, 6.21).
    pub fn only_reads(&self) -> bool
        ensures { result ≡ only_reads (meaning self.now) }
    {
        match self {
            Request::ReadCoils(_, _)
            | Request::ReadDiscreteInputs(_, _)
            | Request::ReadInputRegisters(_, _)
            | Request::ReadHoldingRegisters(_, _)
            | Request::ReportServerId
            | Request::ReadFifoQueue(_)
            | Request::ReadDeviceIdentification(_, _) => true,
            Request::WriteSingleCoil(_, _)
            | Request::WriteMultipleCoils(_, _)
            | Request::WriteSingleRegister(_, _)
            | Request::WriteMultipleRegisters(_, _)
            | Request::MaskWriteRegister(_, _, _)
            | Request::ReadWriteMultipleRegisters(_, _, _, _)
            | Request::Custom(_, _) => false,
        }
    }

    /// A request of the same meaning, which borrows what this one borrows. Refused memory is the one error.
    pub fn try_clone(&self, alloc: Global) -> Result<Self, AllocError>
        ensures { IfOk result (λ copy. meaning copy ≡ meaning self.now) }
    {
        Ok(match self {
            Request::ReadCoils(address, quantity) => Request::ReadCoils(*address, *quantity),
            Request::ReadDiscreteInputs(address, quantity) => Request::ReadDiscreteInputs(
                *address, *quantity,
            ),
            Request::WriteSingleCoil(address, coil) => Request::WriteSingleCoil(*address, *coil),
            Request::WriteMultipleCoils(address, coils) => {
                Request::WriteMultipleCoils(*address, copied(coils, alloc)?)
            }
            Request::ReadInputRegisters(address, quantity) => Request::ReadInputRegisters(
                *address, *quantity,
            ),
            Request::ReadHoldingRegisters(address, quantity) => Request::ReadHoldingRegisters(
                *address, *quantity,
            ),
            Request::WriteSingleRegister(address, word) => Request::WriteSingleRegister(
                *address, *word,
            ),
            Request::WriteMultipleRegisters(address, words) => {
                Request::WriteMultipleRegisters(*address, copied(words, alloc)?)
            }
            Request::ReportServerId => Request::ReportServerId,
            Request::MaskWriteRegister(address, and_mask, or_mask) => {
                Request::MaskWriteRegister(*address, *and_mask, *or_mask)
            }
            Request::ReadWriteMultipleRegisters(read_address, quantity, write_address, words) => {
                Request::ReadWriteMultipleRegisters(
                    *read_address,
                    *quantity,
                    *write_address,
                    copied(words, alloc)?,
                )
            }
            Request::ReadFifoQueue(address) => Request::ReadFifoQueue(*address),
            Request::ReadDeviceIdentification(code, id) => Request::ReadDeviceIdentification(
                *code, *id,
            ),
            Request::Custom(code, data) => Request::Custom(*code, copied(data, alloc)?),
        })
    }
}

/// A request, and the slave that it is for.
#[derive(Debug, PartialEq, Eq, Drop)]
pub struct SlaveRequest<'a> {
    /// The slave, or the unit identifier of a TCP request.
    pub slave: SlaveId,
    /// What is asked.
    pub request: Request<'a>,
}

impl<'a> SlaveRequest<'a> {
    /// The request with lists of its own, of the same slave and meaning. Refused memory is the one error.
    pub fn into_owned(self, alloc: Global) -> Result<SlaveRequest<'static>, AllocError>
        ensures slave { IfOk result (λ owned. owned.slave ≡ self.entry.slave) }
        ensures request { IfOk result (λ owned. meaning owned.request ≡ meaning self.entry.request) }
    {
        Ok(SlaveRequest {
            slave: self.slave,
            request: self.request.into_owned(alloc)?,
        })
    }

    /// A request of the same slave and meaning, which borrows what this one borrows. Refused memory is the one error.
    pub fn try_clone(&self, alloc: Global) -> Result<Self, AllocError>
        ensures slave { IfOk result (λ copy. copy.slave ≡ self.now.slave) }
        ensures request { IfOk result (λ copy. meaning copy.request ≡ meaning self.now.request) }
    {
        Ok(SlaveRequest {
            slave: self.slave,
            request: self.request.try_clone(alloc)?,
        })
    }
}
