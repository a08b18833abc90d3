//! A device whose tables begin at addresses of their own, and have entries that requests read alone.
ghost use Rattle.std.specs.Prelude.{◌≡◌, MatchOption, IfOk, IfSome, Some, None};
ghost use Rattle.modbus_frame.specs.Meaning.{meaning};
ghost use Rattle.modbus_pdu.specs.Encodes.{Fits};
ghost use Rattle.modbus_pdu.specs.ResponsePdu.{response_pdu};
ghost use Rattle.modbus_store.specs.Tables.{Tables as Lists};
ghost use Rattle.modbus_c.specs.Places.{place_at, placed, touches, is_kept, address_written, response_at, no_tables, PlacedTells, reached};
ghost use Rattle.modbus_c.specs.Units.{outcome_of, Tells};

use crate::tables::{ModbusDevice, ModbusSlave, ModbusSpan, ModbusStarts, ModbusTables};
use crate::unit::{Device, LineUnit};
use modbus_frame::{Address, ExceptionCode, Request, Response, SlaveId};
use std::alloc::Global;
use std::borrow::CowSlice;

/// How many addresses there are.
const ADDRESSES: usize = 0x1_0000;

/// The place in a table that begins at `start` of so many addresses from one on; `None` where they begin before it or end behind address 65535.
fn place_at(start: Address, address: Address, count: usize) -> Option<Address>
    ensures { result ≡ place_at start address count }
{
    if start <= address && count <= ADDRESSES - usize::from(address) {
        Some(address - start)
    } else {
        None
    }
}

/// A request by the places of its addresses in the tables, which borrows its lists; `None` where one is before its table or behind address 65535.
fn placed<'r>(starts: ModbusStarts, request: &'r Request<'_>) -> Option<Request<'r>>
    ensures { MatchOption result (placed starts (meaning request.now) ≡ None) (λ there.
        placed starts (meaning request.now) ≡ Some (meaning there)) }
{
    let coils = starts.coils;
    let inputs = starts.discrete_inputs;
    let registers = starts.holding_registers;
    let words = starts.input_registers;
    Some(match request {
        Request::ReadCoils(address, quantity) => {
            Request::ReadCoils(
                place_at(coils, *address, usize::from(*quantity))?,
                *quantity,
            )
        }
        Request::ReadDiscreteInputs(address, quantity) => Request::ReadDiscreteInputs(
            place_at(inputs, *address, usize::from(*quantity))?,
            *quantity,
        ),
        Request::ReadHoldingRegisters(address, quantity) => Request::ReadHoldingRegisters(
            place_at(registers, *address, usize::from(*quantity))?,
            *quantity,
        ),
        Request::ReadInputRegisters(address, quantity) => Request::ReadInputRegisters(
            place_at(words, *address, usize::from(*quantity))?,
            *quantity,
        ),
        Request::WriteSingleCoil(address, coil) => {
            Request::WriteSingleCoil(place_at(coils, *address, 1)?, *coil)
        }
        Request::WriteSingleRegister(address, word) => {
            Request::WriteSingleRegister(place_at(registers, *address, 1)?, *word)
        }
        Request::WriteMultipleCoils(address, values) => Request::WriteMultipleCoils(
            place_at(coils, *address, values.as_slice().len())?,
            CowSlice::Borrowed(values.as_slice()),
        ),
        Request::WriteMultipleRegisters(address, words) => Request::WriteMultipleRegisters(
            place_at(registers, *address, words.as_slice().len())?,
            CowSlice::Borrowed(words.as_slice()),
        ),
        Request::MaskWriteRegister(address, and_mask, or_mask) => {
            Request::MaskWriteRegister(place_at(registers, *address, 1)?, *and_mask, *or_mask)
        }
        Request::ReadWriteMultipleRegisters(address, quantity, write_address, words) => {
            Request::ReadWriteMultipleRegisters(
                place_at(registers, *address, usize::from(*quantity))?,
                *quantity,
                place_at(registers, *write_address, words.as_slice().len())?,
                CowSlice::Borrowed(words.as_slice()),
            )
        }
        Request::ReadFifoQueue(address) => {
            Request::ReadFifoQueue(place_at(registers, *address, 1)?)
        }
        Request::ReportServerId | Request::ReadDeviceIdentification(_, _) | Request::Custom(_, _) =>
            request.lend(),
    })
}

/// Whether so many addresses from one on have one in common with a span.
fn touches(span: ModbusSpan, address: Address, count: usize) -> bool
    ensures { result ≡ touches span address count }
{
    let first = usize::from(span.address);
    let asked = usize::from(address);
    let have_entries = 0 < span.count && 0 < count;
    have_entries && asked < first + span.count as usize && first < asked.saturating_add(count)
}

/// Whether a request would write a coil or a holding register that requests read alone.
fn is_kept(coils: ModbusSpan, registers: ModbusSpan, request: &Request<'_>) -> bool
    ensures { result ≡ is_kept coils registers (meaning request.now) }
{
    match request {
        Request::WriteSingleCoil(address, _) => touches(coils, *address, 1),
        Request::WriteMultipleCoils(address, values) => {
            touches(coils, *address, values.as_slice().len())
        }
        Request::WriteSingleRegister(address, _) => touches(registers, *address, 1),
        Request::WriteMultipleRegisters(address, words) => {
            touches(registers, *address, words.as_slice().len())
        }
        Request::MaskWriteRegister(address, _, _) => touches(registers, *address, 1),
        Request::ReadWriteMultipleRegisters(_, _, address, words) => {
            touches(registers, *address, words.as_slice().len())
        }
        _ => false,
    }
}

/// The address that a request writes, which its reply tells.
fn address_written(request: &Request<'_>) -> Address
    ensures { result ≡ address_written (meaning request.now) }
{
    match request {
        Request::WriteSingleCoil(address, _)
        | Request::WriteSingleRegister(address, _)
        | Request::WriteMultipleCoils(address, _)
        | Request::WriteMultipleRegisters(address, _)
        | Request::MaskWriteRegister(address, _, _) => *address,
        _ => 0,
    }
}

/// A reply that tells this address, where it tells one.
fn response_at(address: Address, told: Response) -> Response
    ensures { result ≡ response_at address told }
{
    match told {
        Response::WriteSingleCoil(_, coil) => Response::WriteSingleCoil(address, coil),
        Response::WriteSingleRegister(_, word) => Response::WriteSingleRegister(address, word),
        Response::WriteMultipleCoils(_, quantity) => {
            Response::WriteMultipleCoils(address, quantity)
        }
        Response::WriteMultipleRegisters(_, quantity) => {
            Response::WriteMultipleRegisters(address, quantity)
        }
        Response::MaskWriteRegister(_, and_mask, or_mask) => {
            Response::MaskWriteRegister(address, and_mask, or_mask)
        }
        other => other,
    }
}

/// What tables of no entry answer: the exception of a count that is none, or of an address.
///
/// # Errors
/// The exception that is answered.
fn ask_nothing(
    alloc: Global,
    slave: SlaveId,
    request: &Request<'_>,
) -> Result<Option<Response>, ExceptionCode>
    ensures tells { (after : Lists) × Tells no_tables slave (meaning request.now)
        (outcome_of result) after }
    ensures fits { IfOk result (λ found. IfSome found (λ response. Fits (response_pdu response))) }
{
    let mut nothing = ModbusTables {
        coils: &mut [],
        discrete_inputs: &[],
        holding_registers: &mut [],
        input_registers: &[],
    };
    nothing.ask(alloc, slave, request.lend())
}

/// What a device answers a request of a slave; `None` where there is no answer.
///
/// # Errors
/// The exception that is answered.
fn ask_device(
    alloc: Global,
    device: &mut ModbusDevice<'_>,
    slave: SlaveId,
    request: &Request<'_>,
) -> Result<Option<Response>, ExceptionCode>
    ensures tells { PlacedTells slave (meaning request.now) (outcome_of result) device.old
        device.new }
    ensures fits { IfOk result (λ found. IfSome found (λ response. Fits (response_pdu response))) }
{
    if is_kept(device.kept_coils, device.kept_registers, request) {
        return ask_nothing(alloc, slave, request);
    }
    match placed(device.starts, request) {
        None => ask_nothing(alloc, slave, request),
        Some(there) => match device.tables.ask(alloc, slave, there) {
            Ok(Some(told)) => Ok(Some(response_at(address_written(request), told))),
            Ok(None) => Ok(None),
            Err(exception) => Err(exception),
        },
    }
}

impl<'t> Device for ModbusDevice<'t> {
    ghost use Rattle.modbus_c.specs.Places.{PlacedTells};

    ghost tells = { PlacedTells };

    fn ask(
        &mut self,
        alloc: Global,
        slave: SlaveId,
        request: Request<'_>,
    ) -> Result<Option<Response>, ExceptionCode> {
        ask_device(alloc, self, slave, &request)
    }
}

impl<'t> LineUnit for ModbusSlave<'t> {
    ghost use Rattle.modbus_c.specs.Places.{placed_units};

    ghost units = { placed_units };

    fn address(&self) -> SlaveId {
        self.unit
    }

    fn ask(
        &mut self,
        alloc: Global,
        slave: SlaveId,
        request: Request<'_>,
    ) -> Result<Option<Response>, ExceptionCode> {
        ask_device(alloc, &mut self.device, slave, &request)
    }
}
