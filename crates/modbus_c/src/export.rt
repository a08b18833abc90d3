//! One request of an input, answered into an output by the caller's own tables.
ghost use Rattle.std.specs.Prelude.{◌≡◌, ◌<◌, ◌≤◌, Result, length};
ghost use Rattle.modbus_rtu.specs.declared.front.Crowd.{Crowd as Crowded};
ghost use Rattle.modbus_tcp.specs.declared.stream.HeaderFault.{HeaderFault as BadHeader};
ghost use Rattle.modbus_tcp.specs.Limits.{longest_response};
ghost use Rattle.modbus_store.specs.Lent.{tables_of};
ghost use Rattle.modbus_c.specs.declared.serve.Served.{Served as Done};
ghost use Rattle.modbus_c.specs.Served.{flat_served, flat_adu, flat_frame, no_room};
ghost use Rattle.modbus_c.specs.Serves.{ServesAdu, ServesFrame};

use crate::serve::{Served, serve_adu, serve_frame};
use crate::status::{
    MODBUS_CROWD, MODBUS_DONE, MODBUS_FOREIGN, MODBUS_NO_LENGTH, MODBUS_NO_MEMORY, MODBUS_NO_ROOM,
    MODBUS_REFUSED, MODBUS_SILENT, MODBUS_WAITING, number_of,
};
use modbus_rtu::{Crowd, MAX_RETRIES};
use modbus_store::LentTables;
use modbus_tcp::{HeaderFault, LONGEST_RESPONSE};
use std::alloc::Global;

/// What was done with the front of an input. `MODBUS_DONE`: a request was answered; it ends at `used`, and the reply is the first
/// `written` bytes of the output. `MODBUS_WAITING`: no whole message; `used` bytes are of no use. `MODBUS_SILENT`: a broadcast had its
/// effect, and ends at `used`. `MODBUS_REFUSED`: the PDU is no request, for the reason `detail`; the message ends at `used`.
/// `MODBUS_NO_MEMORY`: nothing was used. `MODBUS_NO_LENGTH`, `MODBUS_FOREIGN`: the header is none of Modbus; `detail` is its protocol.
/// `MODBUS_CROWD`: no frame stands at the first twenty offsets, and these `used` bytes are of no use. `MODBUS_NO_ROOM`: the output has
/// less than 260 bytes, and nothing was done.
#[repr(C)]
#[derive(Clone, Copy)]
pub struct ModbusServed {
    pub status: u32,
    pub detail: u32,
    pub used: usize,
    pub written: usize,
}

pub(crate) fn told(status: u32, detail: u32, used: usize, written: usize) -> ModbusServed
    ensures { result
        ≡ record { status = status; detail = detail; used = used; written = written } }
{
    ModbusServed {
        status,
        detail,
        used,
        written,
    }
}

pub(crate) fn flat(served: Served) -> ModbusServed
    ensures { result ≡ flat_served served }
{
    match served {
        Served::Answered { used, written } => told(MODBUS_DONE, 0, used, written),
        Served::Waiting { dropped } => told(MODBUS_WAITING, 0, dropped, 0),
        Served::Silent { used } => told(MODBUS_SILENT, 0, used, 0),
        Served::Refused { used, reason } => told(MODBUS_REFUSED, number_of(reason), used, 0),
        Served::NoMemory => told(MODBUS_NO_MEMORY, 0, 0, 0),
    }
}

pub(crate) fn flat_of_adu(served: Result<Served, HeaderFault>) -> ModbusServed
    ensures { result ≡ flat_adu served }
{
    match served {
        Ok(served) => flat(served),
        Err(HeaderFault::InvalidLength) => told(MODBUS_NO_LENGTH, 0, 0, 0),
        Err(HeaderFault::InvalidProtocol(protocol)) => told(
            MODBUS_FOREIGN,
            u32::from(protocol),
            0,
            0,
        ),
    }
}

pub(crate) fn flat_of_frame(served: Result<Served, Crowd>) -> ModbusServed
    ensures { result ≡ flat_frame served }
{
    match served {
        Ok(served) => flat(served),
        Err(_) => told(MODBUS_CROWD, 0, MAX_RETRIES, 0),
    }
}

/// Answers the ADU at the front of the input by the caller's tables. Where `broadcast` is true, unit 0 has its effect and no answer.
#[unsafe(no_mangle)]
pub extern "C" fn modbus_tcp_serve(
    alloc: Global,
    input: &[u8],
    coils: &mut [bool],
    discrete_inputs: &[bool],
    holding_registers: &mut [u16],
    input_registers: &[u16],
    broadcast: bool,
    output: &mut [u8],
) -> ModbusServed
    ensures serves { longest_response ≤ length output.old → (done : Result Done BadHeader)
        × (result ≡ flat_adu done) × ServesAdu
        (tables_of coils.old discrete_inputs.now holding_registers.old input_registers.now
        broadcast) input.now output.old done output.new
        (tables_of coils.new discrete_inputs.now holding_registers.new input_registers.now
        broadcast) }
    ensures room { length output.old < longest_response → (result ≡ no_room)
        × (coils.new ≡ coils.old) × (holding_registers.new ≡ holding_registers.old)
        × (output.new ≡ output.old) }
{
    if output.len() < LONGEST_RESPONSE {
        return told(MODBUS_NO_ROOM, 0, 0, 0);
    }
    let mut tables = LentTables {
        coils,
        discrete_inputs,
        holding_registers,
        input_registers,
        broadcast,
    };
    flat_of_adu(serve_adu(alloc, input, &mut tables, output))
}

/// Answers the next frame of the input by the caller's tables. Where `broadcast` is true, slave 0 has its effect and no answer.
#[unsafe(no_mangle)]
pub extern "C" fn modbus_rtu_serve(
    alloc: Global,
    input: &[u8],
    coils: &mut [bool],
    discrete_inputs: &[bool],
    holding_registers: &mut [u16],
    input_registers: &[u16],
    broadcast: bool,
    output: &mut [u8],
) -> ModbusServed
    ensures serves { longest_response ≤ length output.old → (done : Result Done Crowded)
        × (result ≡ flat_frame done) × ServesFrame
        (tables_of coils.old discrete_inputs.now holding_registers.old input_registers.now
        broadcast) input.now output.old done output.new
        (tables_of coils.new discrete_inputs.now holding_registers.new input_registers.now
        broadcast) }
    ensures room { length output.old < longest_response → (result ≡ no_room)
        × (coils.new ≡ coils.old) × (holding_registers.new ≡ holding_registers.old)
        × (output.new ≡ output.old) }
{
    if output.len() < LONGEST_RESPONSE {
        return told(MODBUS_NO_ROOM, 0, 0, 0);
    }
    let mut tables = LentTables {
        coils,
        discrete_inputs,
        holding_registers,
        input_registers,
        broadcast,
    };
    flat_of_frame(serve_frame(alloc, input, &mut tables, output))
}
