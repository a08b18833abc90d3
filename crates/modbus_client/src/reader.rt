//! Calls that read, for every client (Modbus Application Protocol V1.1b3, section 6).
ghost use Rattle.modbus_frame.specs.Meaning as asked;
ghost use Rattle.modbus_client.specs.Typed.{Asks, answer_map, coils_read, discrete_inputs_read, holding_registers_read, input_registers_read, registers_read_after_write, queue_read, identification_read};

use crate::client::Client;
use crate::typed::{all_words, another_kind, first_coils};
use modbus_frame::{
    Address, Coil, FunctionCode, ObjectId, Quantity, ReadCode, ReadDeviceIdentificationResponse,
    Request, Response, Result, Word,
};
use std::borrow::CowSlice;

/// Calls that read. Every client has them.
///
/// Each makes one [`call`](Client::call) and takes no memory of its own. It answers what that answers: a fault, or the exception of the
/// server, or the response as what was asked for. A response of another kind is `FunctionCodeMismatch` with the function of the request
/// and the response; one of the right kind that doesn't fit the request is `PayloadMismatch` with it.
pub trait Reader: Client {
    /// Reads `cnt` coils from `addr` on (section 6.1). Those past `cnt`, which fill the last byte, are dropped.
    ///
    /// # Errors
    /// Those of `call`. `FunctionCodeMismatch` exactly where the response is of another kind, `PayloadMismatch` exactly where it has
    /// fewer than `cnt` coils.
    fn read_coils(&mut self, addr: Address, cnt: Quantity) -> Result<Vec<Coil>>
        ensures { Asks Self.answers self.old (asked.ReadCoils addr cnt) (coils_read cnt)
            (answer_map (λ v. v.items) result) self.new }
    {
        match self.call(Request::ReadCoils(addr, cnt))? {
            Ok(Response::ReadCoils(coils)) => first_coils(coils, cnt, Response::ReadCoils),
            Ok(other) => Err(another_kind(FunctionCode::ReadCoils, other)),
            Err(exception) => Ok(Err(exception)),
        }
    }

    /// Reads `cnt` discrete inputs from `addr` on (section 6.2). Those past `cnt`, which fill the last byte, are dropped.
    ///
    /// # Errors
    /// Those of `call`. `FunctionCodeMismatch` exactly where the response is of another kind, `PayloadMismatch` exactly where it has
    /// fewer than `cnt` inputs.
    fn read_discrete_inputs(&mut self, addr: Address, cnt: Quantity) -> Result<Vec<Coil>>
        ensures { Asks Self.answers self.old (asked.ReadDiscreteInputs addr cnt)
            (discrete_inputs_read cnt) (answer_map (λ v. v.items) result) self.new }
    {
        match self.call(Request::ReadDiscreteInputs(addr, cnt))? {
            Ok(Response::ReadDiscreteInputs(inputs)) => {
                first_coils(inputs, cnt, Response::ReadDiscreteInputs)
            }
            Ok(other) => Err(another_kind(FunctionCode::ReadDiscreteInputs, other)),
            Err(exception) => Ok(Err(exception)),
        }
    }

    /// Reads `cnt` holding registers from `addr` on (section 6.3).
    ///
    /// # Errors
    /// Those of `call`. `FunctionCodeMismatch` exactly where the response is of another kind, `PayloadMismatch` exactly where it has
    /// not `cnt` registers.
    fn read_holding_registers(&mut self, addr: Address, cnt: Quantity) -> Result<Vec<Word>>
        ensures { Asks Self.answers self.old (asked.ReadHoldingRegisters addr cnt)
            (holding_registers_read cnt) (answer_map (λ v. v.items) result) self.new }
    {
        match self.call(Request::ReadHoldingRegisters(addr, cnt))? {
            Ok(Response::ReadHoldingRegisters(words)) => {
                all_words(words, cnt, Response::ReadHoldingRegisters)
            }
            Ok(other) => Err(another_kind(FunctionCode::ReadHoldingRegisters, other)),
            Err(exception) => Ok(Err(exception)),
        }
    }

    /// Reads `cnt` input registers from `addr` on (section 6.4).
    ///
    /// # Errors
    /// Those of `call`. `FunctionCodeMismatch` exactly where the response is of another kind, `PayloadMismatch` exactly where it has
    /// not `cnt` registers.
    fn read_input_registers(&mut self, addr: Address, cnt: Quantity) -> Result<Vec<Word>>
        ensures { Asks Self.answers self.old (asked.ReadInputRegisters addr cnt)
            (input_registers_read cnt) (answer_map (λ v. v.items) result) self.new }
    {
        match self.call(Request::ReadInputRegisters(addr, cnt))? {
            Ok(Response::ReadInputRegisters(words)) => {
                all_words(words, cnt, Response::ReadInputRegisters)
            }
            Ok(other) => Err(another_kind(FunctionCode::ReadInputRegisters, other)),
            Err(exception) => Ok(Err(exception)),
        }
    }

    /// Writes holding registers from `write_addr` on, and then reads `read_count` of them from `read_addr` on, as one request
    /// (section 6.17).
    ///
    /// # Errors
    /// Those of `call`. `FunctionCodeMismatch` exactly where the response is of another kind, `PayloadMismatch` exactly where it has
    /// not `read_count` registers.
    fn read_write_multiple_registers(
        &mut self,
        read_addr: Address,
        read_count: Quantity,
        write_addr: Address,
        write_data: &[Word],
    ) -> Result<Vec<Word>>
        ensures { Asks Self.answers self.old
            (asked.ReadWriteMultipleRegisters read_addr read_count write_addr write_data.now)
            (registers_read_after_write read_count) (answer_map (λ v. v.items) result) self.new }
    {
        match self.call(Request::ReadWriteMultipleRegisters(
            read_addr,
            read_count,
            write_addr,
            CowSlice::Borrowed(write_data),
        ))? {
            Ok(Response::ReadWriteMultipleRegisters(words)) => {
                all_words(words, read_count, Response::ReadWriteMultipleRegisters)
            }
            Ok(other) => Err(another_kind(FunctionCode::ReadWriteMultipleRegisters, other)),
            Err(exception) => Ok(Err(exception)),
        }
    }

    /// Reads the queue of registers whose count stands at `addr` (section 6.18), the oldest first. They stay in the queue.
    ///
    /// # Errors
    /// Those of `call`. `FunctionCodeMismatch` exactly where the response is of another kind.
    fn read_fifo_queue(&mut self, addr: Address) -> Result<Vec<Word>>
        ensures { Asks Self.answers self.old (asked.ReadFifoQueue addr) queue_read
            (answer_map (λ v. v.items) result) self.new }
    {
        match self.call(Request::ReadFifoQueue(addr))? {
            Ok(Response::ReadFifoQueue(words)) => Ok(Ok(words.into_vec())),
            Ok(other) => Err(another_kind(FunctionCode::ReadFifoQueue, other)),
            Err(exception) => Ok(Err(exception)),
        }
    }

    /// Reads objects of the device identification from `object_id` on (section 6.21).
    ///
    /// # Errors
    /// Those of `call`. `FunctionCodeMismatch` exactly where the response is of another kind.
    fn read_device_identification(
        &mut self,
        read_code: ReadCode,
        object_id: ObjectId,
    ) -> Result<ReadDeviceIdentificationResponse>
        ensures { Asks Self.answers self.old (asked.ReadDeviceIdentification read_code object_id)
            identification_read result self.new }
    {
        match self.call(Request::ReadDeviceIdentification(read_code, object_id))? {
            Ok(Response::ReadDeviceIdentification(found)) => Ok(Ok(found)),
            Ok(other) => Err(another_kind(FunctionCode::EncapsulatedInterfaceTransport, other)),
            Err(exception) => Ok(Err(exception)),
        }
    }
}

impl<C: Client> Reader for C {}
