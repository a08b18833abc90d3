//! Laws of the PDUs, over their definitions.
ghost use Rattle.std.specs.Prelude.{◌≡◌, ℕ, ◌*◌, ◌<◌, Bool, false, List, length, slice_index_or};
ghost use Rattle.std.specs.List.{AllByRecursion};
ghost use Rattle.modbus_frame.specs.Meaning.{Asked, meaning};
ghost use Rattle.modbus_pdu.specs.Fields.{coil_at, coils_of, packed_bytes, packed_size};
ghost use Rattle.modbus_pdu.specs.Laws.{IsInRange, IsWord, ReadsBack, request_size};
ghost use Rattle.modbus_pdu.specs.RequestPdu.{request_pdu};

use modbus_frame::{Request, Word};

/// A request that fits is what its own PDU decodes to: each modelled kind, and each custom function
/// whose code is below `EXCEPTION_BIT` and stands for no modelled kind.
pub fn requests_read_back()
    ensures { (r : Asked) → IsInRange r → ReadsBack r }
{}

/// This request, if it fits, is what its own PDU decodes to: where its kind is modelled, or where its
/// code is below `EXCEPTION_BIT` and stands for no modelled kind.
pub fn request_reads_back(request: &Request<'_>)
    ensures { ReadsBack (meaning request.now) }
{
    request_is_in_range(request);
}

/// The size of a PDU, by the kind of its request.
pub fn requests_have_sizes()
    ensures { (r : Asked) → length (request_pdu r) ≡ request_size r }
{}

/// Coil i of packed coils is bit `i % 8` of byte `i / 8`, and the bits after the last coil are 0.
pub fn coils_are_packed()
    ensures size { (coils : List Bool) → length (packed_bytes coils) ≡ packed_size (length coils) }
    ensures bits { (coils : List Bool) (i : ℕ) → i < 8 * packed_size (length coils)
        → coil_at (packed_bytes coils) i ≡ slice_index_or coils i false }
    ensures unpacked { (coils : List Bool) → coils_of (packed_bytes coils) (length coils) ≡ coils }
{}

/// Each number of a request is in the range of its type.
fn request_is_in_range(request: &Request<'_>)
    ensures { IsInRange (meaning request.now) }
{
    match request {
        Request::ReadCoils(address, word)
        | Request::ReadDiscreteInputs(address, word)
        | Request::ReadHoldingRegisters(address, word)
        | Request::ReadInputRegisters(address, word)
        | Request::WriteSingleRegister(address, word) => {
            let _numbers = (*address, *word);
        }
        Request::WriteSingleCoil(address, _)
        | Request::WriteMultipleCoils(address, _)
        | Request::ReadFifoQueue(address) => {
            let _address = *address;
        }
        Request::WriteMultipleRegisters(address, registers) => {
            let _address = *address;
            registers_are_in_range(registers.as_slice());
        }
        Request::ReportServerId => {}
        Request::MaskWriteRegister(address, and_mask, or_mask) => {
            let _numbers = (*address, *and_mask, *or_mask);
        }
        Request::ReadWriteMultipleRegisters(read_address, quantity, write_address, registers) => {
            let _numbers = (*read_address, *quantity, *write_address);
            registers_are_in_range(registers.as_slice());
        }
        Request::ReadDeviceIdentification(_, id) => {
            let _id = *id;
        }
        Request::Custom(code, _) => {
            let _code = *code;
        }
    }
}

/// Each register is a number of two bytes.
fn registers_are_in_range(registers: &[Word])
    ensures { AllByRecursion IsWord registers.now }
{
    let _registers = registers;
}
