//! What a point holds, read back.
ghost use Rattle.std.specs.Prelude.{◌≡◌, ◌↔◌, true, IsTrue, length};
ghost use Rattle.modbus_map.specs.Kinds.{width};
ghost use Rattle.modbus_map.specs.Points.{is_writable};
ghost use Rattle.modbus_plant.specs.ReadsBack.{JudgesState, JudgesWords, ReadsCoil, ReadsRegisters, ReadsBack, WritesThenReads, WritesVerified};

use crate::point_error::{PointWriteError, ReadBackError, VerifiedWriteError};
use crate::write::{is_on, told, words_at, write_words};
use modbus_client::{Client, Reader};
use modbus_frame::{Address, Coil, Word};
use modbus_map::{Encoding, Point, PointValue, Table, value_of};
use std::alloc::{AllocError, Global};

/// What the state that was read of a coil says.
///
/// # Errors
/// `Differs` where it is another one than was written.
fn judge_state(written: Coil, found: Coil) -> Result<(), ReadBackError>
    ensures { JudgesState written found result }
{
    if written == found {
        Ok(())
    } else {
        Err(ReadBackError::Differs(PointValue::State(found)))
    }
}

/// Reads a coil back (section 6.1).
fn verify_coil<C: Client>(
    client: &mut C,
    address: Address,
    written: Coil,
) -> Result<(), ReadBackError>
    ensures { ReadsCoil C.answers client.old address written result client.new }
{
    match client.read_coils(address, 1) {
        Ok(Ok(states)) => judge_state(written, states.as_slice().first() == Some(&true)),
        Ok(Err(code)) => Err(ReadBackError::Exception(code)),
        Err(error) => Err(ReadBackError::Call(error)),
    }
}

/// What the words that were read of holding registers say.
///
/// # Errors
/// `Differs` where they are others than were written, and `NoMemory` where memory is refused for their value.
fn judge_words(
    alloc: Global,
    encoding: &Encoding,
    written: &[Word],
    found: &[Word],
) -> Result<(), ReadBackError>
    requires { length found.now ≡ width encoding.now.kind }
    ensures { JudgesWords encoding.now written.now found.now result }
{
    if found == written {
        return Ok(());
    }
    match value_of(alloc, encoding, found) {
        Ok(value) => Err(ReadBackError::Differs(value)),
        Err(AllocError) => Err(ReadBackError::NoMemory),
    }
}

/// Reads holding registers back (section 6.3).
fn verify_registers<C: Client>(
    alloc: Global,
    client: &mut C,
    address: Address,
    encoding: &Encoding,
    written: &[Word],
) -> Result<(), ReadBackError>
    ensures { ReadsRegisters C.answers client.old address encoding.now written.now result
        client.new }
{
    match client.read_holding_registers(address, encoding.kind.width()) {
        Ok(Ok(found)) => judge_words(alloc, encoding, written, found.as_slice()),
        Ok(Err(code)) => Err(ReadBackError::Exception(code)),
        Err(error) => Err(ReadBackError::Call(error)),
    }
}

/// Reads a point back that was written, by one read of its own, and compares what it holds with these words: the state of a coil, or all
/// words of holding registers (sections 6.1 and 6.3).
///
/// # Errors
/// `Differs` with the value that was read, where it is another one. `Call` where the call failed, `Exception` where the device refused the
/// read, `NoMemory` where memory was refused for another value. The read was made in each case.
pub fn verify_point<C: Client>(
    alloc: Global,
    client: &mut C,
    point: &Point,
    words: &[Word],
) -> Result<(), ReadBackError>
    requires { is_writable point.now.table ≡ true }
    ensures { ReadsBack C.answers client.old point.now words.now result client.new }
{
    match point.table {
        Table::HoldingRegisters => {
            verify_registers(alloc, client, point.address, &point.encoding, words)
        }
        _ => verify_coil(client, point.address, is_on(words)),
    }
}

/// Writes words at a point, and reads them back.
fn write_then_read<C: Client>(
    alloc: Global,
    client: &mut C,
    point: &Point,
    words: &[Word],
) -> Result<(), VerifiedWriteError>
    requires { is_writable point.now.table ≡ true }
    ensures { WritesThenReads C.answers client.old point.now words.now result client.new }
{
    match told(write_words(client, point.table, point.address, words)) {
        Ok(()) => match verify_point(alloc, client, point, words) {
            Ok(()) => Ok(()),
            Err(error) => Err(VerifiedWriteError::ReadBack(error)),
        },
        Err(error) => Err(VerifiedWriteError::Write(error)),
    }
}

/// Writes the value that a text stands for at a point by one request, and then reads the point back by another. `Ok` tells that the device
/// confirmed it and holds it.
///
/// # Errors
/// `Write` with the error of [`write_point`](crate::write_point); nothing was read then. `ReadBack` with that of [`verify_point`].
pub fn write_verified<C: Client>(
    alloc: Global,
    client: &mut C,
    point: &Point,
    text: &str,
) -> Result<(), VerifiedWriteError>
    ensures { WritesVerified C.answers client.old point.now text.now result client.new }
{
    match words_at(alloc, point, text) {
        Ok(words) => write_then_read(alloc, client, point, words.as_slice()),
        Err(error) => Err(VerifiedWriteError::Write(PointWriteError::Refused(error))),
    }
}
