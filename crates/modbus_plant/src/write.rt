//! Writes of points, each by one request.
ghost use Rattle.std.specs.Prelude.{◌≡◌, true, IfOk, IfErr};
ghost use Rattle.modbus_map.specs.Points.{is_writable};
ghost use Rattle.modbus_plant.specs.Writes.{is_on, AreToBeWritten, IsNotWritten, AsksWrite, Tells, WritesPoint};

use crate::point_error::PointWriteError;
use modbus_client::{Client, Writer};
use modbus_frame::{Address, Result as Answer, Word, Words};
use modbus_map::{Point, Table, WriteError};
use std::alloc::Global;

/// The state that the words of a coil stand for: ON where the first is not 0.
pub(crate) fn is_on(words: &[Word]) -> bool
    ensures { result ≡ is_on words.now }
{
    match words.first() {
        Some(word) => *word != 0,
        None => false,
    }
}

/// The words to be written at a point so that it has the value that a text stands for; of a coil one word, 0 where it is OFF.
///
/// # Errors
/// `NotOfKind` where the point's kind does not lie in its table, and those of [`Point::words_of_text`].
pub fn words_at(alloc: Global, point: &Point, text: &str) -> Result<Words, WriteError>
    ensures words { IfOk result (AreToBeWritten point.now text.now) }
    ensures refused { IfErr result (IsNotWritten point.now text.now) }
{
    if !point.table.fits(point.encoding.kind) {
        return Err(WriteError::NotOfKind);
    }
    point.words_of_text(alloc, text)
}

/// Writes words by one request: a coil by function code 05, one holding register by 06, several by 10 (hexadecimal; sections 6.5, 6.6 and
/// 6.12).
///
/// # Errors
/// Those of the call. `RequestTooLong`, with nothing sent, where there are more words than a request can carry.
pub fn write_words<C: Client>(
    client: &mut C,
    table: Table,
    address: Address,
    words: &[Word],
) -> Answer<()>
    requires { is_writable table ≡ true }
    ensures { AsksWrite C.answers client.old table address words.now result client.new }
{
    match (table, words) {
        (Table::HoldingRegisters, [word]) => client.write_single_register(address, *word),
        (Table::HoldingRegisters, words) => client.write_multiple_registers(address, words),
        (_, words) => client.write_single_coil(address, is_on(words)),
    }
}

/// What is told of the answer to a write.
pub(crate) fn told(answer: Answer<()>) -> Result<(), PointWriteError>
    ensures { Tells answer result }
{
    match answer {
        Ok(Ok(())) => Ok(()),
        Ok(Err(code)) => Err(PointWriteError::Exception(code)),
        Err(error) => Err(PointWriteError::Call(error)),
    }
}

/// Writes the value that a text stands for at a point, by one request: a coil by function code 05, one holding register by 06, several by
/// 10 (hexadecimal; sections 6.5, 6.6 and 6.12). `Ok` tells that the device confirmed it.
///
/// # Errors
/// `Refused` where the text is not to be written at the point; nothing was sent then. `Call` where the call failed, `Exception` where the
/// device refused it.
pub fn write_point<C: Client>(
    alloc: Global,
    client: &mut C,
    point: &Point,
    text: &str,
) -> Result<(), PointWriteError>
    ensures { WritesPoint C.answers client.old point.now text.now result client.new }
{
    match words_at(alloc, point, text) {
        Ok(words) => told(write_words(client, point.table, point.address, words.as_slice())),
        Err(error) => Err(PointWriteError::Refused(error)),
    }
}
