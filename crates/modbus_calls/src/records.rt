//! Calls that read and write records of files, for every client (Modbus Application Protocol V1.1b3, sections 6.14 and 6.15).
ghost use Rattle.modbus_frame.specs.FunctionCodes.{read_file_record};
ghost use Rattle.modbus_frame.specs.Meaning as asked;
ghost use Rattle.modbus_client.specs.Typed.{answer_map};
ghost use Rattle.modbus_calls.specs.Files.{AsksInMemory, read_data, registers_read, WritesRecords};
ghost use Rattle.modbus_calls.specs.Picks.{data_read};

use crate::data::{another_kind, fitting};
use crate::files::{MAX_RECORDS_WRITTEN, read_data, registers_of, repeated, write_data};
use crate::place::{FilePlace, FileRange};
use modbus_client::Client;
use modbus_frame::function_code::{READ_FILE_RECORD, WRITE_FILE_RECORD};
use modbus_frame::{Error, FunctionCode, Request, Response, Result, TransportError, Word};
use std::alloc::Global;
use std::borrow::CowSlice;

/// Calls that read and write records of files, a group in each. Every client has them.
///
/// Each makes one [`call`](Client::call), and answers as the calls of [`Diagnoser`](crate::Diagnoser) do.
pub trait RecordKeeper: Client {
    /// Reads records of a file (section 6.14), which are registers. It takes memory of `alloc` for them.
    ///
    /// # Errors
    /// Those of `call`. `FunctionCodeMismatch` exactly where the response is of another kind, `PayloadMismatch` exactly where it has not
    /// one group of as many registers. `NoMemory` also where memory is refused for the registers.
    fn read_file_record(&mut self, alloc: Global, range: FileRange) -> Result<Vec<Word>>
        ensures { AsksInMemory Self.answers self.old
            (asked.Custom read_file_record (read_data range))
            (data_read read_file_record (registers_read range.len))
            (answer_map (λ v. v.items) result) self.new }
    {
        let data = read_data(range);
        match self.call(Request::Custom(READ_FILE_RECORD, CowSlice::Borrowed(&data)))? {
            Ok(Response::Custom(READ_FILE_RECORD, data)) => registers_of(alloc, range.len, data),
            Ok(other) => Err(another_kind(FunctionCode::Custom(READ_FILE_RECORD), other)),
            Err(exception) => Ok(Err(exception)),
        }
    }

    /// Writes records of a file from this one on (section 6.15), which are registers: from 1 to 122.
    ///
    /// # Errors
    /// `RequestTooLong` with the size of the PDU in bytes, exactly where there are more than 122 registers; nothing is sent then. Else
    /// those of `call`. `FunctionCodeMismatch` exactly where the response is of another kind, `PayloadMismatch` exactly where it doesn't
    /// repeat the request.
    fn write_file_record(&mut self, place: FilePlace, words: &[Word]) -> Result<()>
        ensures { WritesRecords Self.answers self.old place words.now result self.new }
    {
        if words.len() > MAX_RECORDS_WRITTEN {
            let size = words.len().saturating_mul(2).saturating_add(9);
            return Err(Error::Transport(TransportError::RequestTooLong(size)));
        }
        let request = write_data(place, words);
        match self.call(Request::Custom(
            WRITE_FILE_RECORD,
            CowSlice::Borrowed(request.as_slice()),
        ))? {
            Ok(Response::Custom(WRITE_FILE_RECORD, data)) => {
                let told = repeated(request.as_slice(), data.as_slice());
                fitting(WRITE_FILE_RECORD, data, told)
            }
            Ok(other) => Err(another_kind(FunctionCode::Custom(WRITE_FILE_RECORD), other)),
            Err(exception) => Ok(Err(exception)),
        }
    }
}

impl<C: Client> RecordKeeper for C {}
