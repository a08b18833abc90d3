//! Calls that ask a device for its state, for every client (Modbus Application Protocol V1.1b3, sections 6.7 to 6.10 and 6.13).
ghost use Rattle.std.specs.Prelude.{[]};
ghost use Rattle.modbus_frame.specs.FunctionCodes as number;
ghost use Rattle.modbus_frame.specs.Meaning as asked;
ghost use Rattle.modbus_client.specs.Typed.{Asks};
ghost use Rattle.modbus_calls.specs.Diagnostics.{diagnostic_data, field_of};
ghost use Rattle.modbus_calls.specs.Events.{event_counter_of, event_log_of};
ghost use Rattle.modbus_calls.specs.Picks.{data_read, exception_status_of, server_id_read};

use crate::data::{another_kind, exception_status_of, fitting};
use crate::diagnostic::Diagnostic;
use crate::events::{EventCounter, EventLog, event_counter_of, event_log};
use crate::server::ServerId;
use modbus_client::Client;
use modbus_frame::function_code::{
    DIAGNOSTICS, GET_COMM_EVENT_COUNTER, GET_COMM_EVENT_LOG, READ_EXCEPTION_STATUS,
};
use modbus_frame::{FunctionCode, Request, Response, Result, Word};
use std::borrow::CowSlice;

/// Calls that ask a device for its state, or change it. Every client has them.
///
/// Each makes one [`call`](Client::call) and takes no memory of its own. It answers what that answers: a fault, or the exception of the
/// device, or what its response has. A response of another kind is `FunctionCodeMismatch` with the function of the request and the
/// response; one of the right kind whose bytes don't fit is `PayloadMismatch` with it. The functions are named by their number, as in
/// `FunctionCode::Custom(0x07)`, since their PDUs have no layout in `Request` and `Response`.
pub trait Diagnoser: Client {
    /// Reads the eight outputs that the maker of the device chose, the first in the lowest bit (section 6.7).
    ///
    /// # Errors
    /// Those of `call`. `FunctionCodeMismatch` exactly where the response is of another kind, `PayloadMismatch` exactly where it has not
    /// one byte of data.
    fn read_exception_status(&mut self) -> Result<u8>
        ensures { Asks Self.answers self.old (asked.Custom number.read_exception_status [])
            (data_read number.read_exception_status exception_status_of) result self.new }
    {
        match self.call(Request::Custom(READ_EXCEPTION_STATUS, CowSlice::Borrowed(&[])))? {
            Ok(Response::Custom(READ_EXCEPTION_STATUS, data)) => {
                let status = exception_status_of(data.as_slice());
                fitting(READ_EXCEPTION_STATUS, data, status)
            }
            Ok(other) => Err(another_kind(FunctionCode::Custom(READ_EXCEPTION_STATUS), other)),
            Err(exception) => Ok(Err(exception)),
        }
    }

    /// Asks for a sub-function of Diagnostics, and answers the data field of the response: the counter or the register that was asked
    /// for, or the data field of the request where the device repeats that (section 6.8).
    ///
    /// No device responds to `ForceListenOnly`, nor to `RestartCommunications` in the listen only mode: the call then ends as its client's
    /// wait for a response ends, with a fault.
    ///
    /// # Errors
    /// Those of `call`. `FunctionCodeMismatch` exactly where the response is of another kind, `PayloadMismatch` exactly where it is of
    /// another sub-function, has not one word as its data field, or has another one than the request where it should repeat it.
    fn diagnose(&mut self, diagnostic: Diagnostic) -> Result<Word>
        ensures { Asks Self.answers self.old
            (asked.Custom number.diagnostics (diagnostic_data diagnostic))
            (data_read number.diagnostics (field_of diagnostic)) result self.new }
    {
        let request = diagnostic.data();
        match self.call(Request::Custom(DIAGNOSTICS, CowSlice::Borrowed(&request)))? {
            Ok(Response::Custom(DIAGNOSTICS, data)) => {
                let field = diagnostic.field_of(data.as_slice());
                fitting(DIAGNOSTICS, data, field)
            }
            Ok(other) => Err(another_kind(FunctionCode::Custom(DIAGNOSTICS), other)),
            Err(exception) => Ok(Err(exception)),
        }
    }

    /// Reads how many messages the device completed (section 6.9).
    ///
    /// # Errors
    /// Those of `call`. `FunctionCodeMismatch` exactly where the response is of another kind, `PayloadMismatch` exactly where it has not a
    /// status and a count: four bytes, of which the first two are `0000` or `FFFF`.
    fn get_comm_event_counter(&mut self) -> Result<EventCounter>
        ensures { Asks Self.answers self.old (asked.Custom number.get_comm_event_counter [])
            (data_read number.get_comm_event_counter event_counter_of) result self.new }
    {
        match self.call(Request::Custom(GET_COMM_EVENT_COUNTER, CowSlice::Borrowed(&[])))? {
            Ok(Response::Custom(GET_COMM_EVENT_COUNTER, data)) => {
                let counter = event_counter_of(data.as_slice());
                fitting(GET_COMM_EVENT_COUNTER, data, counter)
            }
            Ok(other) => Err(another_kind(FunctionCode::Custom(GET_COMM_EVENT_COUNTER), other)),
            Err(exception) => Ok(Err(exception)),
        }
    }

    /// Reads the counters of the device and the log of its latest events (section 6.10).
    ///
    /// # Errors
    /// Those of `call`. `FunctionCodeMismatch` exactly where the response is of another kind, `PayloadMismatch` exactly where its status is
    /// neither `0000` nor `FFFF`, its byte count is another one than that of the bytes behind it, or it has more than 64 events.
    fn get_comm_event_log(&mut self) -> Result<EventLog>
        ensures { Asks Self.answers self.old (asked.Custom number.get_comm_event_log [])
            (data_read number.get_comm_event_log event_log_of) result self.new }
    {
        match self.call(Request::Custom(GET_COMM_EVENT_LOG, CowSlice::Borrowed(&[])))? {
            Ok(Response::Custom(GET_COMM_EVENT_LOG, data)) => event_log(data),
            Ok(other) => Err(another_kind(FunctionCode::Custom(GET_COMM_EVENT_LOG), other)),
            Err(exception) => Ok(Err(exception)),
        }
    }

    /// Asks the device what it is, and whether it runs (section 6.13).
    ///
    /// # Errors
    /// Those of `call`. `FunctionCodeMismatch` exactly where the response is of another kind.
    fn report_server_id(&mut self) -> Result<ServerId>
        ensures { Asks Self.answers self.old asked.ReportServerId server_id_read result self.new }
    {
        match self.call(Request::ReportServerId)? {
            Ok(Response::ReportServerId(id, is_running, data)) => Ok(Ok(ServerId {
                id,
                is_running,
                data,
            })),
            Ok(other) => Err(another_kind(FunctionCode::ReportServerId, other)),
            Err(exception) => Ok(Err(exception)),
        }
    }
}

impl<C: Client> Diagnoser for C {}
