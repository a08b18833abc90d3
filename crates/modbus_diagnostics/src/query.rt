//! What a message asks a port itself (sections 6.7 to 6.10), and the answer.
ghost use Rattle.std.specs.Prelude.{◌≡◌, IfOk};
ghost use Rattle.modbus_frame.specs.FunctionCodes.{diagnostics};
ghost use Rattle.modbus_frame.specs.declared.response.Response.TheVariants as response;
ghost use Rattle.modbus_service.specs.Outcome as outcome;
ghost use Rattle.modbus_frame.specs.Meaning.{meaning};
ghost use Rattle.modbus_diagnostics.specs.Queries.{is_known, is_word, restart_of, of_word, of_sub, diagnostics_query, without_data, query_of, query_pdu};
ghost use Rattle.modbus_diagnostics.specs.Replies.{counter_of, log_bytes, query_reply, TellsOutcome};

use crate::counters::Counters;
use crate::journal::Journal;
use bytes::Bytes;
use modbus_frame::function_code::{
    DIAGNOSTICS, GET_COMM_EVENT_COUNTER, GET_COMM_EVENT_LOG, READ_EXCEPTION_STATUS,
};
use modbus_frame::{ExceptionCode, Request, Response};
use modbus_service::ServiceError;
use std::alloc::{AllocError, Global};

/// What a message asks a port itself.
#[derive(Clone, Copy, Debug, PartialEq, Eq)]
pub enum Query {
    /// The exception outputs, of which a port has none (section 6.7).
    Status,
    /// The number of events (section 6.9).
    Events,
    /// The event log, with the number of events and of bus messages (section 6.10).
    Log,
    /// The same bytes again (section 6.8.1, sub-functions 00 and 14: no character is ever lost, so the counter to be cleared is 0).
    Echo,
    /// That the port only listen until it is restarted (sub-function 04). There is no answer to it.
    ListenOnly,
    /// That the port be restarted, which clears the counters (sub-function 01); and whether the event log is cleared too.
    Restart(bool),
    /// That the counters be cleared (sub-function 0A).
    Clear,
    /// The counter of this sub-function (0B to 12), or the diagnostic register (02).
    Counter(u8),
    /// What gets this exception: a sub-function that a port doesn't know, a length or a data field that doesn't fit.
    Wrong(ExceptionCode),
}

/// The counter of a sub-function.
fn counter(counters: Counters, sub: u8) -> u16
    ensures { result ≡ counter_of counters sub }
{
    match sub {
        0x0B => counters.bus_messages,
        0x0C => counters.checksum_errors,
        0x0D => counters.exceptions,
        0x0E => counters.own_messages,
        0x0F => counters.no_responses,
        0x10 => counters.negative_acknowledges,
        0x11 => counters.busy,
        _ => 0,
    }
}

/// Whether a port knows a sub-function.
fn is_known(sub: u8) -> bool
    ensures { result ≡ is_known sub }
{
    sub < 3 || sub == 4 || (sub >= 0x0A && sub <= 0x12) || sub == 0x14
}

/// Whether a data field is one word, whose high byte is this and whose low byte is 0.
fn is_word(byte: u8, field: &[u8]) -> bool
    ensures { result ≡ is_word byte field.now }
{
    match field {
        [high, low] => *high == byte && *low == 0,
        _ => false,
    }
}

/// The high byte of the data field of a restart that clears the log too.
const ERASES_LOG: u8 = 0xFF;

/// What a restart with this data field asks.
fn restart_of(field: &[u8]) -> Query
    ensures { result ≡ restart_of field.now }
{
    if is_word(ERASES_LOG, field) {
        Query::Restart(true)
    } else if is_word(0, field) {
        Query::Restart(false)
    } else {
        Query::Wrong(ExceptionCode::IllegalDataValue)
    }
}

/// What a sub-function asks whose data field is one word of 0.
fn of_word(sub: u8) -> Query
    ensures { result ≡ of_word sub }
{
    match sub {
        0x04 => Query::ListenOnly,
        0x0A => Query::Clear,
        0x14 => Query::Echo,
        _ => Query::Counter(sub),
    }
}

/// What a sub-function that a port knows asks with this data field.
fn of_sub(sub: u8, field: &[u8]) -> Query
    ensures { result ≡ of_sub sub field.now }
{
    match sub {
        0x00 if field.len() % 2 == 0 => Query::Echo,
        0x00 => Query::Wrong(ExceptionCode::IllegalDataValue),
        0x01 => restart_of(field),
        _ if is_word(0, field) => of_word(sub),
        _ => Query::Wrong(ExceptionCode::IllegalDataValue),
    }
}

/// What Diagnostics asks: a sub-function of two bytes, and its data field.
fn diagnostics_query(bytes: &[u8]) -> Query
    ensures { result ≡ diagnostics_query bytes.now }
{
    match bytes {
        [high, sub, field @ ..] => {
            if *high != 0 || !is_known(*sub) {
                Query::Wrong(ExceptionCode::IllegalFunction)
            } else {
                of_sub(*sub, field)
            }
        }
        _ => Query::Wrong(ExceptionCode::IllegalDataValue),
    }
}

/// What a request without data asks.
fn without_data(bytes: &[u8], query: Query) -> Query
    ensures { result ≡ without_data bytes.now query }
{
    if bytes.is_empty() {
        query
    } else {
        Query::Wrong(ExceptionCode::IllegalDataValue)
    }
}

/// What a request for a unit asks the port itself; `None` where it is the service's.
pub(crate) fn query_of(request: &Request<'_>) -> Option<Query>
    ensures { result ≡ query_of (meaning request.now) }
{
    match request {
        Request::Custom(READ_EXCEPTION_STATUS, bytes) => {
            Some(without_data(bytes.as_slice(), Query::Status))
        }
        Request::Custom(DIAGNOSTICS, bytes) => Some(diagnostics_query(bytes.as_slice())),
        Request::Custom(GET_COMM_EVENT_COUNTER, bytes) => {
            Some(without_data(bytes.as_slice(), Query::Events))
        }
        Request::Custom(GET_COMM_EVENT_LOG, bytes) => {
            Some(without_data(bytes.as_slice(), Query::Log))
        }
        _ => None,
    }
}

/// The bytes after the function code of a request that has no layout of its own.
fn bytes_of<'a>(request: &'a Request<'_>) -> &'a [u8]
    ensures { result.now ≡ query_pdu (meaning request.now) }
{
    match request {
        Request::Custom(_, bytes) => bytes.as_slice(),
        _ => &[],
    }
}

/// The answer to Get Comm Event Log: how many bytes follow, no busy state, the events, the bus messages, and the log.
fn log_of(alloc: Global, journal: &Journal) -> Result<Bytes, AllocError>
    ensures { IfOk result (λ bytes. bytes ≡ log_bytes journal.now) }
{
    let log = journal.log();
    let counters = journal.counters();
    let [events_high, events_low] = counters.events.to_be_bytes();
    let [messages_high, messages_low] = counters.bus_messages.to_be_bytes();
    let size = 6 + log.len() as u8;
    let head = [
        size,
        0,
        0,
        events_high,
        events_low,
        messages_high,
        messages_low,
    ];
    let mut bytes = Vec::from_slice(alloc, &head)?;
    bytes.extend_from_slice(log)?;
    Bytes::copy_from_slice(alloc, &bytes)
}

/// The answer to Diagnostics of these bytes.
fn diagnostics(alloc: Global, bytes: &[u8]) -> Result<Option<Response>, ServiceError>
    ensures { TellsOutcome (outcome.reply (response.Custom diagnostics bytes.now)) result }
{
    let data = Bytes::copy_from_slice(alloc, bytes)?;
    Ok(Some(Response::Custom(DIAGNOSTICS, data)))
}

/// What a port with this journal tells for a query.
///
/// # Errors
/// The exception of the query, or refused memory.
pub(crate) fn reply(
    alloc: Global,
    journal: &Journal,
    request: &Request<'_>,
    query: Query,
) -> Result<Option<Response>, ServiceError>
    ensures { TellsOutcome (query_reply journal.now (meaning request.now) query) result }
{
    match query {
        Query::Status => {
            let status = Bytes::copy_from_slice(alloc, &[0])?;
            Ok(Some(Response::Custom(READ_EXCEPTION_STATUS, status)))
        }
        Query::Events => {
            let [high, low] = journal.counters().events.to_be_bytes();
            let events = Bytes::copy_from_slice(alloc, &[0, 0, high, low])?;
            Ok(Some(Response::Custom(GET_COMM_EVENT_COUNTER, events)))
        }
        Query::Log => {
            let log = log_of(alloc, journal)?;
            Ok(Some(Response::Custom(GET_COMM_EVENT_LOG, log)))
        }
        Query::ListenOnly => Ok(None),
        Query::Restart(_) if journal.listens_only() => Ok(None),
        Query::Echo | Query::Clear | Query::Restart(_) => diagnostics(alloc, bytes_of(request)),
        Query::Counter(sub) => {
            let [high, low] = counter(journal.counters(), sub).to_be_bytes();
            diagnostics(alloc, &[0, sub, high, low])
        }
        Query::Wrong(code) => Err(ServiceError::Exception(code)),
    }
}
