//! The events that a device counts and logs (Modbus Application Protocol V1.1b3, sections 6.9 and 6.10).
ghost use Rattle.std.specs.Prelude.{◌≡◌, ◌≤◌, ◌↔◌, IfSome, IsNone, IsSome, length, drop, Some, None};
ghost use Rattle.modbus_frame.specs.FunctionCodes.{get_comm_event_log};
ghost use Rattle.modbus_frame.specs.declared.code.FunctionCode.TheVariants as function_code;
ghost use Rattle.modbus_frame.specs.declared.response.Response.TheVariants as response_kind;
ghost use Rattle.modbus_client.specs.Typed.{pick_answer};
ghost use Rattle.modbus_calls.specs.Events.{event_counter_of, event_log_of, head_size};
ghost use Rattle.modbus_calls.specs.Picks.{pick_of};

use crate::data::{fitting, status, word_of};
use bytes::Bytes;
use modbus_frame::Result;
use modbus_frame::function_code::GET_COMM_EVENT_LOG;

/// How many events a log has at most.
pub const MAX_EVENTS: usize = 64;

/// The bytes before the events of a log that its byte count counts: the status, the number of events and the number of messages.
const COUNTED_HEAD: usize = 6;

/// The bytes before the events of a log, with the byte count.
const LOG_HEAD: usize = 1 + COUNTED_HEAD;

/// What a device answers to Get Comm Event Counter (section 6.9).
#[derive(Clone, Copy, Debug, PartialEq, Eq)]
pub struct EventCounter {
    /// Whether it is busy with a program command.
    pub busy: bool,
    /// How many messages it completed. Exceptions and the requests for this number don't count.
    pub count: u16,
}

/// What a device answers to Get Comm Event Log (section 6.10).
#[derive(Debug, PartialEq, Eq, Drop)]
pub struct EventLog {
    /// Whether it is busy with a program command.
    pub busy: bool,
    /// How many messages it completed, as the event counter has it.
    pub events: u16,
    /// How many messages it processed since it was started, or its counters were cleared.
    pub messages: u16,
    /// A byte for each event, the latest first: at most [`MAX_EVENTS`].
    pub log: Bytes,
}

/// The event counter that a response has.
pub(crate) fn event_counter_of(bytes: &[u8]) -> Option<EventCounter>
    ensures { result ≡ event_counter_of bytes.now }
{
    match bytes {
        [high, low, count_high, count_low] => match status(*high, *low) {
            Some(busy) => Some(EventCounter {
                busy,
                count: word_of(*count_high, *count_low),
            }),
            None => None,
        },
        _ => None,
    }
}

/// The numbers of a log of events.
#[derive(Clone, Copy)]
struct LogHead {
    busy: bool,
    events: u16,
    messages: u16,
}

/// The numbers of the log that a response has, whose events are the bytes behind its head.
fn log_head(bytes: &[u8]) -> Option<LogHead>
    ensures none { IsNone result ↔ (event_log_of bytes.now ≡ None) }
    ensures some { IfSome result (λ head. event_log_of bytes.now ≡ Some (record {
      busy = head.busy;
      events = head.events;
      messages = head.messages;
      log = drop head_size bytes.now;
    })) }
    ensures long { IsSome result → head_size ≤ length bytes.now }
{
    match bytes {
        [
            count,
            high,
            low,
            events_high,
            events_low,
            messages_high,
            messages_low,
            log @ ..,
        ] => {
            if log.len() > MAX_EVENTS || usize::from(*count) != COUNTED_HEAD + log.len() {
                return None;
            }
            match status(*high, *low) {
                Some(busy) => Some(LogHead {
                    busy,
                    events: word_of(*events_high, *events_low),
                    messages: word_of(*messages_high, *messages_low),
                }),
                None => None,
            }
        }
        _ => None,
    }
}

/// What a typed call makes of the data of a response of Get Comm Event Log.
///
/// # Errors
/// `PayloadMismatch` exactly where it has no log.
pub(crate) fn event_log(bytes: Bytes) -> Result<EventLog>
    ensures { let response = response_kind.Custom get_comm_event_log bytes
        in result ≡ pick_answer (function_code.Custom get_comm_event_log) response
        (pick_of (event_log_of bytes)) }
{
    match log_head(bytes.as_slice()) {
        Some(head) => {
            let mut log = bytes;
            log.advance(LOG_HEAD);
            Ok(Ok(EventLog {
                busy: head.busy,
                events: head.events,
                messages: head.messages,
                log,
            }))
        }
        None => fitting(GET_COMM_EVENT_LOG, bytes, None),
    }
}
