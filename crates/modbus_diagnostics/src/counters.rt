//! The counters of a port (sections 6.8.1 and 6.9). Each stays at 65535.
ghost use Rattle.std.specs.Prelude.{◌≡◌};
ghost use Rattle.modbus_diagnostics.specs.Counters.{busy, negative_acknowledge, zeros, next_if, with_this, is_refused, is_refused_by, is_unanswered, is_event, counters_after};

use crate::heard::Heard;
use modbus_frame::ExceptionCode;

/// What a port has counted since its start, or since its counters were cleared.
#[derive(Clone, Copy, Debug, PartialEq, Eq)]
pub struct Counters {
    /// The messages that it heard, for whatever device.
    pub bus_messages: u16,
    /// What it heard that is no message: a wrong checksum, too few bytes, too many.
    pub checksum_errors: u16,
    /// The exceptions that it sent, and those that it would have sent for messages for all.
    pub exceptions: u16,
    /// The messages for its own units, and those for all.
    pub own_messages: u16,
    /// Those of them that it did not answer, as it does not those for all.
    pub no_responses: u16,
    /// The exceptions 07 that it sent: a negative acknowledge.
    pub negative_acknowledges: u16,
    /// The exceptions 06 that it sent: the server is busy.
    pub busy: u16,
    /// The messages for its units and for all that were done well, but for those that ask for this number.
    pub events: u16,
}

/// How a message ended.
#[derive(Clone, Copy, Debug, PartialEq, Eq)]
pub enum Ended {
    /// It was done, and answered unless it was for all.
    Well,
    /// It was refused with this exception.
    Refused(ExceptionCode),
    /// It had no answer.
    Silent,
}

/// The exception of a negative acknowledge, and that of a server that is busy (section 7).
const NEGATIVE_ACKNOWLEDGE: u8 = 7;

const BUSY: u8 = 6;

impl Ended {
    /// Whether a message was one that is answered with an exception, or would be were it not for all.
    fn is_refused(self, heard: Heard) -> bool
        ensures { result ≡ is_refused heard self }
    {
        match self {
            Ended::Refused(_) => heard.is_own(),
            Ended::Well | Ended::Silent => false,
        }
    }

    /// Whether it was answered with the exception of this number.
    fn is_refused_by(self, number: u8, heard: Heard) -> bool
        ensures { result ≡ is_refused_by number heard self }
    {
        match self {
            Ended::Refused(code) => {
                heard.is_own() && !heard.is_broadcast() && u8::from(code) == number
            }
            Ended::Well | Ended::Silent => false,
        }
    }

    /// Whether it was not answered.
    fn is_unanswered(self, heard: Heard) -> bool
        ensures { result ≡ is_unanswered heard self }
    {
        match self {
            Ended::Silent => heard.is_own(),
            Ended::Well | Ended::Refused(_) => heard.is_broadcast(),
        }
    }

    /// Whether it was an event.
    fn is_event(self, heard: Heard) -> bool
        ensures { result ≡ is_event heard self }
    {
        match self {
            Ended::Well => heard.is_own() && !heard.asks_events(),
            Ended::Refused(_) | Ended::Silent => false,
        }
    }
}

/// One more where this happened.
fn next_if(happened: bool, count: u16) -> u16
    ensures { result ≡ next_if happened count }
{
    if happened {
        count.saturating_add(1)
    } else {
        count
    }
}

impl Counters {
    /// Those of a port that has heard nothing.
    pub fn zero() -> Counters
        ensures { result ≡ zeros }
    {
        Counters {
            bus_messages: 0,
            checksum_errors: 0,
            exceptions: 0,
            own_messages: 0,
            no_responses: 0,
            negative_acknowledges: 0,
            busy: 0,
            events: 0,
        }
    }

    /// These with the message that asks for them.
    pub(crate) fn with_this(self) -> Counters
        ensures { result ≡ with_this self }
    {
        Counters {
            bus_messages: next_if(true, self.bus_messages),
            own_messages: next_if(true, self.own_messages),
            ..self
        }
    }

    /// These after what was heard ended so.
    pub(crate) fn after(self, heard: Heard, end: Ended) -> Counters
        ensures { result ≡ counters_after self heard end }
    {
        if heard.clears() {
            return Counters::zero();
        }
        let is_message = heard.is_message();
        let is_negative = end.is_refused_by(NEGATIVE_ACKNOWLEDGE, heard);
        Counters {
            bus_messages: next_if(is_message, self.bus_messages),
            checksum_errors: next_if(!is_message, self.checksum_errors),
            exceptions: next_if(end.is_refused(heard), self.exceptions),
            own_messages: next_if(heard.is_own(), self.own_messages),
            no_responses: next_if(end.is_unanswered(heard), self.no_responses),
            negative_acknowledges: next_if(is_negative, self.negative_acknowledges),
            busy: next_if(end.is_refused_by(BUSY, heard), self.busy),
            events: next_if(end.is_event(heard), self.events),
        }
    }
}
