//! The devices of a line that is asked for no one who has waited too long.
//!
//! A master that waited for its turn longer than it waits for replies has given its request up: it asks anew, or has gone.
ghost use Rattle.std.specs.Prelude.{◌≡◌};
ghost use Rattle.std.specs.Option.{option_map};
ghost use Rattle.std.specs.Duration.{as_nanos};
ghost use Rattle.modbus_link.specs.Memory.{next_count};
ghost use Rattle.modbus_frame.specs.Meaning.{meaning};
ghost use Rattle.modbus_service.specs.Answering.{Keeps};
ghost use Rattle.modbus_gateway.specs.Timely.{timely_at_start, waited, is_over, is_stale, turned, timely};

use crate::gateway::Forwarder;
use crate::reading::Reading;
use modbus_frame::{ExceptionCode, Response, SlaveRequest};
use modbus_service::ServiceError;
use std::marker::Model;
use std::time::{Clock, Duration, Instant};

/// Whether so much time is more than the limit; it is not where it is not known.
fn is_over(limit: Duration, waited: Option<Duration>) -> bool
    ensures { result ≡ is_over limit (option_map as_nanos waited) }
{
    match waited {
        Some(waited) => limit.checked_sub(waited).is_none(),
        None => false,
    }
}

/// How long a request has waited that was read whole at the one time, and whose turn came at the other; `None` where that is not known.
fn waited(asked: Option<Instant>, now: Option<Instant>) -> Option<Duration>
    ensures { option_map as_nanos result ≡ waited asked now }
{
    match (asked, now) {
        (Some(asked), Some(now)) => Some(now.saturating_duration_since(asked)),
        _ => None,
    }
}

/// What reaches devices for requests that did not wait too long for their turn.
///
/// A request is stale where more time than the limit passed from when it was read whole until its turn came. A stale request is answered by
/// the exception 06 (server device busy, Modbus Application Protocol V1.1b3, section 7), and nothing is done; any other is forwarded, also
/// where the clock can't be read.
#[derive(Drop)]
pub(crate) struct Timely<C> {
    line: C,
    limit: Duration,
    asked: Option<Instant>,
    judged: Reading,
    readings: u64,
}

/// A contract sees what it stands on, the limit, and what the clock told of the last request.
impl<C> Model for Timely<C> {
    ghost use Rattle.modbus_gateway.specs.Timely.{TimelyState};

    ghost Value = { TimelyState C };

    ghost view = { λ it. record {
      line = it.line;
      limit = it.limit;
      asked = it.asked;
      judged = it.judged;
      readings = it.readings;
    } };
}

impl<C> Timely<C> {
    /// What reaches the devices of `line` for requests that waited no longer than `limit`.
    pub(crate) fn new(line: C, limit: Duration) -> Timely<C>
        ensures { result ≡ timely_at_start line limit }
    {
        Timely {
            line,
            limit,
            asked: None,
            judged: Reading::none(),
            readings: 0,
        }
    }

    /// Reads the clock, as the turn of a request came that was read whole at this time; whether it is stale.
    fn judge<R: Clock>(&mut self, clock: &R, asked: &Reading) -> bool
        ensures number { self.new.judged.number ≡ next_count self.old.readings }
        ensures stale { result ≡ is_stale self.old.limit asked.now.at self.new.judged.at }
        ensures rest { self.new ≡ turned asked.now.at self.new.judged self.old }
    {
        self.judged = Reading::next(clock, self.readings);
        self.readings = self.judged.number();
        self.asked = asked.at();
        is_over(self.limit, waited(self.asked, self.judged.at()))
    }
}

impl<C: Forwarder> Timely<C> {
    /// Forwards a request whose turn came, and which was read whole at this time, where it is not stale.
    ///
    /// # Errors
    /// 06 for a stale request; those of the line for any other.
    pub(crate) fn forward_in_time<R: Clock>(
        &mut self,
        clock: &R,
        asked: &Reading,
        request: SlaveRequest<'_>,
    ) -> Result<Option<Response>, ServiceError>
        ensures keeps { Keeps (timely C.forwarding) self.old request.entry.slave
            (meaning request.entry.request) result self.new }
        ensures asked { self.new.asked ≡ asked.now.at }
    {
        if self.judge(clock, asked) {
            return Err(ServiceError::Exception(ExceptionCode::ServerDeviceBusy));
        }
        self.line.forward(request)
    }
}
