//! A line under a lock, whose users take turns.
ghost use Rattle.std.specs.Prelude.{◌≡◌, ◌+◌, ◌<◌};
ghost use Rattle.modbus_frame.specs.Meaning.{meaning};
ghost use Rattle.modbus_service.specs.Answering.{Keeps};
ghost use Rattle.modbus_gateway.specs.Timely.{timely_at_start, timely};
ghost use Rattle.modbus_gateway.specs.Turns.{IsLed, TakesTurn};

use crate::gateway::Forwarder;
use crate::reading::Reading;
use crate::timely::Timely;
use modbus_frame::{Response, SlaveRequest};
use modbus_service::ServiceError;
use std::array;
use std::marker::{Brand, Model};
use std::sync::ledger::{Book, Ledger, Share};
use std::sync::{Mutex, Wait};
use std::time::{Clock, Duration};

/// How many connections a shared line may have over its time.
pub const CONNECTIONS: u32 = u32::MAX;

/// How many addresses a unit identifier can name.
const UNITS: usize = 256;

/// Which line it is, by the states in which it may be opened, and which ledger counts its exchanges. Each call of a program picks both.
pub trait Opening<C>: Ledger {
    ghost use Rattle.modbus_gateway.specs.Timely.{TimelyState};

    ghost opens: { TimelyState C → Type 0 };
}

impl<C> Opening<C> for Brand {
    ghost opens = { λ _. Unit {0} };
}

/// What lies under the lock: a line, beside the book of the turns that were taken at it.
#[derive(Drop)]
struct InTurn<C: Forwarder, J: Opening<C>> {
    line: Timely<C>,
    turns: Book<J>,
}

/// Whenever the lock is free, so many whole turns led from an opening of the line to where it is, one after another.
impl<C: Forwarder, J: Opening<C>> Model for InTurn<C, J> {
    ghost use Rattle.modbus_gateway.specs.Timely.{timely};
    ghost use Rattle.modbus_gateway.specs.Turns.{TurnState, IsLed};

    ghost Value = { TurnState C };

    ghost view = { λ it. record { line = it.line; turns = it.turns.total } };

    ghost invariant = { λ it. IsLed J.opens (timely C.forwarding) it.turns.total it.line };
}

impl<C: Forwarder, J: Opening<C>> InTurn<C, J> {
    /// A line at which no turn was taken.
    fn new(line: C, limit: Duration, turns: Book<J>) -> InTurn<C, J>
        requires opens { J.opens (timely_at_start line limit) }
        requires none { turns.total ≡ 0 }
        ensures { result ≡ record { line = timely_at_start line limit; turns = 0 } }
    {
        InTurn {
            line: Timely::new(line, limit),
            turns,
        }
    }

    /// Makes one exchange, unless the request is stale, and counts the turn.
    fn exchange<R: Clock>(
        &mut self,
        clock: &R,
        mine: &mut Share<J>,
        asked: &Reading,
        request: SlaveRequest<'_>,
    ) -> Result<Option<Response>, ServiceError>
        requires { 0 < mine.old.parts }
        ensures led { IsLed J.opens (timely C.forwarding) self.old.turns self.old.line }
        ensures exchanges { Keeps (timely C.forwarding) self.old.line
            request.entry.slave (meaning request.entry.request) result self.new.line }
        ensures asked { self.new.line.asked ≡ asked.now.at }
        ensures turns { self.new.turns ≡ self.old.turns + 1 }
        ensures counted { mine.new.amount ≡ mine.old.amount + 1 }
        ensures parts { mine.new.parts ≡ mine.old.parts }
    {
        let answer = self.line.forward_in_time(clock, asked, request);
        self.turns.add(mine, 1);
        answer
    }
}

/// A line that many share, one exchange at a time, and for no request that waited too long for its turn.
///
/// Requests for one slave wait for each other at a door of its own, so that one request of each slave waits for the line: however many ask a dead
/// slave, who asks another one waits for few exchanges.
#[derive(Drop)]
pub struct SharedLine<C: Forwarder, J: Opening<C>> {
    doors: [Mutex<()>; UNITS],
    line: Mutex<InTurn<C, J>>,
}

impl<C: Forwarder, J: Opening<C>> SharedLine<C, J> {
    /// A line that was opened, for requests that wait for their turn no longer than `limit`, and the book of its turns, in which there is none.
    pub fn new(line: C, limit: Duration, turns: Book<J>) -> SharedLine<C, J>
        requires opens { J.opens (timely_at_start line limit) }
        requires none { turns.total ≡ 0 }
    {
        SharedLine {
            doors: array::from_fn(|_unit: usize| Mutex::new(())),
            line: Mutex::new(InTurn::new(line, limit, turns)),
        }
    }

    /// Waits for its turn, and makes one whole exchange for a request that was read whole at this time, unless it waited longer than the limit.
    /// The turn is counted once, in the share of who asks.
    ///
    /// # Errors
    /// 06 (server device busy) where it waited longer; those of the line else.
    pub(crate) fn exchange<R: Wait + Clock>(
        &self,
        rt: &R,
        mine: &mut Share<J>,
        asked: &Reading,
        request: SlaveRequest<'_>,
    ) -> Result<Option<Response>, ServiceError>
        requires { 0 < mine.old.parts }
        ensures turn { TakesTurn J.opens C.forwarding asked.now.at
            request.entry.slave (meaning request.entry.request) result }
        ensures counted { mine.new.amount ≡ mine.old.amount + 1 }
        ensures parts { mine.new.parts ≡ mine.old.parts }
    {
        let _door = self.doors[usize::from(request.slave)].lock(rt);
        self.line.lock(rt).exchange(rt, mine, asked, request)
    }
}
