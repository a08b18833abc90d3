//! The services of many connections over one line.
ghost use Rattle.std.specs.Prelude.{◌≡◌, ℕ, ◌+◌, ◌-◌, ◌^◌, IfOk, IfErr};
ghost use Rattle.modbus_gateway.specs.Turns.{served_in_turn};

use crate::gateway::Forwarder;
use crate::reading::Reading;
use crate::turns::{CONNECTIONS, Opening, SharedLine};
use modbus_frame::{Response, SlaveRequest};
use modbus_service::{Answerer, ServiceError};
use std::alloc::Global;
use std::marker::Model;
use std::sync::Wait;
use std::sync::ledger::Share;
use std::time::Clock;

/// The service of one connection. It takes the line for one exchange at a time, where its turn comes before it has waited too long.
#[derive(Drop)]
pub struct LineService<'l, R, C: Forwarder, J: Opening<C>> {
    rt: &'l R,
    line: &'l SharedLine<C, J>,
    mine: Share<J>,
    asked: Reading,
    readings: u64,
}

/// A contract sees how many turns it took, what the clock told as its last request was read whole, and how often it read the clock.
impl<'l, R, C: Forwarder, J: Opening<C>> Model for LineService<'l, R, C, J> {
    ghost use Rattle.std.specs.Prelude.{◌<◌};
    ghost use Rattle.modbus_gateway.specs.Turns.{ServiceState};

    ghost Value = { ServiceState };

    ghost view = { λ service. record {
      made = service.mine.amount;
      asked = service.asked;
      readings = service.readings;
    } };

    ghost invariant = { λ service. 0 < service.mine.parts };
}

/// Each request is one whole exchange on the line, and is answered by what that exchange gave; one that waited too long for its turn is
/// answered by 06 (server device busy).
impl<'l, R: Wait + Clock, C: Forwarder, J: Opening<C>> Answerer for LineService<'l, R, C, J> {
    ghost answering = { served_in_turn J.opens C.forwarding };

    #[tactic(auto, using(crate::proofs::Leading::keeps_turn))]
    fn ask(
        &mut self,
        _alloc: Global,
        request: SlaveRequest<'_>,
    ) -> Result<Option<Response>, ServiceError> {
        self.asked = Reading::next(self.rt, self.readings);
        self.readings = self.asked.number();
        self.line
            .exchange(self.rt, &mut self.mine, &self.asked, request)
    }
}

/// No service is left for another connection.
#[derive(Clone, Copy, Debug, PartialEq, Eq)]
pub struct ServicesOut;

/// What gives a service for each connection.
pub trait Services {
    /// The service of a connection.
    type Service: Answerer;

    // for how many more connections there is one
    ghost left: { Self → ℕ };

    // how many turns a service took
    ghost made: { Self.Service → ℕ };

    /// A service for one more connection, which has taken no turn. It takes no memory, and does nothing with the line.
    ///
    /// # Errors
    /// `ServicesOut` exactly where none is left.
    fn open(&mut self) -> Result<Self::Service, ServicesOut>
        ensures ok { IfOk result (λ service. (made service ≡ 0)
            × (left self.old ≡ left self.new + 1)) }
        ensures err { IfErr result (λ _. (left self.old ≡ 0) × (left self.new ≡ 0)) };
}

/// The services of connections that are all over one line.
#[derive(Drop)]
pub struct LineServices<'l, R, C: Forwarder, J: Opening<C>> {
    rt: &'l R,
    line: &'l SharedLine<C, J>,
    rest: Share<J>,
    left: u32,
}

/// A contract sees for how many more connections there is one.
impl<'l, R, C: Forwarder, J: Opening<C>> Model for LineServices<'l, R, C, J> {
    ghost use Rattle.std.specs.Prelude.{◌≡◌, ℕ, ◌+◌};

    ghost Value = { ℕ };

    ghost view = { λ services. services.left };

    ghost invariant = { λ services.
        (services.rest.parts ≡ services.left + 1) × (services.rest.amount ≡ 0) };
}

impl<'l, R, C: Forwarder, J: Opening<C>> LineServices<'l, R, C, J> {
    /// The services over this line, by all shares of its ledger: 2^32 parts of it, one for each connection and one more.
    pub fn new(rt: &'l R, line: &'l SharedLine<C, J>, rest: Share<J>) -> LineServices<'l, R, C, J>
        requires parts { rest.parts ≡ 2 ^ 32 }
        requires none { rest.amount ≡ 0 }
        ensures { result ≡ 2 ^ 32 - 1 }
    {
        LineServices {
            rt,
            line,
            rest,
            left: CONNECTIONS,
        }
    }
}

impl<'l, R: Wait + Clock, C: Forwarder, J: Opening<C>> Services for LineServices<'l, R, C, J> {
    type Service = LineService<'l, R, C, J>;

    ghost left = { λ services. services };

    ghost made = { λ service. service.made };

    fn open(&mut self) -> Result<LineService<'l, R, C, J>, ServicesOut> {
        if self.left == 0 {
            return Err(ServicesOut);
        }
        self.left -= 1;
        Ok(LineService {
            rt: self.rt,
            line: self.line,
            mine: self.rest.split_off(1, 0),
            asked: Reading::none(),
            readings: 0,
        })
    }
}
