//! The devices of a line of which a dead one does not hold up who asks the others.
//!
//! Each request for a slave that does not answer costs the line its time-out, and all masters wait for that.
ghost use Rattle.std.specs.Prelude.{◌≡◌};
ghost use Rattle.modbus_link.specs.Memory.{next_count};
ghost use Rattle.modbus_gateway.specs.declared.standing.Sign.TheVariants.{Missed, Answered};
ghost use Rattle.modbus_gateway.specs.Told.{slave_change, TellsIf};
ghost use Rattle.modbus_gateway.specs.Sparing.{sparing_at_start, slave_at, is_dead_in, is_spared, judged_by, sign_of_code, sign_of_answer, KeepsEnd, KeepsTold, sparing};

use crate::gateway::Forwarder;
use crate::reading::Reading;
use crate::standing::{Sign, SparingLimits, Standing};
use crate::watcher::{Watcher, slave_change, tell_if};
use modbus_frame::{ExceptionCode, Response, SlaveId, SlaveRequest};
use modbus_service::ServiceError;
use std::marker::Model;
use std::time::Clock;

/// How many addresses a unit identifier can name.
const UNITS: usize = 256;

/// What an exception shows of the slave: 0B that it did not respond, and 0A (gateway path unavailable) nothing.
fn sign_of_code(code: &ExceptionCode) -> Sign
    ensures { result ≡ sign_of_code code.now }
{
    match code {
        ExceptionCode::GatewayTargetDevice => Sign::Missed,
        ExceptionCode::GatewayPathUnavailable => Sign::Nothing,
        _ => Sign::Answered,
    }
}

/// What an answer shows of the slave.
fn sign_of(answer: &Result<Option<Response>, ServiceError>) -> Sign
    ensures { result ≡ sign_of_answer answer.now }
{
    match answer {
        Ok(_) => Sign::Answered,
        Err(ServiceError::Exception(code)) => sign_of_code(code),
        Err(ServiceError::NoMemory) => Sign::Nothing,
    }
}

/// What reaches devices, and spares the line the exchanges with a slave that is dead.
///
/// A slave is dead once so many exchanges with it in a row ended with the exception 0B (gateway target device failed to respond, Modbus
/// Application Protocol V1.1b3, section 7). A request for a dead slave is answered by 0B at once, and nothing is done, until so much time
/// has passed since the last exchange with it ended; then one request is forwarded again. Any other answer, a response or another
/// exception, makes it alive, but 0A (gateway path unavailable), which shows nothing of it. Broadcasts are always forwarded, and so is each
/// request where the clock can't be read.
///
/// Its watcher is told of each slave that became dead, or was dead and is alive, once, behind the exchange that showed it.
///
/// It holds a table of all slaves, and takes no memory at a request.
#[derive(Drop)]
pub struct Sparing<'c, R, W, C> {
    clock: &'c R,
    watcher: W,
    line: C,
    limits: SparingLimits,
    slaves: [Standing; UNITS],
    judged: Reading,
    ended: Reading,
    readings: u64,
}

/// A contract sees who is told, what it stands on, the limits, what is kept of each slave, and what the clock told.
impl<'c, R, W, C> Model for Sparing<'c, R, W, C> {
    ghost use Rattle.modbus_gateway.specs.Sparing.{SparingState};

    ghost Value = { SparingState W C };

    ghost view = { λ it. record {
      watcher = it.watcher;
      line = it.line;
      limits = it.limits;
      slaves = it.slaves;
      judged = it.judged;
      ended = it.ended;
      readings = it.readings;
    } };
}

impl<'c, R: Clock, W: Watcher, C> Sparing<'c, R, W, C> {
    /// What reaches the devices of `line` by these limits and this clock, and tells `watcher` what changes. No slave was asked.
    pub fn new(clock: &'c R, watcher: W, line: C, limits: SparingLimits) -> Sparing<'c, R, W, C>
        ensures { result ≡ sparing_at_start watcher line limits }
    {
        Sparing {
            clock,
            watcher,
            line,
            limits: limits.at_least_one(),
            slaves: [Standing::alive(); UNITS],
            judged: Reading::none(),
            ended: Reading::none(),
            readings: 0,
        }
    }

    /// What is kept of the slave of this address.
    fn slave(&self, unit: SlaveId) -> Standing
        ensures { result ≡ slave_at self.now unit }
    {
        match self.slaves.get(usize::from(unit)) {
            Some(slave) => *slave,
            None => Standing::alive(),
        }
    }

    /// Reads the clock, and tells whether a request for this unit is spared.
    fn judge(&mut self, unit: SlaveId) -> bool
        ensures number { self.new.judged.number ≡ next_count self.old.readings }
        ensures spared { result ≡ is_spared self.old unit self.new.judged.at }
        ensures rest { self.new ≡ judged_by self.new.judged self.old }
    {
        self.judged = Reading::next(self.clock, self.readings);
        self.readings = self.judged.number();
        unit != 0 && self.slave(unit).is_out(&self.limits, &self.judged)
    }

    /// An exchange with this slave ended with 0B.
    fn miss(&mut self, unit: SlaveId)
        ensures end { KeepsEnd Missed self.old unit self.new }
        ensures watcher { self.new.watcher ≡ self.old.watcher }
    {
        self.ended = Reading::next(self.clock, self.readings);
        self.readings = self.ended.number();
        self.slaves[usize::from(unit)] = self.slave(unit).miss(&self.limits, self.ended.at());
    }

    /// An exchange with this slave ended with another answer.
    fn revive(&mut self, unit: SlaveId)
        ensures end { KeepsEnd Answered self.old unit self.new }
        ensures watcher { self.new.watcher ≡ self.old.watcher }
    {
        self.slaves[usize::from(unit)] = Standing::alive();
    }

    /// Keeps what the end of an exchange showed of this slave.
    fn keep(&mut self, unit: SlaveId, sign: Sign)
        ensures end { KeepsEnd sign self.old unit self.new }
        ensures watcher { self.new.watcher ≡ self.old.watcher }
    {
        match sign {
            Sign::Missed => self.miss(unit),
            Sign::Answered => self.revive(unit),
            Sign::Nothing => {}
        }
    }

    /// Whether this slave is dead.
    fn is_dead(&self, unit: SlaveId) -> bool
        ensures { result ≡ is_dead_in self.now unit }
    {
        self.slave(unit).is_dead(&self.limits)
    }

    /// Tells how this slave changed, which was dead before or was not.
    fn tell(&mut self, unit: SlaveId, was_dead: bool)
        ensures told { TellsIf W.tells (slave_change unit was_dead (is_dead_in self.old unit))
            self.old.watcher self.new.watcher }
        ensures rest { self.new ≡ record self.old { watcher = self.new.watcher } }
    {
        let change = slave_change(unit, was_dead, self.is_dead(unit));
        tell_if(&mut self.watcher, change);
    }

    /// Keeps what the end of an exchange showed of this slave, and tells how it changed.
    fn keep_and_tell(&mut self, unit: SlaveId, sign: Sign)
        ensures { KeepsTold W.tells sign self.old unit self.new }
    {
        let was_dead = self.is_dead(unit);
        self.keep(unit, sign);
        self.tell(unit, was_dead);
    }
}

/// Each request that is not spared is forwarded once.
impl<'c, R: Clock, W: Watcher, C: Forwarder> Forwarder for Sparing<'c, R, W, C> {
    ghost forwarding = { sparing W.tells C.forwarding };

    fn forward(&mut self, request: SlaveRequest<'_>) -> Result<Option<Response>, ServiceError> {
        let unit = request.slave;
        if self.judge(unit) {
            return Err(ServiceError::Exception(ExceptionCode::GatewayTargetDevice));
        }
        let answer = self.line.forward(request);
        self.keep_and_tell(unit, sign_of(&answer));
        answer
    }
}
