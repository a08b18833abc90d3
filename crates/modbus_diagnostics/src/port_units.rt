//! The units behind a port. They are asked as `Units` of the services is, and tell how a message for all ended.
ghost use Rattle.std.specs.Prelude.{◌≡◌, length, None, IfOk, MatchOption, MatchResult};
ghost use Rattle.modbus_frame.specs.Meaning.{meaning};
ghost use Rattle.std.specs.List.{AllZip};
ghost use Rattle.modbus_service.specs.Outcome.{silence};
ghost use Rattle.modbus_service.specs.Units.{NoneAt, FirstAt, Checks, MakesUnits, Did, StoppedAtUnit, units_give, units_want, units_answering};
ghost use Rattle.modbus_diagnostics.specs.Port.{told_end};
ghost use Rattle.modbus_diagnostics.specs.PortUnits.{worse, AllDid, EndsAt};

use crate::counters::Ended;
use modbus_frame::{Request, Response, Slave, SlaveId, SlaveRequest};
use modbus_service::{Answerer, OnlyUnit, ServiceError, UnitsError};
use std::alloc::{AllocError, Global};
use std::marker::Model;

/// Services behind distinct addresses on the line of a port, which are silent to every other address.
#[derive(Drop)]
pub(crate) struct PortUnits<S> {
    units: Vec<OnlyUnit<S>>,
}

/// A contract sees the units of a line.
impl<S> Model for PortUnits<S> {
    ghost use Rattle.std.specs.Prelude.{None};
    ghost use Rattle.modbus_service.specs.Units.{LineUnits};

    ghost Value = { LineUnits S };

    ghost view = { λ it. record { units = it.units.items; absent = None } };
}

impl<S: Drop> PortUnits<S> {
    /// Puts services behind their addresses.
    ///
    /// # Errors
    /// The first address that is out of range, or that an earlier unit has too.
    pub(crate) fn new(units: Vec<OnlyUnit<S>>) -> Result<PortUnits<S>, UnitsError>
        ensures { MakesUnits units.items None result }
    {
        match check_units(&units) {
            Ok(()) => Ok(PortUnits { units }),
            Err(error) => Err(error),
        }
    }
}

/// The place of the first unit at an address.
fn place_of<S>(units: &[OnlyUnit<S>], slave: SlaveId) -> Option<usize>
    ensures { MatchOption result (NoneAt slave units.now)
        (λ place. (at : FirstAt slave units.now) × (length at.before ≡ place)) }
{
    for (place, it) in units.iter().enumerate() {
        if it.unit == slave {
            return Some(place);
        }
    }
    None
}

/// Whether each address is that of a single device, and of one unit alone.
fn check_units<S>(units: &[OnlyUnit<S>]) -> Result<(), UnitsError>
    ensures { Checks units.now result }
{
    for (place, it) in units.iter().enumerate() {
        if !Slave(it.unit).is_single_device() {
            return Err(UnitsError::OutOfRange(it.unit));
        }
        match place_of(&units[..place], it.unit) {
            Some(_) => return Err(UnitsError::Twice(it.unit)),
            None => {}
        }
    }
    Ok(())
}

/// How a message ended that was told so; `None` where memory was refused.
pub(crate) fn end_of(told: &Result<Option<Response>, ServiceError>) -> Option<Ended>
    ensures { result ≡ told_end told.now }
{
    match told {
        Ok(Some(_)) => Some(Ended::Well),
        Ok(None) => Some(Ended::Silent),
        Err(ServiceError::Exception(code)) => Some(Ended::Refused(*code)),
        Err(ServiceError::NoMemory) => None,
    }
}

/// How a message ended that ended so for some units, and so for the next one.
fn worse(before: Ended, next: Ended) -> Ended
    ensures { result ≡ worse before next }
{
    match (before, next) {
        (Ended::Well, next) => next,
        (Ended::Refused(code), _) => Ended::Refused(code),
        (Ended::Silent, Ended::Refused(code)) => Ended::Refused(code),
        (Ended::Silent, _) => Ended::Silent,
    }
}

/// Has a service do a message for all, and tells how that ended.
fn tell<S: Answerer>(
    service: &mut S,
    alloc: Global,
    request: &Request<'_>,
) -> Result<Ended, AllocError>
    ensures { MatchResult result
        (λ end. EndsAt S.answering service.old (meaning request.now) end service.new)
        (λ _. S.answering.wants service.old 0 (meaning request.now) service.new) }
{
    let broadcast = SlaveRequest {
        slave: Slave::broadcast().0,
        request: request.lend(),
    };
    let told = service.ask(alloc, broadcast);
    match end_of(&told) {
        Some(end) => Ok(end),
        None => Err(AllocError),
    }
}

/// Has each unit in turn do a message for all, and tells how that ended.
fn tell_all<S: Answerer>(
    units: &mut [OnlyUnit<S>],
    alloc: Global,
    request: &Request<'_>,
) -> Result<Ended, AllocError>
    ensures done { MatchResult result
        (λ _. AllZip (Did S.answering (meaning request.now)) units.old units.new)
        (λ _. StoppedAtUnit S.answering (meaning request.now) units.old units.new) }
    ensures ended { IfOk result
        (λ end. AllDid S.answering (meaning request.now) units.old units.new end) }
{
    let mut ended = Ended::Well;
    for it in units.iter_mut() {
        let end = tell(&mut it.service, alloc, request)?;
        ended = worse(ended, end);
    }
    Ok(ended)
}

impl<S: Answerer> PortUnits<S> {
    /// Has each unit do a message for all, and tells how that ended.
    ///
    /// # Errors
    /// Refused memory: the units before the one that had none have done it, and those after it have not.
    pub(crate) fn broadcast(
        &mut self,
        alloc: Global,
        request: &Request<'_>,
    ) -> Result<Ended, AllocError>
        ensures done { MatchResult result
            (λ _. units_give S.answering self.old 0 (meaning request.now) silence self.new)
            (λ _. units_want S.answering self.old 0 (meaning request.now) self.new) }
        ensures ended { IfOk result (λ end. AllDid S.answering (meaning request.now)
            self.old.units self.new.units end) }
    {
        tell_all(&mut self.units, alloc, request)
    }
}

impl<S: Answerer> Answerer for PortUnits<S> {
    ghost answering = { units_answering S.answering };

    fn ask(
        &mut self,
        alloc: Global,
        request: SlaveRequest<'_>,
    ) -> Result<Option<Response>, ServiceError> {
        if Slave(request.slave).is_broadcast() {
            tell_all(&mut self.units, alloc, &request.request)?;
            return Ok(None);
        }
        match place_of(&self.units, request.slave) {
            Some(place) => self.units[place].service.ask(alloc, request),
            None => Ok(None),
        }
    }
}
