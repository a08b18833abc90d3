//! Several services behind their addresses on one link, as the devices of a serial line are or those behind one TCP port.
ghost use Rattle.std.specs.Prelude.{◌≡◌, length, MatchOption, MatchResult};
ghost use Rattle.std.specs.List.{AllZip};
ghost use Rattle.modbus_frame.specs.Meaning.{meaning};
ghost use Rattle.modbus_service.specs.Outcome.{Outcome};
ghost use Rattle.modbus_service.specs.Units.{LineUnits, NoneAt, FirstAt, Checks, MakesUnits, Did, StoppedAtUnit, units_answering};

use crate::only_unit::{OnlyUnit, unsent};
use crate::service::{Answerer, ServiceError};
use modbus_frame::{ExceptionCode, Request, Response, Slave, SlaveId, SlaveRequest};
use std::alloc::{AllocError, Global};
use std::marker::Model;

/// The addresses of units are not those of single devices, or not distinct.
#[derive(Clone, Copy, Debug, PartialEq, Eq)]
pub enum UnitsError {
    /// This address is 0 or reserved: single devices have 1 to 247 (MODBUS over Serial Line V1.02, section 2.2).
    OutOfRange(SlaveId),
    /// Two units have this address.
    Twice(SlaveId),
}

/// Services behind distinct addresses on one link: the devices of a serial line, or the units behind one TCP port.
///
/// A request for the address of a unit is answered by its service, and changes no other. A broadcast is done by each in turn, and is
/// not answered (MODBUS over Serial Line V1.02, section 2.1). Where a service has no memory for it, the services before it have done it
/// and those after it have not, and the refusal is told at once. A request for an address that no unit has is not answered, as on a
/// serial line, or has the exception that was given to [`Units::new`], as over TCP.
#[derive(Drop)]
pub struct Units<S> {
    units: Vec<OnlyUnit<S>>,
    absent: Option<ExceptionCode>,
}

impl<S> Model for Units<S> {
    ghost Value = { LineUnits S };

    ghost view = { λ it. record { units = it.units.items; absent = it.absent } };
}

impl<S: Drop> Units<S> {
    /// Puts services behind their addresses. `absent` is the exception for an address that no unit has, or silence.
    ///
    /// # Errors
    /// The first address that is out of range, or that an earlier unit has too.
    pub fn new(
        units: Vec<OnlyUnit<S>>,
        absent: Option<ExceptionCode>,
    ) -> Result<Units<S>, UnitsError>
        ensures { MakesUnits units.items absent result }
    {
        match check_units(&units) {
            Ok(()) => Ok(Units { units, absent }),
            Err(error) => Err(error),
        }
    }
}

// The place of the first unit at an address.
fn place_of<S>(units: &[OnlyUnit<S>], slave: SlaveId) -> Option<usize>
    ensures { MatchOption result (NoneAt slave units.now)
        (λ place. (at : FirstAt slave units.now) × (length at.before ≡ place)) }
{
    for (place, it) in units.iter().enumerate() {
        if it.unit == slave {
            return Some(place);
        }
    }
    None
}

// Whether each address is that of a single device, and of one unit alone.
fn check_units<S>(units: &[OnlyUnit<S>]) -> Result<(), UnitsError>
    ensures { Checks units.now result }
{
    for (place, it) in units.iter().enumerate() {
        if !Slave(it.unit).is_single_device() {
            return Err(UnitsError::OutOfRange(it.unit));
        }
        match place_of(&units[..place], it.unit) {
            Some(_) => return Err(UnitsError::Twice(it.unit)),
            None => {}
        }
    }
    Ok(())
}

// Has a service do a broadcast.
fn tell<S: Answerer>(
    service: &mut S,
    alloc: Global,
    request: &Request<'_>,
) -> Result<(), AllocError>
    ensures { MatchResult result (λ _. (told : Outcome)
        × S.answering.gives service.old 0 (meaning request.now) told service.new)
        (λ _. S.answering.wants service.old 0 (meaning request.now) service.new) }
{
    let broadcast = SlaveRequest {
        slave: Slave::broadcast().0,
        request: request.lend(),
    };
    unsent(service.ask(alloc, broadcast))
}

// Has each unit in turn do a broadcast.
fn tell_all<S: Answerer>(
    units: &mut [OnlyUnit<S>],
    alloc: Global,
    request: &Request<'_>,
) -> Result<(), AllocError>
    ensures { MatchResult result
        (λ _. AllZip (Did S.answering (meaning request.now)) units.old units.new)
        (λ _. StoppedAtUnit S.answering (meaning request.now) units.old units.new) }
{
    for it in units.iter_mut() {
        tell(&mut it.service, alloc, request)?;
    }
    Ok(())
}

impl<S: Answerer> Answerer for Units<S> {
    ghost answering = { units_answering S.answering };

    fn ask(
        &mut self,
        alloc: Global,
        request: SlaveRequest<'_>,
    ) -> Result<Option<Response>, ServiceError> {
        if Slave(request.slave).is_broadcast() {
            tell_all(&mut self.units, alloc, &request.request)?;
            return Ok(None);
        }
        match place_of(&self.units, request.slave) {
            Some(place) => self.units[place].service.ask(alloc, request),
            None => match self.absent {
                Some(code) => Err(ServiceError::Exception(code)),
                None => Ok(None),
            },
        }
    }
}
