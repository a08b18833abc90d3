//! A port: what hears a line, keeps a journal of it, and answers for that.
ghost use Rattle.std.specs.Prelude.{◌≡◌, IfOk};
ghost use Rattle.modbus_frame.specs.Meaning.{meaning};
ghost use Rattle.modbus_service.specs.Answering.{Keeps};
ghost use Rattle.modbus_service.specs.Units.{units_answering};
ghost use Rattle.modbus_field.specs.LineAnswers.{addresses_of};
ghost use Rattle.modbus_diagnostics.specs.Port.{MakesPort, IsQuiet, hearing, noted_when, TellsEnd, port_answering};

use crate::counters::{Counters, Ended};
use crate::heard::{Heard, hear};
use crate::journal::Journal;
use crate::port_units::{PortUnits, end_of};
use crate::query::reply;
use modbus_field::burst::LineAnswerer;
use modbus_field::burst::laws::units_keep_to_own;
use modbus_frame::{Response, SlaveId, SlaveRequest};
use modbus_service::{Answerer, OnlyUnit, ServiceError, UnitsError};
use std::alloc::{AllocError, Global};
use std::marker::Model;

/// Why there is no port.
#[derive(Clone, Copy, Debug, PartialEq, Eq)]
pub enum PortError {
    /// The addresses of its units are not those of single devices, or not distinct.
    BadUnits(UnitsError),
    /// Memory was refused.
    NoRoom,
}

/// A port of a serial line, and the units behind it: it keeps a journal of what its line brings, and answers what asks one of its units
/// for that (sections 6.7 to 6.10).
///
/// Its units are asked each message but those, as `Units` is. A message for all has no answer, and is counted by what each of them did
/// with it: as an event where all did it well, and as an exception where one of them would have answered so. So its services answer a
/// message for all as any other; where one tells nothing, it is no event.
///
/// Told to listen only, it answers nothing and does nothing until it is restarted, but counts and logs what it hears.
#[derive(Drop)]
pub struct Port<S> {
    // the addresses of its units
    units: Vec<SlaveId>,
    // its units
    line: PortUnits<S>,
    // what it keeps of its line
    journal: Journal,
}

/// A contract sees the addresses of its units, these, and what it keeps of its line.
impl<S> Model for Port<S> {
    ghost use Rattle.modbus_diagnostics.specs.Port.{PortState, IsQuiet};

    ghost Value = { PortState S };

    ghost view = { λ it. record { units = it.units.items; line = it.line; journal = it.journal } };

    ghost invariant = { λ it. IsQuiet it.units.items it.line };
}

/// The addresses of these units.
fn addresses_of<S>(alloc: Global, units: &[OnlyUnit<S>]) -> Result<Vec<SlaveId>, AllocError>
    ensures { IfOk result (λ list. list.items ≡ addresses_of units.now) }
{
    let mut addresses = Vec::new(alloc);
    for it in units {
        addresses.push(it.unit)?;
    }
    Ok(addresses)
}

impl<S: Drop> Port<S> {
    /// A port that has heard nothing, of these units: what is for one of them or for all is for the port, and nothing else is. A message
    /// for any other address has no answer, as it is a neighbour's.
    ///
    /// # Errors
    /// The first address that is out of range, or that an earlier unit has too; or refused memory.
    pub fn new(alloc: Global, units: Vec<OnlyUnit<S>>) -> Result<Port<S>, PortError>
        ensures { MakesPort units.items result }
    {
        let Ok(addresses) = addresses_of(alloc, &units) else {
            return Err(PortError::NoRoom);
        };
        match PortUnits::new(units) {
            Ok(line) => Ok(Port {
                units: addresses,
                line,
                journal: Journal::new(),
            }),
            Err(error) => Err(PortError::BadUnits(error)),
        }
    }
}

impl<S> Port<S> {
    /// The addresses of its units.
    pub fn units(&self) -> &[SlaveId]
        ensures { result.now ≡ self.now.units }
    {
        &self.units
    }

    /// What it has counted.
    pub fn counters(&self) -> Counters
        ensures { result ≡ self.now.journal.counters }
    {
        self.journal.counters()
    }

    /// Whether it only listens (section 6.8.1, sub-function 04).
    pub fn listens_only(&self) -> bool
        ensures { result ≡ self.now.journal.listens_only }
    {
        self.journal.listens_only()
    }

    /// The bytes of its event log, at most 64, the newest first (section 6.10).
    pub fn log(&self) -> &[u8]
        ensures { result.now ≡ self.now.journal.log }
    {
        self.journal.log()
    }
}

/// What is told for what was heard, and how it ended; `None` where memory was refused.
fn tell<S: Answerer>(
    line: &mut PortUnits<S>,
    alloc: Global,
    journal: &Journal,
    heard: Heard,
    request: SlaveRequest<'_>,
) -> (Result<Option<Response>, ServiceError>, Option<Ended>)
    ensures keeps { Keeps (hearing (units_answering S.answering) journal.now heard) line.old
        request.entry.slave (meaning request.entry.request) result.0 line.new }
    ensures ends { TellsEnd S.answering heard (meaning request.entry.request) line.old line.new
        result.0 result.1 }
{
    match heard {
        Heard::Broadcast => match line.broadcast(alloc, &request.request) {
            Ok(end) => (Ok(None), Some(end)),
            Err(_) => (Err(ServiceError::NoMemory), None),
        },
        Heard::Asks(query) => {
            let told = reply(alloc, &journal.with_this(heard), &request.request, query);
            let end = end_of(&told);
            (told, end)
        }
        Heard::Own | Heard::Another => {
            let told = line.ask(alloc, request);
            let end = end_of(&told);
            (told, end)
        }
        Heard::Noise | Heard::Monitored | Heard::MonitoredBroadcast | Heard::MonitoredAnother => (
            Ok(None),
            Some(Ended::Silent),
        ),
    }
}

/// Notes what was heard, and how it ended; nothing where memory was refused.
fn note_when(journal: &mut Journal, heard: Heard, end: Option<Ended>)
    ensures { journal.new ≡ noted_when journal.old heard end }
{
    match end {
        Some(end) => journal.note(heard, end),
        None => {}
    }
}

impl<S: Answerer> Answerer for Port<S> {
    ghost answering = { port_answering S.answering };

    fn ask(
        &mut self,
        alloc: Global,
        request: SlaveRequest<'_>,
    ) -> Result<Option<Response>, ServiceError> {
        units_keep_to_own::<S>();
        let heard = hear(&self.units, self.journal.listens_only(), &request);
        let (told, end) = tell(&mut self.line, alloc, &self.journal, heard, request);
        note_when(&mut self.journal, heard, end);
        told
    }
}

impl<S: Answerer> LineAnswerer for Port<S> {
    ghost addresses = { λ it. it.units };

    ghost is_quiet = { λ it. IsQuiet it.units it.line };

    fn keep_to_own(&self) {
        let _units = &self.units;
        units_keep_to_own::<S>();
    }
}
