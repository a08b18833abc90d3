//! What a port hears of its line.
ghost use Rattle.std.specs.Prelude.{◌≡◌};
ghost use Rattle.modbus_frame.specs.Meaning.{meaning};
ghost use Rattle.modbus_diagnostics.specs.Heard.{is_noise, is_unit, of_query, of_listener, own, to_all, to_another, heard_as, is_message, is_broadcast, is_own, clears, asks_events};

use crate::query::{Query, query_of};
use modbus_field::standard::NO_FUNCTION;
use modbus_frame::{Request, Slave, SlaveId, SlaveRequest};

/// What a port heard. While it only listens, all but a restart is monitored: it is counted, and nothing is done with it.
#[derive(Clone, Copy, Debug, PartialEq, Eq)]
pub enum Heard {
    /// What is no message: a wrong checksum, too few bytes, too many.
    Noise,
    /// A message for another device, or the answer of one.
    Another,
    /// A message for all.
    Broadcast,
    /// A message for one of its units.
    Own,
    /// A message for one of its units that asks the port itself.
    Asks(Query),
    /// A message for one of its units that came while it only listens.
    Monitored,
    /// A message for all that came while it only listens.
    MonitoredBroadcast,
    /// A message for another device that came while it only listens.
    MonitoredAnother,
}

impl Heard {
    /// Whether it is a message.
    pub(crate) fn is_message(self) -> bool
        ensures { result ≡ is_message self }
    {
        !matches!(self, Heard::Noise)
    }

    /// Whether it is a message for all.
    pub(crate) fn is_broadcast(self) -> bool
        ensures { result ≡ is_broadcast self }
    {
        matches!(self, Heard::Broadcast | Heard::MonitoredBroadcast)
    }

    /// Whether it is a message for one of the port's units, or for all.
    pub(crate) fn is_own(self) -> bool
        ensures { result ≡ is_own self }
    {
        !matches!(
            self,
            Heard::Noise | Heard::Another | Heard::MonitoredAnother
        )
    }

    /// Whether it clears the counters.
    pub(crate) fn clears(self) -> bool
        ensures { result ≡ clears self }
    {
        matches!(self, Heard::Asks(Query::Clear | Query::Restart(_)))
    }

    /// Whether it asks for the number of events.
    pub(crate) fn asks_events(self) -> bool
        ensures { result ≡ asks_events self }
    {
        matches!(self, Heard::Asks(Query::Events))
    }
}

/// Whether a request stands for what is no message.
fn is_noise(request: &Request<'_>) -> bool
    ensures { result ≡ is_noise (meaning request.now) }
{
    match request {
        Request::Custom(code, bytes) => *code == NO_FUNCTION && bytes.as_slice().is_empty(),
        _ => false,
    }
}

/// Whether one of these units has the address.
fn is_unit(units: &[SlaveId], slave: SlaveId) -> bool
    ensures { result ≡ is_unit units.now slave }
{
    units.contains(&slave)
}

/// A message for one of its units, of what it asks the port.
fn of_query(query: Option<Query>) -> Heard
    ensures { result ≡ of_query query }
{
    match query {
        Some(query) => Heard::Asks(query),
        None => Heard::Own,
    }
}

/// The same where the port only listens: a restart alone is done.
fn of_listener(query: Option<Query>) -> Heard
    ensures { result ≡ of_listener query }
{
    match query {
        Some(Query::Restart(erases)) => Heard::Asks(Query::Restart(erases)),
        _ => Heard::Monitored,
    }
}

/// A message for one of its units.
fn own(listens: bool, request: &Request<'_>) -> Heard
    ensures { result ≡ own listens (meaning request.now) }
{
    let query = query_of(request);
    if listens {
        of_listener(query)
    } else {
        of_query(query)
    }
}

/// A message for all.
fn to_all(listens: bool) -> Heard
    ensures { result ≡ to_all listens }
{
    if listens {
        Heard::MonitoredBroadcast
    } else {
        Heard::Broadcast
    }
}

/// A message for another device.
fn to_another(listens: bool) -> Heard
    ensures { result ≡ to_another listens }
{
    if listens {
        Heard::MonitoredAnother
    } else {
        Heard::Another
    }
}

/// What a port with these units hears, which only listens or not.
pub(crate) fn hear(units: &[SlaveId], listens: bool, message: &SlaveRequest<'_>) -> Heard
    ensures { result ≡ heard_as units.now listens message.now.slave
        (meaning message.now.request) }
{
    if is_noise(&message.request) {
        Heard::Noise
    } else if Slave(message.slave).is_broadcast() {
        to_all(listens)
    } else if is_unit(units, message.slave) {
        own(listens, &message.request)
    } else {
        to_another(listens)
    }
}
