//! Laws on the runs of gateways and on shared serial lines, about definitions alone. Each is proved by its contract.
ghost use Rattle.modbus_link.specs.Line.{meaning_of};
ghost use Rattle.modbus_client.specs.LineReading.{line_protocol, silent_protocol};
ghost use Rattle.modbus_client.specs.Rtu.{rtu_heading};
ghost use Rattle.modbus_reconnect.specs.SettleState.{line_by};
ghost use Rattle.modbus_gateway.specs.Records.{RunsAreRecords, WantsAreRecords};
ghost use Rattle.modbus_gateway.specs.Serial.{NothingIsOwed};
ghost use Rattle.modbus_gateway.specs.Guarded.{GuardedRuns};
ghost use Rattle.modbus_gateway.specs.Sparing.{SparingRuns, SparingCounts};
ghost use Rattle.modbus_gateway.specs.Timely.{TimelyRuns};

use crate::gateway::Forwarder;
use crate::watcher::Watcher;
use modbus_link::{Link, TimedLink};
use modbus_reconnect::IdleLink;

/// A run of a gateway over exchanges is one record of the line for each of them, joined end to end: what was written and read is what was
/// written and read in each, and the client is connected after it where it was before, and no write of the line failed. A request for
/// which memory was wanting is one record too.
pub fn runs_are_records<L: Link>()
    ensures run { RunsAreRecords (meaning_of L.input L.output L.line) }
    ensures want { WantsAreRecords (meaning_of L.input L.output L.line) }
{}

/// However many exchanges were made on a serial line that was opened in doubt, whoever asked for them and whatever came of them: where the
/// line is not in doubt, no reply is owed on it. So each exchange that sends a request begins on a line on which nothing is owed.
pub fn nothing_is_owed<L: TimedLink + IdleLink>()
    ensures { NothingIsOwed
        (line_by line_protocol silent_protocol rtu_heading (meaning_of L.input L.output L.line) L.not_ready L.looks) }
{}

/// Whatever masters ask behind rules: the line has the requests that these allow and no other, in their order, and each other request is
/// answered by the exception of its refusal. So no function that writes reaches a line that may only be read, nor any request a unit that
/// may not be asked; a broadcast is judged as a request for unit 0.
pub fn only_what_is_allowed_is_sent<H, C: Forwarder>()
    ensures { GuardedRuns H C.forwarding }
{}

/// Whatever masters ask of what spares its line the exchanges with dead slaves: the line has the requests that are not spared and no other,
/// in their order. What is kept of each slave counts the exchanges that the line had: a slave is spared only where the last of these with
/// it, as many as make it dead, ended with 0B.
pub fn only_dead_slaves_are_spared<H, W: Watcher, C: Forwarder>()
    ensures runs { SparingRuns H W.tells C.forwarding }
    ensures counts { SparingCounts H W.tells C.forwarding }
{}

/// However long masters wait for their turns at a shared line: the line has the requests that are not stale and no other, in their order. So
/// nothing is done for one that waited longer than the limit, by the readings of the clock.
pub fn only_fresh_requests_are_sent<H, C: Forwarder>()
    ensures { TimelyRuns H C.forwarding }
{}
