//! What a port keeps of its line: its counters, whether it only listens, and its communication event log (sections 6.8.1 and 6.10).
ghost use Rattle.std.specs.Prelude.{◌≡◌, ◌≤◌, length};
ghost use Rattle.modbus_diagnostics.specs.Journal.{most_events, noted, bit_if, exception_bit, received, sent, sent_bit, empty_journal, listens_after, log_after, journal_after, journal_with};

use crate::counters::{Counters, Ended};
use crate::heard::Heard;
use crate::query::Query;
use arrayvec::ArrayVec;
use std::marker::Model;

/// The most events that a log has (section 6.10).
pub const MOST_EVENTS: usize = 64;

/// The event of a restart, and that of a port that begins to listen only.
const RESTARTED: u8 = 0x00;

const BEGAN_TO_LISTEN: u8 = 0x04;

/// The event bytes of a port, the newest first.
type Log = ArrayVec<u8, MOST_EVENTS>;

/// What a port keeps of its line.
#[derive(Drop)]
pub(crate) struct Journal {
    counters: Counters,
    listens_only: bool,
    log: Log,
}

/// A contract sees the counters, the mode and the events of the log.
impl Model for Journal {
    ghost use Rattle.modbus_diagnostics.specs.Journal.{JournalState};

    ghost Value = { JournalState };

    ghost view = { λ it. record { counters = it.counters; listens_only = it.listens_only; log = it.log.items } };
}

/// Adds an event to a log, which loses its oldest one where it is full.
fn note_event(log: &mut Log, event: u8)
    ensures { log.new.items ≡ noted event log.old.items }
{
    log.truncate(MOST_EVENTS - 1);
    log.insert(0, event);
}

/// A copy of a log.
fn copy_of(log: &Log) -> Log
    ensures { result.items ≡ log.now.items }
{
    match ArrayVec::try_from(log.as_slice()) {
        Ok(copy) => copy,
        Err(_) => unreachable!(),
    }
}

/// A bit of an event byte where this is so.
fn bit_if(bit: u8, so: bool) -> u8
    ensures exact { result ≡ bit_if bit so }
    ensures most { result ≤ bit }
{
    if so { bit } else { 0 }
}

/// The event of a message that was received.
fn received(listens: bool, heard: Heard) -> u8
    ensures { result ≡ received listens heard }
{
    let to_all = bit_if(0x40, heard.is_broadcast());
    let listening = bit_if(0x20, listens);
    let faulty = bit_if(0x02, !heard.is_message());
    0x80 + to_all + listening + faulty
}

/// The bit of an exception that was sent.
fn exception_bit(number: u8) -> u8
    ensures exact { result ≡ exception_bit number }
    ensures most { result ≤ 8 }
{
    match number {
        1 | 2 | 3 => 0x01,
        4 => 0x02,
        5 | 6 => 0x04,
        7 => 0x08,
        _ => 0,
    }
}

/// The bit of what was sent at the end of a message: nothing is for one for all.
fn sent_bit(heard: Heard, end: Ended) -> u8
    ensures exact { result ≡ sent_bit heard end }
    ensures most { result ≤ 8 }
{
    match end {
        Ended::Refused(code) if !heard.is_broadcast() => exception_bit(u8::from(code)),
        _ => 0,
    }
}

/// The event of a message that ended.
fn sent(listens: bool, heard: Heard, end: Ended) -> u8
    ensures { result ≡ sent listens heard end }
{
    let listening = bit_if(0x20, listens);
    let refused = sent_bit(heard, end);
    0x40 + listening + refused
}

/// Whether a port only listens after what was heard.
fn listens_after(listens: bool, heard: Heard) -> bool
    ensures { result ≡ listens_after listens heard }
{
    match heard {
        Heard::Asks(Query::ListenOnly) => true,
        Heard::Asks(Query::Restart(_)) => false,
        _ => listens,
    }
}

/// Adds the events of what was heard and ended so to the log of a port, which only listens or not.
fn note_events(log: &mut Log, listens: bool, heard: Heard, end: Ended)
    ensures { log.new.items ≡ log_after listens log.old.items heard end }
{
    match heard {
        Heard::Another | Heard::MonitoredAnother => {}
        Heard::Noise => note_event(log, received(listens, heard)),
        Heard::Asks(Query::ListenOnly) => {
            note_event(log, received(listens, heard));
            note_event(log, BEGAN_TO_LISTEN);
            note_event(log, sent(true, heard, end));
        }
        Heard::Asks(Query::Restart(erases)) => {
            if erases {
                log.clear();
            } else {
                note_event(log, received(listens, heard));
                note_event(log, sent(listens, heard, end));
            }
            note_event(log, RESTARTED);
        }
        _ => {
            note_event(log, received(listens, heard));
            note_event(log, sent(listens, heard, end));
        }
    }
}

impl Journal {
    /// That of a port that has heard nothing.
    pub(crate) fn new() -> Journal
        ensures { result ≡ empty_journal }
    {
        Journal {
            counters: Counters::zero(),
            listens_only: false,
            log: ArrayVec::new(),
        }
    }

    /// What the port has counted.
    pub(crate) fn counters(&self) -> Counters
        ensures { result ≡ self.now.counters }
    {
        self.counters
    }

    /// Whether the port only listens.
    pub(crate) fn listens_only(&self) -> bool
        ensures { result ≡ self.now.listens_only }
    {
        self.listens_only
    }

    /// The events of the log, the newest first.
    pub(crate) fn log(&self) -> &[u8]
        ensures exact { result.now ≡ self.now.log }
        ensures most { length result.now ≤ most_events }
    {
        self.log.as_slice()
    }

    /// Notes what was heard and ended so.
    pub(crate) fn note(&mut self, heard: Heard, end: Ended)
        ensures { self.new ≡ journal_after self.old heard end }
    {
        note_events(&mut self.log, self.listens_only, heard, end);
        self.counters = self.counters.after(heard, end);
        self.listens_only = listens_after(self.listens_only, heard);
    }

    /// A copy of it with the message that asks for it.
    pub(crate) fn with_this(&self, heard: Heard) -> Journal
        ensures { result ≡ journal_with self.now heard }
    {
        let mut log = copy_of(&self.log);
        note_event(&mut log, received(self.listens_only, heard));
        Journal {
            counters: self.counters.with_this(),
            listens_only: self.listens_only,
            log,
        }
    }
}
