//! The words of the command line.
ghost use Rattle.std.specs.Prelude.{◌≡◌, MatchOption};
ghost use Rattle.std.specs.declared.net.SocketAddr.{SocketAddr};
ghost use Rattle.modbus_serial_gateway.specs.declared.words.Task.{Task};
ghost use Rattle.modbus_serial_gateway.specs.Words.{nonzero_port, time_named, IsPlace, IsTask};

use crate::sparing_words::SparingWords;
use crate::stale_words::StaleWords;
use modbus_poll::number_within;
use modbus_port::loopback;
use modbus_rule_words::{PeerWords, RuleWords};
use std::alloc::{AllocError, Global};
use std::net::SocketAddr;

/// What it says of its words.
pub const HELP: &str =
    "usage: modbus_serial_gateway [ADDRESS:]PORT MILLISECONDS [--serial FILE] [--echo] [--baud N] [--allow NETWORK] [--units A-B] [--read-only | --writes UNITS:A-B] [--dead-after N [--retry-dead SECONDS]] [--stale MILLISECONDS], a port from 1 to 65535 and a time from 1 to 60000\n";

/// What the words ask for.
#[derive(Clone, Copy, Debug, PartialEq, Eq)]
pub struct Task {
    /// The address that masters connect to.
    pub address: SocketAddr,
    /// For how long the reply of a slave is waited for, in milliseconds.
    pub millis: u32,
}

/// The port that a word shows: one to five digits, of a value from 1 to 65535.
fn port_number(word: &str) -> Option<u16>
    ensures { result ≡ nonzero_port word.now }
{
    match number_within(word.as_bytes(), 5, 1, 0xFFFF) {
        Some(port) if port <= 0xFFFF => Some(port as u16),
        _ => None,
    }
}

/// The address that a word names: a port, which is that of 127.0.0.1, or an address and a port, as `192.0.2.1:502`, `0.0.0.0:502` or
/// `[::]:502`. The system chooses the port where the one behind an address is 0.
fn place_of(word: &str) -> Option<SocketAddr>
    ensures { MatchOption result ((address : SocketAddr) → IsPlace word.now address → ⊥)
        (IsPlace word.now) }
{
    match port_number(word) {
        Some(port) => Some(loopback(port)),
        None => match word.parse() {
            Ok(address) => Some(address),
            Err(_) => None,
        },
    }
}

/// The time in milliseconds that a word shows: one to five digits, of a value from 1 to 60,000.
fn milliseconds(word: &str) -> Option<u32>
    ensures { result ≡ time_named word.now }
{
    number_within(word.as_bytes(), 5, 1, 60_000)
}

/// What these two words ask for; `None` where the one is no place or the other no such time. It takes no memory.
pub fn read_words(place: &str, millis: &str) -> Option<Task>
    ensures { MatchOption result ((task : Task) → IsTask place.now millis.now task → ⊥)
        (IsTask place.now millis.now) }
{
    match (place_of(place), milliseconds(millis)) {
        (Some(address), Some(millis)) => Some(Task { address, millis }),
        _ => None,
    }
}

/// How the line is.
#[derive(Clone, Copy, Debug, PartialEq, Eq)]
pub struct LineKind {
    /// Whether its converter gives back what is sent.
    pub has_echo: bool,
    /// Its speed in bits a second; 0 where that is not known.
    pub baud: u32,
}

/// The option whose value is the next word.
#[derive(Clone, Copy, Debug, PartialEq, Eq)]
enum Awaited {
    Serial,
    Baud,
    Allow,
    Units,
    Writes,
    DeadAfter,
    RetryDead,
    Stale,
}

/// What the words say of the line, of dead slaves, of requests that wait, and of the masters.
#[derive(Drop)]
pub struct LineWish {
    pub kind: LineKind,
    pub rules: RuleWords,
    pub sparing: SparingWords,
    pub stale: StaleWords,
    /// The file of the serial port; none for the standard streams.
    pub path: Option<String>,
    /// Which masters are served.
    pub peers: PeerWords,
}

/// What the words said so far.
#[derive(Drop)]
pub struct LineWords {
    wish: LineWish,
    awaited: Option<Awaited>,
    alloc: Global,
}

impl LineWords {
    /// No word was read: the standard streams, no echo, no speed that is known, everything is allowed, and each
    /// slave is asked.
    pub fn new(alloc: Global) -> LineWords {
        let kind = LineKind {
            has_echo: false,
            baud: 0,
        };
        let wish = LineWish {
            kind,
            rules: RuleWords::new(alloc),
            sparing: SparingWords::new(),
            stale: StaleWords::new(),
            path: None,
            peers: PeerWords::new(alloc),
        };
        LineWords {
            wish,
            awaited: None,
            alloc,
        }
    }

    /// The file of a serial port, which no word named before.
    fn read_path(&mut self, word: &str) -> Result<bool, AllocError> {
        if self.wish.path.is_some() || word.is_empty() {
            return Ok(false);
        }
        self.wish.path = Some(String::from_str(self.alloc, word)?);
        Ok(true)
    }

    /// The speed of the line, of one to seven digits, from 1.
    fn read_baud(&mut self, word: &str) -> bool {
        match number_within(word.as_bytes(), 7, 1, 9_999_999) {
            Some(baud) => {
                self.wish.kind.baud = baud;
                true
            }
            None => false,
        }
    }

    /// An option.
    fn read_option(&mut self, word: &str) -> bool {
        match word {
            "--echo" => self.wish.kind.has_echo = true,
            "--read-only" => self.wish.rules.allow_no_write(),
            "--serial" => self.awaited = Some(Awaited::Serial),
            "--baud" => self.awaited = Some(Awaited::Baud),
            "--allow" => self.awaited = Some(Awaited::Allow),
            "--units" => self.awaited = Some(Awaited::Units),
            "--writes" => self.awaited = Some(Awaited::Writes),
            "--dead-after" => self.awaited = Some(Awaited::DeadAfter),
            "--retry-dead" => self.awaited = Some(Awaited::RetryDead),
            "--stale" => self.awaited = Some(Awaited::Stale),
            _ => return false,
        }
        true
    }

    /// Reads one more word, an option or the value of one; whether it is one.
    ///
    /// # Errors
    /// `AllocError` where memory is refused.
    pub fn read(&mut self, word: &str) -> Result<bool, AllocError> {
        match self.awaited.take() {
            Some(Awaited::Serial) => self.read_path(word),
            Some(Awaited::Baud) => Ok(self.read_baud(word)),
            Some(Awaited::Allow) => self.wish.peers.add(word),
            Some(Awaited::Units) => self.wish.rules.add_units(word),
            Some(Awaited::Writes) => self.wish.rules.add_writes(word),
            Some(Awaited::DeadAfter) => Ok(self.wish.sparing.read_misses(word)),
            Some(Awaited::RetryDead) => Ok(self.wish.sparing.read_seconds(word)),
            Some(Awaited::Stale) => Ok(self.wish.stale.read(word)),
            None => Ok(self.read_option(word)),
        }
    }

    /// What the words say; `None` where the value of an option is not there, two exclude each other, or one is there without the one that it
    /// belongs to.
    pub fn end(self) -> Option<LineWish> {
        if self.awaited.is_some()
            || self.wish.rules.contradicts()
            || self.wish.sparing.wants_misses()
        {
            return None;
        }
        Some(self.wish)
    }
}
