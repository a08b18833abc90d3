//! A terminal as a serial line that has an end: the line of the programs that stand on one.
//!
//! A serial port that was set by `stty raw min 0 time 1` gives nothing where a tenth of a second passed without a byte, and gives nothing at
//! once where it was hung up. `TerminalLink` tells both as a silence; with a clock they are told apart.
ghost use Rattle.std.specs.Prelude.{◌≡◌, ◌<◌, ◌≤◌, length, IsTrue, IfOk, OnErr};
ghost use Rattle.std.specs.Io.{ReadsAtMost, WritesAtMost};
ghost use Rattle.modbus_link.specs.Outside.{Rose, Advances, Extends, ReadIsTold, bytes_appended, front_of, untold_input, untold_output};
ghost use Rattle.modbus_link.specs.Polled.{at_once, Waited};
ghost use Rattle.modbus_link.specs.Silence.{IsAtOnce};
ghost use Rattle.modbus_link.specs.Terminal.{line_at_start, LineReads, LineWrites};

use crate::outside::{Ends, Failed};
use crate::polled::{Polled, PolledLink};
use crate::reading::Reading;
use crate::silence::{TerminalLink, TimedLink};
use crate::timed::{Readings, read_from};
use std::io::{Read, Write};
use std::marker::Model;
use std::time::Clock;

/// A link over a terminal that gives 0 bytes where nothing came for a while, which also tells where the line has ended: a read gives
/// nothing then, and does not wait.
///
/// It counts what it tells of the reads that gave nothing: silences, and ends of the line.
#[derive(Drop)]
pub struct TerminalLine<'r, R, I, O> {
    clock: &'r R,
    streams: TerminalLink<I, O>,
    silences: u64,
    ends: u64,
    last: Option<Readings>,
}

/// A contract sees the terminal, what was counted, and what the clock told at the last read.
impl<'r, R, I, O> Model for TerminalLine<'r, R, I, O> {
    ghost use Rattle.std.specs.Option.{option_map};
    ghost use Rattle.modbus_link.specs.Terminal.{LineState};
    ghost use Rattle.modbus_link.specs.Timed.{readings_of};

    ghost Value = { LineState };

    ghost view = { λ line. record { streams = line.streams; silences = line.silences; ends = line.ends; last = option_map readings_of line.last } };
}

impl<'r, R: Clock, I: Read, O: Write> TerminalLine<'r, R, I, O> {
    /// A link over this terminal, by this clock.
    pub fn new(clock: &'r R, streams: TerminalLink<I, O>) -> TerminalLine<'r, R, I, O>
        ensures { result ≡ line_at_start streams }
    {
        TerminalLine {
            clock,
            streams,
            silences: 0,
            ends: 0,
            last: None,
        }
    }
}

impl<'r, R: Clock, I: Read, O: Write> Ends for TerminalLine<'r, R, I, O> {
    ghost input = { λ line. untold_input line.streams.read_faults };

    ghost output = { λ line. untold_output line.streams.write_faults };
}

impl<'r, R: Clock, I: Read, O: Write> PolledLink for TerminalLine<'r, R, I, O> {
    ghost not_ready = { λ line. line.silences };

    /// Reads what the terminal has. A read that gives no byte is the end of the line where it took less than 20 milliseconds by the clock,
    /// as that of a port does whose converter was pulled out, or of a pipe that was closed; else it is a silence, also where the clock
    /// can't be read.
    ///
    /// # Errors
    /// `Failed` where the reader failed.
    fn poll_read(&mut self, room: &mut [u8]) -> Result<Polled<usize>, Failed>
        requires { 0 < length room.old }
        ensures bound { ReadsAtMost (at_once result) room.new }
        ensures source { Advances (untold_input self.old.streams.read_faults)
            (untold_input self.new.streams.read_faults) }
        ensures told { IsTrue (untold_input self.old.streams.read_faults).told
            → ReadIsTold (untold_input self.old.streams.read_faults)
            (untold_input self.new.streams.read_faults) room.old room.new (at_once result) }
        ensures cause { OnErr result (Rose self.old.streams.read_faults
            self.new.streams.read_faults) }
        ensures waited { Waited result self.old.silences self.new.silences }
        ensures later { self.old.silences ≤ self.new.silences }
        ensures sink { untold_output self.new.streams.write_faults
            ≡ untold_output self.old.streams.write_faults }

        ensures reads { LineReads self.old self.new result }
    {
        let start = Reading::now(self.clock);
        let (told, readings) = read_from(start, &mut self.streams, room).end(self.clock);
        let is_soon = readings.is_soon();
        self.last = Some(readings);
        match told {
            Ok(Polled::Pending) => {
                if is_soon {
                    self.ends = self.ends.saturating_add(1);
                    return Ok(Polled::Ready(0));
                }
                self.silences = self.silences.saturating_add(1);
                Ok(Polled::Pending)
            }
            other => other,
        }
    }

    /// Writes and flushes.
    ///
    /// # Errors
    /// `Failed` where the writer failed, took nothing of a piece that isn't empty, or could not be flushed.
    fn poll_write(&mut self, piece: &[u8]) -> Result<Polled<usize>, Failed>
        ensures bound { WritesAtMost (at_once result) piece.now }
        ensures some { IfOk (at_once result) (λ count. 0 < length piece.now → 0 < count) }
        ensures sink { Extends (untold_output self.old.streams.write_faults)
            (untold_output self.new.streams.write_faults) }
        ensures told { IsTrue (untold_output self.old.streams.write_faults).told
            → bytes_appended (untold_output self.old.streams.write_faults)
            (untold_output self.new.streams.write_faults) ≡ front_of (at_once result) piece.now }
        ensures cause { OnErr result (Rose self.old.streams.write_faults
            self.new.streams.write_faults) }
        ensures waited { Waited result self.old.silences self.new.silences }
        ensures later { self.old.silences ≤ self.new.silences }
        ensures source { untold_input self.new.streams.read_faults
            ≡ untold_input self.old.streams.read_faults }

        ensures at_once { IsAtOnce result }
        ensures writes { LineWrites self.old self.new result }
    {
        self.streams.poll_write(piece)
    }
}

impl<'r, R: Clock, I: Read, O: Write> TimedLink for TerminalLine<'r, R, I, O> {}
