//! Links that tell silence: that nothing came for a while.
//!
//! On a serial line a silence ends a frame (MODBUS over Serial Line V1.02, section 2.5.1.1), and a client that lets the line fall silent
//! has no late reply before it. A link that tells silence is a `PolledLink` that waits for a while before it says that it is not ready.
ghost use Rattle.std.specs.Prelude.{◌≡◌, ◌↔◌, ◌<◌, ◌≤◌, length, IsTrue, IfOk};
ghost use Rattle.std.specs.Io.{ReadsAtMost, WritesAtMost};
ghost use Rattle.modbus_link.specs.Outside.{Advances, Extends, bytes_appended, ReadIsTold, front_of, untold_input, untold_output};
ghost use Rattle.modbus_link.specs.Memory.{source_input, sink_output};
ghost use Rattle.modbus_link.specs.Polled.{at_once, Waited};
ghost use Rattle.modbus_link.specs.Silence.{IsSilentNow, IsAtOnce, SilenceReads, SilenceWrites, silent_at_start, TerminalReads, TerminalWrites, TcpReads, TcpWrites};

use crate::memory_link::MemoryLink;
use crate::outside::{Ends, Failed, Sink, Source};
use crate::polled::{Polled, PolledLink};
use crate::real::{ReadSource, WriteSink};
use crate::tcp::TcpLink;
use std::alloc::{AllocError, Global};
use std::io::{Read, Write};
use std::marker::Model;

/// A link of which a read waits for a while before it answers `Pending`, which then tells silence: nothing came for that long.
///
/// A write of it waits for as long as it has to, so that only silences are counted by `not_ready`.
pub trait TimedLink: PolledLink {}

/// A link in memory that tells silence where it was said to lie, for tests. It tells all of its content.
#[derive(Drop)]
pub struct TimedMemoryLink {
    link: MemoryLink,
    silences: Vec<usize>,
    told: usize,
}

impl Model for TimedMemoryLink {
    ghost use Rattle.std.specs.Prelude.{◌≤◌, drop, vec_len};
    ghost use Rattle.modbus_link.specs.Silence.{TimedState};

    ghost Value = { TimedState };

    ghost view = { λ timed. record { link = timed.link; silences = drop timed.told timed.silences.items; told = timed.told } };

    ghost invariant = { λ timed. timed.told ≤ vec_len timed.silences };
}

impl TimedMemoryLink {
    /// A link in which a silence lies at each of these totals of its input, in bytes, which rise. A silence is told by the read that
    /// begins at its total; where a read goes past that, neither it nor those behind it are told, so they are stops of the source too.
    ///
    /// # Errors
    /// `AllocError` where memory is refused.
    pub fn new(
        alloc: Global,
        link: MemoryLink,
        silences: &[usize],
    ) -> Result<TimedMemoryLink, AllocError>
        ensures { IfOk result (λ timed. timed ≡ silent_at_start link silences.now) }
    {
        Ok(TimedMemoryLink {
            link,
            silences: Vec::from_slice(alloc, silences)?,
            told: 0,
        })
    }

    /// The link.
    pub fn link(&self) -> &MemoryLink
        ensures { result.now ≡ self.now.link }
    {
        &self.link
    }

    // Whether a silence lies here that was not told.
    fn is_silent(&self) -> bool
        ensures { IsTrue result ↔ IsSilentNow self.now }
    {
        match self.silences[self.told..].first() {
            Some(total) => *total == self.link.source().given(),
            None => false,
        }
    }
}

impl Ends for TimedMemoryLink {
    ghost input = { λ timed. source_input timed.link.source };

    ghost output = { λ timed. sink_output timed.link.sink };

    ghost line = { λ timed. timed.link.line };
}

impl PolledLink for TimedMemoryLink {
    ghost not_ready = { λ timed. timed.told };

    fn poll_read(&mut self, room: &mut [u8]) -> Result<Polled<usize>, Failed>
        requires { 0 < length room.old }
        ensures bound { ReadsAtMost (at_once result) room.new }
        ensures source { Advances (source_input self.old.link.source)
            (source_input self.new.link.source) }
        ensures told { IsTrue (source_input self.old.link.source).told
            → ReadIsTold (source_input self.old.link.source) (source_input self.new.link.source)
            room.old room.new (at_once result) }
        ensures later { self.old.told ≤ self.new.told }

        ensures reads { SilenceReads (length room.old) self.old self.new result }
    {
        if self.is_silent() {
            self.told += 1;
            return Ok(Polled::Pending);
        }
        let count = self.link.read(room)?;
        Ok(Polled::Ready(count))
    }

    fn poll_write(&mut self, piece: &[u8]) -> Result<Polled<usize>, Failed>
        ensures bound { WritesAtMost (at_once result) piece.now }
        ensures some { IfOk (at_once result) (λ count. 0 < length piece.now → 0 < count) }
        ensures sink { Extends (sink_output self.old.link.sink) (sink_output self.new.link.sink) }
        ensures told { IsTrue (sink_output self.old.link.sink).told
            → bytes_appended (sink_output self.old.link.sink) (sink_output self.new.link.sink)
            ≡ front_of (at_once result) piece.now }
        ensures waited { Waited result self.old.told self.new.told }
        ensures later { self.old.told ≤ self.new.told }

        ensures at_once { IsAtOnce result }
        ensures writes { SilenceWrites (length piece.now) self.old self.new result }
    {
        let count = self.link.write(piece)?;
        Ok(Polled::Ready(count))
    }
}

impl TimedLink for TimedMemoryLink {}

/// A link over a reader and a writer of a terminal that gives 0 bytes where nothing came for a while, as one does after
/// `stty raw min 0 time 1`. Such a read tells silence, and no end.
///
/// It counts its faults and its silences, and tells no content.
#[derive(Drop)]
pub struct TerminalLink<R, W> {
    source: ReadSource<R>,
    sink: WriteSink<W>,
    silences: u64,
}

/// What a contract knows of it is how often it failed, and how many silences it told.
impl<R, W> Model for TerminalLink<R, W> {
    ghost use Rattle.modbus_link.specs.Silence.{TerminalState};

    ghost Value = { TerminalState };

    ghost view = { λ link. record { read_faults = link.source; write_faults = link.sink; silences = link.silences } };
}

impl<R: Read, W: Write> TerminalLink<R, W> {
    /// A link of these ends that has told no silence.
    pub fn new(source: ReadSource<R>, sink: WriteSink<W>) -> Self
        ensures { result ≡ record { read_faults = source; write_faults = sink; silences = 0 } }
    {
        TerminalLink {
            source,
            sink,
            silences: 0,
        }
    }
}

impl<R: Read, W: Write> Ends for TerminalLink<R, W> {
    ghost input = { λ link. untold_input link.read_faults };

    ghost output = { λ link. untold_output link.write_faults };
}

impl<R: Read, W: Write> PolledLink for TerminalLink<R, W> {
    ghost not_ready = { λ link. link.silences };

    /// Reads what the terminal has. A read that gives no byte is a silence.
    ///
    /// # Errors
    /// `Failed` where the reader failed, as it does where the other end of a pseudo-terminal is closed.
    fn poll_read(&mut self, room: &mut [u8]) -> Result<Polled<usize>, Failed>
        requires { 0 < length room.old }
        ensures bound { ReadsAtMost (at_once result) room.new }
        ensures source { Advances (untold_input self.old.read_faults)
            (untold_input self.new.read_faults) }
        ensures later { self.old.silences ≤ self.new.silences }

        // It never ends.
        ensures endless { IfOk (at_once result) (λ count. 0 < count) }
        ensures reads { TerminalReads self.old self.new result }
    {
        let count = self.source.read(room)?;
        if count == 0 {
            self.silences = self.silences.saturating_add(1);
            return Ok(Polled::Pending);
        }
        Ok(Polled::Ready(count))
    }

    /// Writes and flushes.
    ///
    /// # Errors
    /// `Failed` where the writer failed, took nothing of a piece that isn't empty, or could not be flushed.
    fn poll_write(&mut self, piece: &[u8]) -> Result<Polled<usize>, Failed>
        ensures bound { WritesAtMost (at_once result) piece.now }
        ensures some { IfOk (at_once result) (λ count. 0 < length piece.now → 0 < count) }
        ensures sink { Extends (untold_output self.old.write_faults)
            (untold_output self.new.write_faults) }
        ensures waited { Waited result self.old.silences self.new.silences }
        ensures later { self.old.silences ≤ self.new.silences }

        ensures at_once { IsAtOnce result }
        ensures writes { TerminalWrites self.old self.new result }
    {
        let count = self.sink.write(piece)?;
        Ok(Polled::Ready(count))
    }
}

impl<R: Read, W: Write> TimedLink for TerminalLink<R, W> {}

/// A link over a TCP stream of which a read that gives nothing within the link's timeout tells silence, and is no fault. With no timeout
/// it waits for any time, and tells none.
///
/// It counts its faults and its silences, and tells no content.
#[derive(Drop)]
pub struct TimedTcpLink {
    link: TcpLink,
    silences: u64,
}

/// What a contract knows of it is what it knows of the link, and how many silences it told.
impl Model for TimedTcpLink {
    ghost use Rattle.modbus_link.specs.Silence.{TimedTcpState};

    ghost Value = { TimedTcpState };

    ghost view = { λ timed. record { link = timed.link; silences = timed.silences } };
}

impl TimedTcpLink {
    /// This link, with no silence told.
    pub fn new(link: TcpLink) -> Self
        ensures { result ≡ record { link = link; silences = 0 } }
    {
        TimedTcpLink { link, silences: 0 }
    }
}

impl Ends for TimedTcpLink {
    ghost input = { λ timed. untold_input timed.link.read_faults };

    ghost output = { λ timed. untold_output timed.link.write_faults };

    ghost line = { λ timed. timed.link.line };
}

impl PolledLink for TimedTcpLink {
    ghost not_ready = { λ timed. timed.silences };

    /// Reads what the peer has sent. Nothing within the timeout is a silence.
    ///
    /// # Errors
    /// `Failed` where the stream failed in another way, or refused the timeout.
    fn poll_read(&mut self, room: &mut [u8]) -> Result<Polled<usize>, Failed>
        requires { 0 < length room.old }
        ensures bound { ReadsAtMost (at_once result) room.new }
        ensures source { Advances (untold_input self.old.link.read_faults)
            (untold_input self.new.link.read_faults) }
        ensures later { self.old.silences ≤ self.new.silences }

        ensures reads { TcpReads self.old self.new result }
    {
        match self.link.read_in_time(room)? {
            Polled::Pending => {
                self.silences = self.silences.saturating_add(1);
                Ok(Polled::Pending)
            }
            Polled::Ready(count) => Ok(Polled::Ready(count)),
        }
    }

    /// Sends a front of `piece`.
    ///
    /// # Errors
    /// `Failed` where the stream failed, or took nothing of a piece that isn't empty, within the timeout or at all.
    fn poll_write(&mut self, piece: &[u8]) -> Result<Polled<usize>, Failed>
        ensures bound { WritesAtMost (at_once result) piece.now }
        ensures some { IfOk (at_once result) (λ count. 0 < length piece.now → 0 < count) }
        ensures sink { Extends (untold_output self.old.link.write_faults)
            (untold_output self.new.link.write_faults) }
        ensures waited { Waited result self.old.silences self.new.silences }
        ensures later { self.old.silences ≤ self.new.silences }

        ensures at_once { IsAtOnce result }
        ensures writes { TcpWrites self.old self.new result }
    {
        let count = self.link.write(piece)?;
        Ok(Polled::Ready(count))
    }
}

impl TimedLink for TimedTcpLink {}
