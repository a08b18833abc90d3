//! Links that may not be ready, for a program that asks them from time to time and does not wait.
ghost use Rattle.std.specs.Prelude.{◌≡◌, ℕ, ◌<◌, ◌≤◌, length, IsTrue, IfOk, OnErr};
ghost use Rattle.std.specs.Io.{ReadsAtMost, WritesAtMost};
ghost use Rattle.modbus_link.specs.Outside.{Rose, Advances, Extends, bytes_appended, ReadIsTold, front_of};
ghost use Rattle.modbus_link.specs.Memory.{source_input, sink_output};
ghost use Rattle.modbus_link.specs.Polled.{is_pending, at_once, Waited, polled_at_start, IsPolled, MemoryPolls, LinkReads, LinkWrites};

use crate::memory_link::MemoryLink;
use crate::outside::{Ends, Failed, Sink, Source};
use std::alloc::{AllocError, Global};
use std::marker::Model;

/// An answer that may not be there yet.
#[derive(Clone, Copy, Debug, PartialEq, Eq, Drop)]
pub enum Polled<T> {
    /// It is there.
    Ready(T),
    /// The link was not ready. Ask again later.
    Pending,
}

impl<T> Polled<T> {
    /// Whether it is not there yet.
    pub fn is_pending(&self) -> bool
        ensures { result ≡ is_pending self.now }
    {
        matches!(self, Polled::Pending)
    }
}

/// Where bytes come from and go to, as one object that may not be ready and never waits.
///
/// Each `Source` and `Sink` is one that is always ready.
pub trait PolledLink: Ends {
    // how often it was not ready
    ghost not_ready: { Self → ℕ };

    /// Reads into the front of `room` as `Source::read` does, and answers how many bytes it gave; or the link is not ready, and gives
    /// nothing.
    ///
    /// # Errors
    /// `Failed`, only where the link's count of read faults rose; then nothing was given.
    fn poll_read(&mut self, room: &mut [u8]) -> Result<Polled<usize>, Failed>
        requires { 0 < length room.old }
        ensures bound { ReadsAtMost (at_once result) room.new }
        ensures source { Advances (Self.input self.old) (Self.input self.new) }
        ensures told { IsTrue (Self.input self.old).told
            → ReadIsTold (Self.input self.old) (Self.input self.new) room.old room.new
            (at_once result) }
        ensures cause { OnErr result (Rose (Self.input self.old).faults
            (Self.input self.new).faults) }
        ensures waited { Waited result (not_ready self.old) (not_ready self.new) }
        ensures later { not_ready self.old ≤ not_ready self.new }
        ensures sink { Self.output self.new ≡ Self.output self.old }
        ensures line { Self.line self.new ≡ Self.line self.old };

    /// Appends a front of `piece` as `Sink::write` does, and answers how many bytes it took; or the link is not ready, and takes nothing.
    ///
    /// # Errors
    /// `Failed`, only where the link's count of write faults rose; then nothing was appended.
    fn poll_write(&mut self, piece: &[u8]) -> Result<Polled<usize>, Failed>
        ensures bound { WritesAtMost (at_once result) piece.now }
        ensures some { IfOk (at_once result) (λ count. 0 < length piece.now → 0 < count) }
        ensures sink { Extends (Self.output self.old) (Self.output self.new) }
        ensures told { IsTrue (Self.output self.old).told
            → bytes_appended (Self.output self.old) (Self.output self.new)
            ≡ front_of (at_once result) piece.now }
        ensures cause { OnErr result (Rose (Self.output self.old).faults
            (Self.output self.new).faults) }
        ensures waited { Waited result (not_ready self.old) (not_ready self.new) }
        ensures later { not_ready self.old ≤ not_ready self.new }
        ensures source { Self.input self.new ≡ Self.input self.old }
        ensures line { Self.line self.new ≡ Self.line self.old };
}

impl<L: Source + Sink> PolledLink for L {
    ghost not_ready = { λ link. 0 };

    fn poll_read(&mut self, room: &mut [u8]) -> Result<Polled<usize>, Failed> {
        let count = self.read(room)?;
        Ok(Polled::Ready(count))
    }

    fn poll_write(&mut self, piece: &[u8]) -> Result<Polled<usize>, Failed> {
        let count = self.write(piece)?;
        Ok(Polled::Ready(count))
    }
}

/// A link in memory that is not ready at the polls of given numbers, for tests. It tells all of its content.
#[derive(Drop)]
pub struct PolledMemoryLink {
    link: MemoryLink,
    pending: Vec<u64>,
    polls: u64,
    not_ready: u64,
}

impl Model for PolledMemoryLink {
    ghost use Rattle.modbus_link.specs.Polled.{PolledLinkState};

    ghost Value = { PolledLinkState };

    ghost view = { λ polled. record { link = polled.link; pending = polled.pending.items; polls = polled.polls; not_ready = polled.not_ready } };
}

impl PolledMemoryLink {
    /// Polls of this link. A poll finds it not ready exactly where its number, from 0 and over reads and writes alike, is in `pending`.
    ///
    /// # Errors
    /// `AllocError` where memory is refused.
    pub fn new(
        alloc: Global,
        link: MemoryLink,
        pending: &[u64],
    ) -> Result<PolledMemoryLink, AllocError>
        ensures { IfOk result (λ polled. polled ≡ polled_at_start link pending.now) }
    {
        Ok(PolledMemoryLink {
            link,
            pending: Vec::from_slice(alloc, pending)?,
            polls: 0,
            not_ready: 0,
        })
    }

    /// The link.
    pub fn link(&self) -> &MemoryLink
        ensures { result.now ≡ self.now.link }
    {
        &self.link
    }

    /// Counts a poll, and whether the link is not ready at it.
    fn count_poll(&mut self) -> bool
        ensures polled { IsPolled self.old self.new result }
        ensures later { self.old.not_ready ≤ self.new.not_ready }
    {
        let poll = self.polls;
        self.polls = poll.saturating_add(1);
        let is_named = self.pending.contains(&poll);
        if is_named {
            self.not_ready = self.not_ready.saturating_add(1);
        }
        is_named
    }
}

impl Ends for PolledMemoryLink {
    ghost input = { λ polled. source_input polled.link.source };

    ghost output = { λ polled. sink_output polled.link.sink };

    ghost line = { λ polled. polled.link.line };
}

impl PolledLink for PolledMemoryLink {
    ghost not_ready = { λ polled. polled.not_ready };

    fn poll_read(&mut self, room: &mut [u8]) -> Result<Polled<usize>, Failed>
        requires { 0 < length room.old }
        ensures bound { ReadsAtMost (at_once result) room.new }
        ensures source { Advances (source_input self.old.link.source)
            (source_input self.new.link.source) }
        ensures told { IsTrue (source_input self.old.link.source).told
            → ReadIsTold (source_input self.old.link.source) (source_input self.new.link.source)
            room.old room.new (at_once result) }
        ensures later { self.old.not_ready ≤ self.new.not_ready }

        ensures reads { MemoryPolls (LinkReads (length room.old)) self.old self.new result }
    {
        if self.count_poll() {
            return Ok(Polled::Pending);
        }
        let count = self.link.read(room)?;
        Ok(Polled::Ready(count))
    }

    fn poll_write(&mut self, piece: &[u8]) -> Result<Polled<usize>, Failed>
        ensures bound { WritesAtMost (at_once result) piece.now }
        ensures some { IfOk (at_once result) (λ count. 0 < length piece.now → 0 < count) }
        ensures sink { Extends (sink_output self.old.link.sink) (sink_output self.new.link.sink) }
        ensures told { IsTrue (sink_output self.old.link.sink).told
            → bytes_appended (sink_output self.old.link.sink) (sink_output self.new.link.sink)
            ≡ front_of (at_once result) piece.now }
        ensures later { self.old.not_ready ≤ self.new.not_ready }

        ensures writes { MemoryPolls (LinkWrites (length piece.now)) self.old self.new result }
    {
        if self.count_poll() {
            return Ok(Polled::Pending);
        }
        let count = self.link.write(piece)?;
        Ok(Polled::Ready(count))
    }
}
