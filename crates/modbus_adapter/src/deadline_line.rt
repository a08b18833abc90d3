//! A line that tells silence, with a deadline for all reads and writes of a call.
//!
//! A call of a client of a serial line reads before it writes: it lets the line fall silent, or looks at it. So no read or write tells where a
//! call begins, and the line is told.
ghost use Rattle.std.specs.Prelude.{◌≡◌, ◌<◌, ◌≤◌, length, IsTrue, IfOk, OnErr};
ghost use Rattle.std.specs.Io.{ReadsAtMost, WritesAtMost};
ghost use Rattle.modbus_link.specs.Outside.{Rose, Advances, Extends, ReadIsTold, bytes_appended, front_of};
ghost use Rattle.modbus_link.specs.Polled.{at_once, Waited};
ghost use Rattle.modbus_field.specs.BurstLink.{output_over};
ghost use Rattle.modbus_adapter.specs.Moments.{ReadsClock};
ghost use Rattle.modbus_adapter.specs.Deadline.{input_over};
ghost use Rattle.modbus_adapter.specs.DeadlineLine.{deadline_line_at_start, is_line_over, DeadlineLineReads, DeadlineLineWrites, BeginsDeadline};

use crate::deadline::{is_none_left, time_left};
use crate::moment::{Moment, Watch};
use modbus_link::{Ends, Failed, Polled, PolledLink, TimedLink};
use modbus_reconnect::{CallLine, IdleLink};
use std::marker::Model;
use std::time::{Clock, Duration};

/// A line over another one, with a deadline for all reads, looks and writes of a call.
///
/// A call begins where it is told so, as a `DeadlineClient` does. Once the deadline has passed, by the clock, each read, look and write
/// fails, and nothing is read or written, until the next call begins. Before it each is that of the line, which waits for a silence at most.
/// Where the clock can't be read they go on.
#[derive(Drop)]
pub struct DeadlineLine<'c, C, L> {
    watch: Watch<'c, C>,
    link: L,
    deadline: Option<Duration>,
    start: Moment,
    last: Moment,
    read_faults: u64,
    write_faults: u64,
}

/// A contract sees the line, the deadline, when the call and its last read, look or write began, and how often it failed.
impl<'c, C, L> Model for DeadlineLine<'c, C, L> {
    ghost use Rattle.modbus_adapter.specs.DeadlineLine.{DeadlineLineState};

    ghost Value = { DeadlineLineState L };

    ghost view = { λ it. record {
      link = it.link;
      deadline = it.deadline;
      start = it.start;
      last = it.last;
      readings = it.watch;
      read_faults = it.read_faults;
      write_faults = it.write_faults;
    } };
}

impl<'c, C: Clock, L> DeadlineLine<'c, C, L> {
    /// A line over this one, whose calls may take so long by this clock; any time with `None`.
    pub fn new(clock: &'c C, link: L, deadline: Option<Duration>) -> DeadlineLine<'c, C, L>
        ensures { result ≡ deadline_line_at_start link deadline }
    {
        DeadlineLine {
            watch: Watch::new(clock),
            link,
            deadline,
            start: Moment::none(),
            last: Moment::none(),
            read_faults: 0,
            write_faults: 0,
        }
    }

    /// Keeps how long a call may take from then on, also the one that has begun; any time with `None`.
    pub fn set_deadline(&mut self, deadline: Option<Duration>)
        ensures { self.new ≡ record self.old { deadline = deadline } }
    {
        self.deadline = deadline;
    }

    /// The line.
    pub fn link(&self) -> &L
        ensures { result.now ≡ self.now.link }
    {
        &self.link
    }

    /// Reads the clock. Whether the deadline of the call has passed.
    fn is_over(&mut self) -> bool
        ensures over { result ≡ is_line_over self.new }
        ensures reads_clock { ReadsClock self.old.readings self.new.readings self.new.last }
        ensures rest { self.new ≡ record self.old { last = self.new.last; readings = self.new.readings } }
    {
        self.last = self.watch.read();
        is_none_left(time_left(self.deadline, &self.start, &self.last))
    }
}

impl<'c, C: Clock, L: Ends> Ends for DeadlineLine<'c, C, L> {
    ghost input = { λ it. input_over (L.input it.link) it.read_faults };

    ghost output = { λ it. output_over (L.output it.link) it.write_faults };

    ghost line = { λ it. L.line it.link };
}

impl<'c, C: Clock, L: PolledLink> PolledLink for DeadlineLine<'c, C, L> {
    ghost not_ready = { λ it. L.not_ready it.link };

    /// Reads as the line does, before the deadline of the call.
    ///
    /// # Errors
    /// `Failed` where the line failed, or where the deadline has passed, and then nothing was read.
    fn poll_read(&mut self, room: &mut [u8]) -> Result<Polled<usize>, Failed>
        requires { 0 < length room.old }
        ensures bound { ReadsAtMost (at_once result) room.new }
        ensures source { Advances (input_over (L.input self.old.link) self.old.read_faults)
            (input_over (L.input self.new.link) self.new.read_faults) }
        ensures told { IsTrue (L.input self.old.link).told
            → ReadIsTold (input_over (L.input self.old.link) self.old.read_faults)
            (input_over (L.input self.new.link) self.new.read_faults) room.old room.new
            (at_once result) }
        ensures cause { OnErr result (Rose self.old.read_faults self.new.read_faults) }
        ensures waited { Waited result (L.not_ready self.old.link) (L.not_ready self.new.link) }
        ensures later { L.not_ready self.old.link ≤ L.not_ready self.new.link }
        ensures sink { output_over (L.output self.new.link) self.new.write_faults
            ≡ output_over (L.output self.old.link) self.old.write_faults }
        ensures line { L.line self.new.link ≡ L.line self.old.link }

        ensures reads { DeadlineLineReads self.old self.new (L.input self.old.link).faults
            (L.input self.new.link).faults result }
    {
        if self.is_over() {
            self.read_faults = self.read_faults.saturating_add(1);
            return Err(Failed);
        }
        match self.link.poll_read(room) {
            Ok(told) => Ok(told),
            Err(Failed) => {
                self.read_faults = self.read_faults.saturating_add(1);
                Err(Failed)
            }
        }
    }

    /// Writes as the line does, before the deadline of the call.
    ///
    /// # Errors
    /// `Failed` where the line failed, or where the deadline has passed, and then nothing was written.
    fn poll_write(&mut self, piece: &[u8]) -> Result<Polled<usize>, Failed>
        ensures bound { WritesAtMost (at_once result) piece.now }
        ensures some { IfOk (at_once result) (λ count. 0 < length piece.now → 0 < count) }
        ensures sink { Extends (output_over (L.output self.old.link) self.old.write_faults)
            (output_over (L.output self.new.link) self.new.write_faults) }
        ensures told { IsTrue (L.output self.old.link).told
            → bytes_appended (L.output self.old.link) (L.output self.new.link)
            ≡ front_of (at_once result) piece.now }
        ensures cause { OnErr result (Rose self.old.write_faults self.new.write_faults) }
        ensures waited { Waited result (L.not_ready self.old.link) (L.not_ready self.new.link) }
        ensures later { L.not_ready self.old.link ≤ L.not_ready self.new.link }
        ensures source { input_over (L.input self.new.link) self.new.read_faults
            ≡ input_over (L.input self.old.link) self.old.read_faults }
        ensures line { L.line self.new.link ≡ L.line self.old.link }

        ensures writes { DeadlineLineWrites self.old self.new (L.output self.old.link).faults
            (L.output self.new.link).faults result }
    {
        if self.is_over() {
            self.write_faults = self.write_faults.saturating_add(1);
            return Err(Failed);
        }
        match self.link.poll_write(piece) {
            Ok(told) => Ok(told),
            Err(Failed) => {
                self.write_faults = self.write_faults.saturating_add(1);
                Err(Failed)
            }
        }
    }
}

impl<'c, C: Clock, L: TimedLink> TimedLink for DeadlineLine<'c, C, L> {}

impl<'c, C: Clock, L: IdleLink> IdleLink for DeadlineLine<'c, C, L> {
    ghost looks = { λ it. L.looks it.link };

    /// Looks at the line, before the deadline of the call.
    ///
    /// # Errors
    /// Those of a read.
    fn look(&mut self, room: &mut [u8]) -> Result<Polled<usize>, Failed>
        requires { 0 < length room.old }
        ensures bound { ReadsAtMost (at_once result) room.new }
        ensures source { Advances (input_over (L.input self.old.link) self.old.read_faults)
            (input_over (L.input self.new.link) self.new.read_faults) }
        ensures told { IsTrue (L.input self.old.link).told
            → ReadIsTold (input_over (L.input self.old.link) self.old.read_faults)
            (input_over (L.input self.new.link) self.new.read_faults) room.old room.new
            (at_once result) }
        ensures cause { OnErr result (Rose self.old.read_faults self.new.read_faults) }
        ensures looked { Waited result (L.looks self.old.link) (L.looks self.new.link) }
        ensures later { L.looks self.old.link ≤ L.looks self.new.link }
        ensures sink { output_over (L.output self.new.link) self.new.write_faults
            ≡ output_over (L.output self.old.link) self.old.write_faults }
        ensures line { L.line self.new.link ≡ L.line self.old.link }

        ensures reads { DeadlineLineReads self.old self.new (L.input self.old.link).faults
            (L.input self.new.link).faults result }
    {
        if self.is_over() {
            self.read_faults = self.read_faults.saturating_add(1);
            return Err(Failed);
        }
        match self.link.look(room) {
            Ok(told) => Ok(told),
            Err(Failed) => {
                self.read_faults = self.read_faults.saturating_add(1);
                Err(Failed)
            }
        }
    }
}

impl<'c, C: Clock, L: TimedLink + IdleLink> CallLine for DeadlineLine<'c, C, L> {
    ghost begins = { BeginsDeadline };

    /// The deadline of a call runs from now on.
    fn begin(&mut self) {
        self.start = self.watch.read();
    }
}
