//! A link with a deadline for all reads and writes of a call.
//!
//! The timeout of a link bounds each read and each write. A peer that sends a byte from time to time holds a call for as many reads as it
//! may make then. A deadline bounds them all.
ghost use Rattle.std.specs.Prelude.{◌≡◌, ◌<◌, ◌≤◌, length, not, true, false, IsTrue, IfOk, OnErr};
ghost use Rattle.std.specs.Option.{option_map};
ghost use Rattle.std.specs.Duration.{as_nanos};
ghost use Rattle.std.specs.Io.{ReadsAtMost, WritesAtMost};
ghost use Rattle.modbus_link.specs.Outside.{Rose, Advances, Extends, ReadIsTold, bytes_appended, front_of};
ghost use Rattle.modbus_link.specs.Line.{Shuts};
ghost use Rattle.modbus_link.specs.Memory.{next_count, faults_after};
ghost use Rattle.modbus_link.specs.Polled.{at_once, Waited};
ghost use Rattle.modbus_field.specs.BurstLink.{output_over};
ghost use Rattle.modbus_adapter.specs.Moments.{ReadsClock};
ghost use Rattle.modbus_adapter.specs.Deadline.{deadline_at_start, nanos_left, is_none_left, least, left_of, is_over, input_over, line_over, BeginsIfEnded, DeadlineReads, DeadlineWrites, IsWithDeadline, ConnectsWithDeadline};

use crate::moment::{Moment, Watch};
use modbus_client::IdleLink;
use modbus_link::{Connector, Ends, Failed, Link, Polled, Sink, Source};
use std::marker::Model;
use std::net::SocketAddr;
use std::time::{Clock, Duration};

/// A link over another one, with a deadline for all reads and writes of a call.
///
/// A call begins at the first write, and at a write behind a read, or behind a read or a write that failed. By the clock, each read and
/// write may take as long as is left of the deadline then, or as the timeout says where that is less. Once nothing is left each fails, and
/// nothing is read or written. Where the clock can't be read, a read or a write goes on.
#[derive(Drop)]
pub struct DeadlineLink<'c, C, L> {
    watch: Watch<'c, C>,
    link: L,
    deadline: Option<Duration>,
    timeout: Option<Duration>,
    is_ended: bool,
    start: Moment,
    last: Moment,
    read_faults: u64,
    write_faults: u64,
}

/// A contract sees the link, the deadline and the timeout, when the call and its last read or write began, and how often it failed.
impl<'c, C, L> Model for DeadlineLink<'c, C, L> {
    ghost use Rattle.modbus_adapter.specs.Deadline.{DeadlineState};

    ghost Value = { DeadlineState L };

    ghost view = { λ it. record {
      link = it.link;
      deadline = it.deadline;
      timeout = it.timeout;
      is_ended = it.is_ended;
      start = it.start;
      last = it.last;
      readings = it.watch;
      read_faults = it.read_faults;
      write_faults = it.write_faults;
    } };
}

/// What is left of the time of a call that began then, by now; `None` where there is no deadline, or the clock could not be read.
pub(crate) fn time_left(
    deadline: Option<Duration>,
    start: &Moment,
    now: &Moment,
) -> Option<Duration>
    ensures { option_map as_nanos result
        ≡ nanos_left (option_map as_nanos deadline) start.now.at now.now.at }
{
    match (deadline, now.since(start)) {
        (Some(deadline), Some(took)) => Some(deadline.saturating_sub(took)),
        _ => None,
    }
}

/// The shorter time, where there are two.
fn shorter(a: Option<Duration>, b: Option<Duration>) -> Option<Duration>
    ensures { option_map as_nanos result ≡ least (option_map as_nanos a) (option_map as_nanos b) }
{
    match (a, b) {
        (Some(a), Some(b)) => {
            if a.checked_sub(b).is_some() {
                Some(b)
            } else {
                Some(a)
            }
        }
        (Some(a), None) => Some(a),
        (None, b) => b,
    }
}

/// Whether no time is left.
pub(crate) fn is_none_left(left: Option<Duration>) -> bool
    ensures { result ≡ is_none_left (option_map as_nanos left) }
{
    match left {
        Some(left) => left.is_zero(),
        None => false,
    }
}

impl<'c, C: Clock, L: Link> DeadlineLink<'c, C, L> {
    /// A link over this one, whose calls may take so long by this clock; any time with `None`.
    pub fn new(clock: &'c C, link: L, deadline: Option<Duration>) -> DeadlineLink<'c, C, L>
        ensures { result ≡ deadline_at_start link deadline }
    {
        DeadlineLink {
            watch: Watch::new(clock),
            link,
            deadline,
            timeout: None,
            is_ended: true,
            start: Moment::none(),
            last: Moment::none(),
            read_faults: 0,
            write_faults: 0,
        }
    }

    /// Keeps how long a call may take from then on, also the one that has begun; any time with `None`.
    pub fn set_deadline(&mut self, deadline: Option<Duration>)
        ensures { self.new ≡ record self.old { deadline = deadline } }
    {
        self.deadline = deadline;
    }

    /// The link.
    pub fn link(&self) -> &L
        ensures { result.now ≡ self.now.link }
    {
        &self.link
    }

    /// Reads the clock where a call begins, which its next write begins.
    fn begin(&mut self)
        ensures { BeginsIfEnded self.old.is_ended self.old self.new }
    {
        if self.is_ended {
            self.start = self.watch.read();
        }
    }

    /// Reads the clock, and lets the link take as long as is left. Whether something is.
    fn admit(&mut self) -> bool
        ensures admits { not result ≡ is_over self.new }
        ensures over { result ≡ false → self.new.link ≡ self.old.link }
        ensures limit { result ≡ true → option_map as_nanos (L.line self.new.link).timeout
            ≡ least (option_map as_nanos self.old.timeout) (left_of self.new) }
        ensures reads_clock { ReadsClock self.old.readings self.new.readings self.new.last }
        ensures rest { self.new ≡ record self.old {
          link = self.new.link;
          last = self.new.last;
          readings = self.new.readings;
        } }
        ensures source { L.input self.new.link ≡ L.input self.old.link }
        ensures sink { L.output self.new.link ≡ L.output self.old.link }
        ensures line { line_over (L.line self.new.link) self.old.timeout
            ≡ line_over (L.line self.old.link) self.old.timeout }
    {
        self.last = self.watch.read();
        let left = time_left(self.deadline, &self.start, &self.last);
        if is_none_left(left) {
            return false;
        }
        self.link.set_timeout(shorter(self.timeout, left));
        true
    }
}

impl<'c, C: Clock, L: Link> Ends for DeadlineLink<'c, C, L> {
    ghost input = { λ it. input_over (L.input it.link) it.read_faults };

    ghost output = { λ it. output_over (L.output it.link) it.write_faults };

    ghost line = { λ it. line_over (L.line it.link) it.timeout };
}

impl<'c, C: Clock, L: Link> Source for DeadlineLink<'c, C, L> {
    /// Reads as the link does, within what is left of the time of the call.
    ///
    /// # Errors
    /// `Failed` where the link failed, as it does where nothing came in time, or where no time was left, and then nothing was read.
    fn read(&mut self, room: &mut [u8]) -> Result<usize, Failed>
        requires { 0 < length room.old }
        ensures bound { ReadsAtMost result room.new }
        ensures source { Advances (input_over (L.input self.old.link) self.old.read_faults)
            (input_over (L.input self.new.link) self.new.read_faults) }
        ensures told { IsTrue (L.input self.old.link).told
            → ReadIsTold (input_over (L.input self.old.link) self.old.read_faults)
            (input_over (L.input self.new.link) self.new.read_faults) room.old room.new result }
        ensures cause { OnErr result (Rose self.old.read_faults self.new.read_faults) }
        ensures sink { output_over (L.output self.new.link) self.new.write_faults
            ≡ output_over (L.output self.old.link) self.old.write_faults }
        ensures line { line_over (L.line self.new.link) self.new.timeout
            ≡ line_over (L.line self.old.link) self.old.timeout }

        ensures reads { DeadlineReads L.line self.old self.new (L.input self.old.link).faults
            (L.input self.new.link).faults result }
    {
        self.is_ended = true;
        if !self.admit() {
            self.read_faults = self.read_faults.saturating_add(1);
            return Err(Failed);
        }
        match self.link.read(room) {
            Ok(count) => Ok(count),
            Err(Failed) => {
                self.read_faults = self.read_faults.saturating_add(1);
                Err(Failed)
            }
        }
    }
}

impl<'c, C: Clock, L: Link> Sink for DeadlineLink<'c, C, L> {
    /// Writes as the link does, within what is left of the time of the call, which may begin now.
    ///
    /// # Errors
    /// `Failed` where the link failed, as it does where nothing was taken in time, or where no time was left, and then nothing was written.
    fn write(&mut self, piece: &[u8]) -> Result<usize, Failed>
        ensures bound { WritesAtMost result piece.now }
        ensures some { IfOk result (λ count. 0 < length piece.now → 0 < count) }
        ensures sink { Extends (output_over (L.output self.old.link) self.old.write_faults)
            (output_over (L.output self.new.link) self.new.write_faults) }
        ensures told { IsTrue (L.output self.old.link).told
            → bytes_appended (L.output self.old.link) (L.output self.new.link) ≡ front_of result
            piece.now }
        ensures cause { OnErr result (Rose self.old.write_faults self.new.write_faults) }
        ensures source { input_over (L.input self.new.link) self.new.read_faults
            ≡ input_over (L.input self.old.link) self.old.read_faults }
        ensures line { line_over (L.line self.new.link) self.new.timeout
            ≡ line_over (L.line self.old.link) self.old.timeout }

        ensures writes { DeadlineWrites L.line self.old self.new (L.output self.old.link).faults
            (L.output self.new.link).faults result }
    {
        self.begin();
        self.is_ended = true;
        if !self.admit() {
            self.write_faults = self.write_faults.saturating_add(1);
            return Err(Failed);
        }
        match self.link.write(piece) {
            Ok(count) => {
                self.is_ended = false;
                Ok(count)
            }
            Err(Failed) => {
                self.write_faults = self.write_faults.saturating_add(1);
                Err(Failed)
            }
        }
    }
}

impl<'c, C: Clock, L: Link> Link for DeadlineLink<'c, C, L> {
    fn shutdown(&mut self) -> Result<(), Failed>
        ensures line { Shuts (line_over (L.line self.old.link) self.old.timeout) result
            (line_over (L.line self.new.link) self.new.timeout) }
        ensures source { input_over (L.input self.new.link) self.new.read_faults
            ≡ input_over (L.input self.old.link) self.old.read_faults }
        ensures sink { output_over (L.output self.new.link) self.new.write_faults
            ≡ output_over (L.output self.old.link) self.old.write_faults }
        ensures rest { self.new ≡ record self.old { link = self.new.link } }
    {
        self.link.shutdown()
    }

    fn set_timeout(&mut self, duration: Option<Duration>)
        ensures set { self.new ≡ record self.old { timeout = duration } }
    {
        self.timeout = duration;
    }
}

impl<'c, C: Clock, L: Link + IdleLink> IdleLink for DeadlineLink<'c, C, L> {
    ghost looks = { λ it. L.looks it.link };

    /// Looks at the link, which waits for nothing: a deadline is for what waits, and begins with the first write of a call.
    ///
    /// # Errors
    /// `Failed` where the link failed.
    fn look(&mut self, room: &mut [u8]) -> Result<Polled<usize>, Failed>
        requires { 0 < length room.old }
        ensures bound { ReadsAtMost (at_once result) room.new }
        ensures source { Advances (input_over (L.input self.old.link) self.old.read_faults)
            (input_over (L.input self.new.link) self.new.read_faults) }
        ensures told { IsTrue (L.input self.old.link).told
            → ReadIsTold (input_over (L.input self.old.link) self.old.read_faults)
            (input_over (L.input self.new.link) self.new.read_faults) room.old room.new
            (at_once result) }
        ensures cause { OnErr result (Rose self.old.read_faults self.new.read_faults) }
        ensures looked { Waited result (L.looks self.old.link) (L.looks self.new.link) }
        ensures later { L.looks self.old.link ≤ L.looks self.new.link }
        ensures sink { output_over (L.output self.new.link) self.new.write_faults
            ≡ output_over (L.output self.old.link) self.old.write_faults }
        ensures line { line_over (L.line self.new.link) self.new.timeout
            ≡ line_over (L.line self.old.link) self.old.timeout }

        ensures fails { OnErr result (Rose (L.input self.old.link).faults
            (L.input self.new.link).faults) }
        ensures counts { self.new ≡ record self.old {
          link = self.new.link;
          read_faults = faults_after result self.old.read_faults;
        } }
    {
        match self.link.look(room) {
            Ok(told) => Ok(told),
            Err(Failed) => {
                self.read_faults = self.read_faults.saturating_add(1);
                Err(Failed)
            }
        }
    }
}

/// The link that was given, with a deadline.
fn with_deadline<'c, C: Clock, L: Link>(
    clock: &'c C,
    given: Result<L, Failed>,
    deadline: Option<Duration>,
) -> Result<DeadlineLink<'c, C, L>, Failed>
    ensures { IsWithDeadline deadline given result }
{
    match given {
        Ok(link) => Ok(DeadlineLink::new(clock, link, deadline)),
        Err(Failed) => Err(Failed),
    }
}

/// A connector whose links have a deadline for all reads and writes of a call.
#[derive(Drop)]
pub struct DeadlineConnector<'c, C, K> {
    clock: &'c C,
    connector: K,
    deadline: Option<Duration>,
}

/// A contract sees the connector that it stands on, and the deadline.
impl<'c, C, K> Model for DeadlineConnector<'c, C, K> {
    ghost use Rattle.modbus_adapter.specs.Deadline.{DeadlinesState};

    ghost Value = { DeadlinesState K };

    ghost view = { λ it. record { connector = it.connector; deadline = it.deadline } };
}

impl<'c, C, K> DeadlineConnector<'c, C, K> {
    /// A connector over this one. The calls on its links may take so long by this clock; any time with `None`.
    pub fn new(
        clock: &'c C,
        connector: K,
        deadline: Option<Duration>,
    ) -> DeadlineConnector<'c, C, K>
        ensures { result ≡ record { connector = connector; deadline = deadline } }
    {
        DeadlineConnector {
            clock,
            connector,
            deadline,
        }
    }

    /// Keeps how long a call may take on links that are made from then on; any time with `None`.
    pub fn set_deadline(&mut self, deadline: Option<Duration>)
        ensures { self.new ≡ record self.old { deadline = deadline } }
    {
        self.deadline = deadline;
    }

    /// The connector that it stands on.
    pub fn connector(&self) -> &K
        ensures { result.now ≡ self.now.connector }
    {
        &self.connector
    }
}

impl<'c, C: Clock, K: Connector> Connector for DeadlineConnector<'c, C, K>
where
    K::Link: Link,
{
    type Link = DeadlineLink<'c, C, K::Link>;

    ghost faults = { λ it. K.faults it.connector };

    ghost connects = { ConnectsWithDeadline K.connects };

    /// Connects as the connector does that it stands on. The deadline does not bound that, only `timeout`.
    ///
    /// # Errors
    /// `Failed` where that failed.
    fn connect(
        &mut self,
        addr: SocketAddr,
        timeout: Option<Duration>,
    ) -> Result<DeadlineLink<'c, C, K::Link>, Failed> {
        let given = self.connector.connect(addr, timeout);
        with_deadline(self.clock, given, self.deadline)
    }
}
