//! A serial port whose silences are as long as its owner says.
ghost use Rattle.std.specs.Prelude.{◌≡◌, ◌<◌, ◌≤◌, length, IsTrue, OnErr};
ghost use Rattle.std.specs.Io.{ReadsAtMost};
ghost use Rattle.modbus_link.specs.Outside.{Rose, Advances, ReadIsTold};
ghost use Rattle.modbus_link.specs.Polled.{at_once, waits_after};
ghost use Rattle.modbus_field.specs.BurstLink.{CountsSilence};
ghost use Rattle.modbus_idle.specs.PortLine.{port_at_start};

use crate::watcher::Watcher;
use modbus_field::burst::CountedLink;
use modbus_link::{Ends, Failed, Polled, PolledLink, Sink, Source, TimedLink};
use modbus_reconnect::IdleLink;
use std::alloc::AllocGlobal;
use std::marker::Model;
use std::net::Net;
use std::os::fd::RawFd;
use std::time::Duration;

/// A line over a source and a sink that stand behind a descriptor, as the file of a serial port or a socket. A read waits for so long, by
/// epoll, before it tells silence; a look waits for nothing.
///
/// The system counts that time in milliseconds, and one is begun as the wait begins, so a silence of 2 is one of 2 to 3. A terminal needs no
/// time of its own (`min` and `time` of stty); it has to be raw and without echo.
#[derive(Drop)]
pub struct PortLine<S, K> {
    source: S,
    sink: K,
    watcher: Watcher,
    silence: Duration,
    silences: u64,
    looks: u64,
}

/// A contract sees both ends, and how many silences were told and how many looks found nothing.
impl<S, K> Model for PortLine<S, K> {
    ghost use Rattle.modbus_idle.specs.PortLine.{PortState};

    ghost Value = { PortState S K };

    ghost view = { λ it. record { source = it.source; sink = it.sink; silences = it.silences; looks = it.looks } };
}

impl<S, K> PortLine<S, K> {
    /// A line over these ends, which read and write this descriptor, whose silences are so long.
    pub fn new<R: Net + AllocGlobal>(
        rt: &R,
        source: S,
        sink: K,
        fd: RawFd,
        silence: Duration,
    ) -> PortLine<S, K>
        ensures { result ≡ port_at_start source sink }
    {
        PortLine {
            source,
            sink,
            watcher: Watcher::new(rt, fd),
            silence,
            silences: 0,
            looks: 0,
        }
    }
}

impl<S: Source, K> PortLine<S, K> {
    /// Reads what came within this time; `Pending` where nothing did.
    ///
    /// # Errors
    /// `Failed`, only where the source's count of faults rose; then nothing was given.
    fn read_within(&mut self, within: Duration, room: &mut [u8]) -> Result<Polled<usize>, Failed>
        requires { 0 < length room.old }
        ensures bound { ReadsAtMost (at_once result) room.new }
        ensures source { Advances (S.input self.old.source) (S.input self.new.source) }
        ensures told { IsTrue (S.input self.old.source).told
            → ReadIsTold (S.input self.old.source) (S.input self.new.source) room.old room.new
            (at_once result) }
        ensures cause { OnErr result (Rose (S.input self.old.source).faults
            (S.input self.new.source).faults) }
        ensures sink { S.output self.new.source ≡ S.output self.old.source }
        ensures rest { self.new ≡ record self.old { source = self.new.source } }
    {
        if !self.watcher.may_give(within) {
            return Ok(Polled::Pending);
        }
        let count = self.source.read(room)?;
        // A terminal may be told ready and give nothing. One that was hung up is ready all the time.
        if count == 0 && !self.watcher.may_give(Duration::ZERO) {
            return Ok(Polled::Pending);
        }
        Ok(Polled::Ready(count))
    }

    /// Reads what came, and waits for it as long as a silence is.
    ///
    /// # Errors
    /// `Failed`, only where the source's count of faults rose; then nothing was given.
    fn read_or_wait(&mut self, room: &mut [u8]) -> Result<Polled<usize>, Failed>
        requires { 0 < length room.old }
        ensures bound { ReadsAtMost (at_once result) room.new }
        ensures source { Advances (S.input self.old.source) (S.input self.new.source) }
        ensures told { IsTrue (S.input self.old.source).told
            → ReadIsTold (S.input self.old.source) (S.input self.new.source) room.old room.new
            (at_once result) }
        ensures cause { OnErr result (Rose (S.input self.old.source).faults
            (S.input self.new.source).faults) }
        ensures rest { self.new ≡ record self.old {
          source = self.new.source;
          silences = waits_after result self.old.silences;
        } }
        ensures later { self.old.silences ≤ self.new.silences }
        ensures counted { CountsSilence result self.old.silences self.new.silences }
    {
        let told = self.read_within(self.silence, room)?;
        if told == Polled::Pending {
            self.silences = self.silences.saturating_add(1);
        }
        Ok(told)
    }
}

impl<S: Ends, K: Ends> Ends for PortLine<S, K> {
    ghost input = { λ it. S.input it.source };

    ghost output = { λ it. K.output it.sink };
}

impl<S: Source, K: Sink> PolledLink for PortLine<S, K> {
    ghost not_ready = { λ it. it.silences };

    /// Reads what came, and waits for it as long as a silence is. Nothing within that time is a silence; no byte where something is ready is
    /// the end of the line.
    fn poll_read(&mut self, room: &mut [u8]) -> Result<Polled<usize>, Failed> {
        self.read_or_wait(room)
    }

    fn poll_write(&mut self, piece: &[u8]) -> Result<Polled<usize>, Failed> {
        let count = self.sink.write(piece)?;
        Ok(Polled::Ready(count))
    }
}

impl<S: Source, K: Sink> TimedLink for PortLine<S, K> {}

impl<S: Source, K: Sink> CountedLink for PortLine<S, K> {
    fn poll_counted(&mut self, room: &mut [u8]) -> Result<Polled<usize>, Failed> {
        self.read_or_wait(room)
    }
}

impl<S: Source, K: Sink> IdleLink for PortLine<S, K> {
    ghost looks = { λ it. it.looks };

    /// Reads what came already, and waits for nothing.
    fn look(&mut self, room: &mut [u8]) -> Result<Polled<usize>, Failed> {
        let told = self.read_within(Duration::ZERO, room)?;
        if told == Polled::Pending {
            self.looks = self.looks.saturating_add(1);
        }
        Ok(told)
    }
}
