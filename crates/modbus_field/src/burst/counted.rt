//! Links of which each silence is counted once.
ghost use Rattle.std.specs.Prelude.{◌≡◌, ◌<◌, ◌≤◌, length, IsTrue, OnErr};
ghost use Rattle.std.specs.Io.{ReadsAtMost};
ghost use Rattle.modbus_link.specs.Outside.{Rose, Advances, ReadIsTold};
ghost use Rattle.modbus_link.specs.Polled.{at_once, Waited};
ghost use Rattle.modbus_field.specs.BurstLink.{CountsSilence};

use modbus_link::{
    Failed, Polled, PolledLink, TerminalLine, TerminalLink, TimedLink, TimedMemoryLink,
    TimedTcpLink,
};
use std::io::{Read, Write};
use std::time::Clock;

/// A link that tells silence and counts each silence once, and nothing else, until its count stands at the last number. So a contract can
/// say at which silence something ended.
pub trait CountedLink: TimedLink {
    /// Reads as `poll_read` does.
    ///
    /// # Errors
    /// `Failed`, only where the link's count of read faults rose; then nothing was given.
    fn poll_counted(&mut self, room: &mut [u8]) -> Result<Polled<usize>, Failed>
        requires { 0 < length room.old }
        ensures bound { ReadsAtMost (at_once result) room.new }
        ensures source { Advances (Self.input self.old) (Self.input self.new) }
        ensures told { IsTrue (Self.input self.old).told
            → ReadIsTold (Self.input self.old) (Self.input self.new) room.old room.new
            (at_once result) }
        ensures cause { OnErr result (Rose (Self.input self.old).faults
            (Self.input self.new).faults) }
        ensures waited { Waited result (Self.not_ready self.old) (Self.not_ready self.new) }
        ensures later { Self.not_ready self.old ≤ Self.not_ready self.new }
        ensures sink { Self.output self.new ≡ Self.output self.old }
        ensures line { Self.line self.new ≡ Self.line self.old }

        ensures counted { CountsSilence result (Self.not_ready self.old)
            (Self.not_ready self.new) };
}

impl CountedLink for TimedMemoryLink {
    fn poll_counted(&mut self, room: &mut [u8]) -> Result<Polled<usize>, Failed> {
        self.poll_read(room)
    }
}

impl<R: Read, W: Write> CountedLink for TerminalLink<R, W> {
    fn poll_counted(&mut self, room: &mut [u8]) -> Result<Polled<usize>, Failed> {
        self.poll_read(room)
    }
}

impl<'r, R: Clock, I: Read, O: Write> CountedLink for TerminalLine<'r, R, I, O> {
    fn poll_counted(&mut self, room: &mut [u8]) -> Result<Polled<usize>, Failed> {
        self.poll_read(room)
    }
}

impl CountedLink for TimedTcpLink {
    fn poll_counted(&mut self, room: &mut [u8]) -> Result<Polled<usize>, Failed> {
        self.poll_read(room)
    }
}
