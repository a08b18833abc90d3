//! Links that can be looked at: whether something came that was not asked for.
ghost use Rattle.std.specs.Prelude.{◌≡◌, ℕ, ◌<◌, ◌≤◌, length, IsTrue, OnErr};
ghost use Rattle.std.specs.Io.{ReadsAtMost};
ghost use Rattle.modbus_link.specs.Outside.{Rose, Advances, ReadIsTold};
ghost use Rattle.modbus_link.specs.Polled.{at_once, Waited};

use modbus_link::{Ends, Failed, Polled, PolledLink, TerminalLink, TimedMemoryLink, TimedTcpLink};
use std::io::{Read, Write};

/// A link at which a look finds what came and was not read.
///
/// A look need not wait to find nothing. That of a link that tells silence and can only wait is its next read, which takes as long as a
/// silence where nothing came.
pub trait IdleLink: Ends {
    // how often a look found nothing
    ghost looks: { Self → ℕ };

    /// Reads into the front of `room` as `poll_read` does, what came before it. `Pending` where nothing did.
    ///
    /// # Errors
    /// `Failed`, only where the link's count of read faults rose; then nothing was given.
    fn look(&mut self, room: &mut [u8]) -> Result<Polled<usize>, Failed>
        requires { 0 < length room.old }
        ensures bound { ReadsAtMost (at_once result) room.new }
        ensures source { Advances (Self.input self.old) (Self.input self.new) }
        ensures told { IsTrue (Self.input self.old).told
            → ReadIsTold (Self.input self.old) (Self.input self.new) room.old room.new
            (at_once result) }
        ensures cause { OnErr result (Rose (Self.input self.old).faults
            (Self.input self.new).faults) }
        ensures looked { Waited result (looks self.old) (looks self.new) }
        ensures later { looks self.old ≤ looks self.new }
        ensures sink { Self.output self.new ≡ Self.output self.old }
        ensures line { Self.line self.new ≡ Self.line self.old };
}

impl IdleLink for TimedMemoryLink {
    ghost looks = { λ timed. timed.told };

    fn look(&mut self, room: &mut [u8]) -> Result<Polled<usize>, Failed> {
        self.poll_read(room)
    }
}

impl<R: Read, W: Write> IdleLink for TerminalLink<R, W> {
    ghost looks = { λ link. link.silences };

    fn look(&mut self, room: &mut [u8]) -> Result<Polled<usize>, Failed> {
        self.poll_read(room)
    }
}

impl IdleLink for TimedTcpLink {
    ghost looks = { λ timed. timed.silences };

    fn look(&mut self, room: &mut [u8]) -> Result<Polled<usize>, Failed> {
        self.poll_read(room)
    }
}
