//! One read of a terminal, and how long it took.
//!
//! A reading of the clock is made in one way and is never copied. A read takes the reading before it, and gives its answer with it; only
//! then comes the one after it. So no other readings than those around a read stand beside its answer.
ghost use Rattle.std.specs.Prelude.{◌≡◌, ◌<◌, ◌≤◌, length, IfOk};
ghost use Rattle.std.specs.Io.{ReadsAtMost};
ghost use Rattle.modbus_link.specs.Polled.{at_once};
ghost use Rattle.modbus_link.specs.Silence.{TerminalReads};
ghost use Rattle.modbus_link.specs.Terminal.{is_soon};
ghost use Rattle.modbus_link.specs.Timed.{readings_of};

use crate::outside::Failed;
use crate::polled::{Polled, PolledLink};
use crate::reading::Reading;
use crate::silence::TerminalLink;
use std::io::{Read, Write};
use std::time::{Clock, Duration};

/// How many milliseconds a silence takes at least.
const SHORTEST_SILENCE: u64 = 20;

/// What a read gave that began then.
pub(crate) struct Answer {
    start: Reading,
    told: Result<Polled<usize>, Failed>,
}

/// What the clock told before a read and after it.
#[derive(Drop)]
pub(crate) struct Readings {
    before: Reading,
    after: Reading,
}

/// Reads the terminal, once the clock was read.
pub(crate) fn read_from<I: Read, O: Write>(
    start: Reading,
    streams: &mut TerminalLink<I, O>,
    room: &mut [u8],
) -> Answer
    requires { 0 < length room.old }
    ensures start { result.start ≡ start }
    ensures bound { ReadsAtMost (at_once result.told) room.new }
    ensures later { streams.old.read_faults ≤ streams.new.read_faults }
    ensures endless { IfOk (at_once result.told) (λ count. 0 < count) }
    ensures reads { TerminalReads streams.old streams.new result.told }
{
    Answer {
        start,
        told: streams.poll_read(room),
    }
}

impl Answer {
    /// What was told, and what the clock told before it and tells now.
    pub(crate) fn end<R: Clock>(self, clock: &R) -> (Result<Polled<usize>, Failed>, Readings)
        ensures told { result.0 ≡ self.told }
        ensures before { result.1.before ≡ self.start }
    {
        let Answer { start, told } = self;
        let readings = Readings {
            before: start,
            after: Reading::now(clock),
        };
        (told, readings)
    }
}

impl Readings {
    /// Whether the read did not wait as long as a silence takes.
    pub(crate) fn is_soon(&self) -> bool
        ensures { result ≡ is_soon (readings_of self.now) }
    {
        match self.after.since(&self.before) {
            Some(took) => took
                .checked_sub(Duration::from_millis(SHORTEST_SILENCE))
                .is_none(),
            None => false,
        }
    }
}
