//! A link in memory that can be looked at.
ghost use Rattle.std.specs.Prelude.{◌≡◌, IfOk};
ghost use Rattle.modbus_link.specs.Memory.{source_input, sink_output};
ghost use Rattle.modbus_reconnect.specs.MemoryLooks.{idle_at_start};

use modbus_client::IdleLink;
use modbus_link::{Ends, Failed, Link, MemoryLink, Polled, Sink, Source};
use std::alloc::{AllocError, Global};
use std::marker::Model;
use std::time::Duration;

/// A link in memory at which a look finds what is there where it was said to come early, for tests. It tells all of its content.
#[derive(Drop)]
pub struct IdleMemoryLink {
    link: MemoryLink,
    early: Vec<usize>,
    looks: u64,
}

impl Model for IdleMemoryLink {
    ghost use Rattle.modbus_reconnect.specs.MemoryLooks.{IdleState};

    ghost Value = { IdleState };

    ghost view = { λ it. record { link = it.link; early = it.early.items; looks = it.looks } };
}

impl IdleMemoryLink {
    /// A link of which a look reads where as many bytes of its input were given as one of these totals says, and finds nothing anywhere
    /// else.
    ///
    /// # Errors
    /// `AllocError` where memory is refused.
    pub fn new(
        alloc: Global,
        link: MemoryLink,
        early: &[usize],
    ) -> Result<IdleMemoryLink, AllocError>
        ensures { IfOk result (λ idle. idle ≡ idle_at_start link early.now) }
    {
        Ok(IdleMemoryLink {
            link,
            early: Vec::from_slice(alloc, early)?,
            looks: 0,
        })
    }

    /// The link.
    pub fn link(&self) -> &MemoryLink
        ensures { result.now ≡ self.now.link }
    {
        &self.link
    }
}

impl Ends for IdleMemoryLink {
    ghost input = { λ it. source_input it.link.source };

    ghost output = { λ it. sink_output it.link.sink };

    ghost line = { λ it. it.link.line };
}

impl Source for IdleMemoryLink {
    fn read(&mut self, room: &mut [u8]) -> Result<usize, Failed> {
        self.link.read(room)
    }
}

impl Sink for IdleMemoryLink {
    fn write(&mut self, piece: &[u8]) -> Result<usize, Failed> {
        self.link.write(piece)
    }
}

impl Link for IdleMemoryLink {
    fn shutdown(&mut self) -> Result<(), Failed> {
        self.link.shutdown()
    }

    fn set_timeout(&mut self, duration: Option<Duration>) {
        self.link.set_timeout(duration)
    }
}

impl IdleLink for IdleMemoryLink {
    ghost looks = { λ it. it.looks };

    fn look(&mut self, room: &mut [u8]) -> Result<Polled<usize>, Failed> {
        if !self.early.contains(&self.link.source().given()) {
            self.looks = self.looks.saturating_add(1);
            return Ok(Polled::Pending);
        }
        let count = self.link.read(room)?;
        Ok(Polled::Ready(count))
    }
}
