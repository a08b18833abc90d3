//! A link of which one turn takes so many reads at most.
ghost use Rattle.std.specs.Prelude.{◌≡◌, ◌+◌};
ghost use Rattle.modbus_link.specs.Outside.{output_through};
ghost use Rattle.modbus_hub.specs.Rationed.{rationed_input};

use modbus_link::{Ends, Failed, Polled, PolledLink};

/// A link that is lent to one turn, and is not ready once so many of its reads gave bytes. Once it refused a read it stays so.
#[derive(Drop)]
pub struct Rationed<'l, L> {
    pub link: &'l mut L,
    /// How many reads may still give bytes.
    pub left: u64,
    /// How often it was not ready for want of them.
    pub refused: u64,
}

impl<'l, L> Rationed<'l, L> {
    /// A link for a turn with so many reads.
    pub fn new(link: &'l mut L, reads: u64) -> Self
        ensures link { result.link ≡ link.entry }
        ensures left { result.left ≡ reads }
        ensures refused { result.refused ≡ 0 }
    {
        Rationed {
            link,
            left: reads,
            refused: 0,
        }
    }
}

impl<'l, L: Ends> Ends for Rationed<'l, L> {
    ghost input = { λ it. rationed_input it.left it.refused it.link.ghost_name (L.input it.link.now) };

    ghost output = { λ it. output_through it.link.ghost_name (L.output it.link.now) };

    ghost line = { λ it. L.line it.link.now };
}

impl<'l, L: PolledLink> PolledLink for Rationed<'l, L> {
    ghost not_ready = { λ it. L.not_ready it.link.now + it.refused };

    #[inline(always)]
    fn poll_read(&mut self, room: &mut [u8]) -> Result<Polled<usize>, Failed> {
        if self.left == 0 || self.refused > 0 {
            self.refused = self.refused.saturating_add(1);
            return Ok(Polled::Pending);
        }
        match self.link.poll_read(room) {
            Ok(Polled::Ready(0)) => Ok(Polled::Ready(0)),
            Ok(Polled::Ready(count)) => {
                self.left -= 1;
                Ok(Polled::Ready(count))
            }
            Ok(Polled::Pending) => Ok(Polled::Pending),
            Err(failed) => Err(failed),
        }
    }

    #[inline(always)]
    fn poll_write(&mut self, piece: &[u8]) -> Result<Polled<usize>, Failed> {
        self.link.poll_write(piece)
    }
}
