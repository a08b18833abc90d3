//! How many connections were lost.
ghost use Rattle.std.specs.Prelude.{◌≡◌};
ghost use Rattle.modbus_hub.specs.Losses.{gone_more, losses_since, no_losses};

/// How many links were dropped at once, and how many connections were let go, by the cause. Each count stands still at the end of its type.
#[derive(Clone, Copy, Debug, PartialEq, Eq, Drop)]
pub struct Losses {
    /// Memory was refused for their connections.
    pub memory: u64,
    /// The addresses of their peers had as many connections as one may have.
    pub share: u64,
    /// They began a message, and did not complete it in time.
    pub late: u64,
    /// They were idle for longest, and gave way to another.
    pub gave_way: u64,
}

impl Losses {
    /// None was lost.
    pub fn none() -> Losses
        ensures { result ≡ no_losses }
    {
        Losses {
            memory: 0,
            share: 0,
            late: 0,
            gave_way: 0,
        }
    }

    /// How many were since it was so many.
    pub fn since(self, before: Losses) -> Losses
        ensures { result ≡ losses_since before self }
    {
        Losses {
            memory: self.memory.saturating_sub(before.memory),
            share: self.share.saturating_sub(before.share),
            late: self.late.saturating_sub(before.late),
            gave_way: self.gave_way.saturating_sub(before.gave_way),
        }
    }
}

// A count with so many more as there are fewer connections now than before.
pub(crate) fn gone_more(count: u64, before: usize, now: usize) -> u64
    ensures { result ≡ gone_more before now count }
{
    count.saturating_add(before.saturating_sub(now) as u64)
}
