//! How far a connection is with its next message.
ghost use Rattle.std.specs.Prelude.{◌≡◌};
ghost use Rattle.modbus_hub.specs.Progress.{is_late, later, progress_after};

/// How far a connection is with its next message.
#[derive(Clone, Copy, Debug, PartialEq, Eq, Drop)]
pub enum Progress {
    /// No bytes came in a turn since its last message was completed, or since it came.
    Resting,
    /// Bytes came since, and completed no message.
    Begun,
    /// So it was at the last look for late ones, and no message was completed since.
    Late,
}

impl Progress {
    /// After a turn in which a message was completed or not, and bytes came or not.
    pub(crate) fn after(self, completed: bool, came: bool) -> Progress
        ensures { result ≡ progress_after completed came self }
    {
        match (completed, came, self) {
            (true, _, _) => Progress::Resting,
            (false, false, progress) => progress,
            (false, true, Progress::Resting) => Progress::Begun,
            (false, true, Progress::Begun) => Progress::Begun,
            (false, true, Progress::Late) => Progress::Late,
        }
    }

    /// After a look for late ones.
    pub(crate) fn later(self) -> Progress
        ensures { result ≡ later self }
    {
        match self {
            Progress::Resting => Progress::Resting,
            Progress::Begun => Progress::Late,
            Progress::Late => Progress::Late,
        }
    }

    /// Whether a message that was begun before the last look for late ones is not completed.
    pub(crate) fn is_late(self) -> bool
        ensures { result ≡ is_late self }
    {
        matches!(self, Progress::Late)
    }
}
