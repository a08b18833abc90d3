//! Notes of what may happen often: one is told at once, and the next only after a minute, with how many there were since.
#![tactic(auto)]

ghost use Rattle.std.specs.Prelude.{◌≡◌};
ghost use Rattle.modbus_notes.specs.Notes.{has_passed, has_untold, is_told, nothing_noted, noted, told_of};

use std::marker::Model;
use std::time::{Duration, Instant};

/// How many seconds lie between two notes at least.
const MINUTE: u64 = 60;

/// How often something happened that was not told yet, and when it was told last.
#[derive(Drop)]
pub struct Notes {
    untold: u64,
    was_told: bool,
    since: Option<Instant>,
}

/// A contract sees all three.
impl Model for Notes {
    ghost use Rattle.modbus_notes.specs.Notes.{NotesState};

    ghost Value = { NotesState };

    ghost view = { λ it. record { untold = it.untold; was_told = it.was_told; since = it.since } };
}

// Whether a minute is over since then, by this reading; it is not where either was not had.
fn has_passed(since: Option<Instant>, now: Option<Instant>) -> bool
    ensures { result ≡ has_passed since now }
{
    match (since, now) {
        (Some(since), Some(now)) => {
            let passed = now.saturating_duration_since(since);
            passed.checked_sub(Duration::from_secs(MINUTE)).is_some()
        }
        _ => false,
    }
}

impl Notes {
    /// Nothing happened yet.
    pub fn new() -> Notes
        ensures { result ≡ nothing_noted }
    {
        Notes {
            untold: 0,
            was_told: false,
            since: None,
        }
    }

    /// Whether there is something that was not told yet.
    pub fn has_untold(&self) -> bool
        ensures { result ≡ has_untold self.now }
    {
        self.untold > 0
    }

    // Whether what there is is told by this reading of a clock.
    fn is_told(&self, now: Option<Instant>) -> bool
        ensures { result ≡ is_told self.now now }
    {
        self.untold > 0 && (!self.was_told || has_passed(self.since, now))
    }

    /// Takes notice that it happened so many times more, by this reading of a clock. Answers how often it happened since it was told last, where
    /// that is to be told now: the first time, and then once a minute is over. Where the clock can't be read it is told once.
    pub fn take(&mut self, count: u64, now: Option<Instant>) -> Option<u64>
        ensures told { result ≡ told_of count now self.old }
        ensures noted { self.new ≡ noted count now self.old }
    {
        self.untold = self.untold.saturating_add(count);
        if self.is_told(now) {
            let told = self.untold;
            self.untold = 0;
            self.was_told = true;
            self.since = now;
            return Some(told);
        }
        None
    }
}
