//! Which links may be ready.
ghost use Rattle.std.specs.Prelude.{◌≡◌, ℕ, ◌≤◌, List, [], Option, Some, false, IfOk, OnOk, OnErr};
ghost use Rattle.std.specs.Option.{option_map};
ghost use Rattle.std.specs.Duration.{as_nanos};
ghost use Rattle.modbus_link.specs.Outside.{Rose};
ghost use Rattle.modbus_ready.specs.Found.{nothing_found};

use modbus_link::Failed;
use std::alloc::{AllocError, Global};
use std::marker::Model;
use std::time::Duration;

/// What may be ready.
#[derive(Clone, Copy, Debug, PartialEq, Eq, Drop)]
pub enum Ready {
    /// A peer may wait to be accepted.
    Peer,
    /// The link that is watched under this key may have bytes or take some, or have failed.
    Link(usize),
}

/// What watches links of one type, and waits until some may be ready.
///
/// It may tell of a link that is not ready, and of a key that is watched no more. One that is not asked until it is not ready need not be
/// told of again.
pub trait Readiness<L> {
    ghost use Rattle.modbus_ready.specs.declared.readiness.Ready.{Ready};

    // how often it failed
    ghost faults: { Self → ℕ };
    // what its last wait found
    ghost found: { Self → List Ready };
    // the key of the link that it was told to watch last
    ghost watched: { Self → Option ℕ };
    // how many nanoseconds its last wait was to take at most; any time, where none
    ghost patience: { Self → Option ℕ };

    /// Watches a link under a key, and does nothing else to it. A link that is dropped is watched no more.
    ///
    /// # Errors
    /// `Failed`, only where the count of faults rose: the link can't be watched.
    fn watch(&mut self, link: &mut L, key: usize) -> Result<(), Failed>
        ensures link { link.new ≡ link.old }
        ensures found { found self.new ≡ found self.old }
        ensures watched { OnOk result (watched self.new ≡ Some key) }
        ensures later { faults self.old ≤ faults self.new }
        ensures cause { OnErr result (Rose (faults self.old) (faults self.new)) };

    /// Waits until something may be ready, or the time is up; `None` for any time.
    ///
    /// # Errors
    /// `Failed`, only where the count of faults rose; then nothing is ready.
    fn wait(&mut self, timeout: Option<Duration>) -> Result<(), Failed>
        ensures nothing { OnErr result (found self.new ≡ []) }
        ensures patience { patience self.new ≡ option_map as_nanos timeout }
        ensures later { faults self.old ≤ faults self.new }
        ensures cause { OnErr result (Rose (faults self.old) (faults self.new)) };

    /// What the last wait found.
    fn ready(&self) -> &[Ready]
        ensures { result.now ≡ found self.now };
}

/// A source of readiness in memory, for tests: each wait finds what stands next in its schedule, whatever is ready, and fails after the
/// last.
#[derive(Drop)]
pub struct ScheduledReadiness {
    schedule: Vec<Ready>,
    round: usize,
    now: Vec<Ready>,
    watched: Option<usize>,
    patience: Option<Duration>,
    faults: u64,
}

/// What a contract knows of it is how often it failed, and what its last wait found.
impl Model for ScheduledReadiness {
    ghost use Rattle.std.specs.Option.{option_map};
    ghost use Rattle.std.specs.Duration.{as_nanos};
    ghost use Rattle.modbus_ready.specs.Found.{ReadinessState};

    ghost Value = { ReadinessState };

    ghost view = { λ it. record {
      faults = it.faults;
      found = it.now.items;
      watched = it.watched;
      patience = option_map as_nanos it.patience;
    } };
}

impl ScheduledReadiness {
    /// One that finds these, one at each wait.
    ///
    /// # Errors
    /// `AllocError` where memory is refused.
    pub fn new(alloc: Global, schedule: &[Ready]) -> Result<ScheduledReadiness, AllocError>
        ensures { IfOk result (λ it. it ≡ nothing_found) }
    {
        Ok(ScheduledReadiness {
            schedule: Vec::from_slice(alloc, schedule)?,
            round: 0,
            now: Vec::with_capacity(alloc, 1)?,
            watched: None,
            patience: None,
            faults: 0,
        })
    }

    // Finds what stands next in the schedule; nothing, and false, where that has ended, or memory is refused.
    fn advance(&mut self) -> bool
        ensures faults { self.new.faults ≡ self.old.faults }
        ensures patience { self.new.patience ≡ self.old.patience }
        ensures nothing { result ≡ false → self.new.found ≡ [] }
    {
        self.now.clear();
        let Some(next) = self.schedule.get(self.round) else {
            return false;
        };
        self.round = self.round.saturating_add(1);
        self.now.push(*next).is_ok()
    }
}

impl<L> Readiness<L> for ScheduledReadiness {
    ghost faults = { λ it. it.faults };

    ghost found = { λ it. it.found };

    ghost watched = { λ it. it.watched };

    ghost patience = { λ it. it.patience };

    fn watch(&mut self, _link: &mut L, key: usize) -> Result<(), Failed> {
        self.watched = Some(key);
        Ok(())
    }

    fn wait(&mut self, timeout: Option<Duration>) -> Result<(), Failed> {
        self.patience = timeout;
        if self.advance() {
            return Ok(());
        }
        self.faults = self.faults.saturating_add(1);
        Err(Failed)
    }

    fn ready(&self) -> &[Ready] {
        &self.now
    }
}
