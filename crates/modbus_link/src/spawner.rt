//! Work that is done beside the code that hands it over, and what starts it.
ghost use Rattle.std.specs.Prelude.{◌≡◌, ℕ, ◌≤◌, Result, Ok, OnErr};
ghost use Rattle.modbus_link.specs.declared.outside.Failed.{Failed};
ghost use Rattle.modbus_link.specs.Outside.{Rose};
ghost use Rattle.modbus_link.specs.Memory.{next_count};
ghost use Rattle.modbus_link.specs.Listens.{given_after, tally_at_start, StartsBy};

use crate::outside::Failed;
use std::marker::Model;

/// Work that is done once.
pub trait Worker {
    // what must hold before the work is done; by default nothing
    ghost ready: { Self → Type 0 } = { λ _. Unit {0} };

    /// Does the work. Nothing can be said of what it leaves: the worker is used up by it.
    fn run(self)
        requires { ready self };
}

/// What starts workers.
pub trait Spawner<W: Worker> {
    // how often it failed
    ghost faults: { Self → ℕ };

    // how many workers it started
    ghost started: { Self → ℕ };

    // whether it can start any worker that is ready; it stays so. By default it always can
    ghost can_start: { Self → Type 0 } = { λ _. Unit {0} };

    // what a start may lead to, by the state before, the worker, the answer and the state after; an implementation says it, and by
    // default nothing is said
    ghost starts: { Self → W → Result (Unit {0}) Failed → Self → Type 0 } = { λ _ _ _ _. Unit {0} };

    /// Starts a worker: it is run, here or elsewhere. Each worker that it starts is counted.
    ///
    /// # Errors
    /// `Failed`, only where the spawner's count of faults rose; then the worker was dropped and is not run.
    fn start(&mut self, worker: W) -> Result<(), Failed>
        requires can { can_start self.old }
        requires ready { W.ready worker }
        ensures can { can_start self.new }
        ensures later { faults self.old ≤ faults self.new }
        ensures grows { started self.old ≤ started self.new }
        ensures counts { started self.new ≡ given_after result (started self.old) }
        ensures starts { starts self.old worker result self.new }
        ensures cause { OnErr result (Rose (faults self.old) (faults self.new)) };
}

/// A spawner that runs each worker at once, on the caller, for tests and for programs of one connection at a time.
#[derive(Drop)]
pub struct InlineSpawner {
    started: u64,
}

/// What a contract knows of it is how many workers it started.
impl Model for InlineSpawner {
    ghost use Rattle.std.specs.Prelude.{ℕ};

    ghost Value = { ℕ };

    ghost view = { λ spawner. spawner.started };
}

impl InlineSpawner {
    /// A spawner that has started nothing.
    pub fn new() -> InlineSpawner
        ensures { result ≡ 0 }
    {
        InlineSpawner { started: 0 }
    }
}

impl<W: Worker> Spawner<W> for InlineSpawner {
    ghost faults = { λ _. 0 };

    ghost started = { λ spawner. spawner };

    ghost starts = { λ old worker result new. (result ≡ Ok tt) × (new ≡ next_count old) };

    /// Runs the worker, and never fails.
    fn start(&mut self, worker: W) -> Result<(), Failed> {
        worker.run();
        self.started = self.started.saturating_add(1);
        Ok(())
    }
}

/// A spawner that starts each worker in a thread of a scope, by a closure as `|worker| scope.spawn(move || worker.run()).is_ok()`, whose
/// answer says whether it could.
#[derive(Drop)]
pub struct ScopeSpawner<F> {
    begin: F,
    started: u64,
    faults: u64,
}

/// What a contract knows of it is its closure and its counts.
impl<F> Model for ScopeSpawner<F> {
    ghost use Rattle.modbus_link.specs.Listens.{SpawnerState};

    ghost Value = { SpawnerState F };

    ghost view = { λ spawner. record { begin = spawner.begin; tally = record { given = spawner.started; faults = spawner.faults } } };
}

impl<F> ScopeSpawner<F> {
    /// A spawner by this closure that has started nothing.
    pub fn new(begin: F) -> ScopeSpawner<F>
        ensures { result ≡ record { begin = begin; tally = tally_at_start } }
    {
        ScopeSpawner {
            begin,
            started: 0,
            faults: 0,
        }
    }
}

impl<W: Worker, F: FnMut(W) -> bool> Spawner<W> for ScopeSpawner<F> {
    ghost faults = { λ spawner. spawner.tally.faults };

    ghost started = { λ spawner. spawner.tally.given };

    ghost can_start = { λ _. (state : F) (worker : W) → W.ready worker → F.pre state worker };

    ghost starts = { StartsBy F.step };

    /// Calls the closure with the worker.
    ///
    /// # Errors
    /// `Failed`, exactly where the closure answers `false`.
    fn start(&mut self, worker: W) -> Result<(), Failed> {
        if (self.begin)(worker) {
            self.started = self.started.saturating_add(1);
            return Ok(());
        }
        self.faults = self.faults.saturating_add(1);
        Err(Failed)
    }
}
