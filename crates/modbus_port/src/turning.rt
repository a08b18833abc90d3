//! A spawner that turns away the links that no worker can be started for.
ghost use Rattle.std.specs.Prelude.{◌≡◌};
ghost use Rattle.modbus_port.specs.TurnsAway.{TurningState, StartsOrTurns};

use crate::telling::note;
use modbus_link::{Failed, Sink, Spawner, Worker};
use std::marker::Model;

/// What is told of a link that no thread could be had for, behind the name of the program.
const NO_THREAD: &str = ": no thread, peers are turned away\n";

/// A spawner over another. Where that one can't start a worker, the worker is dropped with its link, which turns the peer away, and is
/// counted. The first of several in a row is told by a line on `notes`.
#[derive(Drop)]
pub struct TurningSpawner<'p, P, N> {
    spawner: P,
    notes: N,
    program: &'p str,
    taken: u64,
    turned: u64,
    is_told: bool,
}

/// What a contract knows of it is the spawner below, and its counts.
impl<'p, P, N> Model for TurningSpawner<'p, P, N> {
    ghost use Rattle.modbus_port.specs.TurnsAway.{TurningState};

    ghost Value = { TurningState P };

    ghost view = { λ it. record { spawner = it.spawner; taken = it.taken; turned = it.turned } };
}

impl<'p, P, N> TurningSpawner<'p, P, N> {
    /// A spawner over this one that was given nothing. What it tells on `notes` begins with the name of the program.
    pub fn new(spawner: P, notes: N, program: &'p str) -> TurningSpawner<'p, P, N>
        ensures { result ≡ record { spawner = spawner; taken = 0; turned = 0 } }
    {
        TurningSpawner {
            spawner,
            notes,
            program,
            taken: 0,
            turned: 0,
            is_told: false,
        }
    }
}

impl<'p, W: Worker, P: Spawner<W>, N: Sink> Spawner<W> for TurningSpawner<'p, P, N> {
    ghost faults = { λ _. 0 };

    ghost started = { λ it. it.taken };

    ghost can_start = { λ it. P.can_start it.spawner };

    ghost starts = { StartsOrTurns P.starts };

    /// Starts the worker, or turns its peer away. It never fails.
    fn start(&mut self, worker: W) -> Result<(), Failed> {
        self.taken = self.taken.saturating_add(1);
        if self.spawner.start(worker).is_ok() {
            self.is_told = false;
            return Ok(());
        }
        self.turned = self.turned.saturating_add(1);
        if !self.is_told {
            note(&mut self.notes, self.program, NO_THREAD);
            self.is_told = true;
        }
        Ok(())
    }
}
