//! The token of one caller of a shared store, and what is left of it once the store is closed.
ghost use Rattle.std.specs.Prelude.{◌≡◌, length};
ghost use Rattle.modbus_store.specs.Passes.{IsInLine};

use crate::steps::Spot;
use std::marker::Model;

/// The token of one caller, who alone makes calls with it. It may be sent to another thread.
///
/// It stands for the calls that the caller has seen. That list, and the calls that the pass made, take no memory.
#[derive(Drop)]
pub struct StorePass {
    pub(crate) seat: Spot,
    pub(crate) number: u32,
    pub(crate) seen: u64,
    pub(crate) drawn: u64,
}

/// A contract sees which table the pass is of, its number, and the calls that it has seen and made.
impl Model for StorePass {
    ghost use Rattle.modbus_store.specs.Passes.{Pass};

    ghost Value = { Pass };

    ghost use Rattle.modbus_store.specs.Stands.{pass_of, StandsInside};

    ghost view = { pass_of };

    ghost invariant = { StandsInside };
}

impl StorePass {
    /// The number of the pass, which no other pass of its store has. The entries of its calls have it.
    pub fn number(&self) -> u32
        ensures { result ≡ self.now.number }
    {
        self.number
    }

    /// How many calls the pass has seen. What it has seen is legal from the opening tables, and of its number it has exactly the calls that
    /// this pass made, each once and in order.
    pub fn seen(&self) -> u64
        ensures length { result ≡ length self.now.seen }
        ensures in_line { IsInLine self.now }
    {
        self.seen
    }
}

/// The last turn of a shared store. Nobody has a turn after it.
///
/// It stands for the calls of the one history, which take no memory.
#[derive(Drop)]
pub struct LastTurn {
    pub(crate) seat: Spot,
    pub(crate) number: u32,
}

/// A contract sees the pass that has the turn, which has seen the whole history.
impl Model for LastTurn {
    ghost use Rattle.modbus_store.specs.Passes.{Pass};

    ghost Value = { Pass };

    ghost use Rattle.modbus_store.specs.Stands.{last_of, IsLast};

    ghost view = { last_of };

    ghost invariant = { IsLast };
}
