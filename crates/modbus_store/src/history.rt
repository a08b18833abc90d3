//! The calls of a shared store, in their order.
ghost use Rattle.std.specs.Prelude.{◌≡◌, ◌==◌, [], ◌∷◌, ◌++◌, ◌+◌, ◌<◌, length, slice_get, Some, None, MatchOption, IfOk, IfErr};

use crate::outcome::Outcome;
use modbus_frame::{Request, SlaveId};
use std::alloc::{AllocError, Global};
use std::marker::Model;

/// One call: the number of the pass that made it, the slave, the request and the outcome.
#[derive(Drop)]
pub struct Entry {
    /// The number of the pass.
    pub seat: u32,
    /// The slave, or the unit identifier of a TCP request.
    pub slave: SlaveId,
    /// What was asked, with lists of its own.
    pub request: Request<'static>,
    /// What was answered.
    pub outcome: Outcome,
}

/// A contract sees what was asked, and not where its lists lie.
impl Model for Entry {
    ghost use Rattle.modbus_frame.specs.Meaning.{meaning};
    ghost use Rattle.modbus_store.specs.Legal.{Call};
    ghost use Rattle.modbus_store.specs.Outcomes.{outcome_of};

    ghost Value = { Call };

    ghost view = { λ e. record { number = e.seat; slave = e.slave; asked = meaning e.request; outcome = outcome_of e.outcome } };
}

/// The calls of a store, from its opening on.
#[derive(Drop)]
pub struct History {
    entries: Vec<Entry>,
}

/// A contract sees the list of the calls.
impl Model for History {
    ghost use Rattle.std.specs.Prelude.{List};
    ghost use Rattle.modbus_store.specs.Legal.{Call};

    ghost Value = { List Call };

    ghost view = { λ h. h.entries.items };
}

impl History {
    pub(crate) fn new(alloc: Global) -> History
        ensures { result ≡ [] }
    {
        History {
            entries: Vec::new(alloc),
        }
    }

    /// How many calls there are.
    pub fn len(&self) -> usize
        ensures { result ≡ length self.now }
    {
        self.entries.len()
    }

    /// Whether there is no call.
    pub fn is_empty(&self) -> bool
        ensures { result ≡ (length self.now == 0) }
    {
        self.entries.is_empty()
    }

    /// The entry at a place, counted from 0; `None` exactly at and past the end.
    pub fn entry(&self, place: usize) -> Option<&Entry>
        ensures { MatchOption result (slice_get self.now place ≡ None)
            (λ found. slice_get self.now place ≡ Some found.now) }
    {
        self.entries.get(place)
    }

    /// Takes the room for one more entry.
    pub(crate) fn with_room(self) -> Result<Roomy, (History, AllocError)>
        ensures ok { IfOk result (λ room. room ≡ self) }
        ensures err { IfErr result (λ e. e.0 ≡ self) }
    {
        let History { mut entries } = self;
        match entries.reserve(1) {
            Ok(()) => Ok(Roomy { entries }),
            Err(error) => Err((History { entries }, error)),
        }
    }
}

/// A history with room for one more entry.
#[derive(Drop)]
pub(crate) struct Roomy {
    entries: Vec<Entry>,
}

impl Model for Roomy {
    ghost use Rattle.std.specs.Prelude.{List, ◌<◌, vec_len, vec_capacity};
    ghost use Rattle.modbus_store.specs.Legal.{Call};

    ghost Value = { List Call };

    ghost view = { λ h. h.entries.items };

    ghost invariant = { λ h. vec_len h.entries < vec_capacity h.entries };
}

impl Roomy {
    pub(crate) fn add(self, entry: Entry) -> History
        ensures { result ≡ self ++ entry ∷ [] }
    {
        let Roomy { mut entries } = self;
        entries.push_reserved(entry);
        History { entries }
    }
}
