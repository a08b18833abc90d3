//! Times under keys, of which the next one is found fast.
ghost use Rattle.std.specs.Prelude.{◌≡◌, ◌++◌, ◌∷◌, [], ◌&&◌, ◌||◌, not, set, OnOk, OnErr};
ghost use Rattle.std.specs.BTreeSet.{contains};
ghost use Rattle.modbus_fleet.specs.declared.dues.Due.{Due};
ghost use Rattle.modbus_fleet.specs.Dues.{due_cmp, is_due, IsFirst, IsFirstOf, IsNext, TakesDue};

use std::alloc::{AllocError, Global};
use std::collections::BTreeSet;
use std::marker::Model;

/// A time, and the key under which it is kept.
#[derive(Clone, Copy, Debug, PartialEq, Eq, PartialOrd, Ord)]
pub struct Due {
    at: u64,
    key: usize,
}

/// Times under keys, one under each at most. To change one, to find the next and to take it away cost the logarithm of how many there are.
#[derive(Drop)]
pub struct Dues {
    ordered: BTreeSet<Due>,
    times: Vec<Option<u64>>,
}

/// A contract sees the time under each key, if any.
impl Model for Dues {
    ghost use Rattle.std.specs.Prelude.{ℕ, List, Option};
    ghost use Rattle.modbus_fleet.specs.Dues.{Agrees};

    ghost Value = { List (Option ℕ) };

    ghost view = { λ it. it.times.items };

    ghost invariant = { λ it. Agrees it.ordered it.times.items };
}

/// Puts the due of a key in order, where it has a time.
///
/// # Errors
/// `AllocError` where memory is refused: all stays.
#[tactic(auto, using(crate::proofs::Ordered::same_due))]
fn put(ordered: &mut BTreeSet<Due>, key: usize, time: Option<u64>) -> Result<(), AllocError>
    ensures puts { OnOk result ((due : Due) → contains due_cmp ordered.new due
        ≡ (contains due_cmp ordered.old due || is_due key time due)) }
    ensures stays { OnErr result (ordered.new ≡ ordered.old) }
{
    let Some(at) = time else {
        return Ok(());
    };
    if ordered.insert(Due { at, key }).is_err() {
        return Err(AllocError);
    }
    Ok(())
}

/// Takes the due of a key out, where it has a time.
#[tactic(auto, using(crate::proofs::Ordered::same_due))]
fn take_out(ordered: &mut BTreeSet<Due>, key: usize, time: Option<u64>)
    ensures { (due : Due) → contains due_cmp ordered.new due
        ≡ (contains due_cmp ordered.old due && not (is_due key time due)) }
{
    if let Some(at) = time {
        ordered.remove(&Due { at, key });
    }
}

/// The first in order.
fn first_of(ordered: &BTreeSet<Due>) -> Option<Due>
    ensures { IsFirstOf ordered.now result }
{
    match ordered.first() {
        Some(due) => Some(*due),
        None => None,
    }
}

impl Dues {
    /// No key yet.
    pub fn new(alloc: Global) -> Dues
        ensures { result ≡ [] }
    {
        Dues {
            ordered: BTreeSet::new(alloc),
            times: Vec::new(alloc),
        }
    }

    /// Takes in the next key, under which no time is kept: the first is 0, and each next one more.
    ///
    /// # Errors
    /// `AllocError` where memory is refused: the key is not taken in.
    pub fn add(&mut self) -> Result<(), AllocError>
        ensures added { OnOk result (self.new ≡ self.old ++ None ∷ []) }
        ensures stays { OnErr result (self.new ≡ self.old) }
    {
        if self.times.push(None).is_err() {
            return Err(AllocError);
        }
        Ok(())
    }

    /// Keeps this time under a key in place of the one before, or none. Nothing is done where there is no such key.
    ///
    /// # Errors
    /// `AllocError` where memory is refused: what was kept stays.
    pub fn set(&mut self, key: usize, time: Option<u64>) -> Result<(), AllocError>
        ensures sets { OnOk result (self.new ≡ set self.old key time) }
        ensures stays { OnErr result (self.new ≡ self.old) }
    {
        let Some(place) = self.times.get_mut(key) else {
            return Ok(());
        };
        let before = *place;
        if before == time {
            return Ok(());
        }
        put(&mut self.ordered, key, time)?;
        *place = time;
        take_out(&mut self.ordered, key, before);
        Ok(())
    }

    /// Keeps no time under a key any more.
    pub fn unset(&mut self, key: usize)
        ensures { self.new ≡ set self.old key None }
    {
        let Some(place) = self.times.get_mut(key) else {
            return;
        };
        let before = *place;
        *place = None;
        take_out(&mut self.ordered, key, before);
    }

    /// The earliest time that is kept, and its key.
    fn first(&self) -> Option<Due>
        ensures { IsFirst self.now result }
    {
        first_of(&self.ordered)
    }

    /// The earliest time that is kept.
    pub fn next(&self) -> Option<u64>
        ensures { IsNext self.now result }
    {
        match self.first() {
            Some(due) => Some(due.at),
            None => None,
        }
    }

    /// Takes away the earliest time that is kept, where it is over at `now`, and tells its key.
    pub fn take_due(&mut self, now: u64) -> Option<usize>
        ensures { TakesDue now self.old result self.new }
    {
        let Some(due) = self.first() else {
            return None;
        };
        if due.at > now {
            return None;
        }
        self.unset(due.key);
        Some(due.key)
    }
}
