//! The shared store.
ghost use Rattle.std.specs.Prelude.{◌≡◌, ◌^◌, true, false, [], is_some, IfSome, IfOk, IfErr};
ghost use Rattle.modbus_frame.specs.Meaning.{meaning};
ghost use Rattle.modbus_service.specs.Answering.{Keeps};
ghost use Rattle.modbus_store.specs.Lock.{opening_of};
ghost use Rattle.modbus_store.specs.Events.{AddsNoCall};
ghost use Rattle.modbus_store.specs.Passes.{IsPassOf, caller, first_pass, SplitsOff, TakesIn, Closes};

use crate::history::History;
use crate::lock::{InTurn, Stored, View};
use crate::pass::{LastTurn, StorePass};
use crate::steps::{draw_number, glue, load_drawn, split, take_turn};
use crate::store::RegisterStore;
use crate::turn::turn;
use atomic_table::{Refused, Table};
use modbus_frame::{Response, SlaveRequest};
use modbus_service::ServiceError;
use std::alloc::{AllocError, Global};
use std::marker::Model;
use std::snapshot::Snapshot;
use std::sync::Wait;

/// A store that many callers share, each by a pass of its own. All calls stand in one history, in which each is answered as a store of one
/// caller answers it at that place.
#[derive(Drop)]
pub struct StoreTable {
    table: Table<Option<Stored>, View, Snapshot<Stored>, InTurn, Global>,
}

/// A contract sees which table it is, and how the store began.
impl Model for StoreTable {
    ghost use Rattle.std.specs.Prelude.{◌≡◌};
    ghost use Rattle.modbus_store.specs.Lock.{opening_of};
    ghost use Rattle.modbus_store.specs.Passes.{Shared};
    ghost use Rattle.modbus_store.specs.Turns.{IsDesk};

    ghost Value = { Shared };

    ghost view = { λ t. record { table = t.table.shared.table_id; opening = opening_of t.table.shared.key.value } };

    ghost invariant = { λ t. IsDesk t.table.shared.table_id };
}

/// All numbers of passes were drawn: there are 2^32.
#[derive(Clone, Copy, Debug, PartialEq, Eq, thiserror::Error)]
#[error("passes out")]
pub struct PassesOut;

/// What is left of a shared store that was closed: the store, and the record of its calls where one was kept.
#[derive(Drop)]
pub struct ClosedStore {
    /// The store with its tables as the history leaves them.
    pub store: RegisterStore,
    /// All calls in their order; none where no record was kept.
    pub history: Option<History>,
    /// The turn in which the store was taken out. It stands for all calls in their order, whether or not a record was kept.
    pub last: LastTurn,
}

impl StoreTable {
    /// Shares a store, and keeps a record of all calls, so that its memory grows with each. The first pass has number 0, and has seen and
    /// made no call.
    ///
    /// # Errors
    /// Refused memory; the store is then dropped.
    pub fn open(alloc: Global, store: RegisterStore) -> Result<(StoreTable, StorePass), AllocError>
        ensures table { IfOk result (λ r. r.0.opening
            ≡ record { tables = store; recorded = true }) }
        ensures pass { IfOk result (λ r. r.1 ≡ first_pass r.0.table r.0.opening) }
    {
        let history = Some(History::new(alloc));
        open_with(alloc, store, history)
    }

    /// Shares a store, and keeps no record of calls: its memory does not grow. All else is as for `open`.
    ///
    /// # Errors
    /// Refused memory; the store is then dropped.
    pub fn open_unrecorded(
        alloc: Global,
        store: RegisterStore,
    ) -> Result<(StoreTable, StorePass), AllocError>
        ensures table { IfOk result (λ r. r.0.opening
            ≡ record { tables = store; recorded = false }) }
        ensures pass { IfOk result (λ r. r.1 ≡ first_pass r.0.table r.0.opening) }
    {
        open_with(alloc, store, None)
    }

    /// Answers a request of a slave in one turn, as a store of one caller answers it at the place of this call in the one history. That
    /// history begins with all that the pass had seen. `None` answers a broadcast.
    ///
    /// # Errors
    /// An exception exactly where the store of one caller answers it. `NoMemory` where memory was refused, or where the history has
    /// 2^64 - 1 calls; no call was then added, and the store and what the pass has seen are as before. All memory of a call is taken
    /// before the store changes.
    pub fn call<R: Wait>(
        &self,
        rt: &R,
        alloc: Global,
        pass: &mut StorePass,
        request: SlaveRequest<'_>,
    ) -> Result<Option<Response>, ServiceError>
        requires { IsPassOf self.now pass.old }
        ensures answer { Keeps caller pass.old request.entry.slave (meaning request.entry.request)
            result pass.new }
        ensures same_store { IsPassOf self.now pass.new }
        ensures none_added { AddsNoCall result pass.old pass.new }
    {
        let (outcome, length) = turn(
            &self.table.shared,
            rt,
            alloc,
            &mut pass.seat,
            pass.number,
            &request,
        )?;
        pass.seen = length;
        outcome.into_answer()
    }

    /// Takes the store out for good, in a last turn. Its tables are what the one history leaves, which begins with all that the pass has
    /// seen. It takes no memory.
    pub fn close<R: Wait>(self, rt: &R, pass: StorePass) -> ClosedStore
        requires { IsPassOf self pass }
        ensures { Closes pass result.last result.store result.history }
    {
        let StorePass {
            mut seat,
            number,
            seen: _,
            drawn: _,
        } = pass;
        let Stored {
            store,
            count: _,
            history,
        } = take_turn(&self.table.shared, rt, &mut seat, number);
        ClosedStore {
            store,
            history,
            last: LastTurn { seat, number },
        }
    }

    /// A new pass of the same store, which has seen what this one has seen, and made no call. It takes no memory.
    ///
    /// # Errors
    /// `PassesOut` exactly where all 2^32 numbers were drawn, as this pass then knows.
    pub fn split<R: Wait>(&self, rt: &R, pass: &mut StorePass) -> Result<StorePass, PassesOut>
        requires { IsPassOf self.now pass.old }
        ensures old { pass.new ≡ record pass.old { drawn = pass.new.drawn } }
        ensures ok { IfOk result (λ new. SplitsOff pass.old pass.new.drawn new) }
        ensures err { IfErr result (λ _. pass.new.drawn ≡ 2 ^ 32) }
    {
        let (drawn, new) = split(&self.table.shared, rt, &mut pass.seat, pass.number);
        pass.drawn = drawn;
        match new {
            Some((seat, number)) => Ok(StorePass {
                seat,
                number,
                seen: pass.seen,
                drawn: 0,
            }),
            None => Err(PassesOut),
        }
    }

    /// What either pass had seen, the first has then seen. The other is used up. It waits for nobody and takes no memory.
    pub fn join(&self, pass: &mut StorePass, other: StorePass)
        requires pass { IsPassOf self.now pass.old }
        requires other { IsPassOf self.now other }
        ensures { TakesIn pass.old other pass.new }
    {
        let StorePass {
            seat,
            number: _,
            seen,
            drawn: _,
        } = other;
        let desk = &self.table.shared;
        glue(desk, &mut pass.seat, seat);
        pass.drawn = load_drawn(desk, &mut pass.seat, pass.number);
        if pass.seen < seen {
            pass.seen = seen;
        }
    }
}

fn open_with(
    alloc: Global,
    store: RegisterStore,
    history: Option<History>,
) -> Result<(StoreTable, StorePass), AllocError>
    requires { IfSome history (λ kept. kept ≡ []) }
    ensures table { IfOk result (λ r. r.0.opening
        ≡ record { tables = store; recorded = is_some history }) }
    ensures pass { IfOk result (λ r. r.1 ≡ first_pass r.0.table r.0.opening) }
{
    let stored = Stored {
        store,
        count: 0,
        history,
    };
    let about = Snapshot::of(&stored);
    let mut slots = Vec::with_capacity(alloc, 1)?;
    slots.push_reserved(Some(stored));
    match Table::new(alloc, &[0; 6], slots, &about) {
        Ok((table, mut seat)) => {
            draw_number(&table.shared, &mut seat, 0);
            let pass = StorePass {
                seat,
                number: 0,
                seen: 0,
                drawn: 0,
            };
            Ok((StoreTable { table }, pass))
        }
        Err(Refused { slots: _ }) => Err(AllocError),
    }
}
