//! One turn of a call: what is done while the store is out of its slot.
ghost use Rattle.std.specs.Prelude.{◌≡◌, ◌∷◌, [], ◌++◌, ◌+◌, ◌<◌, length, IfOk, IfErr};
ghost use Rattle.std.specs.Option.{option_map};
ghost use Rattle.modbus_frame.specs.Meaning.{meaning};
ghost use Rattle.modbus_store.specs.Outcomes.{outcome_of};
ghost use Rattle.modbus_store.specs.Legal.{call};
ghost use Rattle.modbus_store.specs.Turns.{IsDesk, IsAtRest, ExtendsView, ServesCall, Files};
ghost use Rattle.modbus_store.specs.Step.{store_step};
ghost use Rattle.modbus_store.specs.Plan.{tables_after};

use crate::change::Change;
use crate::history::{Entry, History, Roomy};
use crate::lock::Stored;
use crate::outcome::Outcome;
use crate::plan::Planned;
use crate::steps::{Desk, Spot, count, leave, take_turn};
use crate::store::RegisterStore;
use modbus_frame::SlaveRequest;
use modbus_service::ServiceError;
use std::alloc::{AllocError, Global};
use std::sync::Wait;

/// An entry, and the room for it in the record.
pub(crate) struct Filed {
    room: Roomy,
    entry: Entry,
}

/// All that the record of a call takes of memory, where a record is kept.
fn file(
    alloc: Global,
    history: Option<History>,
    number: u32,
    request: &SlaveRequest<'_>,
    outcome: &Outcome,
) -> Result<Option<Filed>, (Option<History>, AllocError)>
    ensures ok { IfOk result (λ filed.
        Files history (call number request.now.slave (meaning request.now.request)
        (outcome_of outcome.now)) filed) }
    ensures err { IfErr result (λ e. e.0 ≡ history) }
{
    let Some(history) = history else {
        return Ok(None);
    };
    let entry = match entry_of(alloc, number, request, outcome) {
        Ok(entry) => entry,
        Err(error) => return Err((Some(history), error)),
    };
    match history.with_room() {
        Ok(room) => Ok(Some(Filed { room, entry })),
        Err((history, error)) => Err((Some(history), error)),
    }
}

fn entry_of(
    alloc: Global,
    number: u32,
    request: &SlaveRequest<'_>,
    outcome: &Outcome,
) -> Result<Entry, AllocError>
    ensures { IfOk result (λ entry. entry
        ≡ call number request.now.slave (meaning request.now.request) (outcome_of outcome.now)) }
{
    let copy = request.request.try_clone(alloc)?;
    let request_kept = copy.into_owned(alloc)?;
    let outcome_kept = outcome.try_clone(alloc)?;
    Ok(Entry {
        seat: number,
        slave: request.slave,
        request: request_kept,
        outcome: outcome_kept,
    })
}

fn with_entry(room: Option<Filed>) -> Option<History>
    ensures { result ≡ option_map (λ f. f.room ++ f.entry ∷ []) room }
{
    match room {
        None => None,
        Some(Filed { room, entry }) => Some(room.add(entry)),
    }
}

/// The outcome of a request and the change that it asks for. Refused memory is the one error.
fn settle<'a>(
    store: &RegisterStore,
    alloc: Global,
    request: &'a SlaveRequest<'_>,
) -> Result<(Outcome, Change<'a>), AllocError>
    ensures { IfOk result (λ done.
        store_step store.now request.now.slave (meaning request.now.request)
        ≡ (outcome_of done.0, tables_after store.now done.1)) }
{
    match store.plan(alloc, request) {
        Ok(Planned { response, change }) => Ok((Outcome::of(response), change)),
        Err(ServiceError::Exception(code)) => Ok((Outcome::Exception(code), Change::Nothing)),
        Err(ServiceError::NoMemory) => Err(AllocError),
    }
}

/// Answers the request. All memory is taken before anything changes.
fn serve(
    alloc: Global,
    stored: Stored,
    number: u32,
    request: &SlaveRequest<'_>,
) -> Result<(Stored, Outcome), (Stored, AllocError)>
    ensures ok { IfOk result (λ done. ServesCall stored
        (call number request.now.slave (meaning request.now.request) (outcome_of done.1)) done.0) }
    ensures err { IfErr result (λ e. e.0 ≡ stored) }
{
    let Stored {
        mut store,
        count,
        history,
    } = stored;
    if count == u64::MAX {
        let stored = Stored {
            store,
            count,
            history,
        };
        return Err((stored, AllocError));
    }
    let (outcome, change) = match settle(&store, alloc, request) {
        Ok(settled) => settled,
        Err(error) => {
            let stored = Stored {
                store,
                count,
                history,
            };
            return Err((stored, error));
        }
    };
    match file(alloc, history, number, request, &outcome) {
        Ok(room) => {
            store.commit(change);
            let stored = Stored {
                store,
                count: count + 1,
                history: with_entry(room),
            };
            Ok((stored, outcome))
        }
        Err((history, error)) => {
            let stored = Stored {
                store,
                count,
                history,
            };
            Err((stored, error))
        }
    }
}

/// One turn. It gives the outcome, and how many calls the history then has. A history of 2^64 - 1 calls has no room for another, which is
/// answered as out of memory.
pub(crate) fn turn<R: Wait>(
    desk: &Desk,
    rt: &R,
    alloc: Global,
    seat: &mut Spot,
    number: u32,
    request: &SlaveRequest<'_>,
) -> Result<(Outcome, u64), AllocError>
    requires desk { (seat.old.table_id ≡ desk.now.table_id) × IsDesk desk.now.table_id }
    requires rests { IsAtRest number seat.old.me }
    ensures desk { seat.new.table_id ≡ seat.old.table_id }
    ensures rests { IsAtRest number seat.new.me }
    ensures ok { IfOk result (λ r. ExtendsView
        (call number request.now.slave (meaning request.now.request) (outcome_of r.0)) seat.old.me.0
        seat.new.me.0 × (r.1 ≡ length seat.new.me.0.seen)) }
    ensures err { IfErr result (λ _. seat.new.me ≡ seat.old.me) }
{
    let stored = take_turn(desk, rt, seat, number);
    match serve(alloc, stored, number, request) {
        Ok((stored, outcome)) => {
            let length = stored.count;
            count(desk, seat, number, request, &outcome);
            leave(desk, seat, number, stored);
            Ok((outcome, length))
        }
        Err((stored, error)) => {
            leave(desk, seat, number, stored);
            Err(error)
        }
    }
}
