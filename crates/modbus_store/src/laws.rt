//! Laws on the definitions alone.
ghost use Rattle.std.specs.Prelude.{◌≡◌, ℕ, ◌≤◌, List, length, map, Option};
ghost use Rattle.atomic_table.specs.Table.{State};
ghost use Rattle.modbus_frame.specs.Meaning.{Asked};
ghost use Rattle.modbus_pdu.specs.Limits.{max_pdu};
ghost use Rattle.modbus_service.specs.Outcome.{reply_pdu};
ghost use Rattle.modbus_store.specs.Tables.{Tables};
ghost use Rattle.modbus_store.specs.Step.{store_step};
ghost use Rattle.modbus_store.specs.declared.lock.Stored.{Stored};
ghost use Rattle.modbus_store.specs.Legal.{Call, CallAsked, asking_of, IsLegal};
ghost use Rattle.modbus_store.specs.Views.{Opening, View};
ghost use Rattle.modbus_store.specs.Lock.{Kept};
ghost use Rattle.modbus_store.specs.Plays.{Mine};
ghost use Rattle.modbus_store.specs.Orderly.{IsOrderly};
ghost use Rattle.modbus_store.specs.Events.{AddsCall, LeavesHistory};

use modbus_pdu::responses_have_sizes;

/// Each answer of a store fits a PDU, which has at most 253 bytes (Modbus Application Protocol V1.1b3, section 4.1).
pub fn answers_fit()
    ensures { (code : ℕ) (tables : Tables) (slave : ℕ) (request : Asked)
        → length (reply_pdu code (store_step tables slave request).0) ≤ max_pdu }
{
    responses_have_sizes();
}

/// Calls, each of a pass and a slave, have exactly one legal history from given tables: there is one, and there are no two.
pub fn calls_have_one_history()
    ensures is_there { (tables : Tables) (asked : List CallAsked)
        → (history : List Call) × IsLegal tables history × (map asking_of history ≡ asked) }
    ensures is_one { (tables : Tables) (one other : List Call) → IsLegal tables one
        → IsLegal tables other → map asking_of one ≡ map asking_of other → one ≡ other }
{}

/// What the rule of the lock of a shared store comes to, between any two of its steps.
pub fn the_lock_is_orderly()
    ensures { (opening : Opening) (state : State (Option Stored) View) → Kept opening state
        → IsOrderly opening state }
{}

/// A call joins the history of a shared store at one step, which counts it, and no other step changes the history. Of all seats a step may
/// change what the one that takes it knows; a split makes one more, and a join leaves the other spent.
pub fn a_call_joins_at_one_step()
    ensures counts { (opening : Opening) (history : List Call) (id : ℕ) (me : Mine)
        → AddsCall opening history id me }
    ensures others { (opening : Opening) (history : List Call) (id : ℕ) (me : Mine)
        → LeavesHistory opening history id me }
{}
