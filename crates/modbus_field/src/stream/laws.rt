//! Laws on the pieces of a stream and on the units that are asked, about definitions alone. Each is proved by its contract.
ghost use Rattle.std.specs.Prelude.{◌≡◌, ℕ, List, [], ◌++◌};
ghost use Rattle.modbus_frame.specs.declared.tcp.Header.{Header};
ghost use Rattle.modbus_pdu.specs.Message.{Message};
ghost use Rattle.modbus_field.specs.DefaultUnit.{DefaultUnitRuns, ComesOfBelow};
ghost use Rattle.modbus_field.specs.Pieces.{IsPartial, AreMessages};
ghost use Rattle.modbus_field.specs.ReservedCodes.{RefusesReserved, PassesOthers};

use modbus_service::{Answerer, Service};

/// Bytes are pieces and a rest in one way, however they are cut: the messages of a front of bytes are the first of those of all, and where
/// all bytes are pieces, a rest that is no whole piece is nothing.
pub fn one_reading()
    ensures front { (read rest others : List ℕ) (messages front : List (Message Header))
        → AreMessages (read ++ rest) [] messages → AreMessages read others front
        → (later : List (Message Header)) × (messages ≡ front ++ later) }
    ensures rest { (read left : List ℕ) (messages before : List (Message Header))
        → AreMessages read [] messages → AreMessages read left before → IsPartial left
        → left ≡ [] }
{}

/// A run of a `DefaultUnit` is a run of what lies below over the same requests, each for the unit that is asked, with the same answers, and
/// each such run is one of it.
pub fn default_unit_runs<H, S: Answerer>()
    ensures below { DefaultUnitRuns H S.answering }
    ensures back { ComesOfBelow H S.answering }
{}

/// A function code of 80 (hexadecimal) or above is answered by itself and exception 01, where `ReservedCodes` stands before a service behind
/// `StandardAnswers`; what has any other goes through.
pub fn reserved_codes_are_refused<S: Service>()
    ensures refused { RefusesReserved S.answers S.takes_memory }
    ensures others { PassesOthers }
{}
