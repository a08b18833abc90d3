//! Laws on what a port keeps, tells and leaves to its units, about definitions alone. Each is proved by its contract.
ghost use Rattle.std.specs.Prelude.{◌≡◌, ℕ, List, [], ◌∷◌, true, false};
ghost use Rattle.modbus_field.specs.Unread.{any_request_of};
ghost use Rattle.modbus_diagnostics.specs.Heard.{is_noise};
ghost use Rattle.modbus_diagnostics.specs.Port.{AddressesStay, CountsAll, JournalIsOfNotes, ListensInSilence, TellsNotes, PortRuns, RunsAreNoted};

use modbus_service::Answerer;

/// Of each run of a port there are notes of what it heard and how that ended, and what it keeps is that of these notes.
pub fn runs_are_noted<H, S: Answerer>()
    ensures notes { RunsAreNoted H S.answering }
    ensures journal { JournalIsOfNotes H S.answering }
{}

/// The counters of a port are at each time the counts over what it heard since it began, or since they were cleared, and what asks for one
/// is told its count.
pub fn counters_are_counts<H, S: Answerer>()
    ensures counts { CountsAll H S.answering }
    ensures told { TellsNotes H S.answering }
{}

/// A run of a port is a run of its units over the messages that do not ask the port itself, in order, with the same answers.
pub fn port_runs<H, S: Answerer>()
    ensures { PortRuns H S.answering }
{}

/// The units behind a port keep their addresses, so that a port which was made of units counts for exactly these in each run.
pub fn addresses_stay<H, S: Answerer>()
    ensures { AddressesStay H S.answering }
{}

/// A port that was told to listen only answers nothing, and its units do nothing, until it is restarted.
pub fn listens_in_silence<H, S: Answerer>()
    ensures { ListensInSilence H S.answering }
{}

/// What stands where a PDU is asks as noise exactly where there is no byte of it.
pub fn noise_has_no_byte()
    ensures noise { is_noise (any_request_of []) ≡ true }
    ensures message { (code : ℕ) (rest : List ℕ) → is_noise (any_request_of (code ∷ rest)) ≡ false }
{
    modbus_field::standard::laws::requests_are_read();
}
