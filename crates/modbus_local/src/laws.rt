//! Laws on exchanges without a transport, about definitions alone. Each is proved by its contract.
ghost use Rattle.std.specs.Prelude.{ℕ};
ghost use Rattle.modbus_frame.specs.Meaning.{Asked};
ghost use Rattle.modbus_pdu.specs.Laws.{ReadsBack};
ghost use Rattle.modbus_client.specs.Matches.{Answer};
ghost use Rattle.modbus_local.specs.Exchange.{ExchangesLocally};
ghost use Rattle.modbus_local.specs.Back.{ComesBack};

use modbus_client::Protocol;
use modbus_client::rtu::Frames;
use modbus_server::Answerer;

/// What an exchange over memory promises of a request that reads back from its PDU says what comes back: the outcome that the service
/// gave when it was asked once.
pub fn outcomes_come_back<V: Answerer>()
    ensures { (before after : V) (slave : ℕ) (asked : Asked) (answer : Answer) → ReadsBack asked
        → ExchangesLocally V.answering before after slave asked answer
        → ComesBack V.answering before after slave asked answer }
{
    modbus_pdu::responses_have_sizes();
    modbus_pdu::responses_read_back();
    modbus_rtu::laws::request_frames();
    modbus_rtu::laws::one_reading();
    modbus_rtu::laws::quiet_lines();
    modbus_rtu::laws::responses_by_front();
    modbus_client::laws::own_results_are_told();
    Frames::laws();
}
