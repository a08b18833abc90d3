//! Typed calls that ask a device for its state, and which requests of such functions only read.

use crate::text::Text;
use crate::typed::push_answer;
use crate::word::Word;
use modbus_calls::{Diagnoser, Diagnostic, only_reads_code};
use modbus_client::Client;
use modbus_frame::Request;

/// The sub-function of Diagnostics with this number and this data field.
fn diagnostic_of(sub: u8, field: u16) -> Option<Diagnostic> {
    Some(match sub {
        0x00 => Diagnostic::ReturnQueryData(field),
        0x01 => Diagnostic::RestartCommunications {
            clear_log: field != 0,
        },
        0x02 => Diagnostic::ReturnDiagnosticRegister,
        0x03 => Diagnostic::ChangeAsciiDelimiter(field.to_be_bytes()[0]),
        0x04 => Diagnostic::ForceListenOnly,
        0x0A => Diagnostic::ClearCounters,
        0x0B => Diagnostic::ReturnBusMessageCount,
        0x0C => Diagnostic::ReturnBusCommunicationErrorCount,
        0x0D => Diagnostic::ReturnBusExceptionErrorCount,
        0x0E => Diagnostic::ReturnServerMessageCount,
        0x0F => Diagnostic::ReturnServerNoResponseCount,
        0x10 => Diagnostic::ReturnServerNakCount,
        0x11 => Diagnostic::ReturnServerBusyCount,
        0x12 => Diagnostic::ReturnBusCharacterOverrunCount,
        0x14 => Diagnostic::ClearOverrunCounter,
        _ => return None,
    })
}

/// Makes the typed call of Diagnostics with this data.
fn diagnose<C: Client>(text: &mut Text, client: &mut C, data: &[u8]) -> bool {
    let [_high, sub, high, low] = data else {
        return false;
    };
    match diagnostic_of(*sub, u16::from_be_bytes([*high, *low])) {
        Some(diagnostic) => push_answer(text, client.diagnose(diagnostic)),
        None => return false,
    }
    true
}

/// Makes the typed call of a request that asks a device for its state.
pub fn ask<C: Client>(text: &mut Text, client: &mut C, request: &Request<'_>) -> bool {
    match request {
        Request::Custom(0x07, _) => push_answer(text, client.read_exception_status()),
        Request::Custom(0x08, data) => return diagnose(text, client, data.as_slice()),
        Request::Custom(0x0B, _) => push_answer(text, client.get_comm_event_counter()),
        Request::Custom(0x0C, _) => push_answer(text, client.get_comm_event_log()),
        Request::ReportServerId => push_answer(text, client.report_server_id()),
        _ => return false,
    }
    true
}

/// `only_reads`, and the bytes of a request.
pub fn answer_only_reads(text: &mut Text, words: &[Word]) -> bool {
    let [request] = words else {
        return false;
    };
    match request.bytes().and_then(|pdu| pdu.split_first()) {
        Some((function, data)) => text.push_shown(only_reads_code(*function, data)),
        None => return false,
    }
    true
}
