//! The texts of faults, each with its name.

use crate::text::Text;
use crate::word::Word;
use modbus_frame::{
    ConnectFault, EncodeError, Error, ExceptionCode, ExceptionResponse, FunctionCode, HeaderSeen,
    ParseSlaveError, PduError, ProtocolError, Reason, Response, ShutdownFault, TransportError,
};
use modbus_server::ProcessError;
use modbus_tcp::TcpError;

fn transport(text: &mut Text, name: &str) -> bool {
    let fault = match name {
        "NotConnected" => TransportError::NotConnected,
        "ReadFault" => TransportError::ReadFault,
        "WriteFault" => TransportError::WriteFault,
        "BrokenPipe" => TransportError::BrokenPipe,
        "BytesRemaining" => TransportError::BytesRemaining,
        "TooManyRetries" => TransportError::TooManyRetries,
        "RequestTooLong" => TransportError::RequestTooLong(254),
        "InvalidResponse" => TransportError::InvalidResponse(Reason::TooShort),
        "InvalidLength" => TransportError::InvalidLength,
        "InvalidProtocol" => TransportError::InvalidProtocol(65535),
        "TurnLimit" => TransportError::TurnLimit,
        _ => return false,
    };
    text.push_told(fault);
    true
}

fn process(text: &mut Text, name: &str) -> bool {
    let fault = match name {
        "ReadFault" => ProcessError::ReadFault,
        "WriteFault" => ProcessError::WriteFault,
        "TooManyRetries" => ProcessError::TooManyRetries,
        "BytesRemaining" => ProcessError::BytesRemaining,
        "InvalidRequest" => ProcessError::InvalidRequest(Reason::InvalidCoil(7)),
        "ResponseTooLong" => ProcessError::ResponseTooLong(254),
        "TurnLimit" => ProcessError::TurnLimit,
        "InvalidLength" => ProcessError::InvalidLength,
        "InvalidProtocol" => ProcessError::InvalidProtocol(7),
        "NoMemory" => ProcessError::NoMemory,
        _ => return false,
    };
    text.push_told(fault);
    true
}

/// The faults of a response that does not belong to its request.
fn protocol(name: &str) -> Option<ProtocolError> {
    let refusal = ExceptionResponse {
        function: FunctionCode::ReadDiscreteInputs,
        exception: ExceptionCode::IllegalDataValue,
    };
    let header = HeaderSeen {
        transaction_id: None,
        slave_id: 1,
    };
    Some(match name {
        "HeaderMismatch" => ProtocolError::HeaderMismatch {
            request: header,
            response: header,
            result: Err(refusal),
        },
        "FunctionCodeMismatch" => ProtocolError::FunctionCodeMismatch {
            request: FunctionCode::ReadWriteMultipleRegisters,
            result: Err(refusal),
        },
        "PayloadMismatch" => ProtocolError::PayloadMismatch {
            response: Response::WriteSingleCoil(1, true),
        },
        _ => return None,
    })
}

fn encode(text: &mut Text, name: &str) -> bool {
    let fault = match name {
        "TooLong" => EncodeError::TooLong(254),
        "NoMemory" => EncodeError::NoMemory,
        _ => return false,
    };
    text.push_told(fault);
    true
}

fn pdu(text: &mut Text, name: &str) -> bool {
    let fault = match name {
        "Refused" => PduError::Refused(Reason::TooShort),
        "NoMemory" => PduError::NoMemory,
        _ => return false,
    };
    text.push_told(fault);
    true
}

fn tcp(text: &mut Text, name: &str) -> bool {
    let fault = match name {
        "InvalidLength" => TcpError::InvalidLength,
        "InvalidProtocol" => TcpError::InvalidProtocol(7),
        "Invalid" => TcpError::Invalid(Reason::UndecodedData),
        "NoMemory" => TcpError::NoMemory,
        _ => return false,
    };
    text.push_told(fault);
    true
}

fn error(text: &mut Text, name: &str) -> bool {
    let fault = match name {
        "NoMemory" => Error::NoMemory,
        "Transport" => Error::Transport(TransportError::BrokenPipe),
        _ => return false,
    };
    text.push_told(fault);
    true
}

/// The text of such a fault.
fn mismatch(text: &mut Text, name: &str) -> bool {
    match protocol(name) {
        Some(fault) => text.push_told(Error::Protocol(fault)),
        None => return false,
    }
    true
}

/// The text of a fault that has no variants.
fn single(text: &mut Text, name: &str) -> bool {
    match name {
        "ShutdownFault" => text.push_told(ShutdownFault),
        "ConnectFault" => text.push_told(ConnectFault),
        "ParseSlaveError" => text.push_told(ParseSlaveError),
        _ => return false,
    }
    true
}

/// The text of a fault of this type.
fn of_type(text: &mut Text, kind: &str, name: &str) -> bool {
    match kind {
        "TransportError" => transport(text, name),
        "ProcessError" => process(text, name),
        "ProtocolError" => mismatch(text, name),
        "EncodeError" => encode(text, name),
        "PduError" => pdu(text, name),
        "TcpError" => tcp(text, name),
        "Error" => error(text, name),
        _ => false,
    }
}

/// `text` and the name of a fault.
pub fn answer(text: &mut Text, call: &str, words: &[Word]) -> bool {
    match words {
        [word] if call == "text" => match word.text().split_once("::") {
            Some((kind, name)) => of_type(text, kind, name),
            None => single(text, word.text()),
        },
        _ => false,
    }
}
