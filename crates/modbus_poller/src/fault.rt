//! What happened, in words.

use modbus_frame::{Error, ExceptionCode, ProtocolError, Response, TransportError};
use modbus_map::Table;
use modbus_plant::SttyCommand;
use std::fmt;
use std::io::ErrorKind;

/// The circumstances of a call that failed.
#[derive(Clone, Copy)]
pub struct Circumstances<'a> {
    /// What the system said when the last connection failed.
    pub refusal: Option<ErrorKind>,
    /// How long the device may take, in milliseconds.
    pub limit: u64,
    /// Whether as much time had passed.
    pub is_late: bool,
    /// What sets the port where it was asked over a serial line.
    pub port: Option<SttyCommand<'a>>,
}

/// Why a call has no answer, in words.
#[derive(Drop)]
pub struct NoAnswer<'a> {
    pub error: &'a Error,
    pub circumstances: Circumstances<'a>,
}

impl fmt::Display for NoAnswer<'_> {
    fn fmt<W: fmt::Write>(&self, f: &mut fmt::Formatter<W>) -> fmt::Result {
        match self.error {
            Error::Transport(fault) => write_transport(f, *fault, self.circumstances),
            Error::Protocol(fault) => write_protocol(f, fault),
            Error::NoMemory => f.write_str("no memory"),
        }
    }
}

fn write_transport<W: fmt::Write>(
    f: &mut fmt::Formatter<W>,
    fault: TransportError,
    circumstances: Circumstances<'_>,
) -> fmt::Result {
    match fault {
        TransportError::NotConnected => write_unconnected(f, circumstances),
        TransportError::ReadFault | TransportError::WriteFault if circumstances.is_late => {
            write_late(f, circumstances)
        }
        TransportError::BytesRemaining => f.write_str(
            "the device closed the connection within its answer",
        ),
        TransportError::ReadFault | TransportError::WriteFault | TransportError::BrokenPipe => {
            write_broken(f, fault, circumstances.port.is_some())
        }
        other => write!(f, "no Modbus answer: {other}"),
    }
}

/// Writes that no answer came in time. A serial port gives none where it is not set, which can't be seen, so what sets it is told.
fn write_late<W: fmt::Write>(
    f: &mut fmt::Formatter<W>,
    circumstances: Circumstances<'_>,
) -> fmt::Result {
    let limit = circumstances.limit;
    write!(f, "no answer within {limit} ms")?;
    match circumstances.port {
        Some(command) => write!(f, "; if the port is not set: {command}"),
        None => Ok(()),
    }
}

/// Writes how a link broke.
fn write_broken<W: fmt::Write>(
    f: &mut fmt::Formatter<W>,
    fault: TransportError,
    is_serial: bool,
) -> fmt::Result {
    match (fault, is_serial) {
        (TransportError::ReadFault, false) => {
            f.write_str("the connection broke before the answer")
        }
        (TransportError::WriteFault, false) => {
            f.write_str("the connection broke under the request")
        }
        (TransportError::WriteFault, true) => f.write_str(
            "the serial port broke under the request",
        ),
        (_, false) => f.write_str("the device closed the connection without an answer"),
        (_, true) => f.write_str("the serial port broke before the answer"),
    }
}

fn write_unconnected<W: fmt::Write>(
    f: &mut fmt::Formatter<W>,
    circumstances: Circumstances<'_>,
) -> fmt::Result {
    match circumstances.refusal {
        Some(ErrorKind::ConnectionRefused) => f.write_str("connection refused"),
        Some(ErrorKind::TimedOut) => {
            let limit = circumstances.limit;
            write!(f, "no connection within {limit} ms")
        }
        Some(kind) => write!(f, "no connection: {kind}"),
        None if circumstances.port.is_some() => {
            f.write_str("the serial port broke, or does not fall silent")
        }
        None => f.write_str("no connection"),
    }
}

fn write_protocol<W: fmt::Write>(f: &mut fmt::Formatter<W>, fault: &ProtocolError) -> fmt::Result {
    match fault {
        ProtocolError::HeaderMismatch { .. } => f.write_str("an answer to another request"),
        ProtocolError::FunctionCodeMismatch { .. } => f.write_str("an answer to another function"),
        ProtocolError::PayloadMismatch { response } => match response {
            Response::ReadHoldingRegisters(words) | Response::ReadInputRegisters(words) => {
                let what = OtherCount(words.as_slice().len());
                write!(f, "{what}")
            }
            _ => f.write_str("an answer to another request"),
        },
    }
}

/// The word for so many places of a table.
pub fn places(table: Table, count: usize) -> &'static str {
    match (table, count == 1) {
        (Table::Coils, true) => "coil",
        (Table::Coils, false) => "coils",
        (Table::DiscreteInputs, true) => "discrete input",
        (Table::DiscreteInputs, false) => "discrete inputs",
        (Table::InputRegisters, true) => "input register",
        (Table::InputRegisters, false) => "input registers",
        (Table::HoldingRegisters, true) => "holding register",
        (Table::HoldingRegisters, false) => "holding registers",
    }
}

/// An answer with another number of registers than it was asked for, in words.
#[derive(Drop)]
pub struct OtherCount(pub usize);

impl fmt::Display for OtherCount {
    fn fmt<W: fmt::Write>(&self, f: &mut fmt::Formatter<W>) -> fmt::Result {
        let found = self.0;
        let registers = if found == 1 { "register" } else { "registers" };
        write!(f, "an answer with {found} {registers}")
    }
}

/// What an exception tells (V1.1b3, section 7).
fn meaning(code: ExceptionCode) -> &'static str {
    match code {
        ExceptionCode::IllegalFunction => "illegal function",
        ExceptionCode::IllegalDataAddress => "illegal data address",
        ExceptionCode::IllegalDataValue => "illegal data value",
        ExceptionCode::ServerDeviceFailure => "server device failure",
        ExceptionCode::Acknowledge => "acknowledge",
        ExceptionCode::ServerDeviceBusy => "server device busy",
        ExceptionCode::MemoryParityError => "memory parity error",
        ExceptionCode::GatewayPathUnavailable => "gateway path unavailable",
        ExceptionCode::GatewayTargetDevice => "gateway target device failed to respond",
        ExceptionCode::Custom(_) => "of no standard",
    }
}

/// An exception, in words.
#[derive(Drop)]
pub struct Refused(pub ExceptionCode);

impl fmt::Display for Refused {
    fn fmt<W: fmt::Write>(&self, f: &mut fmt::Formatter<W>) -> fmt::Result {
        let number = u8::from(self.0);
        let text = meaning(self.0);
        write!(f, "exception {number:02X}: {text}")
    }
}
