//! Why a PDU is refused, and why a call of a client or of a codec fails.
//!
//! An exception of the server is no fault of this kind: the exchange worked, and the answer is an
//! [`ExceptionCode`](crate::ExceptionCode).
ghost use Rattle.std.specs.Prelude.{◌≡◌};
ghost use Rattle.modbus_frame.specs.declared.fault.PduError.TheVariants as pdu;
ghost use Rattle.modbus_frame.specs.declared.fault.EncodeError.TheVariants as encode;
ghost use Rattle.modbus_frame.specs.declared.fault.Error.TheVariants as call;

use crate::code::FunctionCode;
use crate::response::{ExceptionResponse, Response};
use crate::slave::SlaveId;
use std::alloc::{AllocError, AllocFailed};

/// The first thing that is wrong with the bytes of a PDU.
#[derive(Clone, Copy, Debug, PartialEq, Eq, thiserror::Error)]
pub enum Reason {
    /// The PDU ends before a byte that its kind has.
    #[error("unexpected end")]
    UnexpectedEnd,
    /// The PDU is longer than a PDU may be (section 4.1).
    #[error("size exceeded")]
    SizeExceeded,
    /// There are fewer bytes than the byte count names.
    #[error("too short")]
    TooShort,
    /// The quantity and the byte count do not agree.
    #[error("invalid quantity")]
    InvalidQuantity,
    /// This word is neither `0xFF00` nor `0x0000`.
    #[error("invalid coil value")]
    InvalidCoil(u16),
    /// This MEI type of an encapsulated interface transport is not device identification (section 6.21).
    #[error("unsupported MEI type")]
    UnsupportedMei(u8),
    /// This byte is no read code.
    #[error("invalid read code")]
    InvalidReadCode(u8),
    /// This byte is no conformity level.
    #[error("invalid conformity level")]
    InvalidConformity(u8),
    /// This run status is neither `0x00` nor `0xFF`.
    #[error("invalid run status")]
    InvalidRunStatus(u8),
    /// The value of an object of a device identification ends past the PDU.
    #[error("invalid object length")]
    InvalidObjectLength,
    /// This function code has no place here: a request has one below [`EXCEPTION_BIT`](crate::function_code::EXCEPTION_BIT), an
    /// exception one from there on.
    #[error("invalid function")]
    InvalidFunction(u8),
    /// The PDU goes on after its last field.
    #[error("undecoded data")]
    UndecodedData,
}

/// A PDU was not read.
#[derive(Clone, Copy, Debug, PartialEq, Eq, thiserror::Error)]
pub enum PduError {
    /// The bytes are no PDU of the kind.
    #[error(transparent)]
    Refused(Reason),
    /// Memory is wanting.
    #[error("no memory")]
    NoMemory,
}

impl From<Reason> for PduError {
    ghost from_gives = { λ reason error. error ≡ pdu.Refused reason };

    fn from(reason: Reason) -> PduError {
        PduError::Refused(reason)
    }
}

impl From<AllocError> for PduError {
    ghost from_gives = { λ _ error. error ≡ pdu.NoMemory };

    fn from(_error: AllocError) -> PduError {
        PduError::NoMemory
    }
}

impl<T: Drop> From<AllocFailed<T>> for PduError {
    ghost from_gives = { λ _ error. error ≡ pdu.NoMemory };

    fn from(_error: AllocFailed<T>) -> PduError {
        PduError::NoMemory
    }
}

/// A frame was not written.
#[derive(Clone, Copy, Debug, PartialEq, Eq, thiserror::Error)]
pub enum EncodeError {
    /// The PDU would have this many bytes, more than a PDU may have (section 4.1).
    #[error("PDU of {0} bytes is too long")]
    TooLong(usize),
    /// Memory is wanting.
    #[error("no memory")]
    NoMemory,
}

impl From<AllocError> for EncodeError {
    ghost from_gives = { λ _ error. error ≡ encode.NoMemory };

    fn from(_error: AllocError) -> EncodeError {
        EncodeError::NoMemory
    }
}

/// A call of a client failed.
#[derive(Debug, PartialEq, Eq, Drop, thiserror::Error)]
pub enum Error {
    /// The response does not belong to the request.
    #[error(transparent)]
    Protocol(ProtocolError),
    /// There is no response that can be read.
    #[error(transparent)]
    Transport(TransportError),
    /// Memory is wanting.
    #[error("no memory")]
    NoMemory,
}

impl From<ProtocolError> for Error {
    ghost from_gives = { λ fault error. error ≡ call.Protocol fault };

    fn from(fault: ProtocolError) -> Error {
        Error::Protocol(fault)
    }
}

impl From<TransportError> for Error {
    ghost from_gives = { λ fault error. error ≡ call.Transport fault };

    fn from(fault: TransportError) -> Error {
        Error::Transport(fault)
    }
}

impl From<AllocError> for Error {
    ghost from_gives = { λ _ error. error ≡ call.NoMemory };

    fn from(_error: AllocError) -> Error {
        Error::NoMemory
    }
}

/// A response that can be read does not belong to its request. Each fault carries what was received.
#[derive(Debug, PartialEq, Eq, Drop, thiserror::Error)]
pub enum ProtocolError {
    /// The response is of another slave, unit identifier or transaction.
    #[error("mismatching headers")]
    HeaderMismatch {
        /// The header of the request.
        request: HeaderSeen,
        /// The header of the response.
        response: HeaderSeen,
        /// The answer.
        result: Result<Response, ExceptionResponse>,
    },
    /// The response is of another function.
    #[error("mismatching function codes: {request}")]
    FunctionCodeMismatch {
        /// The function of the request.
        request: FunctionCode,
        /// The answer.
        result: Result<Response, ExceptionResponse>,
    },
    /// The response is of the right function, and does not fit the request otherwise: another address, or another
    /// number of coils or registers.
    #[error("mismatching payload")]
    PayloadMismatch {
        /// The response.
        response: Response,
    },
}

/// What a client compares of two headers.
#[derive(Clone, Copy, Debug, PartialEq, Eq)]
pub struct HeaderSeen {
    /// The transaction of an ADU of Modbus TCP; `None` on a serial line.
    pub transaction_id: Option<u16>,
    /// The slave, or the unit identifier of such an ADU.
    pub slave_id: SlaveId,
}

/// There is no response that can be read.
#[derive(Clone, Copy, Debug, PartialEq, Eq, thiserror::Error)]
pub enum TransportError {
    /// The client has no link.
    #[error("disconnected")]
    NotConnected,
    /// A read failed.
    #[error("read fault")]
    ReadFault,
    /// A write failed.
    #[error("write fault")]
    WriteFault,
    /// The input ended before the response began.
    #[error("broken pipe")]
    BrokenPipe,
    /// The input ended inside a response.
    #[error("bytes remaining")]
    BytesRemaining,
    /// No frame was found among too many bytes.
    #[error("too many retries")]
    TooManyRetries,
    /// The PDU of the request would have this many bytes, more than a PDU may have (section 4.1).
    #[error("request PDU size exceeded")]
    RequestTooLong(usize),
    /// A frame was received whose PDU is refused.
    #[error("invalid response: {0}")]
    InvalidResponse(Reason),
    /// An MBAP header tells the length 0.
    #[error("invalid length")]
    InvalidLength,
    /// An MBAP header tells this protocol, which is not 0.
    #[error("invalid protocol {0}")]
    InvalidProtocol(u16),
    /// As many reads gave bytes as the client may make, and no response was found.
    #[error("turn limit")]
    TurnLimit,
}

/// A link was not shut down.
#[derive(Clone, Copy, Debug, PartialEq, Eq, thiserror::Error)]
#[error("shutdown fault")]
pub struct ShutdownFault;

/// A link was not opened.
#[derive(Clone, Copy, Debug, PartialEq, Eq, thiserror::Error)]
#[error("connect fault")]
pub struct ConnectFault;
