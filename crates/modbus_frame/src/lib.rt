//! What the Modbus protocol speaks of: slaves, codes, requests, responses and faults, without how they are written.
//!
//! Every other crate of the workspace stands on these types. How they are read and written is the work of the codecs;
//! here is what they mean, which numbers their codes have, and when two of them are equal. The standard is the Modbus
//! Application Protocol V1.1b3.
#![tactic(auto)]

/// The crate of byte buffers, whose `Bytes` holds raw payloads.
pub use bytes;

mod code;
mod fault;
mod front;
pub mod function_code;
mod identification;
pub mod laws;
mod list;
mod pdu;
mod request;
mod response;
pub mod rtu;
mod server;
mod slave;
pub mod tcp;

pub use crate::code::{ConformityLevel, ExceptionCode, FunctionCode, ReadCode};
pub use crate::fault::{
    ConnectFault, EncodeError, Error, HeaderSeen, PduError, ProtocolError, Reason, ShutdownFault,
    TransportError,
};
pub use crate::front::Front;
pub use crate::identification::{
    DeviceIdObject, DeviceIdObjects, MoreFollows, NextObjectId, ObjectId,
    ReadDeviceIdentificationResponse,
};
pub use crate::list::{Address, Coil, Coils, Data, Items, Quantity, Word, Words};
pub use crate::pdu::{OptionalResponsePdu, RequestPdu, ResponsePdu};
pub use crate::request::{Request, SlaveRequest};
pub use crate::response::{ExceptionResponse, Response};
pub use crate::server::Terminated;
pub use crate::slave::{ParseSlaveError, Slave, SlaveContext, SlaveId};

/// The answer of a client's call, in two layers: the [`Error`] of the exchange, and in it the [`ExceptionCode`] of the
/// server or what was asked for.
pub type Result<T> = std::result::Result<std::result::Result<T, ExceptionCode>, Error>;
