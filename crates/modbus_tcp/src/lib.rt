//! Modbus TCP: ADUs of an MBAP header and a PDU, and the codecs of the two ends of a connection
//! (MODBUS Messaging on TCP/IP V1.0b, section 3.1).
//!
//! A connection loses no byte and adds none, so ADUs stand one after another, and a header tells where its ADU ends. What tells
//! no ADU is a fault of the other end, and nothing is searched for after it.
#![tactic(auto)]

mod codec;
mod decoder;
mod encoder;
pub mod laws;
mod mbap;
mod stream;
mod transaction;

pub use crate::codec::{ClientCodec, ServerCodec};
pub use crate::decoder::{AduDecoder, TcpError};
pub use crate::encoder::{encode_request_adu, encode_response_adu};
pub use crate::mbap::{HEADER, MODBUS, UNCOUNTED, front};
pub use crate::stream::{HeaderFault, LONGEST_ADU, LONGEST_RESPONSE};
pub use crate::transaction::TransactionIds;
