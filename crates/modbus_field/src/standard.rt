//! What the standard has a server answer to a PDU that it can't read (Modbus Application Protocol V1.1b3, section 6 and its state diagrams).
//!
//! A server of the other framings ends where a PDU is no request. A device on a real line goes on: `decode_any` has a request for whatever
//! stands where a PDU is, and `StandardAnswers` answers what could not be read by the standard's table, so that no service sees it.

mod answers;
mod decode;
pub mod laws;

pub use crate::standard::answers::{StandardAnswers, Unread, unread_request};
pub use crate::standard::decode::{NO_FUNCTION, decode_any};
