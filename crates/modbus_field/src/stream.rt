//! Modbus TCP for a device that faces a network (MODBUS Messaging on TCP/IP V1.0b, section 3.1.3).
//!
//! A header tells how many bytes follow it, so a stream is pieces, each a header and what it tells. `StreamBuffer` is the framing of the
//! engine in which each piece is a message. A header of another protocol, or one that tells no byte or more than a request has, ends the
//! stream as soon as it is read: where the next header would stand is not known, so no byte behind it is held. A PDU that can't be read is
//! asked too (`standard`), so that it has the standard's exception.
//! `DefaultUnit` is the device that masters address by 255 or 0. `ReservedCodes` answers the function codes that no request may have.

mod buffer;
mod default_unit;
pub mod laws;
mod line;
mod piece;
mod reserved;

pub use crate::stream::buffer::StreamBuffer;
pub use crate::stream::default_unit::{DefaultUnit, NON_SIGNIFICANT};
pub use crate::stream::line::{
    Connection, ConnectionWorker, PolledProcess, Server, process, process_link,
};
pub use crate::stream::reserved::ReservedCodes;
