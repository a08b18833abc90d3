//! The ASCII transmission mode of a serial line: the LRC, frames in characters, and a server (MODBUS over Serial Line V1.02,
//! section 2.5.2).
//!
//! A frame is a `:`, two hexadecimal digits for each byte of slave address, PDU and LRC, and CR and LF. The definitions say which frames a
//! whole list of bytes delivers, whatever its pieces; a decoder keeps to them with one look at each byte.
#![tactic(auto)]

pub mod ascii;
mod buffer;
mod checksum;
mod codec;
mod decoder;
mod digit;
mod encoder;
pub mod laws;
mod limits;
mod scan;

pub use crate::buffer::AsciiBuffer;
pub use crate::checksum::lrc;
pub use crate::codec::{AsciiError, ClientCodec, ServerCodec};
pub use crate::decoder::{AsciiDecoder, AsciiFrame};
pub use crate::encoder::{encode_request_frame, encode_response_frame};
pub use crate::limits::{MAX_FRAME, OVERHEAD};
