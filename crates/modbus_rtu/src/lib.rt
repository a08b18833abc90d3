//! RTU framing: the checksum, the length rules, the search for frames in the bytes that came so far, and the inbox of a server
//! (MODBUS over Serial Line V1.02, section 2.5.1).
//!
//! A line carries noise, and its bytes come in pieces. The definitions say which frames a whole list of bytes has, whatever its
//! pieces; the laws say how that reading goes on when bytes follow; and the inbox keeps to it with at most `MAX_FRAME` bytes in
//! hand.
#![tactic(auto)]

mod codec;
mod crc;
mod crc_table;
mod decoder;
mod encoder;
mod front;
mod inbox;
pub mod laws;
mod length;
mod response_length;
mod search;
mod verdict;

pub use crate::codec::{ClientCodec, ServerCodec};
pub use crate::crc::{CrcMismatch, calc_crc, check_crc};
pub use crate::decoder::{Decoder, FrameDecoder, FrameFault, RequestDecoder, ResponseDecoder};
pub use crate::encoder::{encode_request_frame, encode_response_frame};
pub use crate::front::Crowd;
pub use crate::inbox::{Inbox, RtuError, RtuFrame};
pub use crate::length::{LengthRule, MAX_FRAME, NoLength, RequestRule, request_pdu_len};
pub use crate::response_length::{LONGEST_IDENTIFICATION, ResponseRule, response_pdu_len};
pub use crate::search::{MAX_RETRIES, Next, next_frame, next_frame_by};
pub use crate::verdict::{Verdict, judge, judge_by};
