//! Modbus protocol data units: requests as bytes and back, packed coils, and their sizes.
//!
//! A PDU is a function code and its data, at most `MAX_PDU` bytes where it is encoded (Modbus
//! Application Protocol V1.1b3, section 4.1). The framings of serial line and TCP stand on this
//! crate, and add nothing to what a PDU means.
#![tactic(auto)]

mod coils;
mod cursor;
mod exception;
mod laws;
mod limits;
mod request_decoder;
mod request_encoder;
mod response_decoder;
mod response_encoder;
mod response_laws;
mod words;
mod writing;

pub use crate::coils::{
    bool_to_coil, coil_to_bool, decode_packed_coils, encode_packed_coils, packed_coils_size,
};
pub use crate::exception::{decode_exception, encode_exception_response_pdu};
pub use crate::laws::{
    coils_are_packed, request_reads_back, requests_have_sizes, requests_read_back,
};
pub use crate::limits::{
    CODE_PDU, FIFO_HEAD, IDENTIFICATION_HEAD, IDENTIFICATION_REQUEST, MAX_FIFO_COUNT, MAX_PDU,
    MAX_READ_COILS, MAX_READ_REGISTERS, MAX_READ_WRITE_REGISTERS, MAX_WRITE_COILS,
    MAX_WRITE_REGISTERS, MEI_DEVICE_IDENTIFICATION, ONE_BYTE_PDU, ONE_WORD_PDU, READ_HEAD,
    READ_WRITE_HEAD, THREE_WORDS_PDU, TWO_WORDS_PDU, TooLong, WRITE_HEAD,
};
pub use crate::request_decoder::decode_request;
pub use crate::request_encoder::{encode_request_pdu, put_request_pdu, request_pdu_size};
pub use crate::response_decoder::{
    decode_response, decode_response_pdu, read_response, read_response_pdu,
};
pub use crate::response_encoder::{
    encode_response_pdu, encode_response_result_pdu, put_response_result_pdu, response_pdu_size,
    response_result_pdu_size,
};
pub use crate::response_laws::{responses_have_sizes, responses_read_back};
