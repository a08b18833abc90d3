//! The codecs of the two ends of a serial line: a server reads requests and writes responses, a client the other way round
//! (MODBUS over Serial Line V1.02, section 2.5.1).
ghost use Rattle.std.specs.Prelude.{◌≡◌, ◌<◌, Ok, Err, None, length};
ghost use Rattle.std.specs.Result.{ForErr};
ghost use Rattle.modbus_frame.specs.Codes.{function_number};
ghost use Rattle.modbus_frame.specs.Meaning.{meaning};
ghost use Rattle.modbus_pdu.specs.Encodes.{Encodes};
ghost use Rattle.modbus_pdu.specs.RequestOf.{CarriesList, request_of};
ghost use Rattle.modbus_pdu.specs.ResponseOf.{AnswerCarriesMemory, response_result_of};
ghost use Rattle.modbus_pdu.specs.RequestPdu.{request_pdu};
ghost use Rattle.modbus_pdu.specs.ResponsePdu.{response_result_pdu};
ghost use Rattle.modbus_rtu.specs.Frame.{frame, verdict_of};
ghost use Rattle.modbus_rtu.specs.ResponseHead.{response_verdict};
ghost use Rattle.modbus_rtu.specs.Decoder.{ReadsBy};
ghost use Rattle.modbus_frame.specs.FunctionCodes.{exception_bit};
ghost use Rattle.modbus_rtu.specs.Limits.{max_frame, longest_identification};

use crate::encoder::{encode_request_frame, encode_response_frame};
use crate::front::{Crowd, find_by};
use crate::inbox::RtuError;
use crate::length::RequestRule;
use crate::response_length::ResponseRule;
use crate::search::MAX_RETRIES;
use bytes::BytesMut;
use modbus_frame::{EncodeError, Front, PduError, RequestPdu, rtu};
use modbus_pdu::{decode_request, read_response_pdu};
use std::alloc::Global;

/// The codec of a client: it writes the frames of requests, and reads those of responses.
#[derive(Debug, Default, Drop)]
pub struct ClientCodec;

/// The codec of a server: it reads the frames of requests, and writes those of responses.
#[derive(Debug, Default, Drop)]
pub struct ServerCodec;

impl ClientCodec {
    /// A codec that was given no byte.
    pub fn new() -> ClientCodec {
        ClientCodec
    }

    /// Takes off the next frame of a response, with all bytes before it, and reads its PDU: a response or an exception. `None` where
    /// there is no whole frame; the bytes that begin none are dropped, and fewer than `LONGEST_IDENTIFICATION` bytes are left.
    ///
    /// # Errors
    /// `TooManyRetries` exactly where no frame stands at the first `MAX_RETRIES` offsets; they are dropped. `Invalid` with the
    /// reason, exactly where the PDU of the next frame is refused, whatever memory there is; the frame is gone. `NoMemory` where
    /// memory is refused, only for a PDU that is a response that carries a list or bytes; then the buffer stays as it is, so
    /// that the same frame can be read again.
    #[tactic(auto, unfolding(crate::specs::ResponseHead::response_verdict))]
    pub fn decode(
        &mut self,
        alloc: Global,
        buf: &mut BytesMut,
    ) -> Result<Option<rtu::ResponseAdu>, RtuError>
        ensures reads { ReadsBy response_verdict response_result_of AnswerCarriesMemory
            (λ adu. adu.hdr.slave_id) (λ adu. adu.pdu.0) buf.old.items result buf.new.items }
        ensures short { result ≡ Ok None → length buf.new.items < longest_identification }
    {
        match find_by(&ResponseRule, buf.as_slice()) {
            Err(Crowd) => {
                buf.advance(MAX_RETRIES);
                Err(RtuError::TooManyRetries)
            }
            Ok(Front::Waiting { dropped }) => {
                buf.advance(dropped);
                Ok(None)
            }
            Ok(Front::Message { header, pdu, end }) => match read_response_pdu(alloc, pdu) {
                Ok(pdu) => {
                    buf.advance(end);
                    Ok(Some(rtu::ResponseAdu {
                        hdr: rtu::Header { slave_id: header },
                        pdu,
                    }))
                }
                Err(PduError::Refused(reason)) => {
                    buf.advance(end);
                    Err(RtuError::Invalid(reason))
                }
                Err(PduError::NoMemory) => Err(RtuError::NoMemory),
            },
        }
    }

    /// Appends the frame of a request: its slave address, its PDU, and the checksum of both.
    ///
    /// # Errors
    /// `TooLong` with the size of the PDU in bytes, exactly where that is above `MAX_PDU`. `NoMemory` where memory is refused.
    /// The bytes of the buffer are then as they were.
    pub fn encode(
        &mut self,
        alloc: Global,
        adu: rtu::RequestAdu<'_>,
        buf: &mut BytesMut,
    ) -> Result<(), EncodeError>
        ensures encodes { Encodes (frame adu.entry.hdr.slave_id
            (request_pdu (meaning adu.entry.pdu.0))) (request_pdu (meaning adu.entry.pdu.0))
            buf.old.items result buf.new.items }
        ensures kept { self.new ≡ self.old }
    {
        encode_request_frame(alloc, adu.hdr.slave_id, &adu.pdu.0, buf)
    }
}

impl ServerCodec {
    /// A codec that was given no byte.
    pub fn new() -> ServerCodec {
        ServerCodec
    }

    /// Takes off the next frame of a request, with all bytes before it, and reads its PDU. `None` where there is no whole frame; the
    /// bytes that begin none are dropped, and fewer than `MAX_FRAME` bytes are left.
    ///
    /// # Errors
    /// `TooManyRetries` exactly where no frame stands at the first `MAX_RETRIES` offsets; they are dropped. `Invalid` with the
    /// reason, exactly where the PDU of the next frame is refused, whatever memory there is; the frame is gone. `NoMemory` where
    /// memory is refused, only for a PDU that is a request that carries a list; then the buffer stays as it is, so that the
    /// same frame can be read again.
    #[tactic(auto, unfolding(crate::specs::Frame::verdict_of))]
    pub fn decode(
        &mut self,
        alloc: Global,
        buf: &mut BytesMut,
    ) -> Result<Option<rtu::RequestAdu<'static>>, RtuError>
        ensures reads { ReadsBy verdict_of request_of CarriesList (λ adu. adu.hdr.slave_id)
            (λ adu. meaning adu.pdu.0) buf.old.items result buf.new.items }
        ensures short { result ≡ Ok None → length buf.new.items < max_frame }
    {
        match find_by(&RequestRule, buf.as_slice()) {
            Err(Crowd) => {
                buf.advance(MAX_RETRIES);
                Err(RtuError::TooManyRetries)
            }
            Ok(Front::Waiting { dropped }) => {
                buf.advance(dropped);
                Ok(None)
            }
            Ok(Front::Message { header, pdu, end }) => match decode_request(alloc, pdu) {
                Ok(request) => {
                    buf.advance(end);
                    Ok(Some(rtu::RequestAdu {
                        hdr: rtu::Header { slave_id: header },
                        pdu: RequestPdu(request),
                    }))
                }
                Err(PduError::Refused(reason)) => {
                    buf.advance(end);
                    Err(RtuError::Invalid(reason))
                }
                Err(PduError::NoMemory) => Err(RtuError::NoMemory),
            },
        }
    }

    /// Appends the frame of a response or an exception: its slave address, its PDU, and the checksum of both. The function of an
    /// exception is below `EXCEPTION_BIT`.
    ///
    /// # Errors
    /// `TooLong` with the size of the PDU in bytes, exactly where that is above `MAX_PDU`. `NoMemory` where memory is refused,
    /// only where the buffer had no room for the whole frame. The bytes of the buffer are then as they were.
    pub fn encode(
        &mut self,
        alloc: Global,
        adu: rtu::ResponseAdu,
        buf: &mut BytesMut,
    ) -> Result<(), EncodeError>
        requires { ForErr adu.pdu.0 (λ refusal. function_number refusal.function < exception_bit) }
        ensures encodes { Encodes (frame adu.hdr.slave_id (response_result_pdu adu.pdu.0))
            (response_result_pdu adu.pdu.0) buf.old.items result buf.new.items }
        ensures memory { result ≡ Err EncodeError.NoMemory
            → buf.old.spare < length (frame adu.hdr.slave_id (response_result_pdu adu.pdu.0)) }
        ensures kept { self.new ≡ self.old }
    {
        encode_response_frame(alloc, adu.hdr.slave_id, &adu.pdu.0, buf)
    }
}
