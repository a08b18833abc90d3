//! The codecs of the two ends of a line in the ASCII transmission mode: a server reads requests and writes responses, a client the other way
//! round (MODBUS over Serial Line V1.02, section 2.5.2).
ghost use Rattle.std.specs.Prelude.{◌≡◌, ℕ, ◌<◌, List, [], ◌∷◌, ◌++◌, Err, length};
ghost use Rattle.std.specs.Prelude.{IsOkAnd};
ghost use Rattle.std.specs.Result.{ForErr};
ghost use Rattle.modbus_pdu.specs.SlavePdu.{SlavePdu};
ghost use Rattle.modbus_frame.specs.Codes.{function_number};
ghost use Rattle.modbus_frame.specs.FunctionCodes.{exception_bit};
ghost use Rattle.modbus_frame.specs.Meaning.{meaning};
ghost use Rattle.modbus_pdu.specs.Encodes.{Encodes};
ghost use Rattle.modbus_pdu.specs.RequestOf.{CarriesList, request_of};
ghost use Rattle.modbus_pdu.specs.ResponseOf.{AnswerCarriesMemory, response_result_of};
ghost use Rattle.modbus_pdu.specs.RequestPdu.{request_pdu};
ghost use Rattle.modbus_pdu.specs.ResponsePdu.{response_result_pdu};
ghost use Rattle.modbus_ascii.specs.Codec.{AnswersBy, error_of};
ghost use Rattle.modbus_ascii.specs.Decoder.{DecodesText};
ghost use Rattle.modbus_ascii.specs.Encoder.{frame};
ghost use Rattle.modbus_ascii.specs.Frames.{frames};
ghost use Rattle.modbus_ascii.specs.declared.codec.AsciiError.TheVariants as errors;

use crate::decoder::AsciiDecoder;
use crate::encoder::{encode_request_frame, encode_response_frame};
use bytes::BytesMut;
use modbus_frame::{EncodeError, PduError, Reason, RequestPdu, rtu};
use modbus_pdu::{decode_request, read_response_pdu};
use std::alloc::{AllocError, Global};
use std::marker::Model;

/// Why a frame gives no message.
#[derive(Clone, Copy, Debug, PartialEq, Eq, thiserror::Error)]
pub enum AsciiError {
    /// Its PDU is refused for this reason.
    #[error("invalid frame: {0}")]
    Invalid(Reason),
    /// Memory is refused.
    #[error("no memory")]
    NoMemory,
}

impl From<AllocError> for AsciiError {
    ghost from_gives = { λ _ error. error ≡ errors.NoMemory };

    fn from(_error: AllocError) -> AsciiError {
        AsciiError::NoMemory
    }
}

impl From<PduError> for AsciiError {
    ghost from_gives = { λ fault error. error ≡ error_of fault };

    fn from(fault: PduError) -> AsciiError {
        match fault {
            PduError::Refused(reason) => AsciiError::Invalid(reason),
            PduError::NoMemory => AsciiError::NoMemory,
        }
    }
}

/// The codec of a client: it writes the frames of requests, and reads those of responses.
#[derive(Debug, Drop)]
pub struct ClientCodec {
    decoder: AsciiDecoder,
}

/// A contract sees what is kept of the text of the `:` that is open.
impl Model for ClientCodec {
    ghost use Rattle.modbus_ascii.specs.Decoder.{Reading};

    ghost Value = { Reading };

    ghost view = { λ codec. codec.decoder };
}

/// The codec of a server: it reads the frames of requests, and writes those of responses.
#[derive(Debug, Drop)]
pub struct ServerCodec {
    decoder: AsciiDecoder,
}

/// A contract sees what is kept of the text of the `:` that is open.
impl Model for ServerCodec {
    ghost use Rattle.modbus_ascii.specs.Decoder.{Reading};

    ghost Value = { Reading };

    ghost view = { λ codec. codec.decoder };
}

impl ClientCodec {
    /// A codec that was fed no byte.
    pub fn new() -> ClientCodec
        ensures { DecodesText [] result }
    {
        ClientCodec {
            decoder: AsciiDecoder::new(),
        }
    }

    /// Takes a byte, and reads the PDU of the frame that it ends: a response or an exception. `None` exactly where it ends no frame.
    ///
    /// # Errors
    /// `Invalid` with the reason, exactly where the PDU of that frame is refused, whatever memory there is. `NoMemory` where memory is
    /// refused, only for a response that carries a list or bytes. The frame is then gone.
    pub fn feed(&mut self, alloc: Global, byte: u8) -> Result<Option<rtu::ResponseAdu>, AsciiError>
        ensures reads { (fed : List ℕ) → DecodesText fed self.old
            → DecodesText (fed ++ byte ∷ []) self.new }
        ensures gives { (fed : List ℕ) → DecodesText fed self.old → (delivered : List SlavePdu)
            × (frames (fed ++ byte ∷ []) ≡ frames fed ++ delivered)
            × AnswersBy response_result_of
            (λ pdu. IsOkAnd (response_result_of pdu) AnswerCarriesMemory)
            (λ adu. adu.hdr.slave_id) (λ adu. adu.pdu.0) delivered result }
    {
        if !self.decoder.take(byte) {
            return Ok(None);
        }
        let slave_id = self.decoder.slave();
        let pdu = read_response_pdu(alloc, self.decoder.pdu())?;
        Ok(Some(rtu::ResponseAdu {
            hdr: rtu::Header { slave_id },
            pdu,
        }))
    }

    /// Appends the frame of a request: a `:`, the digits of its slave address, of its PDU and of the LRC of both, and CR and LF.
    ///
    /// # Errors
    /// `TooLong` with the size of the PDU in bytes, exactly where that is above `MAX_PDU`. `NoMemory` where memory is refused.
    /// The bytes of the buffer are then as they were.
    pub fn encode(
        &mut self,
        alloc: Global,
        adu: rtu::RequestAdu<'_>,
        buf: &mut BytesMut,
    ) -> Result<(), EncodeError>
        ensures encodes { let pdu = request_pdu (meaning adu.entry.pdu.0)
            in Encodes (frame adu.entry.hdr.slave_id pdu) pdu buf.old.items result buf.new.items }
        ensures kept { self.new ≡ self.old }
    {
        encode_request_frame(alloc, adu.hdr.slave_id, &adu.pdu.0, buf)
    }
}

impl ServerCodec {
    /// A codec that was fed no byte.
    pub fn new() -> ServerCodec
        ensures { DecodesText [] result }
    {
        ServerCodec {
            decoder: AsciiDecoder::new(),
        }
    }

    /// Takes a byte, and reads the PDU of the frame that it ends as a request. `None` exactly where it ends no frame.
    ///
    /// # Errors
    /// `Invalid` with the reason, exactly where the PDU of that frame is refused. `NoMemory` where memory is refused, only for a request
    /// that carries a list. The frame is then gone.
    pub fn feed(
        &mut self,
        alloc: Global,
        byte: u8,
    ) -> Result<Option<rtu::RequestAdu<'static>>, AsciiError>
        ensures reads { (fed : List ℕ) → DecodesText fed self.old
            → DecodesText (fed ++ byte ∷ []) self.new }
        ensures gives { (fed : List ℕ) → DecodesText fed self.old → (delivered : List SlavePdu)
            × (frames (fed ++ byte ∷ []) ≡ frames fed ++ delivered)
            × AnswersBy request_of (λ pdu. IsOkAnd (request_of pdu) CarriesList)
            (λ adu. adu.hdr.slave_id) (λ adu. meaning adu.pdu.0) delivered result }
    {
        if !self.decoder.take(byte) {
            return Ok(None);
        }
        let slave_id = self.decoder.slave();
        let request = decode_request(alloc, self.decoder.pdu())?;
        Ok(Some(rtu::RequestAdu {
            hdr: rtu::Header { slave_id },
            pdu: RequestPdu(request),
        }))
    }

    /// Appends the frame of a response or an exception: a `:`, the digits of its slave address, of its PDU and of the LRC of both, and CR
    /// and LF. The function of an exception is below `EXCEPTION_BIT`.
    ///
    /// # Errors
    /// `TooLong` with the size of the PDU in bytes, exactly where that is above `MAX_PDU`. `NoMemory` where memory is refused, only where
    /// the buffer had no room for the whole frame. The bytes of the buffer are then as they were.
    pub fn encode(
        &mut self,
        alloc: Global,
        adu: rtu::ResponseAdu,
        buf: &mut BytesMut,
    ) -> Result<(), EncodeError>
        requires { ForErr adu.pdu.0 (λ refusal. function_number refusal.function < exception_bit) }
        ensures encodes { let pdu = response_result_pdu adu.pdu.0
            in Encodes (frame adu.hdr.slave_id pdu) pdu buf.old.items result buf.new.items }
        ensures memory { result ≡ Err EncodeError.NoMemory
            → buf.old.spare < length (frame adu.hdr.slave_id (response_result_pdu adu.pdu.0)) }
        ensures kept { self.new ≡ self.old }
    {
        encode_response_frame(alloc, adu.hdr.slave_id, &adu.pdu.0, buf)
    }
}
