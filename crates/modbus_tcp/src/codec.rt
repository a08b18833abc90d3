//! The codecs of the two ends of a connection: a server reads requests and writes responses, a client the other way round
//! (MODBUS Messaging on TCP/IP V1.0b, section 3.1).
ghost use Rattle.std.specs.Prelude.{◌≡◌, ◌<◌, Ok, None, length};
ghost use Rattle.std.specs.Result.{ForErr};
ghost use Rattle.modbus_frame.specs.Codes.{function_number};
ghost use Rattle.modbus_frame.specs.FunctionCodes.{exception_bit};
ghost use Rattle.modbus_frame.specs.Meaning.{meaning};
ghost use Rattle.modbus_pdu.specs.Encodes.{Encodes};
ghost use Rattle.modbus_pdu.specs.RequestOf.{CarriesList, request_of};
ghost use Rattle.modbus_pdu.specs.ResponseOf.{AnswerCarriesMemory, response_result_of};
ghost use Rattle.modbus_pdu.specs.RequestPdu.{request_pdu};
ghost use Rattle.modbus_pdu.specs.ResponsePdu.{response_result_pdu};
ghost use Rattle.modbus_tcp.specs.Decoder.{ReadsAdu};
ghost use Rattle.modbus_tcp.specs.Adu.{adu_of};
ghost use Rattle.modbus_tcp.specs.Limits.{longest_adu};

use crate::decoder::{TcpError, refuse_header};
use crate::encoder::{encode_request_adu, encode_response_adu};
use crate::mbap::front;
use bytes::BytesMut;
use modbus_frame::{EncodeError, Front, PduError, RequestPdu, tcp};
use modbus_pdu::{decode_request, read_response_pdu};
use std::alloc::Global;

/// The codec of a client: it writes the ADUs of requests, and reads those of responses.
#[derive(Debug, Default, Drop)]
pub struct ClientCodec;

/// The codec of a server: it reads the ADUs of requests, and writes those of responses.
#[derive(Debug, Default, Drop)]
pub struct ServerCodec;

impl ClientCodec {
    /// A codec that was given no byte.
    pub fn new() -> ClientCodec {
        ClientCodec
    }

    /// Takes off the next ADU of a response, and reads its PDU: a response or an exception. `None` where the ADU is not whole; the
    /// buffer then stays, and fewer than `LONGEST_ADU` bytes are held (section 3.1.3).
    ///
    /// # Errors
    /// `InvalidLength` exactly where the header tells the length 0; the buffer stays. `InvalidProtocol` with the number, exactly
    /// where the ADU is whole and its protocol is not Modbus; its header is gone. `Invalid` with the reason, exactly where
    /// the PDU of the ADU is refused, whatever memory there is; the ADU is gone. `NoMemory` where memory is refused, only for a PDU
    /// that is a response that carries a list or bytes; the buffer then stays, so that the same ADU can be read again.
    pub fn decode(
        &mut self,
        alloc: Global,
        buf: &mut BytesMut,
    ) -> Result<Option<tcp::ResponseAdu>, TcpError>
        ensures reads { ReadsAdu response_result_of AnswerCarriesMemory (λ adu. adu.hdr)
            (λ adu. adu.pdu.0) buf.old.items result buf.new.items }
        ensures short { result ≡ Ok None → length buf.new.items < longest_adu }
    {
        match front(buf.as_slice()) {
            Ok(Front::Message { header, pdu, end }) => match read_response_pdu(alloc, pdu) {
                Ok(pdu) => {
                    buf.advance(end);
                    Ok(Some(tcp::ResponseAdu { hdr: header, pdu }))
                }
                Err(PduError::Refused(reason)) => {
                    buf.advance(end);
                    Err(TcpError::Invalid(reason))
                }
                Err(PduError::NoMemory) => Err(TcpError::NoMemory),
            },
            Ok(Front::Waiting { .. }) => Ok(None),
            Err(fault) => Err(refuse_header(fault, buf)),
        }
    }

    /// Appends the ADU of a request: the header, with the transaction and the unit identifier, and the PDU (section 3.1).
    ///
    /// # Errors
    /// `TooLong` with the size of the PDU in bytes, exactly where that is above `MAX_PDU`. `NoMemory` where memory is refused.
    /// The bytes of the buffer are then as they were.
    #[inline]
    pub fn encode(
        &mut self,
        alloc: Global,
        adu: tcp::RequestAdu<'_>,
        buf: &mut BytesMut,
    ) -> Result<(), EncodeError>
        ensures { Encodes (adu_of adu.entry.hdr (request_pdu (meaning adu.entry.pdu.0)))
            (request_pdu (meaning adu.entry.pdu.0)) buf.old.items result buf.new.items }
    {
        encode_request_adu(alloc, adu.hdr, &adu.pdu.0, buf)
    }
}

impl ServerCodec {
    /// A codec that was given no byte.
    pub fn new() -> ServerCodec {
        ServerCodec
    }

    /// Takes off the next ADU of a request, and reads its PDU. `None` where the ADU is not whole; the buffer then stays, and fewer
    /// than `LONGEST_ADU` bytes are held (section 3.1.3).
    ///
    /// # Errors
    /// `InvalidLength` exactly where the header tells the length 0; the buffer stays. `InvalidProtocol` with the number, exactly
    /// where the ADU is whole and its protocol is not Modbus; its header is gone. `Invalid` with the reason, exactly where
    /// the PDU of the ADU is refused, whatever memory there is; the ADU is gone. `NoMemory` where memory is refused, only for a PDU
    /// that is a request that carries a list; the buffer then stays, so that the same ADU can be read again.
    pub fn decode(
        &mut self,
        alloc: Global,
        buf: &mut BytesMut,
    ) -> Result<Option<tcp::RequestAdu<'static>>, TcpError>
        ensures reads { ReadsAdu request_of CarriesList (λ adu. adu.hdr) (λ adu. meaning adu.pdu.0)
            buf.old.items result buf.new.items }
        ensures short { result ≡ Ok None → length buf.new.items < longest_adu }
    {
        match front(buf.as_slice()) {
            Ok(Front::Message { header, pdu, end }) => match decode_request(alloc, pdu) {
                Ok(request) => {
                    buf.advance(end);
                    Ok(Some(tcp::RequestAdu {
                        hdr: header,
                        pdu: RequestPdu(request),
                    }))
                }
                Err(PduError::Refused(reason)) => {
                    buf.advance(end);
                    Err(TcpError::Invalid(reason))
                }
                Err(PduError::NoMemory) => Err(TcpError::NoMemory),
            },
            Ok(Front::Waiting { .. }) => Ok(None),
            Err(fault) => Err(refuse_header(fault, buf)),
        }
    }

    /// Appends the ADU of a response or an exception: the header, with the transaction and the unit identifier of the request, and
    /// the PDU (section 3.1). The function of an exception is below `EXCEPTION_BIT`.
    ///
    /// # Errors
    /// `TooLong` with the size of the PDU in bytes, exactly where that is above `MAX_PDU`. `NoMemory` where memory is refused.
    /// The bytes of the buffer are then as they were.
    #[inline]
    pub fn encode(
        &mut self,
        alloc: Global,
        adu: tcp::ResponseAdu,
        buf: &mut BytesMut,
    ) -> Result<(), EncodeError>
        requires { ForErr adu.pdu.0 (λ refusal. function_number refusal.function < exception_bit) }
        ensures { Encodes (adu_of adu.hdr (response_result_pdu adu.pdu.0))
            (response_result_pdu adu.pdu.0) buf.old.items result buf.new.items }
    {
        encode_response_adu(alloc, adu.hdr, &adu.pdu.0, buf)
    }
}
