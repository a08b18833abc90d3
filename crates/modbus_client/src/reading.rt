//! How a client reads the PDU of its reply: as a response, or as the bytes that came.
ghost use Rattle.std.specs.Prelude.{◌≡◌, IsOkAnd};
ghost use Rattle.modbus_pdu.specs.Decodes.{Decodes};
ghost use Rattle.modbus_pdu.specs.ResponseOf.{AnswerCarriesMemory, response_result_of};
ghost use Rattle.modbus_client.specs.Protocol.{Meaning};
ghost use Rattle.modbus_client.specs.Raw.{raw_result_of};

use bytes::Bytes;
use modbus_frame::function_code::EXCEPTION_BIT;
use modbus_frame::{PduError, Reason, Response, ResponsePdu};
use modbus_pdu::{decode_exception, read_response_pdu};
use std::alloc::Global;

/// How the PDU of a reply is read.
pub trait Reading {
    // what a PDU stands for
    ghost means: { Meaning };

    /// What a PDU stands for. It is read where it lies.
    ///
    /// # Errors
    /// `Refused` with the reason where it stands for nothing. `NoMemory` only where memory is refused for what carries a list or bytes.
    fn read(alloc: Global, pdu: &[u8]) -> Result<ResponsePdu, PduError>
        ensures result { Decodes (λ answer. answer.0) result (means pdu.now) }
        ensures memory { result ≡ Err PduError.NoMemory
            → IsOkAnd (means pdu.now) AnswerCarriesMemory };
}

/// As the response of its function.
pub struct AsResponse;

impl Reading for AsResponse {
    ghost means = { response_result_of };

    fn read(alloc: Global, pdu: &[u8]) -> Result<ResponsePdu, PduError> {
        read_response_pdu(alloc, pdu)
    }
}

/// As the bytes that came, whatever the function.
pub struct AsBytes;

impl Reading for AsBytes {
    ghost means = { raw_result_of };

    #[tactic(auto, unfolding(crate::specs::Raw::raw_result_of))]
    fn read(alloc: Global, pdu: &[u8]) -> Result<ResponsePdu, PduError> {
        match pdu {
            [] => Err(PduError::Refused(Reason::UnexpectedEnd)),
            [code, ..] if *code >= EXCEPTION_BIT => {
                let refusal = decode_exception(pdu)?;
                Ok(ResponsePdu(Err(refusal)))
            }
            [code, data @ ..] => {
                let data = Bytes::copy_from_slice(alloc, data)?;
                Ok(ResponsePdu(Ok(Response::Custom(*code, data))))
            }
        }
    }
}
