//! The protocol data unit: a request or a response as the body of a frame, without an address or a checksum
//! (Application Protocol V1.1b3, section 4.1).
ghost use Rattle.std.specs.Prelude.{◌≡◌, Ok, Err, Some};
ghost use Rattle.std.specs.Option.{option_map};
ghost use Rattle.modbus_frame.specs.Optional.{optional_of};

use crate::request::Request;
use crate::response::{ExceptionResponse, Response};

/// The body of a request frame.
#[derive(Debug, PartialEq, Eq, Drop)]
pub struct RequestPdu<'a>(pub Request<'a>);

/// The body of a response frame: a response, or an exception.
#[derive(Debug, PartialEq, Eq, Drop)]
pub struct ResponsePdu(pub Result<Response, ExceptionResponse>);

/// The body of a response frame, or none where the server stays silent.
#[derive(Debug, PartialEq, Eq, Drop)]
pub struct OptionalResponsePdu(pub Option<ResponsePdu>);

impl<'a> From<Request<'a>> for RequestPdu<'a> {
    ghost from_gives = { λ request pdu. pdu.0 ≡ request };

    fn from(request: Request<'a>) -> RequestPdu<'a> {
        RequestPdu(request)
    }
}

impl<'a> From<RequestPdu<'a>> for Request<'a> {
    ghost from_gives = { λ pdu request. request ≡ pdu.0 };

    fn from(pdu: RequestPdu<'a>) -> Request<'a> {
        pdu.0
    }
}

impl From<Response> for ResponsePdu {
    ghost from_gives = { λ response pdu. pdu.0 ≡ Ok response };

    fn from(response: Response) -> ResponsePdu {
        ResponsePdu(Ok(response))
    }
}

impl From<ExceptionResponse> for ResponsePdu {
    ghost from_gives = { λ refusal pdu. pdu.0 ≡ Err refusal };

    fn from(refusal: ExceptionResponse) -> ResponsePdu {
        ResponsePdu(Err(refusal))
    }
}

impl From<ResponsePdu> for Result<Response, ExceptionResponse> {
    ghost from_gives = { λ pdu answer. answer ≡ pdu.0 };

    fn from(pdu: ResponsePdu) -> Result<Response, ExceptionResponse> {
        pdu.0
    }
}

impl From<Result<Option<Response>, ExceptionResponse>> for OptionalResponsePdu {
    ghost from_gives = { λ answer pdu. option_map (λ p. p.0) pdu.0 ≡ optional_of answer };

    fn from(answer: Result<Option<Response>, ExceptionResponse>) -> OptionalResponsePdu {
        match answer {
            Ok(None) => OptionalResponsePdu(None),
            Ok(Some(response)) => OptionalResponsePdu(Some(response.into())),
            Err(refusal) => OptionalResponsePdu(Some(refusal.into())),
        }
    }
}
