//! PDUs of requests, responses and exceptions, both ways.

use crate::text::Text;
use crate::word::Word;
use bytes::{Bytes, BytesMut};
use modbus_frame::{
    DeviceIdObject, ExceptionResponse, OptionalResponsePdu, PduError,
    ReadDeviceIdentificationResponse, Request, Response, ResponsePdu,
};
use modbus_pdu::{
    decode_exception, decode_request, decode_response, decode_response_pdu,
    encode_exception_response_pdu, encode_request_pdu, encode_response_pdu,
    encode_response_result_pdu, request_pdu_size, response_pdu_size, response_result_pdu_size,
};
use std::alloc::Global;
use std::borrow::CowSlice;
use std::fmt::{Debug, Display};

/// The text of a refusal.
fn refused(text: &mut Text, error: PduError) -> bool {
    match error {
        PduError::NoMemory => return false,
        PduError::Refused(reason) => text.push_told(reason),
    }
    true
}

/// The size and the bytes of a request's PDU.
fn written(text: &mut Text, request: &Request<'_>) -> bool {
    match request_pdu_size(request) {
        Err(long) => write!(text, "{long:?}: {long}"),
        Ok(size) => {
            write!(text, "{size} ");
            let mut buf = BytesMut::new(text.alloc);
            if encode_request_pdu(text.alloc, &mut buf, request).is_err() {
                return false;
            }
            text.push_hex(buf.as_slice());
        }
    }
    true
}

fn is_same(found: &Request<'_>, wanted: &Request<'_>) -> bool {
    found == wanted
}

/// Whether a copy of a request, once it owns its lists, is equal to it.
fn is_owned(alloc: Global, copy: Request<'_>, request: &Request<'_>) -> bool {
    match copy.into_owned(alloc) {
        Ok(owned) => is_same(&owned, request),
        Err(_) => false,
    }
}

/// Appends whether the copy of a request is equal to it, and whether it is once it owns its lists.
fn push_copied(text: &mut Text, request: &Request<'_>) -> bool {
    match request.try_clone(text.alloc) {
        Ok(copy) => {
            write!(text, " {}", is_same(&copy, request));
            write!(text, " {}", is_owned(text.alloc, copy, request));
        }
        Err(_) => return false,
    }
    true
}

/// A request, how it is written, and whether its copies are equal to it.
fn described(text: &mut Text, request: &Request<'_>) -> bool {
    text.push_str("Ok(");
    text.push_shown(request);
    write!(text, ") {:?} ", request.function_code());
    written(text, request) && push_copied(text, request)
}

/// What is described of the request of a PDU.
fn request(text: &mut Text, pdu: &[u8]) -> bool {
    match decode_request(text.alloc, pdu) {
        Ok(found) => described(text, &found),
        Err(error) => refused(text, error),
    }
}

/// Whether the copies of the objects of a device identification are equal to them.
fn objects_are_copied(alloc: Global, found: &ReadDeviceIdentificationResponse) -> bool {
    for object in found.device_id_objects.as_slice() {
        match object.try_clone(alloc) {
            Ok(copy) if copy == *object => {}
            _ => return false,
        }
    }
    true
}

/// Whether the copy of a device identification is equal to it.
fn identification_is_copied(alloc: Global, found: &ReadDeviceIdentificationResponse) -> bool {
    match found.try_clone(alloc) {
        Ok(copy) => copy == *found,
        Err(_) => false,
    }
}

/// Whether the copies of a device identification and its parts are equal to them; of any other response there is nothing to compare.
fn parts_are_copied(alloc: Global, response: &Response) -> bool {
    match response {
        Response::ReadDeviceIdentification(found) => {
            identification_is_copied(alloc, found) && objects_are_copied(alloc, found)
        }
        _ => true,
    }
}

/// The size and the bytes of a response's PDU.
fn response_written(text: &mut Text, response: &Response) -> bool {
    match response_pdu_size(response) {
        Err(long) => write!(text, "{long:?}: {long}"),
        Ok(size) => {
            write!(text, "{size} ");
            let mut buf = BytesMut::new(text.alloc);
            if encode_response_pdu(text.alloc, &mut buf, response).is_err() {
                return false;
            }
            text.push_hex(buf.as_slice());
        }
    }
    true
}

/// Whether the copy of a response is equal to it.
fn response_is_copied(alloc: Global, response: &Response) -> bool {
    match response.try_clone(alloc) {
        Ok(copy) => copy == *response,
        Err(_) => false,
    }
}

/// A response, how it is written, and whether its copy is equal to it.
fn response_described(text: &mut Text, response: &Response) -> bool {
    text.push_str("Ok(");
    text.push_shown(response);
    text.push_str(") ");
    let is_written = response_written(text, response);
    let is_same = response_is_copied(text.alloc, response)
        && parts_are_copied(text.alloc, response);
    write!(text, " {is_same}");
    is_written
}

/// What is described of the response of a PDU.
fn response(text: &mut Text, pdu: Bytes) -> bool {
    match decode_response(text.alloc, pdu) {
        Ok(found) => response_described(text, &found),
        Err(error) => refused(text, error),
    }
}

/// A response or an exception, and how it is written.
fn answer_described(text: &mut Text, found: &Result<Response, ExceptionResponse>) -> bool {
    if let Err(refusal) = found
        && refusal.function.value() >= 0x80
    {
        return false;
    }
    match response_result_pdu_size(found) {
        Err(long) => write!(text, "{long:?}: {long}"),
        Ok(size) => {
            text.push_shown(found);
            write!(text, " {size} ");
            let mut buf = BytesMut::new(text.alloc);
            if encode_response_result_pdu(text.alloc, &mut buf, found).is_err() {
                return false;
            }
            text.push_hex(buf.as_slice());
        }
    }
    true
}

/// What is described of the response or the exception of a PDU.
fn answered(text: &mut Text, pdu: Bytes) -> bool {
    match decode_response_pdu(text.alloc, pdu) {
        Ok(found) => answer_described(text, &found.0),
        Err(error) => refused(text, error),
    }
}

/// The PDU of an answer that may be none, and of which an empty one is that.
fn optional(text: &mut Text, pdu: Bytes) -> bool {
    if pdu.is_empty() {
        text.push_shown(OptionalResponsePdu::from(Ok(None)));
        return true;
    }
    let answer = match decode_response_pdu(text.alloc, pdu) {
        Ok(ResponsePdu(Ok(response))) => Ok(Some(response)),
        Ok(ResponsePdu(Err(refusal))) => Err(refusal),
        Err(error) => return refused(text, error),
    };
    text.push_shown(OptionalResponsePdu::from(answer));
    true
}

/// The text of an object of a device identification.
fn object_text(text: &mut Text, value: Bytes) {
    let object = DeviceIdObject { id: 0, value };
    text.push_shown(object.value_as_str());
}

/// An exception, its text, and how it is written.
fn exception_described(text: &mut Text, found: ExceptionResponse) -> bool {
    if found.function.value() >= 0x80 {
        return false;
    }
    write!(text, "Ok({found:?}): {found} ");
    let mut buf = BytesMut::new(text.alloc);
    if encode_exception_response_pdu(text.alloc, &mut buf, found).is_err() {
        return false;
    }
    text.push_hex(buf.as_slice());
    true
}

/// What is described of the exception of a PDU.
fn exception(text: &mut Text, pdu: &[u8]) -> bool {
    match decode_exception(pdu) {
        Ok(found) => return exception_described(text, found),
        Err(reason) => text.push_told(reason),
    }
    true
}

/// How many bytes a PDU has, or how many it would have.
fn push_size<E: Debug + Display + Drop>(text: &mut Text, size: Result<usize, E>) {
    match size {
        Ok(size) => text.push_shown(size),
        Err(long) => text.push_told(long),
    }
}

/// The same of the PDU of a request.
fn size_of(text: &mut Text, request: Request<'_>) {
    push_size(text, request_pdu_size(&request));
}

/// How a request of these registers is written.
fn size_of_words(text: &mut Text, kind: &str, words: &[u16]) -> bool {
    let words = CowSlice::Borrowed(words);
    match kind {
        "WriteMultipleRegisters" => size_of(text, Request::WriteMultipleRegisters(0, words)),
        "ReadWriteMultipleRegisters" => {
            size_of(text, Request::ReadWriteMultipleRegisters(0, 1, 0, words));
        }
        _ => return false,
    }
    true
}

/// How a request of so many coils is written, all of them 0.
fn size_of_coils(text: &mut Text, count: usize) -> bool {
    let Ok(coils) = Vec::from_elem(text.alloc, false, count) else {
        return false;
    };
    let coils = CowSlice::Borrowed(coils.as_slice());
    size_of(text, Request::WriteMultipleCoils(0, coils));
    true
}

/// The same of so many bytes.
fn size_of_custom(text: &mut Text, count: usize) -> bool {
    let Ok(data) = Vec::from_elem(text.alloc, 0u8, count) else {
        return false;
    };
    let data = CowSlice::Borrowed(data.as_slice());
    size_of(text, Request::Custom(0x55, data));
    true
}

/// The same of so many coils, registers or bytes.
fn sized(text: &mut Text, kind: &str, count: usize) -> bool {
    match kind {
        "WriteMultipleCoils" => size_of_coils(text, count),
        "Custom" => size_of_custom(text, count),
        _ => match Vec::from_elem(text.alloc, 0u16, count) {
            Ok(words) => size_of_words(text, kind, words.as_slice()),
            Err(_) => false,
        },
    }
}

fn of_bytes(text: &mut Text, call: &str, pdu: &[u8]) -> bool {
    match call {
        "request" => return request(text, pdu),
        "exception" => return exception(text, pdu),
        _ => {}
    }
    let Ok(pdu) = Bytes::copy_from_slice(text.alloc, pdu) else {
        return false;
    };
    match call {
        "response" => response(text, pdu),
        "answer" => answered(text, pdu),
        "optional" => optional(text, pdu),
        "object_text" => {
            object_text(text, pdu);
            true
        }
        _ => false,
    }
}

pub fn answer(text: &mut Text, call: &str, words: &[Word]) -> bool {
    match words {
        [word] => match word.bytes() {
            Some(pdu) => of_bytes(text, call, pdu),
            None => false,
        },
        [kind, count] if call == "size" => match count.number() {
            Some(count) => sized(text, kind.text(), usize::from(count)),
            None => false,
        },
        _ => false,
    }
}
