//! Laws of equality: two values of modbus_frame are equal exactly where their meanings are.
//!
//! Each function makes one comparison, and its contract says what that comparison means. Nothing stands on this crate.
#![tactic(auto)]

ghost use Rattle.std.specs.Prelude.{◌≡◌, ◌↔◌, IsTrue};
ghost use Rattle.modbus_frame.specs.Meaning.{meaning};

use modbus_frame::{
    Coils, ConformityLevel, Data, DeviceIdObject, DeviceIdObjects, EncodeError, Error,
    ExceptionCode, ExceptionResponse, FunctionCode, HeaderSeen, OptionalResponsePdu, PduError,
    ProtocolError, ReadCode, ReadDeviceIdentificationResponse, Reason, Request, RequestPdu,
    Response, ResponsePdu, Slave, SlaveRequest, Terminated, TransportError, Words, rtu, tcp,
};

/// Equality of slaves is that of their numbers.
pub fn same_slave(a: &Slave, b: &Slave) -> bool
    ensures { IsTrue result ↔ (a.now ≡ b.now) }
{
    a == b
}

/// Function codes are equal exactly where they are the same variant, with the same number where it is `Custom`.
pub fn same_function(a: &FunctionCode, b: &FunctionCode) -> bool
    ensures { IsTrue result ↔ (a.now ≡ b.now) }
{
    a == b
}

/// Exception codes are equal exactly where they are the same variant, with the same number where it is `Custom`.
pub fn same_exception(a: &ExceptionCode, b: &ExceptionCode) -> bool
    ensures { IsTrue result ↔ (a.now ≡ b.now) }
{
    a == b
}

/// Read codes are equal exactly where they are the same variant.
pub fn same_read_code(a: &ReadCode, b: &ReadCode) -> bool
    ensures { IsTrue result ↔ (a.now ≡ b.now) }
{
    a == b
}

/// Conformity levels are equal exactly where they are the same variant.
pub fn same_level(a: &ConformityLevel, b: &ConformityLevel) -> bool
    ensures { IsTrue result ↔ (a.now ≡ b.now) }
{
    a == b
}

/// Lists of coils are equal exactly where their coils are.
pub fn same_coils(a: &Coils, b: &Coils) -> bool
    ensures { IsTrue result ↔ (a.now ≡ b.now) }
{
    a == b
}

/// Lists of registers are equal exactly where their registers are.
pub fn same_words(a: &Words, b: &Words) -> bool
    ensures { IsTrue result ↔ (a.now ≡ b.now) }
{
    a == b
}

/// Lists of bytes are equal exactly where their bytes are.
pub fn same_data(a: &Data, b: &Data) -> bool
    ensures { IsTrue result ↔ (a.now ≡ b.now) }
{
    a == b
}

/// Objects are equal exactly where their ids and the bytes of their values are.
pub fn same_object(a: &DeviceIdObject, b: &DeviceIdObject) -> bool
    ensures { IsTrue result ↔ (a.now ≡ b.now) }
{
    a == b
}

/// Lists of objects are equal exactly where their objects are.
pub fn same_objects(a: &DeviceIdObjects, b: &DeviceIdObjects) -> bool
    ensures { IsTrue result ↔ (a.now ≡ b.now) }
{
    a == b
}

/// Device identification responses are equal exactly where each of their fields is.
pub fn same_identification(
    a: &ReadDeviceIdentificationResponse,
    b: &ReadDeviceIdentificationResponse,
) -> bool
    ensures { IsTrue result ↔ (a.now ≡ b.now) }
{
    a == b
}

/// Requests are equal exactly where their meanings are.
pub fn same_request(a: &Request<'_>, b: &Request<'_>) -> bool
    ensures { IsTrue result ↔ (meaning a.now ≡ meaning b.now) }
{
    a == b
}

/// Requests with their slaves are equal exactly where the slaves and the meanings are.
pub fn same_slave_request(a: &SlaveRequest<'_>, b: &SlaveRequest<'_>) -> bool
    ensures { IsTrue result ↔ ((a.now.slave ≡ b.now.slave)
        × (meaning a.now.request ≡ meaning b.now.request)) }
{
    a == b
}

/// Responses are equal exactly where they are of one kind with equal numbers and lists.
pub fn same_response(a: &Response, b: &Response) -> bool
    ensures { IsTrue result ↔ (a.now ≡ b.now) }
{
    a == b
}

/// Exception responses are equal exactly where their functions and exceptions are.
pub fn same_exception_response(a: &ExceptionResponse, b: &ExceptionResponse) -> bool
    ensures { IsTrue result ↔ (a.now ≡ b.now) }
{
    a == b
}

/// Request PDUs are equal exactly where the meanings of their requests are.
pub fn same_request_pdu(a: &RequestPdu<'_>, b: &RequestPdu<'_>) -> bool
    ensures { IsTrue result ↔ (meaning a.now.0 ≡ meaning b.now.0) }
{
    a == b
}

/// Response PDUs are equal exactly where their responses or exceptions are.
pub fn same_response_pdu(a: &ResponsePdu, b: &ResponsePdu) -> bool
    ensures { IsTrue result ↔ (a.now ≡ b.now) }
{
    a == b
}

/// Optional response PDUs are equal exactly where both are none, or both have equal PDUs.
pub fn same_optional_pdu(a: &OptionalResponsePdu, b: &OptionalResponsePdu) -> bool
    ensures { IsTrue result ↔ (a.now ≡ b.now) }
{
    a == b
}

/// RTU requests are equal exactly where the slaves and the meanings are.
pub fn same_rtu_request(a: &rtu::RequestAdu<'_>, b: &rtu::RequestAdu<'_>) -> bool
    ensures { IsTrue result ↔ ((a.now.hdr ≡ b.now.hdr)
        × (meaning a.now.pdu.0 ≡ meaning b.now.pdu.0)) }
{
    a == b
}

/// RTU responses are equal exactly where the slaves and the PDUs are.
pub fn same_rtu_response(a: &rtu::ResponseAdu, b: &rtu::ResponseAdu) -> bool
    ensures { IsTrue result ↔ (a.now ≡ b.now) }
{
    a == b
}

/// TCP requests are equal exactly where the headers and the meanings are.
pub fn same_tcp_request(a: &tcp::RequestAdu<'_>, b: &tcp::RequestAdu<'_>) -> bool
    ensures { IsTrue result ↔ ((a.now.hdr ≡ b.now.hdr)
        × (meaning a.now.pdu.0 ≡ meaning b.now.pdu.0)) }
{
    a == b
}

/// TCP responses are equal exactly where the headers and the PDUs are.
pub fn same_tcp_response(a: &tcp::ResponseAdu, b: &tcp::ResponseAdu) -> bool
    ensures { IsTrue result ↔ (a.now ≡ b.now) }
{
    a == b
}

/// RTU headers are equal exactly where their slaves are.
pub fn same_rtu_header(a: &rtu::Header, b: &rtu::Header) -> bool
    ensures { IsTrue result ↔ (a.now ≡ b.now) }
{
    a == b
}

/// TCP headers are equal exactly where their transactions and unit identifiers are.
pub fn same_tcp_header(a: &tcp::Header, b: &tcp::Header) -> bool
    ensures { IsTrue result ↔ (a.now ≡ b.now) }
{
    a == b
}

/// Reasons are equal exactly where they are the same variant with the same number.
pub fn same_reason(a: &Reason, b: &Reason) -> bool
    ensures { IsTrue result ↔ (a.now ≡ b.now) }
{
    a == b
}

/// PDU errors are equal exactly where they are the same variant with the same reason.
pub fn same_pdu_error(a: &PduError, b: &PduError) -> bool
    ensures { IsTrue result ↔ (a.now ≡ b.now) }
{
    a == b
}

/// Encode errors are equal exactly where they are the same variant with the same size.
pub fn same_encode_error(a: &EncodeError, b: &EncodeError) -> bool
    ensures { IsTrue result ↔ (a.now ≡ b.now) }
{
    a == b
}

/// Transport errors are equal exactly where they are the same variant with the same number or reason.
pub fn same_transport_error(a: &TransportError, b: &TransportError) -> bool
    ensures { IsTrue result ↔ (a.now ≡ b.now) }
{
    a == b
}

/// Headers seen are equal exactly where their transactions and slaves are.
pub fn same_header_seen(a: &HeaderSeen, b: &HeaderSeen) -> bool
    ensures { IsTrue result ↔ (a.now ≡ b.now) }
{
    a == b
}

/// Protocol errors are equal exactly where they are the same variant with equal fields.
pub fn same_protocol_error(a: &ProtocolError, b: &ProtocolError) -> bool
    ensures { IsTrue result ↔ (a.now ≡ b.now) }
{
    a == b
}

/// Errors are equal exactly where they are the same variant with equal faults.
pub fn same_error(a: &Error, b: &Error) -> bool
    ensures { IsTrue result ↔ (a.now ≡ b.now) }
{
    a == b
}

/// Ends are equal exactly where they are the same variant.
pub fn same_end(a: &Terminated, b: &Terminated) -> bool
    ensures { IsTrue result ↔ (a.now ≡ b.now) }
{
    a == b
}
