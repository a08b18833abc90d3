//! What a PDU is that is read no further than its function code: of a request, and of what comes as its reply.
ghost use Rattle.std.specs.Prelude.{◌≡◌};
ghost use Rattle.modbus_c.specs.Raw.{function_in, exception_behind, plain_function, raw_reply};

use modbus_frame::Reason;

/// What the function code of an exception has, and that of a request hasn't (Modbus Application Protocol V1.1b3, section 7).
const EXCEPTION_BIT: u8 = 0x80;

/// What a PDU is to a request of a function.
#[derive(Clone, Copy, Debug, PartialEq, Eq)]
pub(crate) enum RawReply {
    /// Its reply.
    Reply,
    /// An exception of this code.
    Exception(u8),
    /// A reply or an exception of this function, which is another.
    Another(u8),
    /// No PDU of a reply.
    Refused(Reason),
}

/// The function code of a request.
///
/// # Errors
/// `UnexpectedEnd` where the PDU is empty, `InvalidFunction` where its function code is above 127.
pub(crate) fn function_in(pdu: &[u8]) -> Result<u8, Reason>
    ensures { result ≡ function_in pdu.now }
{
    match pdu {
        [] => Err(Reason::UnexpectedEnd),
        [code, ..] => {
            if *code < EXCEPTION_BIT {
                Ok(*code)
            } else {
                Err(Reason::InvalidFunction(*code))
            }
        }
    }
}

/// The exception whose function code stands before these bytes.
fn exception_behind(data: &[u8]) -> RawReply
    ensures { result ≡ exception_behind data.now }
{
    match data {
        [] => RawReply::Refused(Reason::UnexpectedEnd),
        [code] => RawReply::Exception(*code),
        _ => RawReply::Refused(Reason::UndecodedData),
    }
}

/// The function of a function code with or without the exception bit.
fn plain_function(code: u8) -> u8
    ensures { result ≡ plain_function code }
{
    if code < EXCEPTION_BIT {
        code
    } else {
        code - EXCEPTION_BIT
    }
}

/// What a PDU is to a request of a function.
pub(crate) fn raw_reply(function: u8, pdu: &[u8]) -> RawReply
    ensures { result ≡ raw_reply function pdu.now }
{
    match pdu {
        [] => RawReply::Refused(Reason::UnexpectedEnd),
        [code, data @ ..] => {
            if *code == function {
                RawReply::Reply
            } else if u16::from(*code) == u16::from(function) + u16::from(EXCEPTION_BIT) {
                exception_behind(data)
            } else {
                RawReply::Another(plain_function(*code))
            }
        }
    }
}
