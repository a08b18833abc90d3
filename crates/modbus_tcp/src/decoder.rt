//! The decoder that takes ADUs off the front of a buffer (MODBUS Messaging on TCP/IP V1.0b, section 3.1.3).
ghost use Rattle.std.specs.Prelude.{◌≡◌, ◌<◌, Ok, Err, None, length};
ghost use Rattle.modbus_tcp.specs.declared.decoder.TcpError.TheVariants as errors;
ghost use Rattle.modbus_tcp.specs.Decoder.{FindsAdu, TakesAdu, error_of, header_error, left_by};
ghost use Rattle.modbus_tcp.specs.Limits.{longest_adu};

use crate::mbap::{HEADER, front};
use crate::stream::HeaderFault;
use bytes::{Bytes, BytesMut};
use modbus_frame::{Front, PduError, Reason, tcp};
use std::alloc::{AllocError, Global};

/// Why no ADU is given.
#[derive(Clone, Copy, Debug, PartialEq, Eq, thiserror::Error)]
pub enum TcpError {
    /// The header tells the length 0, which leaves out the unit identifier.
    #[error("invalid length")]
    InvalidLength,
    /// The header tells this protocol, and it is not Modbus.
    #[error("invalid protocol {0}")]
    InvalidProtocol(u16),
    /// The PDU of an ADU is refused for this reason.
    #[error(transparent)]
    Invalid(Reason),
    /// Memory is refused.
    #[error("no memory")]
    NoMemory,
}

impl From<AllocError> for TcpError {
    ghost from_gives = { λ _ error. error ≡ errors.NoMemory };

    fn from(_error: AllocError) -> TcpError {
        TcpError::NoMemory
    }
}

impl From<PduError> for TcpError {
    ghost from_gives = { λ fault error. error ≡ error_of fault };

    fn from(fault: PduError) -> TcpError {
        match fault {
            PduError::Refused(reason) => TcpError::Invalid(reason),
            PduError::NoMemory => TcpError::NoMemory,
        }
    }
}

impl From<HeaderFault> for TcpError {
    ghost from_gives = { λ fault error. error ≡ header_error fault };

    fn from(fault: HeaderFault) -> TcpError {
        match fault {
            HeaderFault::InvalidLength => TcpError::InvalidLength,
            HeaderFault::InvalidProtocol(protocol) => TcpError::InvalidProtocol(protocol),
        }
    }
}

/// Tells a fault of the header at the front of a buffer. The header of another protocol is taken off.
pub(crate) fn refuse_header(fault: HeaderFault, buf: &mut BytesMut) -> TcpError
    requires { FindsAdu buf.old.items (Err fault) }
    ensures told { result ≡ header_error fault }
    ensures left { buf.new.items ≡ left_by fault buf.old.items }
{
    match fault {
        HeaderFault::InvalidLength => {}
        HeaderFault::InvalidProtocol(_) => buf.advance(HEADER),
    }
    TcpError::from(fault)
}

/// Takes ADUs off the front of a buffer.
#[derive(Debug, Default, Drop)]
pub struct AduDecoder;

impl AduDecoder {
    /// A decoder that was given no byte.
    pub fn new() -> AduDecoder {
        AduDecoder
    }

    /// Takes the first ADU off the buffer, and gives what its header tells, and its PDU. `None` where the ADU is not whole; the
    /// buffer then stays, and fewer than `LONGEST_ADU` bytes are held (section 3.1.3).
    ///
    /// # Errors
    /// `InvalidLength` exactly where the header tells the length 0; the buffer stays. `InvalidProtocol` with the number, exactly
    /// where the ADU is whole and its protocol is not Modbus; its header is gone. `NoMemory` where memory is refused for an
    /// ADU; the buffer stays. `Invalid` never.
    pub fn decode(
        &mut self,
        _alloc: Global,
        buf: &mut BytesMut,
    ) -> Result<Option<(tcp::Header, Bytes)>, TcpError>
        ensures takes { TakesAdu buf.old.items result buf.new.items }
        ensures short { result ≡ Ok None → length buf.new.items < longest_adu }
    {
        match front(buf.as_slice()) {
            Ok(Front::Message { header, end, .. }) => {
                let mut pdu = buf.freeze_to(end)?;
                pdu.advance(HEADER);
                Ok(Some((header, pdu)))
            }
            Ok(Front::Waiting { .. }) => Ok(None),
            Err(fault) => Err(refuse_header(fault, buf)),
        }
    }
}
