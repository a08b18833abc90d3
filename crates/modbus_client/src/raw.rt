//! Protocols whose replies can be given as they came: the function code and the bytes behind it, or an exception.
ghost use Rattle.std.specs.Prelude.{◌≡◌, ℕ, ◌<◌, ◌++◌, ◌∷◌, List, [], length};
ghost use Rattle.modbus_client.specs.Protocol.{waiting};
ghost use Rattle.modbus_client.specs.Call.{LooksAs, IsOwn};
ghost use Rattle.modbus_client.specs.Raw.{raw_result_of, read_raw};
ghost use Rattle.modbus_pdu.specs.ResponseOf.{AnswerCarriesMemory};
ghost use Rattle.modbus_rtu.specs.Decoder.{ReadsBy};
ghost use Rattle.modbus_rtu.specs.ResponseHead.{response_verdict};
ghost use Rattle.modbus_client.specs.Tcp.{tcp_protocol};

use crate::line_length::OVERHEAD;
use crate::protocol::{LineProtocol, LookError, Protocol, Reply};
use crate::reading::{AsBytes, Reading};
use crate::tcp::Adus;
use bytes::BytesMut;
use modbus_frame::{EncodeError, Front, HeaderSeen, PduError, Request, Slave, TransportError, rtu};
use modbus_rtu::{MAX_RETRIES, Next, ResponseRule, RtuError, next_frame_by};
use modbus_tcp::{HEADER, HeaderFault, front};
use std::alloc::Global;

/// A protocol that can give the PDU of a reply as it came.
pub trait RawProtocol: Protocol {
    /// Looks for the reply as `look` does, and reads no more of its PDU than the function code.
    ///
    /// # Errors
    /// Those of `LookError`. `Refused` where the PDU has no function code, or an exception no code.
    fn look_raw(
        &mut self,
        alloc: Global,
        asked: HeaderSeen,
        held: &mut BytesMut,
    ) -> Result<Option<Reply>, LookError>
        ensures own { IsOwn result }
        ensures looks { (bytes cuts earlier more : List ℕ)
            → Self.protocol.Finds asked bytes cuts (waiting earlier)
            → held.old.items ≡ earlier ++ more → 0 < length more
            → LooksAs (read_raw Self.protocol) asked (bytes ++ more)
            (cuts ++ length (bytes ++ more) ∷ []) held.new.items result }
        ensures counts { (bytes cuts earlier more : List ℕ)
            → Self.protocol.Finds asked bytes cuts (waiting earlier)
            → held.old.items ≡ earlier ++ more → 0 < length more
            → Self.protocol.Counts asked bytes cuts (Self.dropped_by self.old)
            → Self.protocol.Counts asked (bytes ++ more) (cuts ++ length (bytes ++ more) ∷ [])
            (Self.dropped_by self.new) };
}

/// A protocol of a line that can give the PDU of a reply as it came, also at the line's silence.
pub trait RawLineProtocol: RawProtocol + LineProtocol {
    /// Looks for the reply as `look_silent` does, and reads no more of its PDU than the function code.
    ///
    /// # Errors
    /// Those of `look_raw`.
    fn look_silent_raw(
        &mut self,
        alloc: Global,
        asked: HeaderSeen,
        held: &mut BytesMut,
    ) -> Result<Option<Reply>, LookError>
        ensures own { IsOwn result }
        ensures looks { (bytes cuts : List ℕ)
            → Self.protocol.Finds asked bytes cuts (waiting held.old.items)
            → LooksAs (read_raw Self.silent) asked bytes cuts held.new.items result };
}

/// The same protocol, which gives the PDU of each reply as it came. So a client reads what no kind of response has room for, as the run
/// status of a server that isn't 00 or FF (V1.1b3, section 6.13).
#[derive(Drop)]
pub struct AsItCame<P> {
    protocol: P,
}

impl<P: RawProtocol> Protocol for AsItCame<P> {
    type Header = P::Header;

    type Ids = P::Ids;

    ghost protocol = { read_raw P.protocol };

    ghost heading = { P.heading };

    ghost dropped_by = { λ it. P.dropped_by it.protocol };

    fn new() -> AsItCame<P> {
        AsItCame { protocol: P::new() }
    }

    fn first_ids() -> P::Ids {
        P::first_ids()
    }

    fn draw(ids: &mut P::Ids, slave: Slave) -> P::Header {
        P::draw(ids, slave)
    }

    fn seen(header: P::Header) -> HeaderSeen {
        P::seen(header)
    }

    fn encode(
        alloc: Global,
        header: P::Header,
        request: &Request<'_>,
        buf: &mut BytesMut,
    ) -> Result<(), EncodeError> {
        P::encode(alloc, header, request, buf)
    }

    fn look(
        &mut self,
        alloc: Global,
        asked: HeaderSeen,
        held: &mut BytesMut,
    ) -> Result<Option<Reply>, LookError> {
        self.protocol.look_raw(alloc, asked, held)
    }

    fn dropped(&self) -> u64 {
        self.protocol.dropped()
    }

    fn laws() {
        P::laws();
    }
}

impl<P: RawLineProtocol> LineProtocol for AsItCame<P> {
    ghost silent = { read_raw P.silent };

    fn look_silent(
        &mut self,
        alloc: Global,
        asked: HeaderSeen,
        held: &mut BytesMut,
    ) -> Result<Option<Reply>, LookError> {
        self.protocol.look_silent_raw(alloc, asked, held)
    }
}

/// Takes off the ADU at the front of the held bytes, whose PDU is given as it came. `None` where it is not whole.
///
/// # Errors
/// `Broken` for a header that tells no ADU of Modbus, `Refused` where the PDU has no function code, or an exception no code, `NoMemory`
/// where memory is refused for the bytes of a PDU.
pub(crate) fn take_raw_adu(alloc: Global, held: &mut BytesMut) -> Result<Option<Reply>, LookError>
    ensures own { IsOwn result }
    ensures looks { (asked : HeaderSeen) (cuts : List ℕ)
        → LooksAs (read_raw tcp_protocol) asked held.old.items cuts held.new.items result }
{
    match front(held.as_slice()) {
        Ok(Front::Waiting { .. }) => Ok(None),
        Ok(Front::Message { header, pdu, end }) => match AsBytes::read(alloc, pdu) {
            Ok(pdu) => {
                held.advance(end);
                Ok(Some(Reply {
                    header: Adus::seen(header),
                    result: pdu.0,
                }))
            }
            Err(PduError::Refused(reason)) => {
                held.advance(end);
                Err(LookError::Refused(reason))
            }
            Err(PduError::NoMemory) => Err(LookError::NoMemory),
        },
        Err(HeaderFault::InvalidLength) => Err(LookError::Broken(TransportError::InvalidLength)),
        Err(HeaderFault::InvalidProtocol(protocol)) => {
            held.advance(HEADER);
            Err(LookError::Broken(TransportError::InvalidProtocol(protocol)))
        }
    }
}

/// Takes off the next frame of a response, with all bytes before it, and gives its PDU as it came. `None` where there is no whole frame; the
/// bytes that begin none are dropped.
///
/// # Errors
/// `TooManyRetries` where no frame stands at the first `MAX_RETRIES` offsets; they are dropped. `Invalid` where the PDU has no function code,
/// or an exception no code; the frame is gone. `NoMemory` where memory is refused for the bytes of a PDU.
#[tactic(auto, unfolding(modbus_rtu::specs::ResponseHead::response_verdict))]
pub(crate) fn take_raw_frame(
    alloc: Global,
    held: &mut BytesMut,
) -> Result<Option<rtu::ResponseAdu>, RtuError>
    ensures reads { ReadsBy response_verdict raw_result_of AnswerCarriesMemory
        (λ adu. adu.hdr.slave_id) (λ adu. adu.pdu.0) held.old.items result held.new.items }
{
    match next_frame_by(&ResponseRule, held.as_slice()) {
        Next::TooManyRetries => {
            held.advance(MAX_RETRIES);
            Err(RtuError::TooManyRetries)
        }
        Next::Waiting { dropped } => {
            held.advance(dropped);
            Ok(None)
        }
        Next::Frame { start, pdu_len } => {
            let slave_id = held.as_slice()[start];
            match AsBytes::read(alloc, &held.as_slice()[start + 1..][..pdu_len]) {
                Ok(pdu) => {
                    held.advance(start + pdu_len + OVERHEAD);
                    Ok(Some(rtu::ResponseAdu {
                        hdr: rtu::Header { slave_id },
                        pdu,
                    }))
                }
                Err(PduError::Refused(reason)) => {
                    held.advance(start + pdu_len + OVERHEAD);
                    Err(RtuError::Invalid(reason))
                }
                Err(PduError::NoMemory) => Err(RtuError::NoMemory),
            }
        }
    }
}
