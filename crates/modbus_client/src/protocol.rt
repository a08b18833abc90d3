//! What a call needs of its protocol: how a request is framed, and how the reply is found in the bytes that come.
//!
//! RTU frames and Modbus TCP are protocols; another crate can add its own, and `LinkClient` is its client.
ghost use Rattle.std.specs.Prelude.{◌≡◌, ℕ, ◌<◌, ◌++◌, ◌∷◌, List, [], length};
ghost use Rattle.modbus_frame.specs.Meaning.{meaning};
ghost use Rattle.modbus_pdu.specs.Encodes.{Encodes};
ghost use Rattle.modbus_pdu.specs.RequestPdu.{request_pdu};
ghost use Rattle.modbus_client.specs.Protocol.{Protocol as Finding, Heading, Found, waiting, IsOfMessage};
ghost use Rattle.modbus_client.specs.Call.{LooksAs, IsOwn};

use bytes::BytesMut;
use modbus_frame::{
    EncodeError, ExceptionResponse, HeaderSeen, Reason, Request, Response, Slave, TransportError,
};
use std::alloc::Global;

/// A message that was received.
#[derive(Debug, PartialEq, Eq, Drop)]
pub struct Reply {
    /// What is compared of its header.
    pub header: HeaderSeen,
    /// What its PDU tells.
    pub result: Result<Response, ExceptionResponse>,
}

/// Why the bytes give no message.
#[derive(Clone, Copy, Debug, PartialEq, Eq)]
pub enum LookError {
    /// No message comes by waiting, for this fault of the protocol: `TooManyRetries`, `InvalidLength` or `InvalidProtocol`.
    Broken(TransportError),
    /// The PDU of the next message is no response, for this reason.
    Refused(Reason),
    /// Memory was refused, for a message whose PDU is a response that carries a list or bytes.
    NoMemory,
}

/// How requests are framed, and how the reply is found in the bytes that come.
pub trait Protocol: Drop {
    /// What stands beside the PDU of a request, as the slave address of an RTU frame.
    type Header: Copy;

    /// What a client keeps between its calls for the headers of its requests, as the transaction identifier that comes next; `()`
    /// where it keeps nothing.
    type Ids: Drop;

    ghost protocol: { Finding Self.Header };

    ghost heading: { Heading Self.Header Self.Ids };

    // how many messages of other requests it dropped
    ghost dropped_by: { Self → ℕ };

    /// One that was given no byte.
    fn new() -> Self
        ensures none { dropped_by result ≡ 0 };

    /// The identifiers of a client that asked nothing yet.
    fn first_ids() -> Self::Ids
        ensures { result ≡ heading.first };

    /// The header of a client's next request to this slave, whose identifiers count on.
    fn draw(ids: &mut Self::Ids, slave: Slave) -> Self::Header
        ensures header { result ≡ heading.header ids.old slave.0 }
        ensures next { ids.new ≡ heading.next ids.old };

    /// What is compared of a header.
    fn seen(header: Self::Header) -> HeaderSeen
        ensures { result ≡ protocol.seen header };

    /// Appends the bytes of a request under a header.
    ///
    /// # Errors
    /// `TooLong` with the size of the PDU in bytes, exactly where that is above 253. `NoMemory` where memory is refused. The bytes of
    /// the buffer are then as they were.
    fn encode(
        alloc: Global,
        header: Self::Header,
        request: &Request<'_>,
        buf: &mut BytesMut,
    ) -> Result<(), EncodeError>
        ensures { Encodes (protocol.adu header (request_pdu (meaning request.now)))
            (request_pdu (meaning request.now)) buf.old.items result buf.new.items };

    /// Looks for the reply in the held bytes, after some were appended. `asked` is what is compared of the request's header, for a
    /// protocol that drops the messages of another one. `None` where there is none yet.
    ///
    /// # Errors
    /// Those of `LookError`.
    fn look(
        &mut self,
        alloc: Global,
        asked: HeaderSeen,
        held: &mut BytesMut,
    ) -> Result<Option<Reply>, LookError>
        ensures own { IsOwn result }
        ensures looks { (bytes cuts earlier more : List ℕ)
            → protocol.Finds asked bytes cuts (waiting earlier)
            → held.old.items ≡ earlier ++ more → 0 < length more
            → LooksAs protocol asked (bytes ++ more) (cuts ++ length (bytes ++ more) ∷ [])
            held.new.items result }
        ensures counts { (bytes cuts earlier more : List ℕ)
            → protocol.Finds asked bytes cuts (waiting earlier)
            → held.old.items ≡ earlier ++ more → 0 < length more
            → protocol.Counts asked bytes cuts (dropped_by self.old)
            → protocol.Counts asked (bytes ++ more) (cuts ++ length (bytes ++ more) ∷ [])
            (dropped_by self.new) };

    /// How many messages of other requests it dropped. The count stands still at the end of its type.
    fn dropped(&self) -> u64
        ensures { result ≡ dropped_by self.now };

    /// What holds of every search, whatever was asked: with no byte it waits, and has dropped nothing; and in given bytes with given cuts it
    /// stands in one way. A message alone under the header that was asked is found in whatever pieces it comes. It has no code.
    fn laws()
        ensures opening { (asked : HeaderSeen) → protocol.Finds asked [] [] (waiting []) }
        ensures none_dropped { (asked : HeaderSeen) → protocol.Counts asked [] [] 0 }
        ensures one_way { (asked : HeaderSeen) (bytes cuts : List ℕ) (found other : Found)
            → protocol.Finds asked bytes cuts found → protocol.Finds asked bytes cuts other
            → found ≡ other }
        ensures alone { (header : Self.Header) (pdu bytes rest cuts : List ℕ) (found : Found)
            → protocol.IsWhole header pdu → protocol.adu header pdu ≡ bytes ++ rest
            → protocol.Finds (protocol.seen header) bytes cuts found
            → IsOfMessage (protocol.seen header) pdu rest found };
}

/// A protocol of a line that tells silence, which ends every message.
pub trait LineProtocol: Protocol {
    // how the reply stands in the bytes that came until the line was silent
    ghost silent: { Finding Self.Header };

    /// Looks for the reply in the held bytes once the line is silent, so that no more comes of them. `None` where there is none.
    ///
    /// # Errors
    /// Those of `LookError`.
    fn look_silent(
        &mut self,
        alloc: Global,
        asked: HeaderSeen,
        held: &mut BytesMut,
    ) -> Result<Option<Reply>, LookError>
        ensures own { IsOwn result }
        ensures looks { (bytes cuts : List ℕ)
            → Self.protocol.Finds asked bytes cuts (waiting held.old.items)
            → LooksAs silent asked bytes cuts held.new.items result };
}
