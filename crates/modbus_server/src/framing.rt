//! What a connection needs of its framing: which messages stand in the bytes that it was fed, and how answers are framed.
//!
//! RTU frames and Modbus TCP are framings; another crate can add its own.
ghost use Rattle.std.specs.Prelude.{◌≡◌, ◌↔◌, ℕ, ◌+◌, ◌<◌, ◌≤◌, ◌++◌, ◌∷◌, List, [], length, drop, IsTrue, Err, IfOk, IsOkAnd, OnOk, OnErr};
ghost use Rattle.std.specs.Result.{ForErr};
ghost use Rattle.modbus_frame.specs.Codes.{function_number};
ghost use Rattle.modbus_frame.specs.FunctionCodes.{exception_bit};
ghost use Rattle.modbus_frame.specs.Meaning.{meaning, function_asked};
ghost use Rattle.modbus_pdu.specs.Encodes.{Encodes};
ghost use Rattle.modbus_pdu.specs.Decodes.{Decodes};
ghost use Rattle.modbus_pdu.specs.RequestOf.{CarriesList};
ghost use Rattle.modbus_pdu.specs.ResponsePdu.{response_result_pdu};
ghost use Rattle.modbus_pdu.specs.Message.{Message};
ghost use Rattle.modbus_server.specs.declared.error.ProcessError.{ProcessError};
ghost use Rattle.modbus_server.specs.Framing.{Framing as Frames, IsOfFraming};
ghost use Rattle.modbus_server.specs.Next.{FindsNext, IsFrontWithin};

use crate::error::ProcessError;
use bytes::BytesMut;
use modbus_frame::{EncodeError, ExceptionResponse, Front, PduError, Request, Response, SlaveId};
use std::alloc::{AllocError, Global};

/// The fault of a framing that has none, which is never told.
#[derive(Clone, Copy, Debug, PartialEq, Eq)]
pub struct NoFault;

/// The bytes of a connection that were fed and not used yet, and how messages stand in them.
pub trait Framing: Drop {
    /// What stands beside the PDU of a message, as the slave address of an RTU frame.
    type Header: Copy;

    /// Why the bytes hold no further message.
    type Fault: Drop;

    ghost framing: { Frames };

    ghost header_of: { Self.Header → framing.Header };

    ghost told: { Self.Fault → ProcessError };

    ghost held: { Self → List ℕ };

    ghost free: { Self → ℕ };

    /// How a server tells a fault: as one of the three causes that are left to framings.
    fn tell(fault: Self::Fault) -> ProcessError
        ensures told { result ≡ told fault }
        ensures own { IsOfFraming result };

    /// Whom a message is for.
    fn slave(header: Self::Header) -> SlaveId
        ensures { result ≡ framing.slave (header_of header) };

    /// How many bytes of room in a buffer are enough for each answer.
    fn reply_room() -> usize
        ensures { result ≡ framing.reply_room };

    /// The length in bytes of the longest room of a read.
    fn longest_read() -> usize
        ensures { result ≡ framing.longest_read };

    /// How many bytes `front` wants to copy a message together; 0 for a framing whose messages always lie in one piece.
    fn seam() -> usize
        ensures { result ≡ framing.seam };

    /// What the PDU of a message asks: a request, of a function below 0x80.
    ///
    /// # Errors
    /// `Refused` with the reason why it asks nothing; `NoMemory` where memory is refused, only for a request that carries a list.
    fn decode(alloc: Global, pdu: &[u8]) -> Result<Request<'static>, PduError>
        ensures value { Decodes meaning result (framing.request_of pdu.now) }
        ensures memory { result ≡ Err PduError.NoMemory
            → IsOkAnd (framing.request_of pdu.now) CarriesList }
        ensures code { IfOk result (λ request.
            function_number (function_asked (meaning request)) < exception_bit) };

    /// Appends the bytes of an answer to a message, under the message's own header. The function of an exception is below 0x80.
    ///
    /// # Errors
    /// `TooLong` with the size of the answer's PDU in bytes, exactly where that is above 253; `NoMemory` where memory is refused, only
    /// where the buffer has less than `reply_room` bytes of room. The buffer is then as it was.
    fn encode_answer(
        alloc: Global,
        header: Self::Header,
        answer: &Result<Response, ExceptionResponse>,
        reply: &mut BytesMut,
    ) -> Result<(), EncodeError>
        requires { ForErr answer.now (λ refusal. function_number refusal.function < 0x80) }
        ensures encodes { Encodes (framing.adu (header_of header) (response_result_pdu answer.now))
            (response_result_pdu answer.now) reply.old.items result reply.new.items }
        ensures memory { result ≡ Err EncodeError.NoMemory → reply.old.spare < framing.reply_room }

        // All in all the buffer has as much room as it had.
        ensures room { length reply.old.items + reply.old.spare
            ≤ length reply.new.items + reply.new.spare };

    /// One that holds no byte.
    ///
    /// # Errors
    /// `AllocError` where memory is refused.
    fn open(alloc: Global) -> Result<Self, AllocError>
        ensures held { IfOk result (λ intake. held intake ≡ []) }
        ensures stands { framing.StandsFor [] [] [] [] };

    /// Whether no byte is held.
    fn is_empty(&self) -> bool
        ensures { IsTrue result ↔ (held self.now ≡ []) };

    /// What stands at the front of the held bytes. It takes no memory. A message that does not lie in one piece may be copied to `seam`,
    /// which has at least as many bytes as the framing tells (`Self::seam`).
    ///
    /// # Errors
    /// The fault that stands there.
    fn front<'a>(&'a self, seam: &'a mut [u8]) -> Result<Front<'a, Self::Header>, Self::Fault>
        requires { framing.seam ≤ length seam.old }
        ensures finds { (bytes cuts : List ℕ) (taken : List (Message framing.Header))
            → framing.StandsFor bytes cuts (held self.now) taken
            → FindsNext framing header_of told bytes cuts taken (held self.now) result }
        ensures within { IsFrontWithin framing.Waits (held self.now) result };

    /// Takes so many bytes off the front.
    fn advance(&mut self, count: usize)
        requires { count ≤ length (held self.old) }
        ensures { held self.new ≡ drop count (held self.old) };

    /// The length in bytes of the room of the next read, which is made where the held bytes wait for more.
    fn room(&self) -> usize
        requires { framing.Waits (held self.now) }
        ensures exact { result ≡ framing.room (held self.now) }
        ensures some { 0 < result }
        ensures within { result ≤ framing.longest_read }
        ensures rooms { (bytes cuts : List ℕ) (taken : List (Message framing.Header))
            → framing.StandsFor bytes cuts (held self.now) taken → framing.HasRoom bytes result };

    /// Makes the room of the next read.
    ///
    /// # Errors
    /// `AllocError` where memory is refused, only for a framing whose reads may take memory; the same bytes are held.
    fn make_room(&mut self, alloc: Global) -> Result<(), AllocError>
        requires { framing.Waits (held self.old) }
        ensures held { held self.new ≡ held self.old }
        ensures room { OnOk result (framing.room (held self.old) ≤ free self.new) }
        ensures memory { OnErr result framing.ReadsTakeMemory };

    /// Appends bytes for which there is room. It takes no memory.
    fn append(&mut self, piece: &[u8])
        requires waits { framing.Waits (held self.old) }
        requires fits { length piece.now ≤ framing.room (held self.old) }
        requires free { length piece.now ≤ free self.old }
        ensures held { held self.new ≡ held self.old ++ piece.now }
        ensures most { length (held self.new) ≤ framing.most }

        // What it stands for goes on by the piece.
        ensures grows { (bytes cuts : List ℕ) (taken : List (Message framing.Header))
            → framing.StandsFor bytes cuts (held self.old) taken → 0 < length piece.now
            → framing.StandsFor (bytes ++ piece.now) (cuts ++ length (bytes ++ piece.now) ∷ [])
            (held self.new) taken };

    /// What holds of the bytes that begin a clean line, in whatever pieces they came: they have no fault, a message that comes next is the
    /// next of the line, and where they are all of it nothing is left behind its messages. It has no code.
    fn laws()
        ensures calm { (read rest cuts : List ℕ) (messages before : List (Message framing.Header))
            (fault : ProcessError) → framing.IsClean (read ++ rest) messages
            → framing.IsBroken read cuts before fault → ⊥ }
        ensures next { (read rest cuts : List ℕ) (messages before : List (Message framing.Header))
            (message : Message framing.Header) → framing.IsClean (read ++ rest) messages
            → framing.IsNext read cuts before message
            → (later : List (Message framing.Header))
            × (messages ≡ (before ++ message ∷ []) ++ later) }
        ensures used { (read cuts left : List ℕ) (messages before : List (Message framing.Header))
            → framing.IsClean read messages → framing.IsAll read cuts left before → left ≡ [] };
}
