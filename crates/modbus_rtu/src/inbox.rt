//! The bytes that an RTU server read and did not use yet, and the frames that it takes from them.
ghost use Rattle.std.specs.Prelude.{◌≡◌, ℕ, Ok, None, ◌+◌, ◌-◌, ◌<◌, ◌≤◌, ◌↔◌, List, [], ◌∷◌, ◌++◌, length, drop, IfOk, IfErr, IfNone, IfSome, OnErr, IsTrue};
ghost use Rattle.modbus_pdu.specs.SlavePdu.{SlavePdu};
ghost use Rattle.modbus_link.specs.Outside.{Rose, front_of};
ghost use Rattle.modbus_link.specs.Reads.{ReadsPiece};
ghost use Rattle.modbus_rtu.specs.declared.verdict.Verdict.TheVariants.{Open};
ghost use Rattle.modbus_rtu.specs.declared.inbox.RtuError.TheVariants as errors;
ghost use Rattle.modbus_rtu.specs.Decoder.{error_of};
ghost use Rattle.modbus_rtu.specs.Frame.{verdict};
ghost use Rattle.modbus_rtu.specs.Stands.{StandsFor, IsTakenNext};
ghost use Rattle.modbus_rtu.specs.Front.{FindsFrame, FindsFrameIn};
ghost use Rattle.modbus_rtu.specs.Inbox.{slave_and_pdu, TakesFrame, StandsAfter};
ghost use Rattle.modbus_pdu.specs.Limits.{max_pdu};
ghost use Rattle.modbus_rtu.specs.Limits.{max_frame};

use crate::front::{Crowd, find_in_two};
use crate::length::MAX_FRAME;
use crate::search::MAX_RETRIES;
use arrayvec::ArrayVec;
use circular_buffer::HeapCircularBuffer;
use modbus_frame::{Front, PduError, Reason, SlaveId};
use modbus_link::{Failed, Source};
use modbus_pdu::MAX_PDU;
use std::alloc::{AllocError, Global};
use std::marker::Model;

/// A frame that was taken off: its slave address and its PDU, without the checksum (MODBUS over Serial Line V1.02, section 2.2).
#[derive(Debug, PartialEq, Eq, Drop)]
pub struct RtuFrame {
    pub slave: SlaveId,
    pub pdu: ArrayVec<u8, MAX_PDU>,
}

/// Why no frame is given.
#[derive(Clone, Copy, Debug, PartialEq, Eq)]
pub enum RtuError {
    /// No frame stands at `MAX_RETRIES` offsets one after another.
    TooManyRetries,
    /// The PDU of a frame is refused for this reason.
    Invalid(Reason),
    /// Memory is refused.
    NoMemory,
}

impl From<AllocError> for RtuError {
    ghost from_gives = { λ _ error. error ≡ errors.NoMemory };

    fn from(_error: AllocError) -> RtuError {
        RtuError::NoMemory
    }
}

impl From<PduError> for RtuError {
    ghost from_gives = { λ fault error. error ≡ error_of fault };

    fn from(fault: PduError) -> RtuError {
        match fault {
            PduError::Refused(reason) => RtuError::Invalid(reason),
            PduError::NoMemory => RtuError::NoMemory,
        }
    }
}

/// The bytes that were read and not used yet, at most `MAX_FRAME`.
///
/// They lie in a ring, whose room is taken when the inbox is opened, so no byte is moved when others are taken off.
#[derive(Drop)]
pub struct Inbox {
    ring: HeapCircularBuffer<u8>,
}

/// A contract sees the bytes that are held.
impl Model for Inbox {
    ghost use Rattle.modbus_rtu.specs.Limits.{max_frame};
    ghost use Rattle.std.specs.Prelude.{◌≡◌, ℕ, ◌≤◌, List, length};

    ghost Value = { List ℕ };

    ghost view = { λ inbox. inbox.ring.items };

    ghost invariant = { λ inbox. record {
      room : inbox.ring.capacity ≡ max_frame;
      within : length inbox.ring.items ≤ max_frame;
    } };
}

/// Copies the PDU of a frame.
fn copy_pdu(pdu: &[u8]) -> ArrayVec<u8, MAX_PDU>
    requires { length pdu.now ≤ max_pdu }
    ensures { result.items ≡ pdu.now }
{
    match ArrayVec::try_from(pdu) {
        Ok(copy) => copy,
        Err(_) => unreachable!(),
    }
}

/// Makes one read of the source, and answers how many bytes it gave: a front of the buffer.
///
/// # Errors
/// `Failed`, only where the source's count of faults rose.
fn read_piece<S: Source>(source: &mut S, buffer: &mut [u8]) -> Result<usize, Failed>
    requires { 0 < length buffer.old }
    ensures within { IfOk result (λ count. count ≤ length buffer.new) }
    ensures reads { ReadsPiece (S.input source.old) (S.input source.new) (length buffer.old)
        (front_of result buffer.new) result }
    ensures cause { OnErr result (Rose (S.input source.old).faults (S.input source.new).faults) }
    ensures sink { S.output source.new ≡ S.output source.old }
{
    source.read(buffer)
}

impl Inbox {
    /// An inbox that holds no byte. It takes the room for all bytes that it will ever hold.
    ///
    /// # Errors
    /// `AllocError` where memory is refused.
    pub fn open(alloc: Global) -> Result<Inbox, AllocError>
        ensures { IfOk result (λ inbox. inbox ≡ []) }
    {
        Ok(Inbox {
            ring: HeapCircularBuffer::with_capacity(alloc, MAX_FRAME)?,
        })
    }

    /// How many bytes are held.
    #[inline]
    pub fn held(&self) -> usize
        ensures exact { result ≡ length self.now }
        ensures most { result ≤ max_frame }
    {
        self.ring.len()
    }

    /// How many bytes fit behind those that are held: the room of the next read.
    #[inline]
    pub fn room(&self) -> usize
        ensures exact { result ≡ max_frame - length self.now }
        ensures most { length self.now ≤ max_frame }
    {
        MAX_FRAME - self.held()
    }

    /// Whether no byte is held.
    #[inline]
    pub fn is_empty(&self) -> bool
        ensures { IsTrue result ↔ (self.now ≡ []) }
    {
        self.ring.is_empty()
    }

    /// Appends bytes for which there is room.
    pub fn append(&mut self, piece: &[u8])
        requires { length self.old + length piece.now ≤ max_frame }
        ensures { self.new ≡ self.old ++ piece.now }
    {
        self.ring.extend_from_slice(piece);
    }

    /// Takes so many bytes off the front. No byte is moved.
    #[inline]
    pub fn advance(&mut self, count: usize)
        requires { count ≤ length self.old }
        ensures { self.new ≡ drop count self.old }
    {
        let left = self.held() - count;
        self.ring.truncate_front(left);
    }

    /// Reads from the source into a room of `MAX_FRAME` bytes less those that are held, appends what it gave, and answers how many
    /// bytes that were: 0 exactly where the input has ended. It takes no memory.
    ///
    /// # Errors
    /// `Failed`, only where the source's count of faults rose; then nothing was read, and the same bytes are held.
    pub fn fill<S: Source>(&mut self, source: &mut S) -> Result<usize, Failed>
        requires { length self.old < max_frame }
        ensures reads { (piece : List ℕ) × ReadsPiece (S.input source.old) (S.input source.new)
            (max_frame - length self.old) piece result × (self.new ≡ self.old ++ piece) }
        ensures sink { S.output source.new ≡ S.output source.old }
        ensures cause { OnErr result (Rose (S.input source.old).faults
            (S.input source.new).faults) }
        ensures err { OnErr result (self.new ≡ self.old) }

        // Whatever the source tells, no more is held than fits.
        ensures most { length self.new ≤ max_frame }

        // Where nothing can be taken off, what the inbox stands for goes on by the piece that was read.
        ensures stands { (piece : List ℕ) → self.new ≡ self.old ++ piece → 0 < length piece
            → (bytes cuts : List ℕ) (taken : List SlavePdu)
            → StandsFor bytes cuts self.old taken → verdict self.old 0 ≡ Open
            → StandsFor (bytes ++ piece) (cuts ++ length (bytes ++ piece) ∷ []) self.new taken }
    {
        let mut buffer = [0; MAX_FRAME];
        let room = self.room();
        let count = read_piece(source, &mut buffer[..room])?;
        self.append(&buffer[..count]);
        Ok(count)
    }

    /// What the search of the held bytes finds: the next frame, with its PDU lent from where it lies, or that bytes are waited for.
    /// Nothing is taken off: `advance` by `end`, by `dropped`, or by `MAX_RETRIES` in a crowd does that.
    ///
    /// A frame that lies at the end of the ring and goes on at its front is copied to `seam`, which has room for `MAX_FRAME` bytes, and
    /// its PDU is lent from there.
    ///
    /// # Errors
    /// `Crowd` exactly where no frame stands at the first `MAX_RETRIES` offsets.
    #[inline(always)]
    pub fn front<'a>(&'a self, seam: &'a mut [u8]) -> Result<Front<'a, SlaveId>, Crowd>
        requires { max_frame ≤ length seam.old }
        ensures finds { FindsFrame self.now result }
        ensures most { length self.now ≤ max_frame }

        // In terms of all bytes that were given so far: which frame it is, and what the bytes behind it then stand for.
        ensures stands { (bytes cuts : List ℕ) (taken : List SlavePdu)
            → StandsFor bytes cuts self.now taken → FindsFrameIn bytes cuts taken self.now result }
    {
        let (first, second) = self.ring.as_slices();
        find_in_two(first, second, seam)
    }

    /// The search, and what it takes off.
    fn take_next(&mut self) -> Result<Option<RtuFrame>, RtuError>
        ensures gives { TakesFrame self.old result self.new }
        ensures room { IfOk result (λ found. IfNone found (length self.new < max_frame)) }
    {
        let mut seam = [0; MAX_FRAME];
        match self.front(&mut seam) {
            Err(Crowd) => {
                self.advance(MAX_RETRIES);
                Err(RtuError::TooManyRetries)
            }
            Ok(Front::Waiting { dropped }) => {
                self.advance(dropped);
                Ok(None)
            }
            Ok(Front::Message { header, pdu, end }) => {
                let pdu = copy_pdu(pdu);
                self.advance(end);
                Ok(Some(RtuFrame { slave: header, pdu }))
            }
        }
    }

    /// Takes off the next frame: the first good offset after fewer than `MAX_RETRIES` bad ones, with all bytes before it. `None`
    /// where an open offset comes first; the bad ones before it are dropped. It takes no memory.
    ///
    /// # Errors
    /// `TooManyRetries` exactly where the first `MAX_RETRIES` offsets are bad, and these are dropped. `Invalid` and `NoMemory`
    /// never.
    pub fn next(&mut self) -> Result<Option<RtuFrame>, RtuError>
        ensures gives { TakesFrame self.old result self.new }
        ensures causes { IfErr result (λ error. error ≡ RtuError.TooManyRetries) }
        ensures shrinks { IfOk result (λ found.
            IfSome found (λ frame. length self.new < length self.old)) }

        // Where there is no frame, a read has room, and what is held begins with the open offset.
        ensures room { IfOk result (λ found. IfNone found (length self.new < max_frame)) }
        ensures open { result ≡ Ok None → verdict self.new 0 ≡ Open }

        // In terms of all bytes that were given so far: which frame it is, and what the inbox then stands for.
        ensures taken { IfOk result (λ found.
            IfSome found (λ frame. (bytes cuts : List ℕ) (taken : List SlavePdu)
            → StandsFor bytes cuts self.old taken → IsTakenNext bytes cuts taken (slave_and_pdu frame))) }
        ensures stands { (bytes cuts : List ℕ) (taken : List SlavePdu)
            → StandsFor bytes cuts self.old taken → StandsAfter bytes cuts taken result self.new }
    {
        self.take_next()
    }
}
