//! A place in a PDU, which reads move on.
//!
//! The contracts speak of places of the whole PDU, so that a reader's contract does too.
ghost use Rattle.std.specs.Prelude.{◌≡◌, ◌+◌, ◌≤◌, length, drop, slice_index, nat_lt, Ok, Err, OnOk, if◌then◌else◌};
ghost use Rattle.modbus_frame.specs.declared.fault.Reason.TheVariants.{SizeExceeded, UnexpectedEnd, UndecodedData};
ghost use Rattle.modbus_pdu.specs.Fields.{word_at};
ghost use Rattle.modbus_pdu.specs.Limits.{max_pdu};

use crate::limits::MAX_PDU;
use modbus_frame::Reason;

/// The bytes of a PDU, and the place of the next one that is read.
#[derive(Drop)]
pub(crate) struct Cursor<'a> {
    pub(crate) bytes: &'a [u8],
    pub(crate) at: usize,
    ghost within: { at ≤ length bytes.now },
}

impl<'a> Cursor<'a> {
    /// A cursor at the first byte.
    #[inline]
    pub(crate) fn new(bytes: &'a [u8]) -> Cursor<'a>
        ensures start { result.at ≡ 0 }
        ensures bytes { result.bytes.now ≡ bytes.now }
    {
        Cursor { bytes, at: 0 }
    }

    /// The next byte.
    #[inline]
    pub(crate) fn byte(&mut self) -> Result<u8, Reason>
        ensures value { result ≡ (if nat_lt (length self.old.bytes.now) (self.old.at + 1)
            then Err UnexpectedEnd else Ok (slice_index self.old.bytes.now self.old.at)) }
        ensures place { OnOk result (self.new.at ≡ self.old.at + 1) }
        ensures bytes { self.new.bytes.now ≡ self.old.bytes.now }
    {
        if self.at >= self.bytes.len() {
            return Err(Reason::UnexpectedEnd);
        }
        let byte = self.bytes[self.at];
        self.at += 1;
        Ok(byte)
    }

    /// The next two bytes, the high one first.
    #[inline]
    pub(crate) fn word(&mut self) -> Result<u16, Reason>
        ensures value { result ≡ (if nat_lt (length self.old.bytes.now) (self.old.at + 2)
            then Err UnexpectedEnd else Ok (word_at self.old.bytes.now self.old.at)) }
        ensures place { OnOk result (self.new.at ≡ self.old.at + 2) }
        ensures bytes { self.new.bytes.now ≡ self.old.bytes.now }
    {
        if self.bytes.len() - self.at < 2 {
            return Err(Reason::UnexpectedEnd);
        }
        let word = u16::from_be_bytes([self.bytes[self.at], self.bytes[self.at + 1]]);
        self.at += 2;
        Ok(word)
    }

    /// The bytes that are left.
    #[inline]
    pub(crate) fn rest(&self) -> &'a [u8]
        ensures { result.now ≡ drop self.now.at self.now.bytes.now }
    {
        &self.bytes[self.at..]
    }

    /// The PDU may not be longer than an encoded one can be.
    #[inline]
    pub(crate) fn check_size(&self) -> Result<(), Reason>
        ensures { result ≡ (if nat_lt max_pdu (length self.now.bytes.now)
            then Err SizeExceeded else Ok tt) }
    {
        if self.bytes.len() > MAX_PDU {
            return Err(Reason::SizeExceeded);
        }
        Ok(())
    }

    /// Nothing may be left.
    #[inline]
    pub(crate) fn finish(self) -> Result<(), Reason>
        ensures { result ≡ (if nat_lt self.entry.at (length self.entry.bytes.now)
            then Err UndecodedData else Ok tt) }
    {
        if self.at < self.bytes.len() {
            return Err(Reason::UndecodedData);
        }
        Ok(())
    }
}
