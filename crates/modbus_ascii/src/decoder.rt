//! The decoder of frames in the ASCII transmission mode, which looks at each byte once (MODBUS over Serial Line V1.02, section 2.5.2).
ghost use Rattle.std.specs.Prelude.{◌≡◌, ◌≢◌, ◌↔◌, ℕ, ◌<◌, ◌≤◌, true, false, List, [], ◌∷◌, ◌++◌, length, take, IsTrue, None};
ghost use Rattle.modbus_ascii.specs.declared.decoder.Phase.TheVariants.{Digits};
ghost use Rattle.modbus_ascii.specs.Limits.{colon, carriage_return, line_feed};
ghost use Rattle.modbus_pdu.specs.Limits.{max_pdu};
ghost use Rattle.modbus_ascii.specs.Text.{open_end};
ghost use Rattle.modbus_ascii.specs.Frames.{is_hex_digit, digit_value, slave_and_pdu, frames};
ghost use Rattle.modbus_ascii.specs.Decoder.{DecodesText, FollowOpen, IsRoomy, ended, given_frames, made_frame};

use crate::digit::value_of_digit;
use crate::limits::{MAX_BODY, OVERHEAD};
use arrayvec::ArrayVec;
use modbus_frame::SlaveId;
use modbus_pdu::MAX_PDU;
use std::marker::Model;

/// The character that begins a frame.
pub(crate) const COLON: u8 = b':';

/// The two characters that end a frame.
pub(crate) const CARRIAGE_RETURN: u8 = b'\r';

pub(crate) const LINE_FEED: u8 = b'\n';

/// A frame: its slave address and its PDU, without the LRC (MODBUS over Serial Line V1.02, section 2.5.2.1).
#[derive(Debug, PartialEq, Eq, Drop)]
pub struct AsciiFrame {
    pub slave: SlaveId,
    pub pdu: ArrayVec<u8, MAX_PDU>,
}

/// How far the text of a `:` is.
#[derive(Clone, Copy, Debug, PartialEq, Eq)]
enum Phase {
    /// No `:` is open.
    Closed,
    /// The text is digits, no more than a frame has.
    Digits,
    /// It is such digits and a CR.
    Returned,
    /// It is that of no frame, and its last character is no CR.
    Skipped,
    /// It is that of no frame, and its last character is a CR.
    SkippedReturn,
}

/// Takes frames from bytes one after another, and looks at each byte once. It takes no memory.
#[derive(Debug, Drop)]
pub struct AsciiDecoder {
    phase: Phase,
    // the bytes whose digits came: a slave address, a PDU and an LRC
    bytes: ArrayVec<u8, MAX_BODY>,
    // the value of a digit that waits for the second one of its byte
    half: Option<u8>,
    // the sum of the bytes modulo 256
    total: u8,
}

/// A contract sees what is kept of the text of the `:` that is open.
impl Model for AsciiDecoder {
    ghost use Rattle.std.specs.Prelude.{◌≡◌, ◌+◌, ◌%◌, ◌<◌, ◌≤◌, length, IfSome, sum};
    ghost use Rattle.std.specs.Option.{option_to_list};
    ghost use Rattle.modbus_ascii.specs.Limits.{max_body};
    ghost use Rattle.modbus_ascii.specs.Decoder.{Reading};

    ghost Value = { Reading };

    ghost view = { λ d. record { phase = d.phase; bytes = d.bytes.items; half = d.half } };

    ghost invariant = { λ d. record {
      adds : d.total ≡ sum d.bytes.items % 256;
      within : length d.bytes.items ≤ max_body;
      digit : IfSome d.half (λ high. high < 16);
      room : length d.bytes.items + length (option_to_list d.half) ≤ max_body;
    } };
}

impl AsciiDecoder {
    /// A decoder that was fed no byte.
    pub fn new() -> AsciiDecoder
        ensures { DecodesText [] result }
    {
        AsciiDecoder {
            phase: Phase::Closed,
            bytes: ArrayVec::new(),
            half: None,
            total: 0,
        }
    }

    /// A `:` begins a text.
    fn begin(&mut self)
        ensures { (fed : List ℕ) → DecodesText (fed ++ colon ∷ []) self.new }
    {
        self.phase = Phase::Digits;
        self.bytes.clear();
        self.half = None;
        self.total = 0;
    }

    /// A digit of this value follows digits.
    fn take_digit(&mut self, character: u8, value: u8)
        requires phase { self.old.phase ≡ Digits }
        requires digit { is_hex_digit character ≡ true }
        requires value { value ≡ digit_value character }
        requires below { value < 16 }
        ensures { (fed : List ℕ) → DecodesText fed self.old → DecodesText (fed ++ character ∷ []) self.new }
    {
        match self.half {
            Some(high) => {
                let byte = 16 * high + value;
                self.bytes.push(byte);
                self.total = self.total.wrapping_add(byte);
                self.half = None;
            }
            None => {
                if self.bytes.is_full() {
                    self.phase = Phase::Skipped;
                } else {
                    self.half = Some(value);
                }
            }
        }
    }

    /// Takes two digits that make a byte of a text, where all before them make bytes and a frame has room for one more: whether it did.
    #[inline(always)]
    pub(crate) fn take_pair(&mut self, high: u8, low: u8) -> bool
        ensures left { result ≡ false → self.new ≡ self.old }
        ensures reads { result ≡ true → (fed : List ℕ) → DecodesText fed self.old
            → DecodesText (fed ++ high ∷ low ∷ []) self.new }
        ensures follows { result ≡ true → (fed : List ℕ) → DecodesText fed self.old
            → FollowOpen fed high low }
    {
        if self.bytes.is_full() {
            return false;
        }
        match (
            self.phase,
            self.half,
            value_of_digit(high),
            value_of_digit(low),
        ) {
            (Phase::Digits, None, Some(sixteens), Some(ones)) => {
                let byte = 16 * sixteens + ones;
                self.bytes.push(byte);
                self.total = self.total.wrapping_add(byte);
                true
            }
            _ => false,
        }
    }

    /// A character other than `:`, CR and LF follows.
    fn take_character(&mut self, character: u8)
        requires begins { character ≢ colon }
        requires returns { character ≢ carriage_return }
        requires feeds { character ≢ line_feed }
        ensures { (fed : List ℕ) → DecodesText fed self.old → DecodesText (fed ++ character ∷ []) self.new }
    {
        match self.phase {
            Phase::Closed => {}
            Phase::Digits => match value_of_digit(character) {
                Some(value) => self.take_digit(character, value),
                None => self.phase = Phase::Skipped,
            },
            Phase::Returned | Phase::Skipped | Phase::SkippedReturn => self.phase = Phase::Skipped,
        }
    }

    /// A CR follows.
    fn take_return(&mut self)
        ensures { (fed : List ℕ) → DecodesText fed self.old
            → DecodesText (fed ++ carriage_return ∷ []) self.new }
    {
        match self.phase {
            Phase::Closed => {}
            Phase::Digits => self.phase = Phase::Returned,
            Phase::Returned | Phase::Skipped | Phase::SkippedReturn => {
                self.phase = Phase::SkippedReturn;
            }
        }
    }

    /// Whether the digits are those of a frame.
    fn is_frame(&self) -> bool
        ensures { result ≡ made_frame self.now }
    {
        self.half.is_none() && self.bytes.len() > OVERHEAD && self.total == 0
    }

    /// A LF follows: whether it ends a frame.
    fn take_feed(&mut self) -> bool
        ensures reads { (fed : List ℕ) → DecodesText fed self.old
            → DecodesText (fed ++ line_feed ∷ []) self.new }
        ensures gives { (fed : List ℕ) → DecodesText fed self.old
            → frames (fed ++ line_feed ∷ []) ≡ frames fed ++ ended result self.new }
    {
        match self.phase {
            Phase::Closed => false,
            Phase::Digits | Phase::Skipped => {
                self.phase = Phase::Skipped;
                false
            }
            Phase::SkippedReturn => {
                self.phase = Phase::Closed;
                false
            }
            Phase::Returned => {
                self.phase = Phase::Closed;
                self.is_frame()
            }
        }
    }

    /// Takes a byte: whether it ended a frame, which `slave` and `pdu` then tell.
    pub(crate) fn take(&mut self, byte: u8) -> bool
        ensures reads { (fed : List ℕ) → DecodesText fed self.old
            → DecodesText (fed ++ byte ∷ []) self.new }
        ensures gives { (fed : List ℕ) → DecodesText fed self.old
            → frames (fed ++ byte ∷ []) ≡ frames fed ++ ended result self.new }
    {
        match byte {
            COLON => {
                self.begin();
                false
            }
            CARRIAGE_RETURN => {
                self.take_return();
                false
            }
            LINE_FEED => self.take_feed(),
            character => {
                self.take_character(character);
                false
            }
        }
    }

    /// The digits that it keeps are no more than a frame has. It has no code.
    pub(crate) fn has_room(&self)
        ensures { IsRoomy self.now }
    {
        let _phase = &self.phase;
    }

    /// Whether a `:` is open.
    pub fn is_open(&self) -> bool
        ensures { (fed : List ℕ) → DecodesText fed self.now → IsTrue result ↔ (open_end fed ≢ []) }
    {
        self.phase != Phase::Closed
    }

    /// The slave address of the frame that the last byte ended.
    pub(crate) fn slave(&self) -> SlaveId
        ensures { result ≡ (slave_and_pdu self.now.bytes).header }
    {
        self.bytes.first().copied().unwrap_or(0)
    }

    /// The PDU of the frame that the last byte ended.
    pub(crate) fn pdu(&self) -> &[u8]
        ensures exact { result.now ≡ (slave_and_pdu self.now.bytes).pdu }
        ensures most { length result.now ≤ max_pdu }
    {
        match self.bytes.as_slice() {
            [_slave, pdu @ .., _lrc] => pdu,
            _ => &[],
        }
    }

    /// Takes a byte: the frame that it ends, which it does where it is the LF of a `:` whose text is that of a frame. All other bytes are
    /// skipped: those outside of a text, and a text with an odd number of digits, with too few or too many, with a character that is no
    /// digit, or with a wrong LRC. A `:` begins anew. Digits of either case are read.
    pub fn feed(&mut self, byte: u8) -> Option<AsciiFrame>
        // For all bytes that it was fed before this one: it goes on by the byte, and gives the frame that they deliver with the byte and
        // did not deliver without it.
        ensures reads { (fed : List ℕ) → DecodesText fed self.old
            → DecodesText (fed ++ byte ∷ []) self.new }
        ensures gives { (fed : List ℕ) → DecodesText fed self.old
            → frames (fed ++ byte ∷ []) ≡ frames fed ++ given_frames result }
    {
        if self.take(byte) {
            Some(AsciiFrame {
                slave: self.slave(),
                pdu: copy_pdu(self.pdu()),
            })
        } else {
            None
        }
    }
}

/// Copies the PDU of a frame.
fn copy_pdu(pdu: &[u8]) -> ArrayVec<u8, MAX_PDU>
    requires { length pdu.now ≤ max_pdu }
    ensures { result.items ≡ pdu.now }
{
    match ArrayVec::try_from(pdu) {
        Ok(copy) => copy,
        Err(_) => unreachable!(),
    }
}
