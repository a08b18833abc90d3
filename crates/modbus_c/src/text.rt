//! The search for the next text of Modbus ASCII that delivers a frame. It takes no memory.
ghost use Rattle.std.specs.Prelude.{◌≡◌, ℕ, ◌+◌, ◌<◌, ◌≤◌, List, [], ◌∷◌, ◌++◌, length, drop};
ghost use Rattle.modbus_ascii.specs.Decoder.{DecodesText};
ghost use Rattle.modbus_ascii.specs.Text.{open_end};
ghost use Rattle.modbus_c.specs.Texts.{IsNextText};

use modbus_ascii::laws::{frames_behind_open_ends, frames_go_on, open_ends_grow};
use modbus_ascii::{AsciiDecoder, AsciiFrame, MAX_FRAME};

/// The character that begins a text.
const COLON: u8 = b':';

/// What a search finds.
#[derive(Drop)]
pub(crate) enum NextText {
    /// The next frame that a text delivers, and where that ends.
    Frame { frame: AsciiFrame, used: usize },
    /// None yet: so many bytes are of no use.
    Waiting { dropped: usize },
}

/// Where what is open begins after a byte, by where it began before, among bytes that end with this one.
fn open_from(decoder: &AsciiDecoder, start: usize, place: usize, byte: u8) -> usize
    requires start { start ≤ place }
    requires place { place < usize.MAX }
    ensures within { result ≤ place + 1 }
    ensures begins { (fed : List ℕ) → length fed ≡ place → drop start fed ≡ open_end fed
        → DecodesText (fed ++ byte ∷ []) decoder.now
        → drop result (fed ++ byte ∷ []) ≡ open_end (fed ++ byte ∷ []) }
{
    open_ends_grow();
    if byte == COLON {
        place
    } else if decoder.is_open() {
        start
    } else {
        place + 1
    }
}

/// Searches bytes for the next text that delivers a frame.
pub(crate) fn next_text(bytes: &[u8]) -> NextText
    ensures { IsNextText bytes.now result }
{
    frames_go_on();
    open_ends_grow();
    frames_behind_open_ends();
    let mut decoder = AsciiDecoder::new();
    let mut start = 0;
    'texts: for place in 0..bytes.len() {
        let byte = bytes[place];
        if let Some(frame) = decoder.feed(byte) {
            return NextText::Frame {
                frame,
                used: place + 1,
            };
        }
        start = open_from(&decoder, start, place, byte);
    }
    if bytes.len() - start > MAX_FRAME {
        return NextText::Waiting {
            dropped: bytes.len(),
        };
    }
    NextText::Waiting { dropped: start }
}
