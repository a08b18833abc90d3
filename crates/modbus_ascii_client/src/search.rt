//! The search for the reply of a slave in held characters, with one look at each of them.
ghost use Rattle.std.specs.Prelude.{◌≡◌, ℕ, ◌<◌, ◌≤◌, List, [], ◌∷◌, ◌++◌, length};
ghost use Rattle.modbus_ascii.specs.Decoder.{DecodesText};
ghost use Rattle.modbus_ascii.specs.Frames.{frames};
ghost use Rattle.modbus_ascii_client.specs.Frames.{reply_of, others_before, counted};
ghost use Rattle.modbus_ascii_client.specs.Search.{OpensAt, HasScanned, ScansTo, told_of};

use modbus_ascii::{AsciiDecoder, AsciiFrame, MAX_FRAME};
use modbus_frame::SlaveId;

/// The character that begins a frame.
const COLON: u8 = b':';

/// What held characters have.
#[derive(Drop)]
pub(crate) struct Search {
    /// The first frame of the slave.
    pub(crate) reply: Option<AsciiFrame>,
    /// How many frames of other slaves stand before it, or in all of them where there is none.
    pub(crate) others: u64,
    /// Where the front of a frame begins that they end with; their length where they end with none.
    pub(crate) start: usize,
}

/// A decoder, and what it was fed.
#[derive(Drop)]
struct Scan {
    decoder: AsciiDecoder,
    /// How many characters it was fed.
    fed: usize,
    /// Where the text begins that is open at their end; their number where none is open.
    start: usize,
    /// How many frames of other slaves they have.
    others: u64,
}

impl Scan {
    /// One that was fed no character.
    fn new(slave: SlaveId) -> Scan
        ensures { HasScanned slave [] result }
    {
        let _slave = slave;
        Scan {
            decoder: AsciiDecoder::new(),
            fed: 0,
            start: 0,
            others: 0,
        }
    }

    /// Where the text begins that is open after this character, which the decoder was fed.
    fn start_after(&self, byte: u8) -> usize
        requires { self.now.fed < usize.MAX }
        ensures { (seen : List ℕ) → self.now.fed ≡ length seen → OpensAt seen self.now.start
            → DecodesText (seen ++ byte ∷ []) self.now.decoder
            → OpensAt (seen ++ byte ∷ []) result }
    {
        modbus_ascii::laws::open_ends_grow();
        if byte == COLON {
            self.fed
        } else if self.decoder.is_open() {
            self.start
        } else {
            self.fed + 1
        }
    }

    /// Feeds the decoder a character: the frame that it ends, where that is of the slave.
    fn take(&mut self, slave: SlaveId, byte: u8) -> Option<AsciiFrame>
        requires { self.old.fed < usize.MAX }
        ensures { (seen : List ℕ) → HasScanned slave seen self.old
            → ScansTo slave seen (seen ++ byte ∷ []) self.new result }
    {
        let ended = self.decoder.feed(byte);
        self.start = self.start_after(byte);
        self.fed += 1;
        match ended {
            Some(frame) => {
                if frame.slave == slave {
                    Some(frame)
                } else {
                    self.others = self.others.saturating_add(1);
                    None
                }
            }
            None => None,
        }
    }
}

/// Looks for the first frame of a slave.
pub(crate) fn first_reply(slave: SlaveId, held: &[u8]) -> Search
    ensures told { told_of held.now result ≡ reply_of slave held.now }
    ensures others { result.others ≡ counted (others_before slave (frames held.now)) }
    ensures start { result.start ≤ length held.now }
{
    modbus_ascii::laws::frames_go_on();
    let mut scan = Scan::new(slave);
    for byte in held {
        if let Some(frame) = scan.take(slave, *byte) {
            return Search {
                reply: Some(frame),
                others: scan.others,
                start: held.len(),
            };
        }
    }
    // A text that is too long for a frame delivers none.
    let start = if held.len() - scan.start > MAX_FRAME {
        held.len()
    } else {
        scan.start
    };
    Search {
        reply: None,
        others: scan.others,
        start,
    }
}
