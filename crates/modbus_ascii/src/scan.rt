//! How far the decoder of a connection is in the bytes that are held. Each of them is looked at once.
ghost use Rattle.std.specs.Prelude.{◌≡◌, ℕ, ◌+◌, ◌<◌, ◌≤◌, true, false, List, [], ◌∷◌, ◌++◌, length, take, if◌then◌else◌};
ghost use Rattle.modbus_ascii.specs.Limits.{colon};
ghost use Rattle.modbus_ascii.specs.Decoder.{DecodesText};
ghost use Rattle.modbus_ascii.specs.Stands.{held_open};
ghost use Rattle.modbus_ascii.specs.Scan.{Feeds, HasSeen, IsPartOf, Scans};

use crate::decoder::{AsciiDecoder, COLON};
use crate::limits::MOST_OPEN;
use circular_buffer::HeapCircularBuffer;

/// A decoder, and how far it is in the bytes that are held.
#[derive(Drop)]
pub(crate) struct Scan {
    pub(crate) decoder: AsciiDecoder,
    /// How many of the held bytes it was fed.
    pub(crate) fed: usize,
    /// How many of the last of these are held of the `:` that is open.
    pub(crate) open: usize,
    /// Whether they end with a frame.
    pub(crate) found: bool,
}

impl Scan {
    /// One that was fed no held byte. They begin within a text that is too long, or outside of any.
    pub(crate) fn begin(within: bool) -> Scan
        ensures seen { HasSeen (if within then colon ∷ [] else []) result }
        ensures fed { result.fed ≡ 0 }
        ensures found { result.found ≡ false }
    {
        let mut scan = Scan {
            decoder: AsciiDecoder::new(),
            fed: 0,
            open: 0,
            found: false,
        };
        if within {
            scan.decoder.take(COLON);
            scan.open = 1;
        }
        scan
    }

    /// How many bytes are held of the `:` that is open, after the decoder was fed this byte.
    #[inline(always)]
    fn count(&self, byte: u8) -> usize
        ensures { (seen : List ℕ) → self.now.«open» ≡ length (held_open seen)
            → DecodesText (seen ++ byte ∷ []) self.now.decoder
            → result ≡ length (held_open (seen ++ byte ∷ [])) }
    {
        if byte == COLON {
            1
        } else if self.decoder.is_open() {
            self.open.min(MOST_OPEN - 1) + 1
        } else {
            0
        }
    }

    /// Feeds the decoder a byte, where those before it deliver no frame.
    #[inline(always)]
    fn take(&mut self, byte: u8)
        requires found { self.old.found ≡ false }
        requires room { self.old.fed < usize.MAX }
        ensures seen { (seen : List ℕ) → HasSeen seen self.old
            → HasSeen (seen ++ byte ∷ []) self.new }
        ensures fed { self.new.fed ≡ self.old.fed + 1 }
    {
        self.found = self.decoder.take(byte);
        self.fed += 1;
        self.open = self.count(byte);
    }

    /// Feeds the decoder two digits that make a byte, where it takes them so: whether it did.
    #[inline(always)]
    fn take_pair(&mut self, high: u8, low: u8) -> bool
        requires found { self.old.found ≡ false }
        requires room { self.old.fed + 1 < usize.MAX }
        ensures left { result ≡ false → self.new ≡ self.old }
        ensures seen { result ≡ true → (seen : List ℕ) → HasSeen seen self.old
            → HasSeen (seen ++ high ∷ low ∷ []) self.new }
        ensures fed { result ≡ true → self.new.fed ≡ self.old.fed + 2 }
        ensures found { result ≡ true → self.new.found ≡ false }
    {
        if !self.decoder.take_pair(high, low) {
            return false;
        }
        self.fed += 2;
        self.open = self.open.min(MOST_OPEN - 2) + 2;
        true
    }

    /// Feeds the decoder the next byte of a piece, or the next two where they make a byte of a frame: how many.
    #[inline(always)]
    fn step(&mut self, piece: &[u8]) -> usize
        requires found { self.old.found ≡ false }
        requires some { 0 < length piece.now }
        requires room { self.old.fed + length piece.now ≤ usize.MAX }
        ensures some { 0 < result }
        ensures within { result ≤ length piece.now }
        ensures seen { (seen : List ℕ) → HasSeen seen self.old
            → HasSeen (seen ++ take result piece.now) self.new }
        ensures fed { self.new.fed ≡ self.old.fed + result }
    {
        match piece {
            [high, low, ..] => {
                if self.take_pair(*high, *low) {
                    2
                } else {
                    self.take(*high);
                    1
                }
            }
            [byte, ..] => {
                self.take(*byte);
                1
            }
            [] => 0,
        }
    }

    /// Feeds the decoder a piece of what is held, until it ends a frame.
    fn run_piece(&mut self, piece: &[u8])
        requires found { self.old.found ≡ false }
        requires room { self.old.fed + length piece.now ≤ usize.MAX }
        ensures { Feeds piece.now self.old self.new }
    {
        let mut taken = 0;
        while !self.found && taken < piece.len() {
            taken += self.step(&piece[taken..]);
        }
    }

    /// Feeds the decoder what it was not fed yet of a part of the held bytes, until it ends a frame. So many are before that part.
    fn run_part(&mut self, part: &[u8], start: usize)
        requires reached { self.old.found ≡ false → start ≤ self.old.fed }
        requires room { start + length part.now ≤ usize.MAX }
        ensures scans { (held : List ℕ) → IsPartOf held part.now start → Scans held self.old
            → Scans held self.new }
        ensures all { self.new.found ≡ false → start + length part.now ≤ self.new.fed }
    {
        if self.found {
            return;
        }
        let fed = self.fed - start;
        if fed < part.len() {
            self.run_piece(&part[fed..]);
        }
    }

    /// Feeds the decoder the held bytes that it was not fed yet, until they end with a frame.
    pub(crate) fn run(&mut self, held: &HeapCircularBuffer<u8>)
        requires { Scans held.now.items self.old }
        ensures scans { Scans held.now.items self.new }
        ensures all { self.new.found ≡ false → self.new.fed ≡ length held.now.items }
    {
        // A ring is shorter than a number can tell.
        let _len = held.len();
        let (front, back) = held.as_slices();
        self.run_part(front, 0);
        self.run_part(back, front.len());
    }
}
