//! A source and a sink in memory, as the words of a line say. Byte strings are pieces, which come with a read each. Of the words that are
//! a letter and a number, `r3` has read 3 fail, `w3` has write 3 fail, `t1` has each write take one byte at most, and `p3` has poll 3 of a
//! link that is polled not be ready; all are counted from 0. The word `down` has a shutdown fail. A call of several links has a word for
//! each, whose own words have a plus between them.
//!
//! Where memory is refused there is none.

use crate::word::{Word, split};
use modbus_link::{MemoryLink, MemorySink, MemorySource, PolledMemoryLink, TimedMemoryLink};
use modbus_reconnect::IdleMemoryLink;
use std::alloc::{AllocError, Global};

/// The room of a sink in bytes.
const ROOM: usize = 2048;

/// A source and a sink that were not used yet.
#[derive(Drop)]
pub struct Outside {
    pub source: MemorySource,
    pub sink: MemorySink,
    pub pending: Vec<u64>,
    pub fails_to_shut: bool,
}

impl Outside {
    pub fn into_link(self) -> MemoryLink {
        MemoryLink::new(self.source, self.sink, self.fails_to_shut)
    }

    pub fn into_polled_link(self, alloc: Global) -> Option<PolledMemoryLink> {
        let link = MemoryLink::new(self.source, self.sink, self.fails_to_shut);
        PolledMemoryLink::new(alloc, link, self.pending.as_slice()).ok()
    }

    /// A link at which a look finds what is there behind as many bytes as the words `p8` tell, and nothing anywhere else.
    pub fn into_idle_link(self, alloc: Global) -> Option<IdleMemoryLink> {
        let early = sizes(alloc, self.pending.as_slice()).ok()?;
        IdleMemoryLink::new(alloc, self.into_link(), early.as_slice()).ok()
    }

    /// A line that is silent behind as many bytes as the words `p8` tell.
    pub fn into_timed_link(self, alloc: Global) -> Option<TimedMemoryLink> {
        let silences = sizes(alloc, self.pending.as_slice()).ok()?;
        TimedMemoryLink::new(alloc, self.into_link(), silences.as_slice()).ok()
    }
}

/// A letter and the number behind it.
fn letter_and_number(word: &str) -> Option<(char, u64)> {
    let mut rest = word.chars();
    let letter = rest.next()?;
    Some((letter, rest.as_str().parse().ok()?))
}

/// What the words of a line said so far.
#[derive(Drop)]
struct Draft {
    bytes: Vec<u8>,
    // where the pieces end
    stops: Vec<usize>,
    read_fails: Vec<u64>,
    write_fails: Vec<u64>,
    pending: Vec<u64>,
    most: usize,
    fails_to_shut: bool,
}

impl Draft {
    fn new(alloc: Global) -> Draft {
        Draft {
            bytes: Vec::new(alloc),
            stops: Vec::new(alloc),
            read_fails: Vec::new(alloc),
            write_fails: Vec::new(alloc),
            pending: Vec::new(alloc),
            most: ROOM,
            fails_to_shut: false,
        }
    }

    fn take_piece(&mut self, piece: &[u8]) -> bool {
        self.bytes.extend_from_slice(piece).is_ok() && self.stops.push(self.bytes.len()).is_ok()
    }

    fn take_number(&mut self, letter: char, number: u64) -> bool {
        match letter {
            'r' => self.read_fails.push(number).is_ok(),
            'w' => self.write_fails.push(number).is_ok(),
            'p' => self.pending.push(number).is_ok(),
            't' => {
                self.most = usize::try_from(number).unwrap_or(ROOM);
                true
            }
            _ => false,
        }
    }

    /// Takes a word. False where it says nothing.
    fn take(&mut self, word: &Word) -> bool {
        if word.text() == "down" {
            self.fails_to_shut = true;
            return true;
        }
        if let Some(piece) = word.bytes() {
            return self.take_piece(piece);
        }
        match letter_and_number(word.text()) {
            Some((letter, number)) => self.take_number(letter, number),
            None => false,
        }
    }

    fn source(&self, alloc: Global) -> Option<MemorySource> {
        MemorySource::new(
            alloc,
            self.bytes.as_slice(),
            self.stops.as_slice(),
            self.read_fails.as_slice(),
        )
        .ok()
    }

    /// None also where its writes would take nothing.
    fn sink(&self, alloc: Global) -> Option<MemorySink> {
        if self.most == 0 {
            return None;
        }
        MemorySink::new(alloc, ROOM, self.most, self.write_fails.as_slice()).ok()
    }
}

/// What these words say. False where one of them says nothing.
fn take_all(draft: &mut Draft, words: &[Word]) -> bool {
    for word in words {
        if !draft.take(word) {
            return false;
        }
    }
    true
}

/// What these words say; none where one of them says nothing.
pub fn read_outside(alloc: Global, words: &[Word]) -> Option<Outside> {
    let mut draft = Draft::new(alloc);
    if !take_all(&mut draft, words) {
        return None;
    }
    Some(Outside {
        source: draft.source(alloc)?,
        sink: draft.sink(alloc)?,
        pending: draft.pending,
        fails_to_shut: draft.fails_to_shut,
    })
}

/// As many bytes as each of these numbers, at most as many as there may be.
fn sizes(alloc: Global, numbers: &[u64]) -> Result<Vec<usize>, AllocError> {
    let mut sizes = Vec::new(alloc);
    for number in numbers {
        sizes.push(usize::try_from(*number).unwrap_or(usize::MAX))?;
    }
    Ok(sizes)
}

/// The link that these words say.
pub fn read_link(alloc: Global, words: &[Word]) -> Option<MemoryLink> {
    Some(read_outside(alloc, words)?.into_link())
}

/// The line that these words say.
pub fn read_line(alloc: Global, words: &[Word]) -> Option<TimedMemoryLink> {
    read_outside(alloc, words)?.into_timed_link(alloc)
}

/// The outside that a word says whose own words have a plus between them.
fn read_words(alloc: Global, word: &str) -> Option<Outside> {
    match split(alloc, word, '+') {
        Ok(words) => read_outside(alloc, words.as_slice()),
        Err(_) => None,
    }
}

/// The link that such a word says.
pub fn read_joined(alloc: Global, word: &str) -> Option<MemoryLink> {
    Some(read_words(alloc, word)?.into_link())
}

/// The link that such a word says, which can be looked at.
pub fn read_idle(alloc: Global, word: &str) -> Option<IdleMemoryLink> {
    read_words(alloc, word)?.into_idle_link(alloc)
}
