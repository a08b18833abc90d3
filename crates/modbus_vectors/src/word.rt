//! The words of a line.

use std::alloc::{AllocError, Global};

/// A word, and the bytes that it names as hexadecimal digits, or as `-`.
#[derive(Drop)]
pub struct Word {
    text: String,
    bytes: Option<Vec<u8>>,
}

impl Word {
    /// # Errors
    /// `AllocError` where memory is refused for its text.
    pub fn new(alloc: Global, text: &str) -> Result<Word, AllocError> {
        Ok(Word {
            text: String::from_str(alloc, text)?,
            bytes: bytes_of(alloc, text),
        })
    }

    pub fn text(&self) -> &str {
        self.text.as_str()
    }

    /// The bytes; none where it names none, or memory was refused for them.
    pub fn bytes(&self) -> Option<&[u8]> {
        match &self.bytes {
            Some(bytes) => Some(bytes.as_slice()),
            None => None,
        }
    }

    /// The number that it names in decimal.
    pub fn number(&self) -> Option<u16> {
        self.text().parse().ok()
    }

    /// The same of one byte.
    pub fn byte(&self) -> Option<u8> {
        self.text().parse().ok()
    }
}

/// The bytes that a word names; none where it names none, or memory was refused for them.
pub fn bytes_of(alloc: Global, word: &str) -> Option<Vec<u8>> {
    let digits = if word == "-" { "" } else { word };
    hex::decode(alloc, digits).ok()
}

fn push(words: &mut Vec<Word>, alloc: Global, text: &str) -> Result<(), AllocError> {
    words.push(Word::new(alloc, text)?)?;
    Ok(())
}

/// Words with this between them.
pub fn split(alloc: Global, line: &str, between: char) -> Result<Vec<Word>, AllocError> {
    let mut words = Vec::new(alloc);
    for word in line.split(between) {
        push(&mut words, alloc, word)?;
    }
    Ok(words)
}
