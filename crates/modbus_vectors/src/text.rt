//! The text of an answer.

use std::alloc::{AllocError, Global};
use std::fmt::{Debug, Display};

/// The text of an answer, which grows. Where memory is refused for a part it is cut short, which is told at its end alone.
#[derive(Drop)]
pub struct Text {
    /// Where all that a call needs is allocated.
    pub alloc: Global,
    text: String,
    is_short: bool,
}

impl Text {
    pub fn new(alloc: Global) -> Text {
        Text {
            alloc,
            text: String::new(alloc),
            is_short: false,
        }
    }

    /// All of it.
    ///
    /// # Errors
    /// `AllocError` where it was cut short.
    pub fn whole(&self) -> Result<&str, AllocError> {
        if self.is_short {
            return Err(AllocError);
        }
        Ok(self.text.as_str())
    }

    /// Cuts it short, where memory is refused for what it is made of.
    pub fn cut_short(&mut self) {
        self.is_short = true;
    }

    pub fn push_str(&mut self, part: &str) {
        if self.text.push_str(part).is_err() {
            self.is_short = true;
        }
    }

    /// Appends what `write!` is given, and lets it go.
    pub fn write_fmt<D: Display + Drop>(&mut self, part: D) {
        if self.text.write_fmt(part).is_err() {
            self.is_short = true;
        }
    }

    /// Appends a byte string in hexadecimal; `-` where it is empty.
    pub fn push_hex(&mut self, bytes: &[u8]) {
        if bytes.is_empty() {
            self.push_str("-");
        }
        for byte in bytes {
            write!(self, "{byte:02X}");
        }
    }

    /// Appends a value, and lets it go.
    pub fn push_shown<T: Debug + Drop>(&mut self, value: T) {
        write!(self, "{value:?}");
    }

    /// Appends a fault: its value, and what it is told as. The fault is let go.
    pub fn push_told<T: Debug + Display + Drop>(&mut self, fault: T) {
        write!(self, "Err({fault:?}): {fault}");
    }

    /// Appends an outcome: its value, or its fault and what that is told as. The outcome is let go.
    pub fn push_outcome<T: Debug + Drop, E: Debug + Display + Drop>(
        &mut self,
        outcome: Result<T, E>,
    ) {
        match outcome {
            Ok(value) => write!(self, "Ok({value:?})"),
            Err(fault) => self.push_told(fault),
        }
    }
}
