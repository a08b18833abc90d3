//! What is written at a point.
ghost use Rattle.std.specs.Prelude.{◌≡◌, true, IfOk, IfErr, OnOk, IsOk};
ghost use Rattle.modbus_map.specs.Points.{may_write, AreWordsOfText, IsRefusal};
ghost use Rattle.modbus_map.specs.Reading.{value_in};

use crate::point::Point;
use crate::reading::value_in;
use crate::write::words_for;
use crate::write_error::WriteError;
use modbus_frame::Words;
use std::alloc::Global;

impl Point {
    /// Whether it may be written: its map says so, and it lies in a table that a client can write (V1.1b3, section 4.3).
    pub fn may_write(&self) -> bool
        ensures { result ≡ may_write self.now }
    {
        self.is_writable && self.table.is_writable()
    }

    /// The words to be written so that the point has the value that a text stands for; of a coil one word, 0 where it is off.
    ///
    /// # Errors
    /// `NotWritable` where the point may not be written, and then those of [`value_in`](crate::value_in) and of
    /// [`words_for`](crate::words_for).
    pub fn words_of_text(&self, alloc: Global, text: &str) -> Result<Words, WriteError>
        ensures writable { OnOk result (may_write self.now ≡ true) }
        ensures valued { OnOk result (IsOk (value_in self.now.encoding.kind text.now)) }
        ensures ok { IfOk result (AreWordsOfText self.now text.now) }
        ensures refused { IfErr result (IsRefusal self.now text.now) }
    {
        if !self.may_write() {
            return Err(WriteError::NotWritable);
        }
        match value_in(alloc, self.encoding.kind, text) {
            Ok(value) => words_for(alloc, &self.encoding, &value),
            Err(error) => Err(error),
        }
    }
}
