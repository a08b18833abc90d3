//! Adapters over the readers and writers of std, the trusted edge: they tell no content, only how often they failed.
//!
//! A call that a signal interrupts is tried again and is no fault, as with std's own `read_exact` and `write_all`.
ghost use Rattle.std.specs.Prelude.{◌≡◌, ◌<◌, length, IfOk};
ghost use Rattle.std.specs.Io.{ReadsAtMost, WritesAtMost};
ghost use Rattle.modbus_link.specs.Outside.{Advances, Extends, untold_input, untold_output};
ghost use Rattle.modbus_link.specs.Memory.{faults_after};

use crate::outside::{Ends, Failed, Sink, Source};
use std::io::{Error, ErrorKind, Read, Result as IoResult, Write};
use std::marker::Model;

// One read, tried again where a signal interrupts it.
pub(crate) fn read_once<R: Read>(reader: &mut R, room: &mut [u8]) -> IoResult<usize>
    ensures { ReadsAtMost result room.new }
{
    for _ in 0..u64::MAX {
        match reader.read(room) {
            Err(error) if error.kind() == ErrorKind::Interrupted => {}
            result => return result,
        }
    }
    Err(Error::from(ErrorKind::Interrupted))
}

// One write, tried again where a signal interrupts it.
pub(crate) fn write_once<W: Write>(writer: &mut W, piece: &[u8]) -> IoResult<usize>
    ensures { WritesAtMost result piece.now }
{
    for _ in 0..u64::MAX {
        match writer.write(piece) {
            Err(error) if error.kind() == ErrorKind::Interrupted => {}
            result => return result,
        }
    }
    Err(Error::from(ErrorKind::Interrupted))
}

// One flush, tried again where a signal interrupts it.
fn flush_once<W: Write>(writer: &mut W) -> IoResult<()> {
    for _ in 0..u64::MAX {
        match writer.flush() {
            Err(error) if error.kind() == ErrorKind::Interrupted => {}
            result => return result,
        }
    }
    Err(Error::from(ErrorKind::Interrupted))
}

/// A source over any reader. A read that a signal interrupts is tried again.
#[derive(Drop)]
pub struct ReadSource<R> {
    reader: R,
    faults: u64,
}

/// What a contract knows of it is how often it failed.
impl<R> Model for ReadSource<R> {
    ghost use Rattle.std.specs.Prelude.{ℕ};

    ghost Value = { ℕ };

    ghost view = { λ source. source.faults };
}

impl<R: Read> ReadSource<R> {
    /// A source over `reader` that has never failed.
    pub fn new(reader: R) -> Self
        ensures { result ≡ 0 }
    {
        ReadSource { reader, faults: 0 }
    }
}

impl<R: Read> Ends for ReadSource<R> {
    ghost input = { untold_input };
}

impl<R: Read> Source for ReadSource<R> {
    /// Reads what the reader has. A read that gives no byte is the end of the input, and no fault.
    ///
    /// # Errors
    /// `Failed` where the reader failed.
    fn read(&mut self, room: &mut [u8]) -> Result<usize, Failed>
        ensures bound { ReadsAtMost result room.new }
        ensures source { Advances (untold_input self.old) (untold_input self.new) }

        ensures counts { self.new ≡ faults_after result self.old }
    {
        match read_once(&mut self.reader, room) {
            Ok(count) => Ok(count),
            Err(_) => {
                self.faults = self.faults.saturating_add(1);
                Err(Failed)
            }
        }
    }
}

/// A sink over any writer, which it flushes after each write. A write or flush that a signal interrupts is tried again.
#[derive(Drop)]
pub struct WriteSink<W> {
    writer: W,
    faults: u64,
}

/// What a contract knows of it is how often it failed.
impl<W> Model for WriteSink<W> {
    ghost use Rattle.std.specs.Prelude.{ℕ};

    ghost Value = { ℕ };

    ghost view = { λ sink. sink.faults };
}

impl<W: Write> WriteSink<W> {
    /// A sink over `writer` that has never failed.
    pub fn new(writer: W) -> Self
        ensures { result ≡ 0 }
    {
        WriteSink { writer, faults: 0 }
    }
}

impl<W: Write> Ends for WriteSink<W> {
    ghost output = { untold_output };
}

impl<W: Write> Sink for WriteSink<W> {
    /// Writes and flushes.
    ///
    /// # Errors
    /// `Failed` where the writer failed, took nothing of a piece that isn't empty, or could not be flushed.
    fn write(&mut self, piece: &[u8]) -> Result<usize, Failed>
        ensures bound { WritesAtMost result piece.now }
        ensures some { IfOk result (λ count. 0 < length piece.now → 0 < count) }
        ensures sink { Extends (untold_output self.old) (untold_output self.new) }

        ensures counts { self.new ≡ faults_after result self.old }
    {
        let taken = match write_once(&mut self.writer, piece) {
            Ok(count) if count > 0 || piece.is_empty() => Some(count),
            _ => None,
        };
        let is_flushed = flush_once(&mut self.writer).is_ok();
        match taken {
            Some(count) if is_flushed => Ok(count),
            _ => {
                self.faults = self.faults.saturating_add(1);
                Err(Failed)
            }
        }
    }
}
