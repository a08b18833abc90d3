//! The traits of the outside.
ghost use Rattle.std.specs.Prelude.{◌≡◌, ◌<◌, length, IsTrue, IfOk, OnErr};
ghost use Rattle.std.specs.Io.{ReadsAtMost, WritesAtMost};
ghost use Rattle.modbus_link.specs.Line.{Line, line_at_start};
ghost use Rattle.modbus_link.specs.Outside.{Input, Output, Rose, Advances, Extends, bytes_appended, untold_input, untold_output, ReadIsTold, front_of, input_through, output_through};

/// An object of the outside failed, and its count of faults rose.
#[derive(Clone, Copy, PartialEq, Eq, Debug)]
pub struct Failed;

/// A read that gave bytes: the total after it, and the length of its room.
#[derive(Clone, Copy)]
pub struct Cut {
    pub total: usize,
    pub room: usize,
}

/// What the two ends of an object of the outside mean: the input that it gives, and the output that it takes; and what a link means beside
/// them, its line.
///
/// All are ghost, so an implementation has no code. An object with one end keeps the other, which tells nothing, and one that is no link
/// keeps the line of a link that nothing was done to.
pub trait Ends {
    ghost input: { Self → Input } = { λ _. untold_input 0 };

    ghost output: { Self → Output } = { λ _. untold_output 0 };

    ghost line: { Self → Line } = { λ _. line_at_start };
}

/// Where bytes come from.
pub trait Source: Ends {
    /// Reads into the front of `room`, and answers how many bytes it gave. It gives 0 bytes exactly where the input has ended.
    ///
    /// # Errors
    /// `Failed`, only where the source's count of faults rose; then nothing was given.
    fn read(&mut self, room: &mut [u8]) -> Result<usize, Failed>
        requires { 0 < length room.old }
        ensures bound { ReadsAtMost result room.new }
        ensures source { Advances (Self.input self.old) (Self.input self.new) }
        ensures told { IsTrue (Self.input self.old).told
            → ReadIsTold (Self.input self.old) (Self.input self.new) room.old room.new result }
        ensures cause { OnErr result (Rose (Self.input self.old).faults
            (Self.input self.new).faults) }

        // An object that is a sink too keeps what was written.
        ensures sink { Self.output self.new ≡ Self.output self.old }

        // A read sets no timeout and shuts nothing down.
        ensures line { Self.line self.new ≡ Self.line self.old };
}

/// Where bytes go.
pub trait Sink: Ends {
    /// Appends a front of `piece`, and answers how many bytes it took: at least one where there is one.
    ///
    /// # Errors
    /// `Failed`, only where the sink's count of faults rose; then nothing was appended.
    fn write(&mut self, piece: &[u8]) -> Result<usize, Failed>
        ensures bound { WritesAtMost result piece.now }
        ensures some { IfOk result (λ count. 0 < length piece.now → 0 < count) }
        ensures sink { Extends (Self.output self.old) (Self.output self.new) }
        ensures told { IsTrue (Self.output self.old).told
            → bytes_appended (Self.output self.old) (Self.output self.new)
            ≡ front_of result piece.now }
        ensures cause { OnErr result (Rose (Self.output self.old).faults
            (Self.output self.new).faults) }

        // An object that is a source too keeps what is left to read.
        ensures source { Self.input self.new ≡ Self.input self.old }

        // Nor does a write.
        ensures line { Self.line self.new ≡ Self.line self.old };
}

impl<T: Ends> Ends for &mut T {
    ghost input = { λ it. input_through it.ghost_name (T.input it.now) };

    ghost output = { λ it. output_through it.ghost_name (T.output it.now) };

    ghost line = { λ it. T.line it.now };
}

impl<T: Source> Source for &mut T {
    fn read(&mut self, room: &mut [u8]) -> Result<usize, Failed> {
        (**self).read(room)
    }
}

impl<T: Sink> Sink for &mut T {
    fn write(&mut self, piece: &[u8]) -> Result<usize, Failed> {
        (**self).write(piece)
    }
}
