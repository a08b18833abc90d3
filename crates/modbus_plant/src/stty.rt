//! What a serial port has to be set to.
ghost use Rattle.std.specs.Prelude.{Some};
ghost use Rattle.modbus_plant.specs.Stty.{stty_text};

use std::fmt;

/// The command that makes the terminal of a serial port raw, without echo, and at its speed, as `stty -F /dev/ttyUSB0 raw -echo clocal 9600`.
/// A port that was not set so gives no answers that can be read, and the library can't see whether it was.
#[derive(Clone, Copy, Debug, PartialEq, Eq)]
pub struct SttyCommand<'p> {
    /// The path of the port.
    pub path: &'p str,
    /// The bits a second.
    pub baud: u32,
}

impl fmt::Display for SttyCommand<'_> {
    ghost output = { λ it. Some (stty_text it.path.now it.baud) };

    fn fmt<W: fmt::Write>(&self, f: &mut fmt::Formatter<W>) -> fmt::Result {
        let (path, baud) = (self.path, self.baud);
        write!(f, "stty -F {path} raw -echo clocal {baud}")
    }
}
