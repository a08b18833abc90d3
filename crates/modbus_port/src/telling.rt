//! Lines of text that a program tells.
ghost use Rattle.modbus_port.specs.Reports.{Reports};

use modbus_link::{Sink, write_all};

/// Writes a line, as far as the sink takes it.
pub fn report<E: Sink>(errors: &mut E, line: &str)
    ensures { Reports (E.output errors.old) (E.output errors.new) line.now }
{
    let _ = write_all(errors, line.as_bytes());
}

/// Writes a line that begins with the program's name, as far as the sink takes it.
pub(crate) fn note<N: Sink>(notes: &mut N, program: &str, text: &str) {
    report(notes, program);
    report(notes, text);
}
