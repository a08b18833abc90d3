//! When the next request may be sent on a serial line of a client, so that no late reply is taken for its own. It reads and writes nothing
//! itself: it is told the bytes and the silences.
//!
//! A late reply can't be told from the next one on a line. So after a call whose reply may still come the line has to be silent for a while,
//! and what comes before that is dropped; so does a line on which bytes came that no call waited for.
ghost use Rattle.std.specs.Prelude.{◌≡◌, ◌-◌, max, if◌then◌else◌};
ghost use Rattle.modbus_c.specs.Settled.{is_taken, owes};

use crate::call::ModbusCall;
use crate::inbox::count;
use crate::status::{MODBUS_DONE, MODBUS_EXCEPTION, MODBUS_UNTOLD};

/// A serial line of a client: for how long it has to be silent where a reply may still come, and for how long yet. Times are in one unit of the
/// caller's.
#[repr(C)]
#[derive(Clone, Copy, Debug, PartialEq, Eq)]
pub struct ModbusLine {
    pub quiet: u32,
    pub left: u32,
}

/// A line that has to be silent for so long before a request is sent where a reply may still come. What lies on it is not known, so that is so
/// at first.
///
/// A late reply is dropped where it comes within that time after its call was given up. So the timeout of a call and this time together are to
/// be longer than the longest time that a slave takes.
#[unsafe(no_mangle)]
pub extern "C" fn modbus_line_open(line: &mut ModbusLine, quiet: u32)
    ensures { line.new ≡ record { quiet = quiet; left = quiet } }
{
    line.quiet = quiet;
    line.left = quiet;
}

/// Bytes came that no call waited for, and were dropped: the silence is counted anew.
#[unsafe(no_mangle)]
pub extern "C" fn modbus_line_heard(line: &mut ModbusLine)
    ensures { line.new ≡ record line.old { left = line.old.quiet } }
{
    line.left = line.quiet;
}

/// No byte came for so long.
#[unsafe(no_mangle)]
pub extern "C" fn modbus_line_silent(line: &mut ModbusLine, time: u32)
    ensures { line.new ≡ record line.old { left = line.old.left - time } }
{
    line.left = line.left.saturating_sub(time);
}

/// For how long the line has to be silent yet before a request is sent; 0 where it may be sent.
#[unsafe(no_mangle)]
pub extern "C" fn modbus_line_wait(line: &ModbusLine) -> u32
    ensures { result ≡ line.now.left }
{
    line.left
}

/// Whether a reply was found and used up where a call told this status.
fn is_taken(status: u32) -> bool
    ensures { result ≡ is_taken status }
{
    status == MODBUS_DONE || status == MODBUS_EXCEPTION || status == MODBUS_UNTOLD
}

/// Whether the reply of a call may still come, or bytes lie behind it, where the call ended with this status: the last that
/// `modbus_call_answer` or `modbus_call_answer_pdu` told, `MODBUS_WAITING` where it was given up.
#[unsafe(no_mangle)]
pub extern "C" fn modbus_call_owes(call: &ModbusCall, status: u32) -> bool
    ensures { result ≡ owes call.now status }
{
    !call.tcp && call.slave != 0 && !(is_taken(status) && count(&call.inbox) == 0)
}

/// A call ended with this status: where its reply may still come, the line has to be silent first.
#[unsafe(no_mangle)]
pub extern "C" fn modbus_line_ended(line: &mut ModbusLine, call: &ModbusCall, status: u32)
    ensures { line.new ≡ record line.old {
      left = if owes call.now status then line.old.quiet else line.old.left;
    } }
{
    if modbus_call_owes(call, status) {
        line.left = line.quiet;
    }
}

/// All slaves were told something: they have this time, the turnaround delay, to do it before the next request (MODBUS over Serial Line V1.02,
/// section 2.4.1).
#[unsafe(no_mangle)]
pub extern "C" fn modbus_line_told(line: &mut ModbusLine, turnaround: u32)
    ensures { line.new ≡ record line.old { left = max line.old.left turnaround } }
{
    line.left = line.left.max(turnaround);
}
