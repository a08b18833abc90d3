//! The bytes of a serial line that were fed and not used yet, in memory of the caller: nothing of it is on the heap, and nothing is to be
//! closed.
ghost use Rattle.std.specs.Prelude.{◌≡◌, ◌-◌, ◌≤◌, ◌<◌, ◌++◌, min, Result, take, drop, length};
ghost use Rattle.modbus_rtu.specs.declared.front.Crowd.{Crowd as Crowded};
ghost use Rattle.modbus_tcp.specs.Limits.{longest_response};
ghost use Rattle.modbus_store.specs.Lent.{tables_of};
ghost use Rattle.modbus_c.specs.declared.serve.Served.{Served as Done};
ghost use Rattle.modbus_c.specs.Inbox.{held, room};
ghost use Rattle.modbus_c.specs.Served.{flat_frame, no_room};
ghost use Rattle.modbus_c.specs.Serves.{ServesFrame};

use crate::export::{ModbusServed, flat_of_frame, told};
use crate::serve::serve_frame;
use crate::status::MODBUS_NO_ROOM;
use modbus_store::LentTables;
use modbus_tcp::LONGEST_RESPONSE;
use std::alloc::Global;

/// How many bytes an inbox has room for: the longest frame, and twelve that may come with it.
pub(crate) const INBOX_ROOM: usize = 268;

/// The held bytes are the first `len` of `bytes`. C makes room for one, opens it, and then leaves its fields to the exports. Where `len` is
/// above 268, all 268 are held.
#[repr(C)]
pub struct ModbusInbox {
    pub len: usize,
    pub bytes: [u8; 268],
}

/// How many bytes are held.
#[tactic(auto, using(crate::proofs::Shift::all_taken))]
pub(crate) fn count(inbox: &ModbusInbox) -> usize
    ensures exact { result ≡ length (held inbox.now) }
    ensures most { result ≤ room }
    ensures front { held inbox.now ≡ take result inbox.now.bytes }
{
    if inbox.len < INBOX_ROOM {
        inbox.len
    } else {
        INBOX_ROOM
    }
}

/// Takes so many bytes off the front.
pub(crate) fn advance(inbox: &mut ModbusInbox, used: usize)
    requires { used ≤ length (held inbox.old) }
    ensures { held inbox.new ≡ drop used (held inbox.old) }
{
    let len = count(inbox);
    inbox.bytes.copy_within(used..len, 0);
    inbox.len = len - used;
}

/// Makes an inbox hold no byte.
#[unsafe(no_mangle)]
pub extern "C" fn modbus_inbox_open(inbox: &mut ModbusInbox)
    ensures { inbox.new.len ≡ 0 }
{
    inbox.len = 0;
}

/// Appends the first bytes of a piece, as many as there is room for, and tells how many.
#[unsafe(no_mangle)]
pub extern "C" fn modbus_inbox_feed(inbox: &mut ModbusInbox, piece: &[u8]) -> usize
    ensures fed { held inbox.new ≡ held inbox.old ++ take result piece.now }
    ensures most { result ≡ min (length piece.now) (room - length (held inbox.old)) }
{
    let start = count(inbox);
    let fed = piece.len().min(INBOX_ROOM - start);
    inbox.bytes[start..start + fed].copy_from_slice(&piece[..fed]);
    inbox.len = start + fed;
    fed
}

/// Answers the next frame that is held by the caller's tables, and takes it off with all bytes before it. Where the output has less than
/// 260 bytes nothing is done.
#[unsafe(no_mangle)]
#[tactic(auto, using(crate::proofs::Within::used_within))]
pub extern "C" fn modbus_inbox_next(
    alloc: Global,
    inbox: &mut ModbusInbox,
    coils: &mut [bool],
    discrete_inputs: &[bool],
    holding_registers: &mut [u16],
    input_registers: &[u16],
    broadcast: bool,
    output: &mut [u8],
) -> ModbusServed
    ensures serves { longest_response ≤ length output.old → (done : Result Done Crowded)
        × (result ≡ flat_frame done) × ServesFrame
        (tables_of coils.old discrete_inputs.now holding_registers.old input_registers.now
        broadcast) (held inbox.old) output.old done output.new
        (tables_of coils.new discrete_inputs.now holding_registers.new input_registers.now
        broadcast) }
    ensures taken { longest_response ≤ length output.old
        → held inbox.new ≡ drop result.used (held inbox.old) }
    ensures room { length output.old < longest_response → (result ≡ no_room)
        × (coils.new ≡ coils.old) × (holding_registers.new ≡ holding_registers.old)
        × (output.new ≡ output.old) × (inbox.new ≡ inbox.old) }
{
    if output.len() < LONGEST_RESPONSE {
        return told(MODBUS_NO_ROOM, 0, 0, 0);
    }
    let mut tables = LentTables {
        coils,
        discrete_inputs,
        holding_registers,
        input_registers,
        broadcast,
    };
    let len = count(inbox);
    let served = serve_frame(alloc, &inbox.bytes[..len], &mut tables, output);
    let found = flat_of_frame(served);
    advance(inbox, found.used);
    found
}
