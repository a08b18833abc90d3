//! Two passes of a shared store, one after the other.
ghost use Rattle.modbus_store.specs.Passes.{IsPassOf};

use crate::polls::store_of;
use crate::text::Text;
use crate::word::Word;
use modbus_frame::SlaveRequest;
use modbus_pdu::decode_request;
use modbus_store::{ClosedStore, StorePass, StoreTable};
use std::sync::Wait;

/// The answer to a request of slave 1 by a pass.
fn call<R: Wait>(
    rt: &R,
    text: &mut Text,
    table: &StoreTable,
    pass: &mut StorePass,
    pdu: &[u8],
) -> bool
    requires { IsPassOf table.now pass.old }
    ensures { IsPassOf table.now pass.new }
{
    let Ok(request) = decode_request(text.alloc, pdu) else {
        return false;
    };
    let request = SlaveRequest { slave: 1, request };
    text.push_shown(table.call(rt, text.alloc, pass, request));
    text.push_str("; ");
    true
}

/// A pass that is split off makes a call; the first takes in what that has seen, and makes another.
fn split_and_join<R: Wait>(
    rt: &R,
    text: &mut Text,
    table: &StoreTable,
    first: &mut StorePass,
    earlier: &[u8],
    later: &[u8],
) -> bool
    requires { IsPassOf table.now first.old }
    ensures { IsPassOf table.now first.new }
{
    let Ok(mut own) = table.split(rt, first) else {
        return false;
    };
    let is_done = call(rt, text, table, &mut own, earlier);
    table.join(first, own);
    is_done && call(rt, text, table, first, later)
}

/// How many calls a pass has seen, and how many the history has.
fn push_closed<R: Wait>(rt: &R, text: &mut Text, table: StoreTable, pass: StorePass)
    requires { IsPassOf table pass }
{
    write!(text, "seen {}", pass.seen());
    let ClosedStore {
        store: _,
        history,
        last: _,
    } = table.close(rt, pass);
    match history {
        Some(history) => write!(text, " of {}", history.len()),
        None => text.push_str(" of none"),
    }
}

/// `passes 0,0 0600010003 0300010001`: what the holding registers hold, the call of a pass that is split off, and that of the first.
pub fn answer<R: Wait>(rt: &R, text: &mut Text, words: &[Word]) -> bool {
    let [numbers, earlier, later] = words else {
        return false;
    };
    let (Some(store), Some(earlier), Some(later)) = (
        store_of(text.alloc, numbers.text()),
        earlier.bytes(),
        later.bytes(),
    ) else {
        return false;
    };
    let Ok((table, mut first)) = StoreTable::open(text.alloc, store) else {
        return false;
    };
    let is_done = split_and_join(rt, text, &table, &mut first, earlier, later);
    push_closed(rt, text, table, first);
    is_done
}
