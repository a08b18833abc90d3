//! Requests to a register store.

use crate::asking::ask_all;
use crate::clients::push_called;
use crate::text::Text;
use crate::word::Word;
use modbus_app::{Form, Mode, open};
use modbus_frame::Slave;
use modbus_local::exchange;
use modbus_pdu::decode_request;
use modbus_store::{RegisterStore, Sizes, StoreError};
use std::alloc::Global;

/// The greatest size that the words of the program may name.
const MOST_ENTRIES: u32 = 0x10000;

/// The device of the program, or for a size that its words don't name what the store itself says of that.
fn store_of(alloc: Global, form: Form) -> Result<RegisterStore, StoreError> {
    if form.size <= MOST_ENTRIES {
        return open(alloc, form);
    }
    let sizes = Sizes {
        coils: form.size,
        discrete_inputs: form.size,
        holding_registers: form.size,
        input_registers: form.size,
    };
    RegisterStore::new(alloc, sizes, false)
}

/// The answer of a store to a request, with no link.
fn exchange_with(text: &mut Text, slave: Slave, pdu: &[u8], store: &mut RegisterStore) -> bool {
    let Ok(request) = decode_request(text.alloc, pdu) else {
        return false;
    };
    push_called(text, exchange(text.alloc, slave, request, store));
    true
}

/// The same of a slave and a PDU as words.
fn exchange_words(text: &mut Text, words: &[Word], store: &mut RegisterStore) -> bool {
    let [slave, pdu] = words else {
        return false;
    };
    match (slave.byte(), pdu.bytes()) {
        (Some(slave), Some(pdu)) => exchange_with(text, Slave(slave), pdu, store),
        _ => false,
    }
}

/// The same of each slave and PDU, one after another.
fn exchange_all(text: &mut Text, words: &[Word], store: &mut RegisterStore) -> bool {
    for (place, pair) in words.chunks(2).enumerate() {
        if place > 0 {
            text.push_str("; ");
        }
        if !exchange_words(text, pair, store) {
            return false;
        }
    }
    true
}

/// A seeded store of eight entries a table, which takes part in broadcasts.
fn seeded_store(alloc: Global) -> Result<RegisterStore, StoreError> {
    let form = Form {
        mode: Mode::Rtu,
        size: 8,
        seeded: true,
    };
    open(alloc, form)
}

fn exchanged(text: &mut Text, words: &[Word]) -> bool {
    match seeded_store(text.alloc) {
        Ok(mut store) => exchange_all(text, words, &mut store),
        Err(_) => false,
    }
}

/// Turns on the discrete input of an address, and sets its input register to this word; then what each table has there.
fn push_entries(text: &mut Text, store: &mut RegisterStore, address: u16, word: u16) {
    write!(text, "{:?} ", store.set_discrete(address, true));
    write!(text, "{:?}", store.set_input(address, word));
    write!(
        text,
        " {:?} {:?}",
        store.coil(address),
        store.discrete_input(address)
    );
    write!(
        text,
        " {:?} {:?}",
        store.holding_register(address),
        store.input_register(address)
    );
}

fn entries(text: &mut Text, words: &[Word]) -> bool {
    let [address, word] = words else {
        return false;
    };
    let (Some(address), Some(word)) = (address.number(), word.number()) else {
        return false;
    };
    match seeded_store(text.alloc) {
        Ok(mut store) => push_entries(text, &mut store, address, word),
        Err(_) => return false,
    }
    true
}

/// The form of a store that words tell.
fn form_of(mode: &str, size: &str, contents: &str) -> Option<Form> {
    let mode = match mode {
        "rtu" => Mode::Rtu,
        "tcp" => Mode::Tcp,
        _ => return None,
    };
    Some(Form {
        mode,
        size: size.parse().ok()?,
        seeded: contents == "seeded",
    })
}

/// The answers of the store that the words tell.
fn stored(text: &mut Text, words: &[Word]) -> bool {
    let [mode, size, contents, requests @ ..] = words else {
        return false;
    };
    let Some(form) = form_of(mode.text(), size.text(), contents.text()) else {
        return false;
    };
    match store_of(text.alloc, form) {
        Ok(mut store) => return ask_all(text, &mut store, requests),
        Err(error) => write!(text, "{error:?}: {error}"),
    }
    true
}

/// `store rtu 8 seeded 1 0300010001`: a store of a mode, a size and contents, and the requests to it; `exchange 1 0300010001`: requests by
/// the call of a client that has no link; `entries 6 1`: what a store's own calls set at an address, and read there.
pub fn answer(text: &mut Text, call: &str, words: &[Word]) -> bool {
    match call {
        "store" => stored(text, words),
        "exchange" => exchanged(text, words),
        "entries" => entries(text, words),
        _ => false,
    }
}
