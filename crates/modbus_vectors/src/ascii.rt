//! Calls of clients in the ASCII transmission mode over links in memory.

use crate::clients::steps;
use crate::left::push_left;
use crate::outside::read_link;
use crate::text::Text;
use crate::word::Word;
use modbus_ascii_client::{Client, attach, attach_slave};
use modbus_frame::Slave;
use modbus_link::MemoryLink;

/// The answers of a client, what it left, and how many frames of other slaves its last call dropped.
fn push_answers(text: &mut Text, client: &mut Client<MemoryLink>, words: &str) -> bool {
    let is_done = steps(text, client, words);
    push_left(text, client.link(), client.held());
    write!(text, " dropped {}", client.dropped());
    is_done
}

/// The same of a client that is attached to a slave.
fn over_ascii(text: &mut Text, slave: Slave, words: &str, link: MemoryLink) -> bool {
    if slave == Slave::broadcast() {
        push_answers(text, &mut attach(text.alloc, link), words)
    } else {
        push_answers(text, &mut attach_slave(text.alloc, link, slave), words)
    }
}

/// `ascii_call`, a slave, steps with commas between them, and the outside of the link.
pub fn answer(text: &mut Text, words: &[Word]) -> bool {
    let [slave, steps, words @ ..] = words else {
        return false;
    };
    let Some(slave) = slave.byte() else {
        return false;
    };
    match read_link(text.alloc, words) {
        Some(link) => over_ascii(text, Slave(slave), steps.text(), link),
        None => false,
    }
}
