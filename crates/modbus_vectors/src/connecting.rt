//! Clients that are connected to a TCP device by a connector in memory.

use crate::clients::{milliseconds, steps};
use crate::left::push_link;
use crate::outside::read_link;
use crate::text::Text;
use crate::word::Word;
use modbus_client::{Client, tcp};
use modbus_frame::{ConnectFault, Slave};
use modbus_link::{MemoryConnector, MemoryLink};
use std::alloc::Global;
use std::net::{Ipv4Addr, SocketAddr};
use std::time::Duration;

/// The device that all connect to.
fn device() -> SocketAddr {
    SocketAddr::from((Ipv4Addr::LOCALHOST, 502))
}

/// Connects by the call that takes no more than these.
fn connected(
    alloc: Global,
    connector: &mut MemoryConnector<MemoryLink>,
    slave: Option<Slave>,
    timeout: Option<Duration>,
) -> Result<tcp::Client<MemoryLink>, ConnectFault> {
    match (slave, timeout) {
        (None, None) => tcp::connect(alloc, connector, device()),
        (Some(slave), None) => tcp::connect_slave(alloc, connector, device(), slave),
        (None, Some(_)) => tcp::connect_with_timeout(alloc, connector, device(), timeout),
        (Some(slave), Some(_)) => {
            tcp::connect_slave_with_timeout(alloc, connector, device(), slave, timeout)
        }
    }
}

/// The answers of a client, how long it waits, and its link.
fn push_answers(text: &mut Text, client: &mut tcp::Client<MemoryLink>, words: &str) -> bool {
    let is_done = steps(text, client, words);
    write!(text, "within {:?} ", client.timeout());
    push_link(text, client.link());
    is_done
}

/// The answers of a client that is connected so, or that there is no connection.
fn answers(
    text: &mut Text,
    connected: Result<tcp::Client<MemoryLink>, ConnectFault>,
    words: &str,
) -> bool {
    match connected {
        Ok(mut client) => push_answers(text, &mut client, words),
        Err(fault) => {
            text.push_shown(fault);
            true
        }
    }
}

/// The same of two clients of a connector that has one link, one after another.
fn answers_twice(
    text: &mut Text,
    connector: &mut MemoryConnector<MemoryLink>,
    slave: Option<Slave>,
    timeout: Option<Duration>,
    words: &str,
) -> bool {
    if !answers(
        text,
        connected(text.alloc, connector, slave, timeout),
        words,
    ) {
        return false;
    }
    text.push_str("; ");
    answers(
        text,
        connected(text.alloc, connector, slave, timeout),
        words,
    )
}

/// The answers of a client that drops the responses of other transactions and units, how long it waits, and its link.
fn push_matching(
    text: &mut Text,
    client: &mut tcp::MatchingClient<MemoryLink>,
    words: &str,
) -> bool {
    let is_done = steps(text, client, words);
    write!(text, "within {:?} ", client.timeout());
    push_link(text, client.link());
    is_done
}

/// The same of one that is connected. False where there is no connection.
fn answers_of_matching(
    text: &mut Text,
    connector: &mut MemoryConnector<MemoryLink>,
    slave: Slave,
    timeout: Option<Duration>,
    words: &str,
) -> bool {
    match tcp::connect_matching(text.alloc, connector, device(), slave, timeout) {
        Ok(mut client) => push_matching(text, &mut client, words),
        Err(ConnectFault) => false,
    }
}

/// The answers by the call that is named.
fn answers_by(
    text: &mut Text,
    call: &str,
    connector: &mut MemoryConnector<MemoryLink>,
    slave: Option<Slave>,
    timeout: Option<Duration>,
    words: &str,
) -> bool {
    match (call, slave) {
        ("matching_connect", Some(slave)) => {
            answers_of_matching(text, connector, slave, timeout, words)
        }
        ("tcp_connect", _) => answers_twice(text, connector, slave, timeout, words),
        _ => false,
    }
}

/// `tcp_connect` or `matching_connect`, a slave or `-`, a time-out in milliseconds or `-`, steps with commas between them, and the outside
/// of the one link.
pub fn answer(text: &mut Text, call: &str, words: &[Word]) -> bool {
    let [slave, timeout, steps, words @ ..] = words else {
        return false;
    };
    match read_link(text.alloc, words) {
        Some(link) => {
            let mut connector = MemoryConnector::new(Some(link));
            let slave = slave.byte().map(Slave);
            let timeout = milliseconds(timeout.text());
            answers_by(text, call, &mut connector, slave, timeout, steps.text())
        }
        None => false,
    }
}
