//! Clients that are never one reply behind: over a connector that gives one link after another, and over a line that tells silence.

use crate::clients::{milliseconds, push_sent, step};
use crate::left::{push_link, push_written};
use crate::outside::{read_idle, read_line};
use crate::text::Text;
use crate::word::{Word, bytes_of};
use modbus_client::{Client, RawLineProtocol};
use modbus_frame::Slave;
use modbus_link::{Connector, Failed, TimedMemoryLink};
use modbus_pdu::decode_request;
use modbus_reconnect::{
    IdleMemoryLink, Resend, RtuOverTcpClient, SerialClient, SettlingClient, TcpClient, settle,
};
use std::alloc::{AllocError, Global};
use std::net::{Ipv4Addr, SocketAddr};
use std::time::Duration;

/// How long a silence of the line is, and how long a call over it waits, in milliseconds.
const SILENCE: u64 = 100;

const TIMEOUT: u64 = 150;

/// A connector that gives these links, the last one first, and refuses where there is none in its place.
#[derive(Drop)]
struct Links {
    links: Vec<Option<IdleMemoryLink>>,
    faults: u64,
}

impl Connector for Links {
    type Link = IdleMemoryLink;

    ghost faults = { λ links. links.faults };

    fn connect(
        &mut self,
        _addr: SocketAddr,
        _timeout: Option<Duration>,
    ) -> Result<IdleMemoryLink, Failed> {
        match self.links.pop() {
            Some(Some(link)) => Ok(link),
            _ => {
                self.faults = self.faults.saturating_add(1);
                Err(Failed)
            }
        }
    }
}

/// Links over the outsides that two words tell; another word is a connection that is refused.
fn links_of(alloc: Global, first: &str, second: &str) -> Result<Links, AllocError> {
    let mut links = Vec::new(alloc);
    links.push(read_idle(alloc, second))?;
    links.push(read_idle(alloc, first))?;
    Ok(Links { links, faults: 0 })
}

/// Which requests may be sent again.
fn resend_of(word: &str) -> Option<Resend> {
    Some(match word {
        "never" => Resend::Never,
        "reads" => Resend::Reads,
        "always" => Resend::Always,
        _ => return None,
    })
}

/// A number and a word with a colon between them.
fn number_and_word(words: &str) -> Option<(u32, &str)> {
    let (number, word) = words.split_once(":")?;
    Some((number.parse().ok()?, word))
}

/// How often a call may be sent again, and which requests.
fn retries_of(words: &str) -> Option<(u32, Resend)> {
    let (retries, resend) = number_and_word(words)?;
    Some((retries, resend_of(resend)?))
}

/// Asks such a client for the function of a PDU, whose reply is given as it came.
fn rtu_raw(text: &mut Text, client: &mut RtuOverTcpClient<Links>, word: &str) -> bool {
    let Some(pdu) = bytes_of(text.alloc, word) else {
        return false;
    };
    match pdu.as_slice() {
        [function, data @ ..] => text.push_shown(client.call_raw(*function, data)),
        [] => return false,
    }
    true
}

/// What a step does to an RTU client over a connector, which also has `retries=1:reads` and `raw=11`.
fn rtu_step(text: &mut Text, client: &mut RtuOverTcpClient<Links>, word: &str) -> bool {
    if let Some(pdu) = word.strip_prefix("raw=") {
        return rtu_raw(text, client, pdu);
    }
    let Some(retries) = word.strip_prefix("retries=") else {
        return step(text, client, word);
    };
    let Some((retries, resend)) = retries_of(retries) else {
        return false;
    };
    client.set_retries(retries, resend);
    text.push_str("()");
    true
}

/// Appends whether a client uses a link.
fn push_linked(text: &mut Text, client: &RtuOverTcpClient<Links>) {
    match client.link() {
        Some(_) => text.push_str(" linked; "),
        None => text.push_str(" apart; "),
    }
}

/// Appends what a client leaves on the link that it uses.
fn push_used(text: &mut Text, link: Option<&IdleMemoryLink>) {
    match link {
        Some(idle) => push_link(text, Some(idle.link())),
        None => push_link(text, None),
    }
}

/// The answers of such a client, each with whether a link is used then.
fn rtu_steps(text: &mut Text, client: &mut RtuOverTcpClient<Links>, words: &str) -> bool {
    for word in words.split(',') {
        if !rtu_step(text, client, word) {
            return false;
        }
        push_linked(text, client);
    }
    true
}

/// The same, and the link, how often the last call tried, and how many links were not asked for.
fn over_rtu(text: &mut Text, client: &mut RtuOverTcpClient<Links>, words: &str) -> bool {
    let is_done = rtu_steps(text, client, words);
    push_used(text, client.link());
    let left = client.connector().links.len();
    write!(text, " tries {} left {left}", client.tries());
    is_done
}

/// Asks such a client for the function of a PDU, whose reply is given as it came.
fn tcp_raw(text: &mut Text, client: &mut TcpClient<Links>, word: &str) -> bool {
    let Some(pdu) = bytes_of(text.alloc, word) else {
        return false;
    };
    match pdu.as_slice() {
        [function, data @ ..] => text.push_shown(client.call_raw(*function, data)),
        [] => return false,
    }
    true
}

/// What a step does to a TCP client over a connector, which also has `patience=2` and `raw=11`.
fn tcp_step(text: &mut Text, client: &mut TcpClient<Links>, word: &str) -> bool {
    if let Some(pdu) = word.strip_prefix("raw=") {
        return tcp_raw(text, client, pdu);
    }
    let Some(patience) = word.strip_prefix("patience=") else {
        return step(text, client, word);
    };
    let Ok(patience) = patience.parse() else {
        return false;
    };
    client.set_patience(patience);
    text.push_str("()");
    true
}

/// The answers of such a client.
fn tcp_steps(text: &mut Text, client: &mut TcpClient<Links>, words: &str) -> bool {
    for word in words.split(',') {
        if !tcp_step(text, client, word) {
            return false;
        }
        text.push_str("; ");
    }
    true
}

/// The answers of a TCP client over a connector, and its link.
fn over_tcp(text: &mut Text, client: &mut TcpClient<Links>, words: &str) -> bool {
    let is_done = tcp_steps(text, client, words);
    push_used(text, client.link());
    is_done
}

/// The device that both connect to.
fn device() -> SocketAddr {
    SocketAddr::from((Ipv4Addr::LOCALHOST, 502))
}

/// Over a connector, by the call that is named.
fn answers_over(text: &mut Text, call: &str, slave: Slave, words: &str, links: Links) -> bool {
    match call {
        "reconnect_rtu" => over_rtu(
            text,
            &mut RtuOverTcpClient::new(text.alloc, links, device(), slave),
            words,
        ),
        _ => over_tcp(
            text,
            &mut TcpClient::new(text.alloc, links, device(), slave),
            words,
        ),
    }
}

type Line = SerialClient<TimedMemoryLink>;

/// For how many milliseconds a line has to be silent, and how many bytes may come until then.
fn quiet_of(words: &str) -> Option<(Duration, usize)> {
    let (limit, quiet) = number_and_word(words)?;
    Some((
        milliseconds(quiet)?,
        usize::try_from(limit).unwrap_or(usize::MAX),
    ))
}

/// Sets both.
fn set_quiet(text: &mut Text, client: &mut Line, words: &str) -> bool {
    let Some((quiet, limit)) = quiet_of(words) else {
        return false;
    };
    client.set_quiet(quiet, limit);
    text.push_str("()");
    true
}

/// Sets for how many milliseconds a line has to be silent after a request that is only sent.
fn set_turnaround(text: &mut Text, client: &mut Line, word: &str) -> bool {
    let Some(turnaround) = milliseconds(word) else {
        return false;
    };
    client.set_turnaround(turnaround);
    text.push_str("()");
    true
}

/// Sends the request of a PDU, and waits for no reply.
fn send(text: &mut Text, client: &mut Line, pdu: &[u8]) -> bool {
    match decode_request(text.alloc, pdu) {
        Ok(request) => push_sent(text, client.send(request)),
        Err(_) => return false,
    }
    true
}

/// The same of a word.
fn send_word(text: &mut Text, client: &mut Line, word: &str) -> bool {
    match bytes_of(text.alloc, word) {
        Some(pdu) => send(text, client, pdu.as_slice()),
        None => false,
    }
}

/// Asks for the function of a PDU, whose reply is given as it came.
fn call_raw<P: RawLineProtocol>(
    text: &mut Text,
    client: &mut SettlingClient<P, TimedMemoryLink>,
    word: &str,
) -> bool {
    let Some(pdu) = bytes_of(text.alloc, word) else {
        return false;
    };
    match pdu.as_slice() {
        [function, data @ ..] => text.push_shown(client.call_raw(*function, data)),
        [] => return false,
    }
    true
}

/// What a step does to a client of a line, which also has `quiet=4096:200`, `turnaround=100`, `send=0600010003`, `raw=11`, `doubt`,
/// `unsettled` and `dropped`.
fn line_step(text: &mut Text, client: &mut Line, word: &str) -> bool {
    if let Some(quiet) = word.strip_prefix("quiet=") {
        return set_quiet(text, client, quiet);
    }
    if let Some(turnaround) = word.strip_prefix("turnaround=") {
        return set_turnaround(text, client, turnaround);
    }
    if let Some(pdu) = word.strip_prefix("send=") {
        return send_word(text, client, pdu);
    }
    if let Some(pdu) = word.strip_prefix("raw=") {
        return call_raw(text, client, pdu);
    }
    match word {
        "doubt" => text.push_shown(client.is_in_doubt()),
        "unsettled" => text.push_shown(client.unsettled()),
        "dropped" => text.push_shown(client.dropped()),
        _ => return step(text, client, word),
    }
    true
}

/// The answers of such a client.
fn line_steps(text: &mut Text, client: &mut Line, words: &str) -> bool {
    for word in words.split(',') {
        if !line_step(text, client, word) {
            return false;
        }
        text.push_str("; ");
    }
    true
}

/// The same, and what was written to its line.
fn over_line(text: &mut Text, client: &mut Line, words: &str) -> bool {
    let is_done = line_steps(text, client, words);
    match client.link() {
        Some(line) => push_written(text, line.link()),
        None => text.push_str("no link"),
    }
    is_done
}

/// The answers of a client of this line.
fn answers_on_line(text: &mut Text, slave: Slave, steps: &str, line: TimedMemoryLink) -> bool {
    let mut client = SerialClient::new(text.alloc, line, slave, Duration::from_millis(SILENCE));
    client.set_timeout(Some(Duration::from_millis(TIMEOUT)));
    over_line(text, &mut client, steps)
}

/// Appends what was written to a line.
fn push_line(text: &mut Text, line: Option<&TimedMemoryLink>) {
    match line {
        Some(line) => push_written(text, line.link()),
        None => text.push_str("no link"),
    }
}

type AsciiLine = modbus_ascii_client::SerialClient<TimedMemoryLink>;

/// What a step does to a client of a line in the ASCII mode, which also has `raw=11`.
fn ascii_step(text: &mut Text, client: &mut AsciiLine, word: &str) -> bool {
    match word.strip_prefix("raw=") {
        Some(pdu) => call_raw(text, client, pdu),
        None => step(text, client, word),
    }
}

/// The answers of such a client.
fn ascii_steps(text: &mut Text, client: &mut AsciiLine, words: &str) -> bool {
    for word in words.split(',') {
        if !ascii_step(text, client, word) {
            return false;
        }
        text.push_str("; ");
    }
    true
}

/// The answers of a client of this line in the ASCII mode.
fn answers_in_ascii(text: &mut Text, slave: Slave, words: &str, line: TimedMemoryLink) -> bool {
    let silence = Duration::from_millis(SILENCE);
    let mut client = AsciiLine::new(text.alloc, line, slave, silence);
    client.set_timeout(Some(Duration::from_millis(TIMEOUT)));
    let is_done = ascii_steps(text, &mut client, words);
    push_line(text, client.link());
    is_done
}

/// The answers of a client of the line in the ASCII mode that these words say.
fn answer_in_ascii(text: &mut Text, slave: Slave, steps: &str, words: &[Word]) -> bool {
    match read_line(text.alloc, words) {
        Some(line) => answers_in_ascii(text, slave, steps, line),
        None => false,
    }
}

/// The answers of a client of the line that these words say.
fn answer_on_line(text: &mut Text, slave: Slave, steps: &str, words: &[Word]) -> bool {
    match read_line(text.alloc, words) {
        Some(line) => answers_on_line(text, slave, steps, line),
        None => false,
    }
}

/// The answers of a client over a connector of the links that these words say.
fn answer_over(text: &mut Text, call: &str, slave: Slave, steps: &str, words: &[Word]) -> bool {
    let [first, second] = words else {
        return false;
    };
    match links_of(text.alloc, first.text(), second.text()) {
        Ok(links) => answers_over(text, call, slave, steps, links),
        Err(_) => false,
    }
}

/// The call of a slave, steps and what they go over.
fn answer_steps(text: &mut Text, call: &str, slave: Slave, steps: &str, words: &[Word]) -> bool {
    match call {
        "reconnect_serial" => answer_on_line(text, slave, steps, words),
        "reconnect_ascii" => answer_in_ascii(text, slave, steps, words),
        _ => answer_over(text, call, slave, steps, words),
    }
}

/// Whether a line is settled by one silence, of which at most a hundred bytes are dropped.
fn settled(text: &mut Text, words: &[Word]) -> bool {
    match read_line(text.alloc, words) {
        Some(mut line) => text.push_shown(settle(&mut line, 1, 100)),
        None => return false,
    }
    true
}

/// `reconnect_rtu` or `reconnect_tcp`, a slave, steps with commas between them, and two links, the one after the other, where `p7` has a look
/// find what lies behind 7 bytes; `reconnect_serial` or `reconnect_ascii`, a slave, steps, and the outside of the line, `p8` a silence behind
/// 8 bytes; or `reconnect_settle` and the outside of the line.
pub fn answer(text: &mut Text, call: &str, words: &[Word]) -> bool {
    if call == "reconnect_settle" {
        return settled(text, words);
    }
    let [slave, steps, words @ ..] = words else {
        return false;
    };
    match slave.byte() {
        Some(slave) => answer_steps(text, call, Slave(slave), steps.text(), words),
        None => false,
    }
}
