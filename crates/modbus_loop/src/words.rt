//! The words of the command line.

use modbus_about::{About, asked};
use std::env;

/// How many seconds a connection may stay that sends nothing, where the words do not say.
const IDLE: u64 = 600;

/// How many seconds a message may be begun and not completed, where the words do not say.
const MESSAGE: u64 = 10;

/// How many connections there are at a time, where the words do not say, and the system has as many file descriptors.
const CONNECTIONS: usize = 20_000;

/// The word before the number of connections of one address.
const PER_PEER: &str = "--per-peer";

/// What frames the requests of the connections.
#[derive(Clone, Copy, Debug, PartialEq, Eq)]
pub enum Mode {
    /// ADUs with an MBAP header.
    Tcp,
    /// RTU frames.
    Rtu,
}

/// What the program is to do.
#[derive(Clone, Copy, Debug, PartialEq, Eq)]
pub struct Task {
    /// What frames the requests.
    pub mode: Mode,
    /// The port of 127.0.0.1 that it listens on.
    pub port: u16,
    /// How many seconds a connection may stay that sends nothing.
    pub idle: u64,
    /// How many seconds a message may be begun and not completed.
    pub message: u64,
    /// How many connections there are at a time.
    pub connections: usize,
    /// How many of these are of one address; as many as there are where none is told.
    pub per_peer: usize,
}

/// What the words ask for.
#[derive(Clone, Copy, Debug, PartialEq, Eq)]
pub enum Wish {
    /// To serve.
    Serve(Task),
    /// To say something of itself.
    Say(About),
}

/// The mode that a word names.
fn mode_of(word: &str) -> Option<Mode> {
    match word {
        "tcp" => Some(Mode::Tcp),
        "rtu" => Some(Mode::Rtu),
        _ => None,
    }
}

/// The number of seconds that a word names, from 1 on.
fn seconds_of(word: &str) -> Option<u64> {
    match word.parse() {
        Ok(seconds) if seconds > 0 => Some(seconds),
        _ => None,
    }
}

/// The number of connections that a word names, from 1 on.
fn connections_of(word: &str) -> Option<usize> {
    match word.parse() {
        Ok(connections) if connections > 0 => Some(connections),
        _ => None,
    }
}

impl Task {
    /// The task where the word at this place, behind the port, is this one; none where it is no form, or there are no more words.
    fn with(self, place: u8, word: &str) -> Option<Task> {
        let mut task = self;
        match place {
            0 => task.idle = seconds_of(word)?,
            1 => task.message = seconds_of(word)?,
            2 => task.connections = connections_of(word)?,
            _ => return None,
        }
        Some(task)
    }
}

/// What the words after the program's name ask for; none where they are no form.
pub fn parse_args(rt: &HostRuntime) -> Option<Wish> {
    let mut words = env::args(rt).ok()?.skip(1);
    let first = words.next()?;
    if let Some(about) = asked(first.as_str()) {
        return Some(Wish::Say(about));
    }
    let mode = mode_of(first.as_str())?;
    let port = words.next()?.as_str().parse().ok()?;
    let mut task = Task {
        mode,
        port,
        idle: IDLE,
        message: MESSAGE,
        connections: CONNECTIONS,
        per_peer: usize::MAX,
    };
    let mut place: u8 = 0;
    let mut wants_share = false;
    for word in words {
        if wants_share {
            task.per_peer = connections_of(word.as_str())?;
            wants_share = false;
        } else if word.as_str() == PER_PEER {
            wants_share = true;
        } else {
            task = task.with(place, word.as_str())?;
            place = place.saturating_add(1);
        }
    }
    if wants_share {
        return None;
    }
    Some(Wish::Serve(task))
}
