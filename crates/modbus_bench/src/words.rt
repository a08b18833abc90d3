//! The words after the name of the program.

use crate::job::Limit;
use crate::plans::Rule;
use modbus_about::{About, asked};
use std::alloc::Global;
use std::env;
use std::net::SocketAddr;

/// How a device behind an address is spoken to.
#[derive(Clone, Copy)]
pub enum Form {
    /// Modbus TCP, over a new link where the last one is in doubt.
    Tcp,
    /// The same, but a link is kept through some time-outs in a row.
    Patient,
    /// RTU frames over TCP, over a new link where the last one is in doubt.
    Rtu,
    /// Modbus TCP, over one link.
    OnceTcp,
    /// RTU frames over TCP, over one link.
    OnceRtu,
}

/// How a device on a serial line is spoken to.
#[derive(Clone, Copy)]
pub enum Mode {
    /// RTU frames.
    Rtu,
    /// RTU frames, through an adapter that gives back what is sent.
    Echoed,
    /// RTU frames, with a deadline for each call.
    Deadline,
    /// The ASCII mode.
    Ascii,
}

/// Where a device is.
#[derive(Drop)]
pub enum Device {
    /// Behind an address, spoken to in this form.
    Peer(Form, SocketAddr),
    /// On the serial line of this terminal, spoken to in this mode.
    Line(Mode, String),
}

/// Which device is read, how many registers of it, within how many milliseconds each read and write ends, how often a read is sent again over
/// a new link, and how many milliseconds are between two calls.
#[derive(Drop)]
pub struct Watched {
    pub device: Device,
    pub count: u16,
    pub millis: u64,
    pub retries: u32,
    pub pause: u64,
}

/// What is asked for.
#[derive(Drop)]
pub enum Task {
    /// Calls of a store by so many threads, each up to a limit.
    Calls(usize, Limit),
    /// A plan by a rule for so many items.
    Plan(Rule, usize),
    /// Reads of the registers of a device.
    Watch(Watched),
    /// To say something of itself.
    Say(About),
}

/// The calls that these words name.
fn calls(kind: &str, threads: &str, number: &str) -> Option<Task> {
    let number = number.parse().ok()?;
    let limit = match kind {
        "rate" => Limit::Millis(number),
        "calls" => Limit::Calls(number),
        _ => return None,
    };
    Some(Task::Calls(threads.parse().ok()?, limit))
}

/// The plan that these words name.
fn plan(rule: &str, count: &str) -> Option<Task> {
    let rule = match rule {
        "sorted" => Rule::Sorted,
        "plain" => Rule::Plain,
        _ => return None,
    };
    Some(Task::Plan(rule, count.parse().ok()?))
}

fn form_of(text: &str) -> Option<Form> {
    match text {
        "tcp" => Some(Form::Tcp),
        "patient" => Some(Form::Patient),
        "rtu" => Some(Form::Rtu),
        "once-tcp" => Some(Form::OnceTcp),
        "once-rtu" => Some(Form::OnceRtu),
        _ => None,
    }
}

fn mode_of(text: &str) -> Option<Mode> {
    match text {
        "serial" => Some(Mode::Rtu),
        "echoed" => Some(Mode::Echoed),
        "deadline" => Some(Mode::Deadline),
        "ascii" => Some(Mode::Ascii),
        _ => None,
    }
}

/// The device that these two words name.
fn device_of(alloc: Global, kind: &str, place: &str) -> Option<Device> {
    match mode_of(kind) {
        Some(mode) => Some(Device::Line(mode, String::from_str(alloc, place).ok()?)),
        None => Some(Device::Peer(form_of(kind)?, place.parse().ok()?)),
    }
}

/// How often a read is sent again, and the milliseconds between two calls, by the words that are left.
fn retries_and_pause(words: &[String]) -> Option<(u32, u64)> {
    match words {
        [] => Some((0, 0)),
        [retries] => Some((retries.as_str().parse().ok()?, 0)),
        [retries, pause] => Some((retries.as_str().parse().ok()?, pause.as_str().parse().ok()?)),
        _ => None,
    }
}

/// The reads of a device that the words behind `watch` name.
fn watch(alloc: Global, words: &[String]) -> Option<Task> {
    match words {
        [kind, place, count, millis, rest @ ..] => {
            let (retries, pause) = retries_and_pause(rest)?;
            Some(Task::Watch(Watched {
                device: device_of(alloc, kind.as_str(), place.as_str())?,
                count: count.as_str().parse().ok()?,
                millis: millis.as_str().parse().ok()?,
                retries,
                pause,
            }))
        }
        _ => None,
    }
}

fn task_among(alloc: Global, words: &[String]) -> Option<Task> {
    match words {
        [_, word] => Some(Task::Say(asked(word.as_str())?)),
        [_, kind, rest @ ..] if kind.as_str() == "watch" => watch(alloc, rest),
        [_, kind, threads, number] => calls(kind.as_str(), threads.as_str(), number.as_str()),
        [_, rule, count] => plan(rule.as_str(), count.as_str()),
        _ => None,
    }
}

fn words(rt: &HostRuntime) -> Option<Vec<String>> {
    env::args(rt).ok()?.collect(rt.alloc()).ok()
}

/// The task that the words name; none where they name none.
pub fn task_of(rt: &HostRuntime) -> Option<Task> {
    task_among(rt.alloc(), words(rt)?.as_slice())
}
