//! A gateway that makes the devices of one serial line reachable over Modbus TCP, for any number of masters:
//! `modbus_serial_gateway [ADDRESS:]PORT MILLISECONDS`. The line is that of its standard streams, or with `--serial FILE` of a serial port, which
//! was set by `stty raw -echo`. `--echo` is for an adapter that gives back what is sent, and `--baud N` tells the line's speed, by which a pause is
//! kept between a reply and the next request. `--allow`, `--units`, `--read-only` and `--writes` say who may come and what masters may do,
//! `--dead-after N` after how many requests that it did not answer a slave is not asked for a while, and `--stale MILLISECONDS` for how long a
//! request waits at most for its turn at the line.
#![tactic(auto)]

mod ending;
mod line;
mod listen;
mod sparing_words;
mod stale_words;
mod telling;
mod words;

use ending::NO_MEMORY_LINE;
use line::{Asking, file_line, stream_line};
use listen::{Shared, serve};
use modbus_about::{About, FAILED, USAGE, asked, fill_closed_streams, tell};
use modbus_gateway::{Forwarder, Guarded, Sparing};
use modbus_link::WriteSink;
use modbus_port::Ending;
use std::alloc::Global;
use std::env::{self, Args};
use std::io::{ErrorKind, Result};
use std::iter::Skip;
use std::net::{Net, TcpListener, TcpStream};
use std::process::ExitCode;
use std::sync::Wait;
use std::thread::Threads;
use std::time::Clock;
use telling::SlaveNotes;
use words::{HELP, LineWish, LineWords, Task, read_words};

/// What its messages begin with.
pub(crate) const PROGRAM: &str = "modbus_serial_gateway";

/// What the words ask for.
enum Wish {
    /// To serve such a line.
    Serve(Task, LineWish),
    /// To say something of itself.
    Say(About),
}

/// How the line is and what masters may do by these words; `None` where they are no such words.
fn read_line_words(alloc: Global, words: Skip<Args>) -> Result<Option<LineWish>> {
    let mut line = LineWords::new(alloc);
    for word in words {
        if !line.read(word.as_str())? {
            return Ok(None);
        }
    }
    Ok(line.end())
}

/// What the words after the program's name ask for; `None` where they are no such words.
fn wish_of(rt: &HostRuntime) -> Result<Option<Wish>> {
    let mut words = env::args(rt)?.skip(1);
    match (words.next(), words.next()) {
        (Some(word), None) => Ok(asked(word.as_str()).map(Wish::Say)),
        (Some(place), Some(millis)) => {
            let task = read_words(place.as_str(), millis.as_str());
            match (task, read_line_words(rt.alloc(), words)?) {
                (Some(task), Some(line)) => Ok(Some(Wish::Serve(task, line))),
                _ => Ok(None),
            }
        }
        _ => Ok(None),
    }
}

/// What the line is served by: this machine, what was asked for, and what ends the listener.
#[derive(Clone, Copy)]
struct Place<'r> {
    host: &'r HostRuntime,
    task: Task,
    wish: &'r LineWish,
    ending: &'r Ending,
}

/// Serves a line as is wished for, with the threads of this machine; the status.
fn serve_line<R, C>(rt: &R, place: Place<'_>, line: C) -> u8
where
    R: Threads + Wait + Clock + Net<Listener = TcpListener, Stream = TcpStream> + Sync,
    C: Forwarder + Send + Drop,
{
    let Place {
        host,
        task,
        wish,
        ending,
    } = place;
    let errors = WriteSink::new(host.stderr());
    let notes = (WriteSink::new(host.stderr()), WriteSink::new(host.stderr()));
    let shared = Shared {
        line: Guarded::new(wish.rules.rules(), line),
        limit: wish.stale.limit(task.millis),
        peers: wish.peers.peers(),
    };
    let (_errors, status) = serve(
        rt,
        host.alloc(),
        task.address,
        shared,
        errors,
        notes,
        ending,
    );
    status
}

/// Serves a line, which is spared the requests for dead slaves where that is wished for; the status.
fn serve_slaves<R, C>(rt: &R, place: Place<'_>, line: C) -> u8
where
    R: Threads + Wait + Clock + Net<Listener = TcpListener, Stream = TcpStream> + Sync,
    C: Forwarder + Send + Drop,
{
    let sparing = place.wish.sparing;
    match sparing.limits() {
        Some(limits) => {
            let notes = SlaveNotes::new(place.host, sparing.retry_seconds());
            serve_line(rt, place, Sparing::new(rt, notes, line, limits))
        }
        None => serve_line(rt, place, line),
    }
}

/// Serves the line at the file of a serial port; the status.
fn serve_port<R>(rt: &R, place: Place<'_>, path: &str) -> u8
where
    R: Threads + Wait + Clock + Net<Listener = TcpListener, Stream = TcpStream> + Sync,
{
    let host = place.host;
    match file_line(host, path, asking_of(place)) {
        Ok(line) => serve_slaves(rt, place, line),
        Err(error) if error.kind() == ErrorKind::Unsupported => {
            let _ = eprintln!(host; "{PROGRAM}: {path} is no serial port");
            FAILED
        }
        Err(error) => {
            let _ = eprintln!(host; "{PROGRAM}: {path} can't be opened: {error}");
            FAILED
        }
    }
}

/// How the line is asked.
fn asking_of(place: Place<'_>) -> Asking {
    Asking {
        millis: place.task.millis,
        kind: place.wish.kind,
    }
}

/// Serves the line that is wished for; the status.
fn serve_wish<R>(rt: &R, place: Place<'_>) -> u8
where
    R: Threads + Wait + Clock + Net<Listener = TcpListener, Stream = TcpStream> + Sync,
{
    match &place.wish.path {
        Some(path) => serve_port(rt, place, path.as_str()),
        None => {
            let line = stream_line(place.host, asking_of(place), place.ending);
            serve_slaves(rt, place, line)
        }
    }
}

fn main(rt: HostRuntime) -> ExitCode {
    let _filled = fill_closed_streams(&rt);
    let wish = match wish_of(&rt) {
        Ok(wish) => wish,
        Err(error) if error.kind() == ErrorKind::OutOfMemory => {
            let _ = eprint!(rt; "{NO_MEMORY_LINE}");
            return ExitCode::from(FAILED);
        }
        Err(_) => None,
    };
    match wish {
        Some(Wish::Serve(task, wish)) => {
            let ending = Ending::new();
            let place = Place {
                host: &rt,
                task,
                wish: &wish,
                ending: &ending,
            };
            ExitCode::from(serve_wish(&rt, place))
        }
        Some(Wish::Say(about)) => ExitCode::from(tell(&rt, PROGRAM, HELP, about)),
        None => {
            let _ = eprint!(rt; "{PROGRAM}: {HELP}");
            ExitCode::from(USAGE)
        }
    }
}
