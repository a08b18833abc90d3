//! A Modbus device for a real line: on a serial line that others share, or on a port of Modbus TCP.
//!
//! Each unit is a device of four tables behind its own address. It answers what is for it, does broadcasts, and is silent to all else;
//! whatever else is on the line, it goes on.
#![tactic(auto)]

ghost use Rattle.std.specs.Prelude.{◌≡◌, ◌≢◌, ◌↔◌, Err};

mod device;
mod files;
mod laws;
mod line;
mod listen;
mod options;
mod setting;
mod teller;
mod words;

use clap::ArgMatches;
use device::{Device, LineDevice, OpenError, Plan, open, open_line};
use line::OpenLine;
use mio::net::TcpListener;
use modbus_command::{FAILED, fill_closed_streams, say, words_of};
use modbus_link::WriteSink;
use modbus_rule_words::PeerWords;
use modbus_server::ProcessError;
use std::alloc::Global;
use std::io::ErrorKind;
use std::net::SocketAddr;
use std::process::ExitCode;
use std::sync::Wait;
use std::thread;
use std::time::{Clock, Duration};
use teller::Teller;
use words::{LinePlace, Place, SerialLine, Task, TcpPort, Wrong};

/// What its messages begin with.
const PROGRAM: &str = "modbus_device";

/// How many milliseconds lie between two tries to open a line that is gone.
const PAUSE: u64 = 1_000;

/// How many milliseconds a line rests once memory was refused.
const REST: u64 = 100;

/// The status of a line that ended so for good, which is told.
fn ended(rt: &HostRuntime, place: LinePlace<'_>, end: Result<(), ProcessError>) -> u8 {
    match end {
        Ok(()) => {
            let _ = eprintln!(rt; "modbus_device: {place} has ended");
            0
        }
        Err(error) => {
            let _ = eprintln!(rt; "modbus_device: {place}: {error}");
            FAILED
        }
    }
}

/// What follows the end of a line.
enum Next {
    /// The line is served on: memory was refused, which loses the message that wanted it.
    ServeOn,
    /// The line is opened anew.
    OpenAgain,
    /// The device ends.
    End,
}

/// What follows where a line at this place ended so.
fn next_after(place: LinePlace<'_>, end: Result<(), ProcessError>) -> Next
    ensures memory { (result ≡ Next.ServeOn) ↔ (end ≡ Err ProcessError.NoMemory) }
    ensures ends { (result ≡ Next.End) ↔ ((place.entry ≡ LinePlace.Streams)
        × (end ≢ Err ProcessError.NoMemory)) }
{
    match (place, end) {
        (_, Err(ProcessError::NoMemory)) => Next::ServeOn,
        (LinePlace::Streams, _) => Next::End,
        _ => Next::OpenAgain,
    }
}

/// Tells that a message was lost since memory was refused, and rests.
fn rest<R: Wait + Clock>(rt: &HostRuntime, waits: &R, place: LinePlace<'_>) {
    let _ = eprintln!(rt; "modbus_device: {place}: memory was refused, a message is lost");
    thread::sleep(waits, Duration::from_millis(REST));
}

/// Tells that the line at this place is gone, and why.
fn tell_gone(rt: &HostRuntime, place: LinePlace<'_>, end: Result<(), ProcessError>) {
    let _ = match end {
        Ok(()) => eprintln!(rt; "modbus_device: {place} is gone: its input has ended"),
        Err(error) => eprintln!(rt; "modbus_device: {place} is gone: {error}"),
    };
}

/// The line at this place that was gone, once it can be opened again.
fn open_again<R: Wait + Clock>(rt: &HostRuntime, waits: &R, place: LinePlace<'_>) -> OpenLine {
    for _ in waits.forever() {
        thread::sleep(waits, Duration::from_millis(PAUSE));
        if let Ok(open) = line::open(rt, place) {
            return open;
        }
    }
    unreachable!()
}

/// Serves a line, and opens it anew where it is gone, which is told. Refused memory doesn't end it. The status, where it isn't opened anew.
fn serve_line<R: Wait + Clock>(
    rt: &HostRuntime,
    waits: &R,
    line: SerialLine<'_>,
    device: &mut LineDevice,
) -> u8 {
    let place = line.place;
    let mut open = match line::open(rt, place) {
        Ok(open) => open,
        Err(error) => {
            let _ = eprintln!(rt; "modbus_device: {place} can't be opened: {error}");
            return FAILED;
        }
    };
    for _ in waits.forever() {
        let end = line::serve(rt, &open, line, device);
        match next_after(place, end) {
            Next::ServeOn => rest(rt, waits, place),
            Next::OpenAgain => {
                tell_gone(rt, place, end);
                open = open_again(rt, waits, place);
                let _ = eprintln!(rt; "modbus_device: {place} is back");
            }
            Next::End => return ended(rt, place, end),
        }
    }
    unreachable!()
}

/// Tells why the system refuses a listener.
fn refuse(rt: &HostRuntime, address: SocketAddr, why: ErrorKind) {
    let _ = match why {
        ErrorKind::AddrInUse => {
            eprintln!(rt; "modbus_device: no listener at {address}: the port is in use")
        }
        ErrorKind::PermissionDenied => {
            eprintln!(rt; "modbus_device: no listener at {address}: permission is refused")
        }
        _ => eprintln!(rt; "modbus_device: no listener at {address}: {why}"),
    };
}

/// The listener at an address, which is told with the port that it has; none where the system refuses it, which is told too.
fn bind(rt: &HostRuntime, address: SocketAddr) -> Option<TcpListener> {
    match TcpListener::bind(rt, address) {
        Ok(listener) => {
            let bound = listener.local_addr().unwrap_or(address);
            let _ = eprintln!(rt; "modbus_device: listening on {bound}");
            Some(listener)
        }
        Err(error) => {
            refuse(rt, address, error.kind());
            None
        }
    }
}

/// Tells why words ask for nothing; the status.
fn refuse_words(rt: &HostRuntime, wrong: Wrong) -> u8 {
    let _ = eprintln!(rt; "modbus_device: {wrong}");
    wrong.status()
}

/// What the words ask for; or the status of words that ask for nothing, which is told.
fn read_task<'w>(rt: &HostRuntime, matches: &ArgMatches<'w>) -> Result<Task<'w>, u8> {
    match words::task_of(rt.alloc(), matches) {
        Ok(task) => Ok(task),
        Err(wrong) => Err(refuse_words(rt, wrong)),
    }
}

/// The masters that the words let come; or the status of words that tell none, which is told.
fn read_peers(rt: &HostRuntime, matches: &ArgMatches<'_>) -> Result<PeerWords, u8> {
    match words::peers_of(rt.alloc(), matches) {
        Ok(peers) => Ok(peers),
        Err(wrong) => Err(refuse_words(rt, wrong)),
    }
}

/// The units that a task asks for, where they are reached.
enum Opened<'w> {
    /// Behind a port of Modbus TCP, for these masters.
    Port(TcpPort, Device, PeerWords),
    /// On this serial line.
    Line(SerialLine<'w>, LineDevice),
}

/// Opens the units that a task asks for, which over Modbus TCP these masters reach.
fn open_place<'w>(
    alloc: Global,
    place: Place<'w>,
    plan: &Plan<'_>,
    peers: PeerWords,
) -> Result<Opened<'w>, OpenError> {
    Ok(match place {
        Place::Port(port, addressing) => Opened::Port(port, open(alloc, plan, addressing)?, peers),
        Place::Line(line) => Opened::Line(line, open_line(alloc, plan)?),
    })
}

/// The units that the words ask for; or the status where there are none, which is told.
fn open_matched<'w>(rt: &HostRuntime, matches: &ArgMatches<'w>) -> Result<Opened<'w>, u8> {
    let task = read_task(rt, matches)?;
    let peers = read_peers(rt, matches)?;
    let plan = Plan {
        units: task.units.as_slice(),
        entries: task.entries,
        settings: task.settings.as_slice(),
        files: task.files,
        is_read_only: task.is_read_only,
        texts: words::texts_of(matches),
    };
    match open_place(rt.alloc(), task.place, &plan, peers) {
        Ok(opened) => Ok(opened),
        Err(error) => {
            let _ = eprintln!(rt; "modbus_device: {error}");
            Err(error.status())
        }
    }
}

/// What the words ask for; or the status, which is told.
fn open_task<'w>(rt: &HostRuntime, words: &'w [String]) -> Result<Opened<'w>, u8> {
    match options::parse(rt.alloc(), words) {
        Ok(matches) => open_matched(rt, &matches),
        Err(error) => Err(say(rt, PROGRAM, &error)),
    }
}

fn main(rt: HostRuntime) -> ExitCode {
    let _filled = fill_closed_streams(&rt);
    let words = match words_of(&rt, PROGRAM) {
        Ok(words) => words,
        Err(status) => return ExitCode::from(status),
    };
    let (port, device, peers) = match open_task(&rt, words.as_slice()) {
        Ok(Opened::Port(port, device, peers)) => (port, device, peers),
        Ok(Opened::Line(line, mut device)) => {
            return ExitCode::from(serve_line(&rt, &rt, line, &mut device));
        }
        Err(status) => return ExitCode::from(status),
    };
    let Some(listener) = bind(&rt, port.address) else {
        return ExitCode::from(FAILED);
    };
    let mut teller = Teller::new(&rt);
    let door = listen::Door {
        peers: peers.peers(),
        notes: WriteSink::new(rt.stderr()),
    };
    let fault = listen::serve(&rt, listener, door, device, port, &mut teller);
    let _ = eprintln!(rt; "modbus_device: {fault}");
    ExitCode::from(FAILED)
}
