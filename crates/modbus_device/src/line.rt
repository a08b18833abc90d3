//! Serving a serial line.
ghost use Rattle.std.specs.Prelude.{◌≡◌, IfErr};
ghost use Rattle.modbus_field.specs.BurstLine.{IsOfNoBurst};

use crate::device::LineDevice;
use crate::words::{LinePlace, SerialLine};
use modbus_adapter::EchoedLink;
use modbus_echo::{Echo, EchoGuard};
use modbus_field::burst::{CountedLink, process_link};
use modbus_idle::{PortLine, keep_alive};
use modbus_link::{ReadSource, WriteSink};
use modbus_server::ProcessError;
use std::fs::{File, OpenOptions};
use std::io;
use std::io::{Read, Write};
use std::net::{SocketAddr, TcpStream};
use std::os::fd::{AsRawFd, RawFd};
use std::time::Duration;

/// How long a connection to a line may take, in milliseconds.
const CONNECTING: u64 = 10_000;

/// Where a line that was opened reads and writes.
#[derive(Drop)]
pub enum OpenLine {
    /// At the file of a serial port.
    File(File),
    /// Over a connection to what carries its bytes.
    Stream(TcpStream),
    /// On the standard streams.
    Streams,
}

/// The file of a serial port, to be read and written.
///
/// # Errors
/// Those of the system.
fn open_file(rt: &HostRuntime, path: &str) -> io::Result<File> {
    OpenOptions::new().read(true).write(true).open(rt, path)
}

/// A connection to what carries the bytes of a line.
///
/// # Errors
/// Those of the system.
fn connect(rt: &HostRuntime, address: SocketAddr) -> io::Result<TcpStream> {
    let stream = TcpStream::connect_timeout(rt, &address, Duration::from_millis(CONNECTING))?;
    // What the system refuses of these costs time, and nothing else.
    let _ = stream.set_nodelay(true);
    let _ = keep_alive(&stream);
    Ok(stream)
}

/// Opens the line at this place.
///
/// # Errors
/// Those of the system.
pub fn open(rt: &HostRuntime, place: LinePlace<'_>) -> io::Result<OpenLine> {
    match place {
        LinePlace::File(path) => Ok(OpenLine::File(open_file(rt, path)?)),
        LinePlace::Address(address) => Ok(OpenLine::Stream(connect(rt, address)?)),
        LinePlace::Streams => Ok(OpenLine::Streams),
    }
}

/// How many bursts are served before it is looked whether a reply has come back: one while it isn't known whether they do.
fn turns_of(echo: Echo) -> u64 {
    match echo {
        Echo::Unknown => 1,
        _ => u64::MAX,
    }
}

/// Tells that a reply has come back, where that is news.
fn tell_echo(rt: &HostRuntime, place: LinePlace<'_>, is_told: &mut bool, has_come_back: bool) {
    if has_come_back && !*is_told {
        let _ = eprintln!(rt;
            "modbus_device: {place} gives back what is sent: start it with --echo"
        );
        *is_told = true;
    }
}

/// Tells that other bytes came in place of what was sent, where that is news.
fn tell_collision(rt: &HostRuntime, place: LinePlace<'_>, is_told: &mut bool) {
    if !*is_told {
        let _ = eprintln!(rt;
            "modbus_device: {place} gives back other bytes than were sent: two have spoken at once, or it has no echo"
        );
        *is_told = true;
    }
}

/// What was told of a line.
#[derive(Drop)]
struct Told {
    echo: bool,
    collision: bool,
}

/// Serves bursts until their line ends. Where other bytes came in place of an echo, the burst that they are of is lost, and no other.
///
/// # Errors
/// Those of `serve`.
fn serve_bursts<L: CountedLink + Drop>(
    rt: &HostRuntime,
    place: LinePlace<'_>,
    bursts: &mut EchoGuard<EchoedLink<L>>,
    device: &mut LineDevice,
) -> Result<(), ProcessError>
    ensures causes { IfErr result (λ error. IsOfNoBurst error → ⊥) }
    ensures units { device.new.units ≡ device.old.units }
{
    let mut told = Told {
        echo: false,
        collision: false,
    };
    for _ in 0..u64::MAX {
        let end = process_link(rt.alloc(), bursts, device, turns_of(bursts.echo()));
        tell_echo(rt, place, &mut told.echo, bursts.has_come_back());
        if !bursts.link().collision().is_empty() {
            tell_collision(rt, place, &mut told.collision);
        } else if end != Err(ProcessError::TurnLimit) {
            return end;
        }
    }
    Ok(())
}

/// What is known of the adapter of a line at first: with `--echo` another link takes off what it gives back.
fn echo_at_first(has_echo: bool) -> Echo {
    if has_echo {
        Echo::Absent
    } else {
        Echo::Unknown
    }
}

/// Serves the line over these ends, which stand behind this descriptor, until it ends.
fn serve_ends<I: Read + Drop, O: Write + Drop>(
    rt: &HostRuntime,
    ends: (I, O),
    fd: RawFd,
    line: SerialLine<'_>,
    device: &mut LineDevice,
) -> Result<(), ProcessError>
    ensures causes { IfErr result (λ error. IsOfNoBurst error → ⊥) }
    ensures units { device.new.units ≡ device.old.units }
{
    let (source, sink) = (ReadSource::new(ends.0), WriteSink::new(ends.1));
    let silence = Duration::from_millis(line.silence);
    let mut echoed = EchoedLink::new(PortLine::new(rt, source, sink, fd, silence));
    echoed.set_echo(line.has_echo);
    let mut bursts = EchoGuard::new(echoed, echo_at_first(line.has_echo));
    serve_bursts(rt, line.place, &mut bursts, device)
}

/// Serves a line that was opened until it ends.
///
/// # Errors
/// Those of `modbus_field::burst::process_link`: a fault of the line, refused memory.
pub fn serve(
    rt: &HostRuntime,
    open: &OpenLine,
    line: SerialLine<'_>,
    device: &mut LineDevice,
) -> Result<(), ProcessError>
    ensures causes { IfErr result (λ error. IsOfNoBurst error → ⊥) }
    ensures units { device.new.units ≡ device.old.units }
{
    match open {
        OpenLine::File(file) => serve_ends(rt, (file, file), file.as_raw_fd(), line, device),
        OpenLine::Stream(stream) => {
            serve_ends(rt, (stream, stream), stream.as_raw_fd(), line, device)
        }
        OpenLine::Streams => {
            let ends = (rt.stdin(), rt.stdout());
            serve_ends(rt, ends, rt.stdin().as_raw_fd(), line, device)
        }
    }
}
