//! The serial line of a gateway: on the standard streams, or at the file of a serial port that is opened anew where it is gone.

use crate::PROGRAM;
use crate::telling::{NoOpener, PortNotes, StreamEnd};
use crate::words::LineKind;
use modbus_adapter::{EchoedLink, PacedLink, pause_of};
use modbus_client::Client;
use modbus_frame::Slave;
use modbus_gateway::{LineOpener, Reopened, SerialLine};
use modbus_idle::PortLine;
use modbus_link::{ReadSource, WriteSink};
use modbus_port::Ending;
use modbus_reconnect::SerialClient;
use std::fs::{File, OpenOptions};
use std::io::{self, IsTerminal, Read, Stdin, Stdout, Write};
use std::os::fd::{AsRawFd, RawFd};
use std::time::{Duration, Instant};

/// How long a silence of the line is, in milliseconds: more than the 16 after which a USB converter delivers.
const SILENCE: u64 = 20;

/// How many bytes of a line in doubt are dropped until it is silent.
const NOISE: usize = 4096;

/// How many reads of a call may give bytes: four times those of the longest frame, a byte each.
const TURNS: u64 = 1024;

/// How long slaves have for what a broadcast asks, in milliseconds (MODBUS over Serial Line V1.02, section 2.4.1).
const TURNAROUND: u64 = 100;

/// How many milliseconds lie at least between two tries to open a port that is gone.
const PAUSE: u64 = 1_000;

/// How a line is asked.
#[derive(Clone, Copy)]
pub struct Asking {
    /// For how long the reply of a slave is waited for, in milliseconds.
    pub millis: u32,
    pub kind: LineKind,
}

/// A line over these ends, without what it gives back of what is sent.
type Ends<I, O> = EchoedLink<PortLine<ReadSource<I>, WriteSink<O>>>;

/// The slaves of a line over these ends.
type Slaves<'r, I, O> = SerialLine<PacedLink<'r, HostRuntime, Ends<I, O>>>;

/// The slaves of the line over the standard streams, with which the program ends.
pub type StreamLine<'r> = Reopened<NoOpener, StreamEnd<'r>, Slaves<'r, Stdin, Stdout>>;

/// The slaves of the line at the file of a serial port.
pub type PortSlaves<'r> = Slaves<'r, File, File>;

/// The slaves of a serial port that is opened anew where it is gone.
pub type FileLine<'r> = Reopened<PortOpener<'r>, PortNotes<'r>, PortSlaves<'r>>;

/// The slaves of a line over these ends, which stand behind this descriptor. Where it is in doubt it has to be silent for as long as a reply is
/// waited for.
fn slaves_over<I: Read + Send + Drop, O: Write + Send + Drop>(
    rt: &HostRuntime,
    ends: (I, O),
    fd: RawFd,
    asking: Asking,
) -> Slaves<'_, I, O> {
    let silence = Duration::from_millis(SILENCE);
    let (source, sink) = (ReadSource::new(ends.0), WriteSink::new(ends.1));
    let mut echoed = EchoedLink::new(PortLine::new(rt, source, sink, fd, silence));
    echoed.set_echo(asking.kind.has_echo);
    let link = PacedLink::new(rt, echoed, pause_of(asking.kind.baud));
    let limit = Duration::from_millis(u64::from(asking.millis));
    let mut client = SerialClient::new(rt.alloc(), link, Slave(0), silence);
    client.set_timeout(Some(limit));
    client.set_quiet(limit, NOISE);
    client.set_turns(TURNS);
    client.set_turnaround(Duration::from_millis(TURNAROUND));
    SerialLine::new(client)
}

/// The slaves of the line over the standard streams. Once it has ended it ends the listener of the program by `ending`.
pub fn stream_line<'r>(rt: &'r HostRuntime, asking: Asking, ending: &'r Ending) -> StreamLine<'r> {
    let fd = rt.stdin().as_raw_fd();
    let slaves = slaves_over(rt, (rt.stdin(), rt.stdout()), fd, asking);
    Reopened::new(NoOpener, StreamEnd::new(rt, ending), Some(slaves))
}

/// The slaves of the serial port at this path.
///
/// # Errors
/// Those of the system; `Unsupported` where the file is no terminal.
fn open_port<'r>(rt: &'r HostRuntime, path: &str, asking: Asking) -> io::Result<PortSlaves<'r>> {
    let reader = OpenOptions::new().read(true).write(true).open(rt, path)?;
    if !reader.is_terminal() {
        return Err(io::Error::from(io::ErrorKind::Unsupported));
    }
    let writer = reader.try_clone()?;
    let fd = reader.as_raw_fd();
    Ok(slaves_over(rt, (reader, writer), fd, asking))
}

/// What opens a serial port anew.
#[derive(Drop)]
pub struct PortOpener<'r> {
    rt: &'r HostRuntime,
    path: &'r str,
    asking: Asking,
    // when it was tried last in vain
    tried: Option<Instant>,
}

impl<'r> PortOpener<'r> {
    /// Whether the last try that failed was a moment ago.
    fn rests(&self) -> bool {
        let Some(tried) = self.tried else {
            return false;
        };
        match tried.elapsed(self.rt) {
            Ok(elapsed) => elapsed < Duration::from_millis(PAUSE),
            Err(_) => false,
        }
    }

    /// Tells once why the port can't be opened, and keeps when that was.
    fn note(&mut self, error: &io::Error) {
        let path = self.path;
        if self.tried.is_none() {
            let _ = eprintln!(self.rt; "{PROGRAM}: {path} can't be opened: {error}");
        }
        self.tried = Instant::now(self.rt).ok();
    }
}

impl<'r> LineOpener<PortSlaves<'r>> for PortOpener<'r> {
    // Nothing is said of the system.
    ghost opens = { λ _ _ _. Unit {0} };

    fn open(&mut self) -> Option<PortSlaves<'r>> {
        if self.rests() {
            return None;
        }
        match open_port(self.rt, self.path, self.asking) {
            Ok(line) => {
                self.tried = None;
                Some(line)
            }
            Err(error) => {
                self.note(&error);
                None
            }
        }
    }
}

/// The slaves of the serial port at this path, which is opened now, and anew where it is gone.
///
/// # Errors
/// Those of the system; `Unsupported` where the file is no terminal.
pub fn file_line<'r>(
    rt: &'r HostRuntime,
    path: &'r str,
    asking: Asking,
) -> io::Result<FileLine<'r>> {
    let line = open_port(rt, path, asking)?;
    let opener = PortOpener {
        rt,
        path,
        asking,
        tried: None,
    };
    Ok(Reopened::new(opener, PortNotes::new(rt, path), Some(line)))
}
