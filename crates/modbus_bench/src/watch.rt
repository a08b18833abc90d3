//! Reads of one register after another.

use crate::words::{Device, Form, Mode, Watched};
use modbus_adapter::{DeadlineClient, DeadlineLine, EchoedLink};
use modbus_client::{Client, Reader, rtu, tcp};
use modbus_frame::{Error, ExceptionCode, Slave};
use modbus_idle::{PortLine, WatchedConnector};
use modbus_link::{Connector, Failed, ReadSource, TcpConnector, WriteSink};
use modbus_reconnect::{Resend, RtuOverTcpClient, SerialClient, TcpClient};
use std::fs::File;
use std::net::SocketAddr;
use std::os::fd::AsRawFd;
use std::time::Duration;
use std::{io, thread};

const UNIT: Slave = Slave(1);

/// How long a silence of a line is, in milliseconds.
const SILENCE: u64 = 50;

/// How many bytes of a line are dropped until it is silent.
const NOISE: usize = 4096;

/// Through how many time-outs in a row a patient client keeps its link.
const PATIENCE: u32 = 8;

/// Prints what a register holds, or why that is not known.
fn report(
    rt: &HostRuntime,
    register: u16,
    answer: &Result<Result<Vec<u16>, ExceptionCode>, Error>,
) -> io::Result<()> {
    match answer {
        Ok(Ok(words)) => println!(rt; "{register}: {words:?}"),
        Ok(Err(exception)) => println!(rt; "{register}: {exception}"),
        Err(error) => println!(rt; "{register}: {error}"),
    }
}

/// Reads as many registers as are asked for from 0 on, one a call.
fn watch<C: Client>(rt: &HostRuntime, client: &mut C, task: &Watched) -> io::Result<()> {
    let pause = Duration::from_millis(task.pause);
    for register in 0..task.count {
        report(rt, register, &client.read_holding_registers(register, 1))?;
        if !pause.is_zero() {
            thread::sleep(rt, pause);
        }
    }
    let _ = client.disconnect();
    Ok(())
}

/// The serial line of a terminal.
type Port = PortLine<ReadSource<File>, WriteSink<File>>;

/// How long a silence of a line is.
fn silence() -> Duration {
    Duration::from_millis(SILENCE)
}

/// Opens the terminal of a serial line.
fn open_port(rt: &HostRuntime, terminal: &str) -> io::Result<Port> {
    let reader = File::options().read(true).write(true).open(rt, terminal)?;
    let writer = reader.try_clone()?;
    let fd = reader.as_raw_fd();
    let (source, sink) = (ReadSource::new(reader), WriteSink::new(writer));
    Ok(PortLine::new(rt, source, sink, fd, silence()))
}

/// Reads over a serial line. One in doubt has to be silent for as long as a reply is waited for.
fn watch_rtu(rt: &HostRuntime, link: Port, task: &Watched) -> io::Result<()> {
    let limit = Duration::from_millis(task.millis);
    let mut client = SerialClient::new(rt.alloc(), link, UNIT, silence());
    client.set_timeout(Some(limit));
    client.set_quiet(limit, NOISE);
    watch(rt, &mut client, task)
}

/// The same where an adapter gives back what is sent.
fn watch_echoed(rt: &HostRuntime, link: Port, task: &Watched) -> io::Result<()> {
    let limit = Duration::from_millis(task.millis);
    let mut echoed = EchoedLink::new(link);
    echoed.set_echo(true);
    let mut client = SerialClient::new(rt.alloc(), echoed, UNIT, silence());
    client.set_timeout(Some(limit));
    client.set_quiet(limit, NOISE);
    watch(rt, &mut client, task)
}

/// The same where each call, the line's falling silent before it too, ends by a deadline.
fn watch_deadline(rt: &HostRuntime, link: Port, task: &Watched) -> io::Result<()> {
    let limit = Duration::from_millis(task.millis);
    let line = DeadlineLine::new(rt, link, Some(limit));
    let mut client = SerialClient::new(rt.alloc(), line, UNIT, silence());
    client.set_timeout(Some(limit));
    let mut client = DeadlineClient::new(client);
    watch(rt, &mut client, task)?;
    if let Some(reason) = client.client().unsettled() {
        eprintln!(rt; "modbus_bench: the line did not settle: {reason:?}")?;
    }
    Ok(())
}

/// The same in the ASCII mode.
fn watch_ascii(rt: &HostRuntime, link: Port, task: &Watched) -> io::Result<()> {
    let limit = Duration::from_millis(task.millis);
    let mut client = modbus_ascii_client::SerialClient::new(rt.alloc(), link, UNIT, silence());
    client.set_timeout(Some(limit));
    client.set_quiet(limit, NOISE);
    watch(rt, &mut client, task)
}

/// Reads the registers of a device on the serial line of a terminal.
fn watch_line(rt: &HostRuntime, mode: Mode, terminal: &str, task: &Watched) -> io::Result<()> {
    let link = open_port(rt, terminal)?;
    match mode {
        Mode::Rtu => watch_rtu(rt, link, task),
        Mode::Echoed => watch_echoed(rt, link, task),
        Mode::Deadline => watch_deadline(rt, link, task),
        Mode::Ascii => watch_ascii(rt, link, task),
    }
}

/// Reads the registers of a device behind an address, in the form that was asked for.
fn watch_peer(rt: &HostRuntime, form: Form, address: SocketAddr, task: &Watched) -> io::Result<()> {
    let mut connector = TcpConnector::new(rt);
    let limit = Some(Duration::from_millis(task.millis));
    match form {
        Form::Tcp => {
            let mut client = TcpClient::new(rt.alloc(), connector, address, UNIT);
            client.set_timeout(limit);
            client.set_retries(task.retries, Resend::Reads);
            watch(rt, &mut client, task)
        }
        Form::Patient => {
            let mut client = TcpClient::new(rt.alloc(), connector, address, UNIT);
            client.set_timeout(limit);
            client.set_retries(task.retries, Resend::Reads);
            client.set_patience(PATIENCE);
            watch(rt, &mut client, task)
        }
        Form::Rtu => {
            let connector = WatchedConnector::new(rt);
            let mut client = RtuOverTcpClient::new(rt.alloc(), connector, address, UNIT);
            client.set_timeout(limit);
            client.set_retries(task.retries, Resend::Reads);
            watch(rt, &mut client, task)
        }
        Form::OnceTcp => match connector.connect(address, limit) {
            Ok(link) => {
                let mut client = tcp::attach_slave(rt.alloc(), link, UNIT);
                client.set_timeout(limit);
                watch(rt, &mut client, task)
            }
            Err(Failed) => Ok(()),
        },
        Form::OnceRtu => match connector.connect(address, limit) {
            Ok(link) => {
                let mut client = rtu::attach_slave(rt.alloc(), link, UNIT);
                client.set_timeout(limit);
                watch(rt, &mut client, task)
            }
            Err(Failed) => Ok(()),
        },
    }
}

/// Reads the registers of a device where it is. Where one link can't be made nothing is read.
pub fn watch_device(rt: &HostRuntime, task: Watched) -> io::Result<()> {
    match &task.device {
        Device::Peer(form, address) => watch_peer(rt, *form, *address, &task),
        Device::Line(mode, terminal) => watch_line(rt, *mode, terminal.as_str(), &task),
    }
}
