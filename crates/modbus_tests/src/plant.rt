//! Words that name a host, and points of a device in memory.
ghost use Rattle.std.specs.Prelude.{⊤};

use crate::check::check;
use modbus_client::Client;
use modbus_frame::{
    Error, ExceptionCode, Request, Response, Result as Answer, ShutdownFault, Slave, SlaveContext,
    Word, Words,
};
use modbus_map::{ByteOrder, Encoding, Kind, Point, Scale, Table, WriteError, shown};
use modbus_plant::{
    LinkedClient, PointWriteError, ReadBackError, SttyCommand, VerifiedWriteError, host_and_port,
    write_point, write_verified,
};
use std::alloc::Global;
use std::test::Fail;
use std::time::Duration;

/// A device of one register, which keeps what is written, or does not.
#[derive(Drop)]
struct Device {
    word: Word,
    is_stuck: bool,
    slave: Slave,
    timeout: Option<Duration>,
    alloc: Global,
}

impl Device {
    fn read(&self) -> Answer<Response> {
        match Vec::from_array(self.alloc, [self.word]) {
            Ok(words) => Ok(Ok(Response::ReadHoldingRegisters(Words::new(words)))),
            Err(_) => Err(Error::NoMemory),
        }
    }
}

impl SlaveContext for Device {
    ghost selected = { λ it. it.slave.0 };

    fn set_slave(&mut self, slave: Slave) {
        self.slave = slave;
    }
}

impl Client for Device {
    ghost answers = { λ _ _ _ _. ⊤ };

    ghost disconnects = { λ _ _ _. ⊤ };

    ghost time_limit = { λ it. it.timeout };

    ghost limits = { λ _ _ _. ⊤ };

    fn call(&mut self, request: Request<'_>) -> Answer<Response> {
        match request {
            Request::WriteSingleRegister(address, word) => {
                if !self.is_stuck {
                    self.word = word;
                }
                Ok(Ok(Response::WriteSingleRegister(address, word)))
            }
            Request::ReadHoldingRegisters(_, _) => self.read(),
            _ => Ok(Err(ExceptionCode::IllegalFunction)),
        }
    }

    fn disconnect(&mut self) -> Result<(), ShutdownFault> {
        Ok(())
    }

    fn timeout(&self) -> Option<Duration> {
        self.timeout
    }

    fn set_timeout(&mut self, duration: Option<Duration>) {
        self.timeout = duration;
    }
}

/// A client of a device, by the type of a link.
type Linked = LinkedClient<Device, Device, Device, Device>;

fn linked(alloc: Global, is_stuck: bool) -> Linked {
    LinkedClient::Serial(Device {
        word: 0,
        is_stuck,
        slave: Slave(1),
        timeout: None,
        alloc,
    })
}

/// Tenths of a degree.
fn tenths() -> Result<Encoding, Fail> {
    Ok(Encoding {
        kind: Kind::I16,
        order: ByteOrder::Abcd,
        scale: Scale::new("0.1".parse()?, "0".parse()?)?,
    })
}

/// A temperature in tenths of a degree, which may be written or not.
fn temperature(alloc: Global, is_writable: bool) -> Result<Point, Fail> {
    let encoding = tenths()?;
    Ok(Point {
        name: String::from_str(alloc, "temperature")?,
        table: Table::HoldingRegisters,
        address: 100,
        encoding,
        unit: String::new(alloc),
        is_writable,
    })
}

/// The word of the device, whatever the link.
fn word_of(client: &Linked) -> Word {
    match client {
        LinkedClient::Tcp(device)
        | LinkedClient::RtuOverTcp(device)
        | LinkedClient::Serial(device)
        | LinkedClient::Echoed(device) => device.word,
    }
}

/// Whether the device confirmed a text, and has this word then.
fn writes(alloc: Global, client: &mut Linked, point: &Point, text: &str, word: Word) -> bool {
    let is_written = write_point(alloc, client, point, text).is_ok();
    is_written && word_of(client) == word
}

/// Whether the device confirmed a text, gave it back, and has this word then.
fn verifies(alloc: Global, client: &mut Linked, point: &Point, text: &str, word: Word) -> bool {
    let is_held = write_verified(alloc, client, point, text).is_ok();
    is_held && word_of(client) == word
}

#[test]
fn a_point_is_written_and_read_back(rt: HostRuntime) -> Result<(), Fail> {
    let alloc = rt.alloc();
    let point = temperature(alloc, true)?;
    let mut client = linked(alloc, false);
    check(
        &rt,
        verifies(alloc, &mut client, &point, "-1.5", 0xFFF1),
        true,
    );
    check(&rt, writes(alloc, &mut client, &point, "21.5", 215), true);
    Ok(())
}

/// Why a text is not to be written at a point.
fn refusal_of(alloc: Global, client: &mut Linked, point: &Point, text: &str) -> Option<WriteError> {
    match write_point(alloc, client, point, text) {
        Err(PointWriteError::Refused(error)) => Some(error),
        _ => None,
    }
}

/// Whether a text is refused so, and the device is as it was.
fn refuses(alloc: Global, point: &Point, text: &str, error: WriteError) -> bool {
    let mut client = linked(alloc, false);
    let told = refusal_of(alloc, &mut client, point, text);
    told == Some(error) && word_of(&client) == 0
}

#[test]
fn what_is_not_to_be_written_is_not_sent(rt: HostRuntime) -> Result<(), Fail> {
    let alloc = rt.alloc();
    let point = temperature(alloc, true)?;
    check(
        &rt,
        refuses(alloc, &point, "0.05", WriteError::OffGrid),
        true,
    );
    check(
        &rt,
        refuses(alloc, &point, "3276.8", WriteError::OutOfRange),
        true,
    );
    check(
        &rt,
        refuses(alloc, &point, "warm", WriteError::NotOfKind),
        true,
    );
    Ok(())
}

#[test]
fn what_may_not_be_written_is_not_sent(rt: HostRuntime) -> Result<(), Fail> {
    let alloc = rt.alloc();
    let point = temperature(alloc, false)?;
    check(
        &rt,
        refuses(alloc, &point, "21.5", WriteError::NotWritable),
        true,
    );
    Ok(())
}

/// What a device that keeps nothing is told of a write that is read back.
fn answer_of_stuck(alloc: Global, point: &Point) -> Result<(), VerifiedWriteError> {
    let mut client = linked(alloc, true);
    write_verified(alloc, &mut client, point, "21.5")
}

/// The text of the other value that was read back.
fn other_text(alloc: Global, answer: &Result<(), VerifiedWriteError>) -> Result<String, Fail> {
    match answer {
        Err(VerifiedWriteError::ReadBack(ReadBackError::Differs(value))) => {
            Ok(shown(alloc, value)?)
        }
        _ => Err(Fail::from("nothing differs")),
    }
}

/// The text of the value that a device which keeps nothing has behind a write.
fn text_of_stuck(alloc: Global, point: &Point) -> Result<String, Fail> {
    let answer = answer_of_stuck(alloc, point);
    other_text(alloc, &answer)
}

#[test]
fn a_value_that_is_not_kept_is_told(rt: HostRuntime) -> Result<(), Fail> {
    let alloc = rt.alloc();
    let point = temperature(alloc, true)?;
    let text = text_of_stuck(alloc, &point)?;
    check(&rt, text.as_str(), "0.0");
    Ok(())
}

/// Whether a word names this host and this port.
fn names(word: &str, host: &str, port: u16) -> bool {
    host_and_port(word) == Some((host, port))
}

#[test]
fn hosts_have_ports(rt: HostRuntime) {
    let named = [
        ("192.0.2.1:1502", "192.0.2.1", 1502),
        ("192.0.2.1", "192.0.2.1", 502),
        ("meter.example", "meter.example", 502),
        ("meter.example:65535", "meter.example", 65535),
        ("[2001:db8::1]:1502", "2001:db8::1", 1502),
        ("[2001:db8::1]", "2001:db8::1", 502),
    ];
    for (word, host, port) in named.iter() {
        check(&rt, names(word, host, *port), true);
    }
}

#[test]
fn words_without_a_host_or_a_port_name_none(rt: HostRuntime) {
    let unnamed = [
        "",
        ":502",
        "host:",
        "host:65536",
        "host:x",
        "2001:db8::1",
        "[::1",
        "[::1]502",
        "[]:502",
    ];
    for word in unnamed.iter() {
        check(&rt, host_and_port(word).is_none(), true);
    }
}

#[test]
fn a_serial_port_has_its_command(rt: HostRuntime) -> Result<(), Fail> {
    let command = SttyCommand {
        path: "/dev/ttyUSB0",
        baud: 9600,
    };
    let text = format!(in rt.alloc(); "{command}")?;
    check(
        &rt,
        text.as_str(),
        "stty -F /dev/ttyUSB0 raw -echo clocal 9600",
    );
    Ok(())
}
