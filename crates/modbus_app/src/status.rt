//! The statuses of the program, and the lines that tell them.
ghost use Rattle.std.specs.Prelude.{◌≡◌, ◌≢◌, ℕ, ◌+◌, ◌≤◌, ◌++◌, length, Some};
ghost use Rattle.arrayvec.specs.ArrayString.{array_string_len};
ghost use Rattle.modbus_server.specs.declared.error.ProcessError.TheVariants.{ResponseTooLong, InvalidProtocol};
ghost use Rattle.modbus_port.specs.Reports.{Reports};
ghost use Rattle.modbus_app.specs.Status.{status_of, line_of, listener_status_of, listener_line_of};

use arrayvec::ArrayString;
use itoa::Buffer;
use modbus_frame::Reason;
use modbus_link::Sink;
use modbus_port::report;
use modbus_server::{ProcessError, ServeError};
use modbus_store::PassesOut;

/// The name of the program.
pub const PROGRAM: &str = "modbus";

/// The status of a usage fault.
pub const USAGE: u8 = 2;

/// The status where memory was refused.
pub const NO_MEMORY: u8 = 11;

/// The status of a listener whose acceptor failed.
pub const ACCEPT_FAULT: u8 = 12;

/// The status of a listener whose spawner failed.
pub const SPAWN_FAULT: u8 = 13;

/// The status of a listener whose store has no number left for another pass.
pub const PASSES_OUT: u8 = 14;

/// The status of a program that the system refuses a listener.
pub const BIND_FAULT: u8 = 15;

/// The line of a program that the system refuses a listener.
pub const BIND_LINE: &str = "modbus: bind fault\n";

/// The status of a gateway that reaches no line.
pub const CONNECT_FAULT: u8 = 16;

/// The line of a gateway that reaches no line.
pub const CONNECT_LINE: &str = "modbus: connect fault\n";

/// The line of a usage fault.
pub const USAGE_LINE: &str =
    "modbus: usage: rtu [size [seeded]] | tcp [size] | make n | listen-rtu port | listen-tcp port | gateway port | ascii [size] | plan [address:width ..]\n";

/// The length of the longest line of another protocol.
const PROTOCOL_LINE: usize = 31;

/// The status of a fault. A response that is too long has none.
pub fn status(error: ProcessError) -> u8
    requires { (size : ℕ) → error ≢ ResponseTooLong size }
    ensures value { status_of error ≡ Some result }
    ensures fault { result ≢ 0 }
    ensures not_usage { result ≢ 2 }
{
    match error {
        ProcessError::ReadFault => 3,
        ProcessError::WriteFault => 4,
        ProcessError::TooManyRetries => 5,
        ProcessError::BytesRemaining => 6,
        ProcessError::InvalidRequest(_) => 7,
        ProcessError::TurnLimit => 8,
        ProcessError::InvalidLength => 9,
        ProcessError::InvalidProtocol(_) => 10,
        ProcessError::NoMemory => NO_MEMORY,
        ProcessError::ResponseTooLong(_) => unreachable!(),
    }
}

/// The line of a request that is refused.
fn refusal_line(reason: Reason) -> &'static str
    ensures { result.now ≡ line_of (ProcessError.InvalidRequest reason) }
{
    match reason {
        Reason::UnexpectedEnd => "modbus: invalid request: unexpected end\n",
        Reason::SizeExceeded => "modbus: invalid request: size exceeded\n",
        Reason::TooShort => "modbus: invalid request: too short\n",
        Reason::InvalidQuantity => "modbus: invalid request: invalid quantity\n",
        Reason::InvalidCoil(_) => "modbus: invalid request: invalid coil value\n",
        Reason::UnsupportedMei(_) => "modbus: invalid request: unsupported MEI type\n",
        Reason::InvalidReadCode(_) => "modbus: invalid request: invalid read code\n",
        Reason::InvalidConformity(_) => "modbus: invalid request: invalid conformity level\n",
        Reason::InvalidRunStatus(_) => "modbus: invalid request: invalid run status\n",
        Reason::InvalidObjectLength => "modbus: invalid request: invalid object length\n",
        Reason::InvalidFunction(_) => "modbus: invalid request: invalid function\n",
        Reason::UndecodedData => "modbus: invalid request: undecoded data\n",
    }
}

/// Appends a text for which there is room.
fn push(line: &mut ArrayString<PROTOCOL_LINE>, text: &str)
    requires { array_string_len line.old + length text.now ≤ 31 }
    ensures { line.new.bytes ≡ line.old.bytes ++ text.now }
{
    match line.try_push_str(text) {
        Ok(()) => {}
        Err(_) => unreachable!(),
    }
}

/// The line of an ADU of another protocol.
fn protocol_line(protocol: u16) -> ArrayString<PROTOCOL_LINE>
    ensures { result.bytes ≡ line_of (InvalidProtocol protocol) }
{
    let mut digits = Buffer::new();
    let mut line = ArrayString::new();
    push(&mut line, "modbus: invalid protocol ");
    push(&mut line, digits.format(protocol));
    push(&mut line, "\n");
    line
}

/// The line of a fault whose text is always the same.
fn line(error: ProcessError) -> &'static str
    requires { (protocol : ℕ) → error ≢ InvalidProtocol protocol }
    ensures { result.now ≡ line_of error }
{
    match error {
        ProcessError::ReadFault => "modbus: read fault\n",
        ProcessError::WriteFault => "modbus: write fault\n",
        ProcessError::TooManyRetries => "modbus: too many retries\n",
        ProcessError::BytesRemaining => "modbus: bytes remaining\n",
        ProcessError::InvalidRequest(reason) => refusal_line(reason),
        ProcessError::TurnLimit => "modbus: turn limit\n",
        ProcessError::InvalidLength => "modbus: invalid length\n",
        ProcessError::InvalidProtocol(_) => unreachable!(),
        ProcessError::NoMemory => "modbus: no memory\n",
        ProcessError::ResponseTooLong(_) => "",
    }
}

/// The status of a listener that does not go on.
pub fn listener_status(error: ServeError<PassesOut>) -> u8
    ensures { result ≡ listener_status_of error }
{
    match error {
        ServeError::AcceptFault => ACCEPT_FAULT,
        ServeError::SpawnFault => SPAWN_FAULT,
        ServeError::Connect(_) => PASSES_OUT,
        ServeError::NoMemory => NO_MEMORY,
    }
}

/// The line of a listener that does not go on.
pub fn listener_line(error: ServeError<PassesOut>) -> &'static str
    ensures { result.now ≡ listener_line_of error }
{
    match error {
        ServeError::AcceptFault => "modbus: accept fault\n",
        ServeError::SpawnFault => "modbus: spawn fault\n",
        ServeError::Connect(_) => "modbus: passes out\n",
        ServeError::NoMemory => line(ProcessError::NoMemory),
    }
}

/// Writes the line of a fault, as far as the sink takes it.
pub fn report_fault<E: Sink>(errors: &mut E, error: ProcessError)
    ensures { Reports (E.output errors.old) (E.output errors.new) (line_of error) }
{
    match error {
        ProcessError::InvalidProtocol(protocol) => report(errors, protocol_line(protocol).as_str()),
        other => report(errors, line(other)),
    }
}
