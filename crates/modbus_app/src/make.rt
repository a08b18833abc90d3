//! Requests that are made from a number, served over memory, and the summary of their replies.
ghost use Rattle.std.specs.Prelude.{◌≡◌, ◌+◌, ◌*◌, ◌<◌, ◌≤◌, ◌^◌, ◌++◌, [], sum, length, IfOk, OnOk};
ghost use Rattle.arrayvec.specs.ArrayString.{array_string_len};
ghost use Rattle.modbus_frame.specs.Meaning.{meaning};
ghost use Rattle.modbus_link.specs.Memory.{source_at_start};
ghost use Rattle.modbus_pdu.specs.RequestPdu.{request_pdu};
ghost use Rattle.modbus_rtu.specs.Frame.{frame};
ghost use Rattle.modbus_app.specs.Words.{most_requests};
ghost use Rattle.modbus_app.specs.Make.{next_number, request_by, line_made, made_slave, replies_made, summary_of, SumsUp};

use crate::device::open;
use crate::words::{DEFAULT_SIZE, Form, Mode};
use arrayvec::ArrayString;
use bytes::BytesMut;
use itoa::Buffer;
use modbus_frame::{EncodeError, Request, RequestPdu, SlaveId, rtu};
use modbus_link::{MemorySink, MemorySource, Sink, write_all};
use modbus_rtu::{ClientCodec, MAX_FRAME};
use modbus_server::{ProcessError, rtu_over_tcp};
use std::alloc::{AllocError, Global};

/// The slave that all requests are for.
const SLAVE: SlaveId = 1;

/// The bytes of a request's frame.
const REQUEST_SIZE: usize = 8;

/// The device that answers: that of the word `rtu`.
const DEVICE: Form = Form {
    mode: Mode::Rtu,
    size: DEFAULT_SIZE,
    seeded: false,
};

/// How many bytes are summed at a time in a `u32`, which takes half the instructions that it takes in a `u64`.
const PIECE: usize = 65_536;

/// The length of the longest summary.
const SUMMARY: usize = 80;

/// The number after this one, of a generator that is the same on each machine.
fn next_number(x: u32) -> u32
    ensures { result ≡ next_number x }
{
    ((u64::from(x) * 1_103_515_245 + 12_345) % 0x8000_0000) as u32
}

/// The request that a number makes.
#[tactic(auto, unfolding(crate::specs::Make::request_by))]
fn request_by(x: u32) -> Request<'static>
    ensures { meaning result ≡ request_by x }
{
    let address = (x / 64 % 1000) as u16;
    let count = (1 + x % 16) as u16;
    match x / 65_536 % 4 {
        0 => Request::ReadHoldingRegisters(address, count),
        1 => Request::WriteSingleRegister(address, (x % 65_536) as u16),
        2 => Request::ReadCoils(address, count),
        _ => Request::WriteSingleCoil(address, x % 2 == 1),
    }
}

/// Appends the frame of the request that a number makes.
fn push_frame(
    alloc: Global,
    codec: &mut ClientCodec,
    x: u32,
    frames: &mut BytesMut,
) -> Result<(), AllocError>
    ensures { OnOk result (frames.new.items
        ≡ frames.old.items ++ frame made_slave (request_pdu (request_by x))) }
{
    modbus_pdu::requests_have_sizes();
    let request = rtu::RequestAdu {
        hdr: rtu::Header { slave_id: SLAVE },
        pdu: RequestPdu(request_by(x)),
    };
    match codec.encode(alloc, request, frames) {
        Ok(()) => Ok(()),
        Err(EncodeError::NoMemory) => Err(AllocError),
        Err(EncodeError::TooLong(_)) => unreachable!(),
    }
}

/// The frames of so many requests.
fn frames(alloc: Global, count: u32) -> Result<BytesMut, AllocError>
    requires { count ≤ most_requests }
    ensures { IfOk result (λ frames. frames.items ≡ line_made count) }
{
    let mut frames = BytesMut::with_capacity(alloc, REQUEST_SIZE * count as usize)?;
    let mut codec = ClientCodec::new();
    let mut x = 1;
    for _made in 0..count {
        x = next_number(x);
        push_frame(alloc, &mut codec, x, &mut frames)?;
    }
    Ok(frames)
}

/// A source that gives them, in as long pieces as are asked for.
fn open_source(alloc: Global, count: u32) -> Result<MemorySource, AllocError>
    requires { count ≤ most_requests }
    ensures { IfOk result (λ source. source ≡ source_at_start (line_made count) [] []) }
{
    let frames = frames(alloc, count)?;
    MemorySource::new(alloc, frames.as_slice(), &[], &[])
}

/// Of what a server tells, memory alone can be wanting over such a line.
// Kept out of the loop that serves, as every error is.
#[cold]
#[inline(never)]
fn want_of_memory(error: ProcessError) -> AllocError
    requires { error ≡ ProcessError.NoMemory }
{
    match error {
        ProcessError::NoMemory => AllocError,
        _ => unreachable!(),
    }
}

/// Serves so many requests, and gives the sink of the replies.
fn serve_made(alloc: Global, count: u32) -> Result<MemorySink, AllocError>
    requires { count ≤ most_requests }
    ensures replies { IfOk result (λ sink. sink.bytes ≡ replies_made count) }
    ensures short { IfOk result (λ sink. length sink.bytes ≤ 256 * count) }
{
    modbus_pdu::requests_have_sizes();
    modbus_pdu::requests_read_back();
    modbus_rtu::laws::request_frames();
    modbus_rtu::laws::one_reading();
    modbus_rtu::laws::frames_stay();
    modbus_rtu::laws::quiet_lines();
    modbus_store::laws::answers_fit();
    let mut source = open_source(alloc, count)?;
    let room = MAX_FRAME * count as usize + 1;
    let mut sink = MemorySink::new(alloc, room, room, &[])?;
    let Ok(mut store) = open(alloc, DEVICE) else {
        return Err(AllocError);
    };
    match rtu_over_tcp::process(alloc, &mut source, &mut sink, &mut store, u64::MAX) {
        Ok(()) => Ok(sink),
        Err(error) => Err(want_of_memory(error)),
    }
}

/// The sum of a piece, which a `u32` holds.
fn sum_of_piece(piece: &[u8]) -> u32
    requires { length piece.now ≤ 2 ^ 24 }
    ensures { result ≡ sum piece.now }
{
    piece.iter().map(|byte| u32::from(*byte)).sum()
}

/// The sum of some bytes.
fn sum_of(bytes: &[u8]) -> u64
    requires { length bytes.now ≤ 2 ^ 32 }
    ensures { result ≡ sum bytes.now }
{
    let mut sum = 0;
    let mut rest = bytes;
    while !rest.is_empty() {
        let (piece, more) = rest.split_at(rest.len().min(PIECE));
        sum += u64::from(sum_of_piece(piece));
        rest = more;
    }
    sum
}

/// Appends a text for which there is room.
fn push(text: &mut ArrayString<SUMMARY>, more: &str)
    requires { array_string_len text.old + length more.now ≤ 80 }
    ensures { text.new.bytes ≡ text.old.bytes ++ more.now }
{
    match text.try_push_str(more) {
        Ok(()) => {}
        Err(_) => unreachable!(),
    }
}

/// How many requests were made, how many bytes their replies have, and the sum of these bytes, each on a line.
fn summary(count: u32, bytes: usize, sum: u64) -> ArrayString<SUMMARY>
    ensures { result.bytes ≡ summary_of count bytes sum }
{
    let mut digits = Buffer::new();
    let mut text = ArrayString::new();
    push(&mut text, "requests ");
    push(&mut text, digits.format(count));
    push(&mut text, "\nbytes ");
    push(&mut text, digits.format(bytes));
    push(&mut text, "\nsum ");
    push(&mut text, digits.format(sum));
    push(&mut text, "\n");
    text
}

/// Makes so many requests, serves them with a device of its own, and appends the summary of the replies to a sink.
///
/// # Errors
/// `WriteFault`, only where the sink's count of faults rose; a front of the summary was then appended. `NoMemory` where memory was
/// refused; nothing was appended.
pub fn make<K: Sink>(alloc: Global, count: u32, sink: &mut K) -> Result<(), ProcessError>
    requires { count ≤ most_requests }
    ensures { SumsUp count (K.output sink.old) (K.output sink.new) result }
{
    let Ok(served) = serve_made(alloc, count) else {
        return Err(ProcessError::NoMemory);
    };
    let replies = served.bytes();
    let text = summary(count, replies.len(), sum_of(replies));
    match write_all(sink, text.as_bytes()) {
        Ok(()) => Ok(()),
        Err(_) => Err(ProcessError::WriteFault),
    }
}
