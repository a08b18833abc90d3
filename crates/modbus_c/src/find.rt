//! Where the next message stands in bytes that the caller holds.
ghost use Rattle.std.specs.Prelude.{◌≡◌, Result};
ghost use Rattle.modbus_rtu.specs.declared.search.Next.{Next as Found};
ghost use Rattle.modbus_rtu.specs.Checksum.{crc};
ghost use Rattle.modbus_rtu.specs.Frame.{judged_by};
ghost use Rattle.modbus_rtu.specs.Limits.{max_frame, longest_identification};
ghost use Rattle.modbus_rtu.specs.Next.{IsNext, IsNextBy, IsWithin};
ghost use Rattle.modbus_rtu.specs.ResponseHead.{response_head};
ghost use Rattle.modbus_frame.specs.declared.front.Front.{Front as AtFront};
ghost use Rattle.modbus_frame.specs.declared.tcp.Header.{Header as TcpHeader};
ghost use Rattle.modbus_tcp.specs.declared.stream.HeaderFault.{HeaderFault as BadHeader};
ghost use Rattle.modbus_tcp.specs.Decoder.{FindsAdu};
ghost use Rattle.modbus_c.specs.Found.{flat_next, flat_front, IsSmall};

use crate::status::{MODBUS_CROWD, MODBUS_DONE, MODBUS_FOREIGN, MODBUS_NO_LENGTH, MODBUS_WAITING};
use modbus_frame::{Front, tcp};
use modbus_rtu::{MAX_RETRIES, Next, ResponseRule, next_frame, next_frame_by};
use modbus_tcp::{HeaderFault, front};

/// What a search for a frame finds. `MODBUS_DONE`: a frame, whose slave address stands at `start`, whose PDU has `pdu_len` bytes from
/// `start + 1` on, and which ends at `used`. `MODBUS_WAITING`: none yet, and the first `used` bytes are of no use. `MODBUS_CROWD`: none
/// at the first twenty offsets, and these `used` bytes are of no use.
#[repr(C)]
#[derive(Clone, Copy)]
pub struct ModbusFrame {
    pub status: u32,
    pub start: usize,
    pub pdu_len: usize,
    pub used: usize,
}

/// What stands at the front of a stream of Modbus TCP. `MODBUS_DONE`: an ADU, whose PDU has `pdu_len` bytes from byte 7 on, and which
/// ends at `used`. `MODBUS_WAITING`: no whole ADU yet. `MODBUS_NO_LENGTH`: the header tells the length 0. `MODBUS_FOREIGN`: the ADU is of
/// another protocol, `protocol`.
#[repr(C)]
#[derive(Clone, Copy)]
pub struct ModbusAdu {
    pub status: u32,
    pub transaction_id: u16,
    pub protocol: u16,
    pub unit_id: u8,
    pub pdu_len: usize,
    pub used: usize,
}

/// The checksum of bytes, which a frame carries with its low byte first (MODBUS over Serial Line V1.02, section 6.2.2).
#[unsafe(no_mangle)]
pub extern "C" fn modbus_crc(bytes: &[u8]) -> u16
    ensures { result ≡ crc bytes.now }
{
    modbus_rtu::calc_crc(bytes)
}

fn frame_of(next: Next) -> ModbusFrame
    requires { IsSmall next }
    ensures { result ≡ flat_next next }
{
    match next {
        Next::Frame { start, pdu_len } => ModbusFrame {
            status: MODBUS_DONE,
            start,
            pdu_len,
            used: start + (pdu_len + 3),
        },
        Next::Waiting { dropped } => ModbusFrame {
            status: MODBUS_WAITING,
            start: 0,
            pdu_len: 0,
            used: dropped,
        },
        Next::TooManyRetries => ModbusFrame {
            status: MODBUS_CROWD,
            start: 0,
            pdu_len: 0,
            used: MAX_RETRIES,
        },
    }
}

/// The next frame of a request in the held bytes, as a server looks for it.
#[unsafe(no_mangle)]
pub extern "C" fn modbus_rtu_find_request(held: &[u8]) -> ModbusFrame
    ensures finds { (next : Found) × (result ≡ flat_next next) × IsNext held.now next
        × IsWithin max_frame held.now next }
{
    let next = next_frame(held);
    frame_of(next)
}

/// The next frame of a response in the held bytes, as a client looks for it.
#[unsafe(no_mangle)]
pub extern "C" fn modbus_rtu_find_response(held: &[u8]) -> ModbusFrame
    ensures finds { (next : Found) × (result ≡ flat_next next)
        × IsNextBy (judged_by response_head) held.now next
        × IsWithin longest_identification held.now next }
{
    let next = next_frame_by(&ResponseRule, held);
    frame_of(next)
}

fn adu_at(found: Result<Front<'_, tcp::Header>, HeaderFault>) -> ModbusAdu
    ensures { result ≡ flat_front found.entry }
{
    let none = ModbusAdu {
        status: MODBUS_WAITING,
        transaction_id: 0,
        protocol: 0,
        unit_id: 0,
        pdu_len: 0,
        used: 0,
    };
    match found {
        Ok(Front::Message { header, pdu, end }) => ModbusAdu {
            status: MODBUS_DONE,
            transaction_id: header.transaction_id,
            protocol: 0,
            unit_id: header.unit_id,
            pdu_len: pdu.len(),
            used: end,
        },
        Ok(Front::Waiting { .. }) => none,
        Err(HeaderFault::InvalidLength) => ModbusAdu {
            status: MODBUS_NO_LENGTH,
            ..none
        },
        Err(HeaderFault::InvalidProtocol(protocol)) => ModbusAdu {
            status: MODBUS_FOREIGN,
            protocol,
            ..none
        },
    }
}

/// The ADU at the front of the held bytes, of a request or a response.
#[unsafe(no_mangle)]
pub extern "C" fn modbus_tcp_find(held: &[u8]) -> ModbusAdu
    ensures { (found : Result (AtFront TcpHeader) BadHeader) × (result ≡ flat_front found)
        × FindsAdu held.now found }
{
    adu_at(front(held))
}
