//! A PDU that the caller holds, written as the message that carries it. It takes no memory.
ghost use Rattle.std.specs.Prelude.{◌≡◌, ◌≢◌, ◌+◌, ◌<◌, ◌≤◌, ◌⊎◌, ◌∷◌, length, take};
ghost use Rattle.modbus_pdu.specs.Limits.{max_pdu};
ghost use Rattle.modbus_rtu.specs.Frame.{frame};
ghost use Rattle.modbus_rtu.specs.Limits.{overhead};
ghost use Rattle.modbus_tcp.specs.Adu.{adu_of};
ghost use Rattle.modbus_tcp.specs.Limits.{mbap_header};
ghost use Rattle.modbus_c.specs.Layout.{laid, checksum_bytes};

use crate::put::{put_at, put_front};
use crate::status::{MODBUS_DONE, MODBUS_NO_ROOM, MODBUS_TOO_LONG, ModbusDone, nothing};
use modbus_pdu::MAX_PDU;
use modbus_rtu::calc_crc;

/// The bytes of an MBAP header.
const HEADER: usize = 7;

/// The bytes of a frame besides its PDU.
const OVERHEAD: usize = 3;

/// Writes the ADU of a PDU for which there is room.
#[tactic(auto, using(crate::proofs::Laying::laid_more), unfolding(modbus_tcp::specs::Adu::adu_of))]
fn put_adu(transaction_id: u16, unit_id: u8, pdu: &[u8], output: &mut [u8])
    requires fits { length pdu.now ≤ max_pdu }
    requires room { mbap_header + length pdu.now ≤ length output.old }
    ensures { output.new
        ≡ laid (adu_of (record { transaction_id = transaction_id; unit_id = unit_id }) pdu.now)
        output.old }
{
    let [t0, t1] = transaction_id.to_be_bytes();
    let [l0, l1] = ((pdu.len() + 1) as u16).to_be_bytes();
    put_front(&[t0, t1, 0, 0, l0, l1, unit_id], output);
    put_at(HEADER, pdu, output);
}

/// Writes the ADU of a PDU to the front of the output (MODBUS Messaging on TCP/IP V1.0b, section 3.1.3).
///
/// `MODBUS_DONE`, and it has `written` bytes; `MODBUS_TOO_LONG` where the PDU has more than 253; `MODBUS_NO_ROOM`. Where it is not done,
/// nothing is written.
#[unsafe(no_mangle)]
#[tactic(auto, unfolding(modbus_tcp::specs::Adu::adu_of))]
pub extern "C" fn modbus_tcp_wrap(
    transaction_id: u16,
    unit_id: u8,
    pdu: &[u8],
    output: &mut [u8],
) -> ModbusDone
    ensures done { result.status ≡ MODBUS_DONE → (output.new
        ≡ laid (adu_of (record { transaction_id = transaction_id; unit_id = unit_id }) pdu.now)
        output.old) × (result.written ≡ mbap_header + length pdu.now) }
    ensures long { result.status ≡ MODBUS_TOO_LONG → max_pdu < length pdu.now }
    ensures room { result.status ≡ MODBUS_NO_ROOM
        → length output.old < mbap_header + length pdu.now }
    ensures kept { result.status ≢ MODBUS_DONE → (output.new ≡ output.old) × (result.written ≡ 0) }
    ensures status { (result.status ≡ MODBUS_DONE) ⊎ (result.status ≡ MODBUS_TOO_LONG)
        ⊎ (result.status ≡ MODBUS_NO_ROOM) }
{
    if pdu.len() > MAX_PDU {
        return nothing(MODBUS_TOO_LONG, 0);
    }
    let written = HEADER + pdu.len();
    if output.len() < written {
        return nothing(MODBUS_NO_ROOM, 0);
    }
    put_adu(transaction_id, unit_id, pdu, output);
    ModbusDone {
        status: MODBUS_DONE,
        detail: 0,
        written,
    }
}

/// Writes a slave address and a PDU for which there is room.
#[tactic(auto, using(crate::proofs::Laying::laid_more))]
fn put_body(slave: u8, pdu: &[u8], output: &mut [u8])
    requires { 1 + length pdu.now ≤ length output.old }
    ensures { output.new ≡ laid (slave ∷ pdu.now) output.old }
{
    put_front(&[slave], output);
    put_at(1, pdu, output);
}

/// The checksum of the first bytes, its low byte first.
fn checksum_of(output: &[u8], end: usize) -> [u8; 2]
    requires { end ≤ length output.now }
    ensures { result ≡ checksum_bytes (take end output.now) }
{
    calc_crc(&output[..end]).to_le_bytes()
}

/// Writes the frame of a PDU for which there is room.
#[tactic(auto, using(crate::proofs::Laying::framed))]
fn put_frame(slave: u8, pdu: &[u8], output: &mut [u8])
    requires fits { length pdu.now ≤ max_pdu }
    requires room { length pdu.now + overhead ≤ length output.old }
    ensures { output.new ≡ laid (frame slave pdu.now) output.old }
{
    put_body(slave, pdu, output);
    let end = 1 + pdu.len();
    let sum = checksum_of(output, end);
    put_at(end, &sum, output);
}

/// Writes the frame of a PDU to the front of the output (MODBUS over Serial Line V1.02, section 2.5.1).
///
/// `MODBUS_DONE`, and it has `written` bytes; `MODBUS_TOO_LONG` where the PDU has more than 253; `MODBUS_NO_ROOM`. Where it is not done,
/// nothing is written.
#[unsafe(no_mangle)]
pub extern "C" fn modbus_rtu_wrap(slave: u8, pdu: &[u8], output: &mut [u8]) -> ModbusDone
    ensures done { result.status ≡ MODBUS_DONE → (output.new ≡ laid (frame slave pdu.now)
        output.old) × (result.written ≡ length pdu.now + overhead) }
    ensures long { result.status ≡ MODBUS_TOO_LONG → max_pdu < length pdu.now }
    ensures room { result.status ≡ MODBUS_NO_ROOM
        → length output.old < length pdu.now + overhead }
    ensures kept { result.status ≢ MODBUS_DONE → (output.new ≡ output.old) × (result.written ≡ 0) }
    ensures status { (result.status ≡ MODBUS_DONE) ⊎ (result.status ≡ MODBUS_TOO_LONG)
        ⊎ (result.status ≡ MODBUS_NO_ROOM) }
{
    if pdu.len() > MAX_PDU {
        return nothing(MODBUS_TOO_LONG, 0);
    }
    let written = pdu.len() + OVERHEAD;
    if output.len() < written {
        return nothing(MODBUS_NO_ROOM, 0);
    }
    put_frame(slave, pdu, output);
    ModbusDone {
        status: MODBUS_DONE,
        detail: 0,
        written,
    }
}
