//! Coils as words, and packed eight a byte (V1.1b3, sections 6.1, 6.5 and 6.11).
ghost use Rattle.std.specs.Prelude.{◌≡◌, ◌+◌, ◌*◌, ◌≤◌, ◌++◌, ◌∷◌, [], length, slice_index_or, false, OnErr, OnOk, IfOk};
ghost use Rattle.bytes.specs.Filled.{UsesSpare};
ghost use Rattle.modbus_pdu.specs.Fields.{bits_at, coil_of, coil_word, coils_of, packed_bytes, packed_size};

use bytes::BytesMut;
use modbus_frame::{Coil, Coils, Reason};
use std::alloc::{AllocError, Global};

const ON: u16 = 0xFF00;

const OFF: u16 = 0x0000;

/// The word that stands for a coil's state in a write of one coil: 0xFF00 for on, 0x0000 for off
/// (V1.1b3, section 6.5).
#[inline]
pub fn bool_to_coil(state: bool) -> u16
    ensures { result ≡ coil_word state }
{
    if state { ON } else { OFF }
}

/// The coil's state that a word stands for (V1.1b3, section 6.5).
///
/// `InvalidCoil` holds a word that is neither 0xFF00 nor 0x0000.
#[inline]
pub fn coil_to_bool(coil: u16) -> Result<bool, Reason>
    ensures { result ≡ coil_of coil }
{
    match coil {
        ON => Ok(true),
        OFF => Ok(false),
        _ => Err(Reason::InvalidCoil(coil)),
    }
}

/// How many bytes the coils take when they are packed, eight a byte (V1.1b3, section 6.11).
#[inline]
pub fn packed_coils_size(coils: &[Coil]) -> usize
    ensures { result ≡ packed_size (length coils.now) }
{
    coils.len().div_ceil(8)
}

/// The first `count` coils of packed bytes, where coil i is bit `i % 8` of byte `i / 8`
/// (V1.1b3, section 6.1).
///
/// Further bits and bytes are ignored. The one error is refused memory.
pub fn decode_packed_coils(alloc: Global, bytes: &[u8], count: u16) -> Result<Coils, AllocError>
    requires { count ≤ 8 * length bytes.now }
    ensures { IfOk result (λ coils. coils ≡ coils_of bytes.now count) }
{
    let mut coils = vec![in alloc; false; count as usize]?;
    read_coils(coils.as_mut_slice(), bytes);
    Ok(Coils::new(coils))
}

/// Reads as many coils as there is room for, each whole byte at once.
fn read_coils(coils: &mut [Coil], bytes: &[u8])
    requires { length coils.old ≤ 8 * length bytes.now }
    ensures { coils.new ≡ coils_of bytes.now (length coils.old) }
{
    let whole = coils.len() / 8;
    for k in 0..whole {
        read_byte(&mut coils[8 * k..8 * k + 8], bytes[k]);
    }
    for i in 8 * whole..coils.len() {
        coils[i] = (bytes[i / 8] >> (i % 8)) % 2 == 1;
    }
}

/// Reads the eight coils of a byte, the first in its lowest bit.
#[inline]
#[tactic(auto, using(crate::proofs::CoilsRead::eight_written))]
fn read_byte(coils: &mut [Coil], byte: u8)
    requires { length coils.old ≡ 8 }
    ensures { coils.new ≡ coils_of (byte ∷ []) 8 }
{
    coils[0] = byte % 2 == 1;
    coils[1] = (byte >> 1) % 2 == 1;
    coils[2] = (byte >> 2) % 2 == 1;
    coils[3] = (byte >> 3) % 2 == 1;
    coils[4] = (byte >> 4) % 2 == 1;
    coils[5] = (byte >> 5) % 2 == 1;
    coils[6] = (byte >> 6) % 2 == 1;
    coils[7] = (byte >> 7) % 2 == 1;
}

/// Appends the coils packed, where coil i is bit `i % 8` of byte `i / 8` and unused bits are 0
/// (V1.1b3, section 6.11), and answers how many bytes these are.
///
/// The one error is refused memory, which leaves the bytes of the buffer as they were and comes
/// only where the buffer had no room for all of them.
#[tactic(auto, using(crate::proofs::Sizes::sizes))]
pub fn encode_packed_coils(
    _alloc: Global,
    buf: &mut BytesMut,
    coils: &[Coil],
) -> Result<usize, AllocError>
    ensures ok { OnOk result (buf.new.items ≡ buf.old.items ++ packed_bytes coils.now) }
    ensures size { IfOk result (λ size. size ≡ length (packed_bytes coils.now)) }
    ensures err { OnErr result (buf.new.items ≡ buf.old.items) }
    ensures spare { UsesSpare result buf.old.spare buf.new.spare (length (packed_bytes coils.now)) }
{
    let size = packed_coils_size(coils);
    buf.reserve(size)?;
    put_packed_coils(buf, coils);
    Ok(size)
}

/// Appends the coils packed, where the buffer has room for them.
pub(crate) fn put_packed_coils(buf: &mut BytesMut, coils: &[Coil])
    requires { packed_size (length coils.now) ≤ buf.old.spare }
    ensures items { buf.new.items ≡ buf.old.items ++ packed_bytes coils.now }
    ensures spare { buf.new.spare + packed_size (length coils.now) ≡ buf.old.spare }
{
    let start = buf.len();
    buf.advance_mut(packed_coils_size(coils));
    write_packed_coils(&mut buf.as_mut_slice()[start..], coils);
}

/// Writes the coils packed, over as many bytes as they take, each whole byte at once.
fn write_packed_coils(bytes: &mut [u8], coils: &[Coil])
    requires { length bytes.old ≡ packed_size (length coils.now) }
    ensures { bytes.new ≡ packed_bytes coils.now }
{
    let whole = coils.len() / 8;
    for k in 0..whole {
        bytes[k] = whole_byte(coils, 8 * k);
    }
    if whole < bytes.len() {
        bytes[whole] = packed_byte(coils, 8 * whole);
    }
}

/// The eight coils from a place on, the first in the lowest bit.
#[inline]
#[tactic(auto, unfolding(crate::specs::Fields::bits_at))]
fn whole_byte(coils: &[Coil], place: usize) -> u8
    requires { place + 8 ≤ length coils.now }
    ensures { result ≡ bits_at coils.now place 8 }
{
    u8::from(coils[place])
        + 2 * u8::from(coils[place + 1])
        + 4 * u8::from(coils[place + 2])
        + 8 * u8::from(coils[place + 3])
        + 16 * u8::from(coils[place + 4])
        + 32 * u8::from(coils[place + 5])
        + 64 * u8::from(coils[place + 6])
        + 128 * u8::from(coils[place + 7])
}

/// The eight coils from a place on, the first in the lowest bit. Those past the end are off.
#[tactic(auto, unfolding(crate::specs::Fields::bits_at))]
fn packed_byte(coils: &[Coil], place: usize) -> u8
    requires { place ≤ length coils.now }
    ensures { result ≡ bits_at coils.now place 8 }
{
    let mut byte = 0u8;
    for i in 0..8 {
        let is_on = coil_or_off(coils, place + i);
        if is_on {
            byte += 1 << i;
        }
    }
    byte
}

/// The coil at a place, or off past the end.
fn coil_or_off(coils: &[Coil], place: usize) -> bool
    ensures { result ≡ slice_index_or coils.now place false }
{
    coils.get(place).copied().unwrap_or(false)
}
