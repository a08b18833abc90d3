//! Polls of bits: the states of coils or discrete inputs, by the reads of a plan.
ghost use Rattle.std.specs.Prelude.{◌≡◌, ◌≢◌, ◌-◌, ◌<◌, ℕ, false, true, length, slice_index_or, IfOk, IfErr, []};
ghost use Rattle.modbus_poll.specs.declared.states.Bits.TheVariants as bits;
ghost use Rattle.modbus_poll.specs.Polls.{ReadsEach, Stops};
ghost use Rattle.modbus_poll.specs.Spans.{one, is_read, is_within, are_read};
ghost use Rattle.modbus_poll.specs.States.{AsksBits, AsksCoils, AsksDiscreteInputs, GivesStates, state_among, states_among};
ghost use Rattle.modbus_poll.specs.Words.{AreWordsOf};

use crate::plan::Plan;
use crate::polling::{PollError, take_answer};
use crate::read::Read;
use crate::span::Span;
use modbus_client::Reader;
use modbus_frame::{Address, Coil, Coils};
use std::alloc::{AllocError, Global};

/// A table of bits (V1.1b3, section 4.3).
#[derive(Clone, Copy)]
pub(crate) enum Bits {
    Coils,
    DiscreteInputs,
}

/// Asks a client one read of bits.
fn ask_bits<R: Reader>(reader: &mut R, bits: Bits, read: &Read) -> modbus_frame::Result<Coils>
    ensures { AsksBits R.Client.answers bits reader.old read.now result reader.new }
{
    let answer = match bits {
        Bits::Coils => reader.read_coils(read.address, read.count),
        Bits::DiscreteInputs => reader.read_discrete_inputs(read.address, read.count),
    };
    match answer {
        Ok(Ok(states)) => Ok(Ok(Coils::new(states))),
        Ok(Err(code)) => Ok(Err(code)),
        Err(error) => Err(error),
    }
}

/// Makes reads of bits, in order.
fn read_bits<R: Reader>(
    alloc: Global,
    reader: &mut R,
    bits: Bits,
    reads: &[Read],
) -> Result<Vec<Coils>, PollError>
    ensures made { IfOk result (λ found.
        ReadsEach (AsksBits R.Client.answers bits) reader.old reads.now found.items reader.new) }
    ensures stops { IfErr result (λ error.
        Stops (AsksBits R.Client.answers bits) reader.old reads.now error reader.new) }
{
    let mut found = Vec::with_capacity(alloc, reads.len())?;
    for (place, read) in reads.iter().enumerate() {
        let answer = ask_bits(reader, bits, read);
        let states = take_answer(place, read, answer)?;
        found.push_reserved(states);
    }
    Ok(found)
}

/// The states that the read at this place gave.
fn states_at(found: &[Coils], place: usize) -> &[Coil]
    requires { place < length found.now }
    ensures { result.now ≡ slice_index_or found.now place [] }
{
    match found.get(place) {
        Some(states) => states.as_slice(),
        None => unreachable!(),
    }
}

/// The state of the bit at an address in a read, from those that the read gave.
#[tactic(auto, using(crate::proofs::Tests::one_within))]
fn state_in(read: &Read, states: &[Coil], address: Address) -> Coil
    requires within { is_within (one address) read.now ≡ true }
    requires count { length states.now ≡ read.now.count }
    ensures { result ≡ slice_index_or states.now (address - read.now.address) false }
{
    states[usize::from(address - read.address)]
}

/// The state of the bit at an address in a read of the plan, from the states that each read gave.
fn state_among(plan: &Plan, found: &[Coils], address: Address) -> Coil
    requires given { is_read plan.now (one address) ≡ true }
    requires states { AreWordsOf plan.now found.now }
    ensures { result ≡ state_among plan.now found.now address }
{
    match plan.place_of(&Span::one(address)) {
        Some(place) => state_in(&plan.reads()[place], states_at(found, place), address),
        None => unreachable!(),
    }
}

/// The states of the bits at addresses, in their order, from the states that each read of the plan gave.
fn states_among(
    alloc: Global,
    plan: &Plan,
    found: &[Coils],
    addresses: &[Address],
) -> Result<Vec<Coil>, AllocError>
    requires given { are_read plan.now addresses.now ≡ true }
    requires states { AreWordsOf plan.now found.now }
    ensures { IfOk result (λ states.
        states.items ≡ states_among plan.now found.now addresses.now) }
{
    let mut states = Vec::with_capacity(alloc, addresses.len())?;
    for address in addresses {
        let state = state_among(plan, found, *address);
        states.push_reserved(state);
    }
    Ok(states)
}

/// Polls the bits of one table at these addresses.
fn poll_bits<R: Reader>(
    alloc: Global,
    reader: &mut R,
    bits: Bits,
    addresses: &[Address],
    plan: &Plan,
) -> Result<Vec<Coil>, PollError>
    requires { are_read plan.now addresses.now ≡ true }
    ensures states { IfOk result (λ states. GivesStates (AsksBits R.Client.answers bits)
        reader.old plan.now addresses.now states.items reader.new) }
    ensures stops { IfErr result (λ error.
        Stops (AsksBits R.Client.answers bits) reader.old plan.now error reader.new) }
    ensures words { (place count : ℕ) → result ≢ Err (PollError.Words place count) }
{
    let found = read_bits(alloc, reader, bits, plan.reads())?;
    Ok(states_among(alloc, plan, found.as_slice(), addresses)?)
}

/// Polls coils by a client: makes each read of the plan once, in order, by function code 01 (V1.1b3, section 6.1), and gives the states of the
/// coils at these addresses, in their order.
///
/// The state of a coil is that of its address in the first read that has it.
///
/// # Errors
/// Those of `poll`.
pub fn poll_coils<R: Reader>(
    alloc: Global,
    reader: &mut R,
    addresses: &[Address],
    plan: &Plan,
) -> Result<Vec<Coil>, PollError>
    requires { are_read plan.now addresses.now ≡ true }
    ensures states { IfOk result (λ states. GivesStates (AsksCoils R.Client.answers)
        reader.old plan.now addresses.now states.items reader.new) }
    ensures stops { IfErr result (λ error.
        Stops (AsksCoils R.Client.answers) reader.old plan.now error reader.new) }
    ensures words { (place count : ℕ) → result ≢ Err (PollError.Words place count) }
{
    poll_bits(alloc, reader, Bits::Coils, addresses, plan)
}

/// Polls discrete inputs by a client: as `poll_coils`, by reads of function code 02 (V1.1b3, section 6.2).
///
/// # Errors
/// Those of `poll_coils`.
pub fn poll_discrete_inputs<R: Reader>(
    alloc: Global,
    reader: &mut R,
    addresses: &[Address],
    plan: &Plan,
) -> Result<Vec<Coil>, PollError>
    requires { are_read plan.now addresses.now ≡ true }
    ensures states { IfOk result (λ states. GivesStates (AsksDiscreteInputs R.Client.answers)
        reader.old plan.now addresses.now states.items reader.new) }
    ensures stops { IfErr result (λ error.
        Stops (AsksDiscreteInputs R.Client.answers) reader.old plan.now error reader.new) }
    ensures words { (place count : ℕ) → result ≢ Err (PollError.Words place count) }
{
    poll_bits(alloc, reader, Bits::DiscreteInputs, addresses, plan)
}
