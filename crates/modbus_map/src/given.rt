//! What the reads of a table were answered.
ghost use Rattle.std.specs.Prelude.{◌≡◌, map, IfOk, IfErr};
ghost use Rattle.modbus_client.specs.Typed.{AnswerOf, answer_map};
ghost use Rattle.modbus_map.specs.Asking.{word_of, AsksTable, TakesGiven, IsLost, Loses, ReadsOne, ReadsAll, Stops};

use crate::kind::Table;
use modbus_client::Reader;
use modbus_frame::{Coil, Error, ExceptionCode, Word, Words};
use modbus_poll::{PollError, Read, take_answer};
use std::alloc::{AllocError, Global};

/// What a read was answered: its words, one for each register or bit, or the exception of the device. A bit is 1 where it is on.
#[derive(Debug, PartialEq, Eq, Drop)]
pub struct Given {
    /// The read.
    pub read: Read,
    /// What came.
    pub words: Result<Words, ExceptionCode>,
}

/// A bit as a word, 1 where it is on.
fn word_of(state: Coil) -> Word
    ensures { result ≡ word_of state }
{
    if state { 1 } else { 0 }
}

/// The states of bits as words.
fn words_of(alloc: Global, states: &[Coil]) -> Result<Words, AllocError>
    ensures { IfOk result (λ words. words ≡ map word_of states.now) }
{
    let words = states.iter().map(|state| word_of(*state)).collect(alloc)?;
    Ok(Words::new(words))
}

/// The answer of a read of bits, in words.
///
/// # Errors
/// `NoMemory` where memory was refused for it.
fn answer_in_words(
    alloc: Global,
    answer: modbus_frame::Result<Vec<Coil>>,
) -> Result<modbus_frame::Result<Words>, AllocError>
    ensures told { IfOk result (λ told.
        told ≡ answer_map (map word_of) (answer_map (λ v. v.items) answer)) }
    ensures lost { IfErr result (λ error. IsLost (answer_map (λ v. v.items) answer)) }
{
    match answer {
        Ok(Ok(states)) => Ok(Ok(Ok(words_of(alloc, states.as_slice())?))),
        Ok(Err(code)) => Ok(Ok(Err(code))),
        Err(error) => Ok(Err(error)),
    }
}

/// The answer of a read of registers.
fn answer_of_words(answer: modbus_frame::Result<Vec<Word>>) -> modbus_frame::Result<Words>
    ensures { result ≡ answer_map (λ v. v.items) answer }
{
    match answer {
        Ok(Ok(words)) => Ok(Ok(Words::new(words))),
        Ok(Err(code)) => Ok(Err(code)),
        Err(error) => Err(error),
    }
}

/// Asks a client one read of a table.
///
/// # Errors
/// Refused memory, for the words of bits that were read.
fn ask<R: Reader>(
    alloc: Global,
    reader: &mut R,
    table: Table,
    read: &Read,
) -> Result<modbus_frame::Result<Words>, AllocError>
    ensures asked { IfOk result (λ answer.
        AsksTable R.Client.answers table reader.old read.now answer reader.new) }
    ensures lost { IfErr result (λ error.
        Loses (AsksTable R.Client.answers table) reader.old read.now reader.new) }
{
    let (address, count) = (read.address, read.count);
    match table {
        Table::Coils => answer_in_words(alloc, reader.read_coils(address, count)),
        Table::DiscreteInputs => {
            answer_in_words(alloc, reader.read_discrete_inputs(address, count))
        }
        Table::InputRegisters => {
            Ok(answer_of_words(reader.read_input_registers(address, count)))
        }
        Table::HoldingRegisters => {
            Ok(answer_of_words(reader.read_holding_registers(address, count)))
        }
    }
}

/// What the read at this place gives, by its answer.
///
/// # Errors
/// Those of `take_answer` but for an exception, which is given.
fn given_by(
    place: usize,
    read: &Read,
    answer: modbus_frame::Result<Words>,
) -> Result<Given, PollError>
    ensures { TakesGiven place read.now answer result }
{
    match take_answer(place, read, answer) {
        Ok(words) => Ok(Given {
            read: *read,
            words: Ok(words),
        }),
        Err(PollError::Exception { code, .. }) => Ok(Given {
            read: *read,
            words: Err(code),
        }),
        Err(error) => Err(error),
    }
}

/// Makes the read at this place.
///
/// # Errors
/// `Call` where the call failed. `Words` where another number of words came. `NoMemory` where memory was refused for its answer.
fn read_one<R: Reader>(
    alloc: Global,
    reader: &mut R,
    table: Table,
    place: usize,
    read: &Read,
) -> Result<Given, PollError>
    ensures { ReadsOne (AsksTable R.Client.answers table) reader.old place read.now result
        reader.new }
{
    match ask(alloc, reader, table, read) {
        Ok(answer) => given_by(place, read, answer),
        Err(AllocError) => Err(PollError::NoMemory),
    }
}

/// Makes the reads of a table by a client, each once and in order (V1.1b3, sections 6.1 to 6.4). One that the device refuses with an exception
/// ends them not.
///
/// # Errors
/// `Call` with the place of the read whose call failed, and `Words` of the one that gave another number of words; no later one was made.
/// `NoMemory` where memory was refused before the first read, or in one that was made, the last one.
pub fn read_table<R: Reader>(
    alloc: Global,
    reader: &mut R,
    table: Table,
    reads: &[Read],
) -> Result<Vec<Given>, PollError>
    ensures made { IfOk result (λ found.
        ReadsAll (AsksTable R.Client.answers table) reader.old reads.now found.items reader.new) }
    ensures stops { IfErr result (λ error.
        Stops (AsksTable R.Client.answers table) reader.old reads.now error reader.new) }
{
    let mut found = Vec::with_capacity(alloc, reads.len())?;
    for (place, read) in reads.iter().enumerate() {
        let given = read_one(alloc, reader, table, place, read)?;
        found.push_reserved(given);
    }
    Ok(found)
}
