//! The reads of a device's poll, and what they are answered.
ghost use Rattle.std.specs.Prelude.{◌≡◌, ◌++◌, map, IfOk, OnOk};
ghost use Rattle.modbus_frame.specs.Meaning.{meaning};
ghost use Rattle.modbus_map.specs.Asking.{word_of};
ghost use Rattle.modbus_map.specs.Gathering.{is_in, span_of};
ghost use Rattle.modbus_supervisor.specs.Reads.{asked_by, in_table, all_reads, gives, has_states, words_of_registers, words_of_bits, words_told, given_by};

use modbus_frame::{Coil, ExceptionCode, Request, Response, Word, Words};
use modbus_map::{Given, Point, Table, Tables};
use modbus_poll::{Plan, Read, Span};
use std::alloc::{AllocError, Global};

/// A read of one of the four tables.
#[derive(Clone, Copy, Debug, PartialEq, Eq)]
pub struct TableRead {
    pub table: Table,
    pub read: Read,
}

/// The registers or the bit of a point.
pub fn span_of(point: &Point) -> Span
    ensures { result ≡ span_of point.now }
{
    Span {
        address: point.address,
        count: point.encoding.kind.width(),
    }
}

/// Whether two tables are the same.
fn is_in(table: Table, other: Table) -> bool
    ensures { result ≡ is_in table other }
{
    match (table, other) {
        (Table::Coils, Table::Coils)
        | (Table::DiscreteInputs, Table::DiscreteInputs)
        | (Table::InputRegisters, Table::InputRegisters)
        | (Table::HoldingRegisters, Table::HoldingRegisters) => true,
        _ => false,
    }
}

/// A bit as a word, 1 where it is on.
fn word_of(state: Coil) -> Word
    ensures { result ≡ word_of state }
{
    if state { 1 } else { 0 }
}

/// The words of as many registers as a read asks for; `None` of another number.
fn words_of_registers(
    alloc: Global,
    read: &Read,
    words: &[Word],
) -> Result<Option<Words>, AllocError>
    ensures { IfOk result (λ told. told ≡ words_of_registers read.now words.now) }
{
    if words.len() != usize::from(read.count) {
        return Ok(None);
    }
    Ok(Some(Words::new(Vec::from_slice(alloc, words)?)))
}

/// Whether so many states are those of a read of bits: as many as it asks for, filled up to whole bytes.
fn has_states(count: u16, states: usize) -> bool
    ensures { result ≡ has_states count states }
{
    let count = usize::from(count);
    count <= states && states < count + 8
}

/// The states that a read of bits asks for, as words; `None` of another number of bytes.
fn words_of_bits(alloc: Global, read: &Read, states: &[Coil]) -> Result<Option<Words>, AllocError>
    ensures { IfOk result (λ told. told ≡ words_of_bits read.now states.now) }
{
    if !has_states(read.count, states.len()) {
        return Ok(None);
    }
    let asked = &states[..usize::from(read.count)];
    let words = asked.iter().map(|state| word_of(*state)).collect(alloc)?;
    Ok(Some(Words::new(words)))
}

impl TableRead {
    /// Whether it gives a point: it reads the table of the point, and each register of it, or its bit.
    pub fn gives(&self, point: &Point) -> bool
        ensures { result ≡ gives self.now point.now }
    {
        is_in(self.table, point.table) && self.read.includes(&span_of(point))
    }

    /// Its request: function code 01 for coils, 02 for discrete inputs, 04 for input registers and 03 for holding registers (V1.1b3, sections
    /// 6.1 to 6.4).
    pub fn request(&self) -> Request<'static>
        ensures { meaning result ≡ asked_by self.now }
    {
        let (address, count) = (self.read.address, self.read.count);
        match self.table {
            Table::Coils => Request::ReadCoils(address, count),
            Table::DiscreteInputs => Request::ReadDiscreteInputs(address, count),
            Table::InputRegisters => Request::ReadInputRegisters(address, count),
            Table::HoldingRegisters => Request::ReadHoldingRegisters(address, count),
        }
    }

    /// The words of a response to it, one for each register or bit that it asks for; `None` where this is no response to it.
    fn words_of(&self, alloc: Global, response: &Response) -> Result<Option<Words>, AllocError>
        ensures { IfOk result (λ told. told ≡ words_told self.now response.now) }
    {
        let read = &self.read;
        match (self.table, response) {
            (Table::Coils, Response::ReadCoils(states)) => {
                words_of_bits(alloc, read, states.as_slice())
            }
            (Table::DiscreteInputs, Response::ReadDiscreteInputs(states)) => {
                words_of_bits(alloc, read, states.as_slice())
            }
            (Table::InputRegisters, Response::ReadInputRegisters(words)) => {
                words_of_registers(alloc, read, words.as_slice())
            }
            (Table::HoldingRegisters, Response::ReadHoldingRegisters(words)) => {
                words_of_registers(alloc, read, words.as_slice())
            }
            _ => Ok(None),
        }
    }

    /// What an answer to it gives: its words, or the exception of the device; `None` where this is no answer to it.
    ///
    /// # Errors
    /// Refused memory.
    pub fn given_by(
        &self,
        alloc: Global,
        answer: &Result<Response, ExceptionCode>,
    ) -> Result<Option<Given>, AllocError>
        ensures { IfOk result (λ given. given ≡ given_by self.now answer.now) }
    {
        let read = self.read;
        match answer {
            Ok(response) => match self.words_of(alloc, response)? {
                Some(words) => {
                    let words = Ok(words);
                    Ok(Some(Given { read, words }))
                }
                None => Ok(None),
            },
            Err(code) => {
                let words = Err(*code);
                Ok(Some(Given { read, words }))
            }
        }
    }
}

/// Appends the reads of a table, in their order.
fn push_reads(reads: &mut Vec<TableRead>, table: Table, planned: &[Read]) -> Result<(), AllocError>
    ensures { OnOk result (reads.new.items ≡ reads.old.items ++ map (in_table table) planned.now) }
{
    for read in planned {
        reads.push(TableRead { table, read: *read })?;
    }
    Ok(())
}

/// The reads of a device's plans: those of coils, of discrete inputs, of input registers, then of holding registers.
///
/// # Errors
/// Refused memory.
pub fn reads_of(alloc: Global, plans: &Tables<Plan>) -> Result<Vec<TableRead>, AllocError>
    ensures { IfOk result (λ reads. reads.items ≡ all_reads plans.now) }
{
    let mut reads = Vec::new(alloc);
    push_reads(&mut reads, Table::Coils, plans.coils.reads())?;
    push_reads(
        &mut reads,
        Table::DiscreteInputs,
        plans.discrete_inputs.reads(),
    )?;
    push_reads(
        &mut reads,
        Table::InputRegisters,
        plans.input_registers.reads(),
    )?;
    push_reads(
        &mut reads,
        Table::HoldingRegisters,
        plans.holding_registers.reads(),
    )?;
    Ok(reads)
}
