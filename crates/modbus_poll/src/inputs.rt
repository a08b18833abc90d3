//! Polls of input registers, which a device lets be read only.
ghost use Rattle.std.specs.Prelude.{◌≡◌, ◌≢◌, ℕ, true, IfOk, IfErr};
ghost use Rattle.modbus_poll.specs.Inputs.{AsksInputs};
ghost use Rattle.modbus_poll.specs.Items.{covers};
ghost use Rattle.modbus_poll.specs.Polls.{ReadsEach, Stops, GivesValues};

use crate::item::Item;
use crate::plan::Plan;
use crate::polling::{PollError, take_answer};
use crate::read::Read;
use crate::value::Value;
use crate::words::values_among;
use modbus_client::Reader;
use modbus_frame::Words;
use std::alloc::Global;

/// Asks a client one read of input registers.
fn ask_inputs<R: Reader>(reader: &mut R, read: &Read) -> modbus_frame::Result<Words>
    ensures { AsksInputs R.Client.answers reader.old read.now result reader.new }
{
    match reader.read_input_registers(read.address, read.count) {
        Ok(Ok(words)) => Ok(Ok(Words::new(words))),
        Ok(Err(code)) => Ok(Err(code)),
        Err(error) => Err(error),
    }
}

/// Makes reads of input registers, in order.
fn read_inputs<R: Reader>(
    alloc: Global,
    reader: &mut R,
    reads: &[Read],
) -> Result<Vec<Words>, PollError>
    ensures made { IfOk result (λ found.
        ReadsEach (AsksInputs R.Client.answers) reader.old reads.now found.items reader.new) }
    ensures stops { IfErr result (λ error.
        Stops (AsksInputs R.Client.answers) reader.old reads.now error reader.new) }
{
    let mut found = Vec::with_capacity(alloc, reads.len())?;
    for (place, read) in reads.iter().enumerate() {
        let answer = ask_inputs(reader, read);
        let words = take_answer(place, read, answer)?;
        found.push_reserved(words);
    }
    Ok(found)
}

/// Polls items in input registers by a client: as `poll`, by reads of function code 04 (V1.1b3, section 6.4).
///
/// # Errors
/// Those of `poll`.
pub fn poll_inputs<R: Reader>(
    alloc: Global,
    reader: &mut R,
    items: &[Item],
    plan: &Plan,
) -> Result<Vec<Value>, PollError>
    requires { covers plan.now items.now ≡ true }
    ensures values { IfOk result (λ values. GivesValues (AsksInputs R.Client.answers)
        reader.old plan.now items.now values.items reader.new) }
    ensures stops { IfErr result (λ error.
        Stops (AsksInputs R.Client.answers) reader.old plan.now error reader.new) }
    ensures words { (place count : ℕ) → result ≢ Err (PollError.Words place count) }
{
    let found = read_inputs(alloc, reader, plan.reads())?;
    Ok(values_among(alloc, plan, found.as_slice(), items)?)
}
