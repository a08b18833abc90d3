//! Polls: the reads of a plan, each of which is made once, and the value of each item.
ghost use Rattle.std.specs.Prelude.{◌≡◌, ◌≢◌, ℕ, true, IfOk, IfErr};
ghost use Rattle.modbus_poll.specs.Items.{covers};
ghost use Rattle.modbus_poll.specs.Polls.{AsksClient, TakesAnswer};
ghost use Rattle.modbus_poll.specs.Polls.{ReadsEach, Stops, GivesValues};

use crate::item::Item;
use crate::plan::Plan;
use crate::read::Read;
use crate::value::Value;
use crate::words::values_among;
use modbus_client::Reader;
use modbus_frame::{Error, ExceptionCode, Items, Words};
use std::alloc::{AllocError, Global};

/// Why a poll gives no values. A read is told by its place in the plan.
#[derive(Debug, PartialEq, Eq, Drop, thiserror::Error)]
pub enum PollError {
    /// The call of this read failed.
    #[error("read {read}: {error}")]
    Call { read: usize, error: Error },
    /// This read was answered with an exception (V1.1b3, section 7).
    #[error("read {read}: {code}")]
    Exception { read: usize, code: ExceptionCode },
    /// This read was answered with so many words, or states of bits, which is not what it asks for.
    #[error("read {read}: {found} words")]
    Words { read: usize, found: usize },
    /// Memory was refused.
    #[error("no memory")]
    NoMemory,
}

impl From<AllocError> for PollError {
    ghost use Rattle.modbus_poll.specs.declared.polling.PollError.TheVariants as errors;

    ghost from_gives = { λ _ error. error ≡ errors.NoMemory };

    fn from(_error: AllocError) -> PollError {
        PollError::NoMemory
    }
}

/// What a poll makes of the answer to the read at this place: the words that the read asks for, or the states of bits.
///
/// # Errors
/// `Exception` where it is one. `Words` where it has another number of them. `NoMemory` where it is that, and `Call` for any other error.
pub fn take_answer<T: Drop>(
    place: usize,
    read: &Read,
    answer: modbus_frame::Result<Items<T>>,
) -> Result<Items<T>, PollError>
    ensures { TakesAnswer place read.now answer result }
{
    match answer {
        Ok(Ok(words)) => {
            let found = words.as_slice().len();
            if found == usize::from(read.count) {
                Ok(words)
            } else {
                Err(PollError::Words { read: place, found })
            }
        }
        Ok(Err(code)) => Err(PollError::Exception { read: place, code }),
        Err(Error::NoMemory) => Err(PollError::NoMemory),
        Err(error) => Err(PollError::Call { read: place, error }),
    }
}

/// Asks a client one read.
fn ask_client<R: Reader>(reader: &mut R, read: &Read) -> modbus_frame::Result<Words>
    ensures { AsksClient R.Client.answers reader.old read.now result reader.new }
{
    match reader.read_holding_registers(read.address, read.count) {
        Ok(Ok(words)) => Ok(Ok(Words::new(words))),
        Ok(Err(code)) => Ok(Err(code)),
        Err(error) => Err(error),
    }
}

/// Makes reads by a client, in order.
fn read_by_client<R: Reader>(
    alloc: Global,
    reader: &mut R,
    reads: &[Read],
) -> Result<Vec<Words>, PollError>
    ensures made { IfOk result (λ found.
        ReadsEach (AsksClient R.Client.answers) reader.old reads.now found.items reader.new) }
    ensures stops { IfErr result (λ error.
        Stops (AsksClient R.Client.answers) reader.old reads.now error reader.new) }
{
    let mut found = Vec::with_capacity(alloc, reads.len())?;
    for (place, read) in reads.iter().enumerate() {
        let answer = ask_client(reader, read);
        let words = take_answer(place, read, answer)?;
        found.push_reserved(words);
    }
    Ok(found)
}

/// Polls items by a client: makes each read of the plan once, in order, and gives the values of the items in their order.
///
/// The value of an item is that of its words in the first read in which it lies.
///
/// # Errors
/// `Call` and `Exception` where a read was answered so, after all earlier ones gave their words; no later one was made. `Words` never
/// comes, since the call of a client refuses such a response. `NoMemory` where memory was refused.
pub fn poll<R: Reader>(
    alloc: Global,
    reader: &mut R,
    items: &[Item],
    plan: &Plan,
) -> Result<Vec<Value>, PollError>
    requires { covers plan.now items.now ≡ true }
    ensures values { IfOk result (λ values. GivesValues (AsksClient R.Client.answers)
        reader.old plan.now items.now values.items reader.new) }
    ensures stops { IfErr result (λ error.
        Stops (AsksClient R.Client.answers) reader.old plan.now error reader.new) }
    ensures words { (place count : ℕ) → result ≢ Err (PollError.Words place count) }
{
    let found = read_by_client(alloc, reader, plan.reads())?;
    Ok(values_among(alloc, plan, found.as_slice(), items)?)
}
