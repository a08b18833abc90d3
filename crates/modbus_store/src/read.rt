//! What a request reads of the tables (Modbus Application Protocol V1.1b3, section 6).
ghost use Rattle.std.specs.Prelude.{◌≡◌, ◌≤◌, ◌+◌, ◌<◌, Ok, Err, length, slice_index};
ghost use Rattle.modbus_store.specs.Tables.{with_entries};
ghost use Rattle.modbus_store.specs.Plan.{ReadsAs, ReadsAfter, ReadsQueue};

use crate::bounds::{check_both, check_count, check_range};
use modbus_frame::{Address, ExceptionCode, Quantity, Word};
use modbus_pdu::MAX_FIFO_COUNT;
use modbus_service::ServiceError;
use std::alloc::Global;

/// The entries of a table from an address on.
pub(crate) fn read_entries<T: Copy>(
    alloc: Global,
    table: &[T],
    address: Address,
    quantity: Quantity,
    most: usize,
) -> Result<Vec<T>, ServiceError>
    ensures { ReadsAs (λ found. found.items) table.now address quantity most result }
{
    let count = usize::from(quantity);
    check_count(count, most)?;
    check_range(table.len(), address, count)?;
    let start = usize::from(address);
    let found = Vec::from_slice(alloc, &table[start..start + count])?;
    Ok(found)
}

/// A register as it is after words were written from a place on.
fn register_after(table: &[Word], first: usize, words: &[Word], place: usize) -> Word
    requires { (first + length words.now ≤ length table.now) × (place < length table.now) }
    ensures { result ≡ slice_index (with_entries first words.now table.now) place }
{
    if first <= place && place < first + words.len() {
        words[place - first]
    } else {
        table[place]
    }
}

/// The registers that are read after others were written, of the table as it is before (section 6.17).
#[tactic(auto, using(crate::proofs::Writing::entries_more, crate::proofs::Writing::written_keeps_length))]
pub(crate) fn read_after_write(
    alloc: Global,
    table: &[Word],
    address: Address,
    quantity: Quantity,
    write_address: Address,
    words: &[Word],
) -> Result<Vec<Word>, ServiceError>
    ensures { ReadsAfter (λ found. found.items) table.now address quantity write_address words.now
        result }
{
    check_both(table.len(), address, quantity, write_address, words.len())?;
    let start = usize::from(address);
    let count = usize::from(quantity);
    let mut found = Vec::with_capacity(alloc, count)?;
    for i in 0..count {
        found.push_reserved(register_after(table, usize::from(write_address), words, start + i));
    }
    Ok(found)
}

/// The registers of the queue whose count stands at an address, which is before them (section 6.18).
#[cold]
pub(crate) fn read_queue(
    alloc: Global,
    table: &[Word],
    address: Address,
) -> Result<Vec<Word>, ServiceError>
    ensures { ReadsQueue (λ found. found.items) table.now address result }
{
    check_range(table.len(), address, 1)?;
    let first = usize::from(address) + 1;
    let count = usize::from(table[first - 1]);
    if count > MAX_FIFO_COUNT {
        return Err(ServiceError::Exception(ExceptionCode::IllegalDataValue));
    }
    // The count is inside the table, so the registers behind it are inside where both together are.
    check_range(table.len(), address, 1 + count)?;
    let found = Vec::from_slice(alloc, &table[first..first + count])?;
    Ok(found)
}
