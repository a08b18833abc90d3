//! What a request changes of the tables of a device.
ghost use Rattle.std.specs.Prelude.{length};
ghost use Rattle.modbus_store.specs.Tables.{with_entries};
ghost use Rattle.modbus_store.specs.Step.{inside};
ghost use Rattle.modbus_store.specs.Opening.{Sets};

use crate::bounds::is_inside;
use crate::store::OutOfRange;
use modbus_frame::{Address, Coil, Word};

/// The entries of a table that a request changes, and what they become. Lists are lent from the request, so a change takes no memory.
#[derive(Clone, Copy, Debug, PartialEq, Eq)]
pub enum Change<'a> {
    /// No entry changes.
    Nothing,
    /// One coil: its address and its new state (Modbus Application Protocol V1.1b3, section 6.5).
    Coil(Address, Coil),
    /// Coils one after another: the first address and the new states (section 6.11).
    Coils(Address, &'a [Coil]),
    /// One holding register: its address and its new content (sections 6.6 and 6.16).
    Register(Address, Word),
    /// Holding registers one after another: the first address and the new contents (sections 6.12 and 6.17).
    Registers(Address, &'a [Word]),
}

/// Writes entries into a table from an address on.
///
/// # Errors
/// `OutOfRange` exactly where they reach past its end; the table is then as it was.
#[inline(always)]
pub(crate) fn write_entries<T: Copy>(
    table: &mut [T],
    first: Address,
    values: &[T],
) -> Result<(), OutOfRange>
    ensures { Sets (inside (length table.old) first (length values.now)) table.old
        (with_entries first values.now table.old) result table.new }
{
    if !is_inside(table.len(), first, values.len()) {
        return Err(OutOfRange);
    }
    let start = usize::from(first);
    table[start..start + values.len()].copy_from_slice(values);
    Ok(())
}
