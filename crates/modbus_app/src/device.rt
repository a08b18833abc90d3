//! The device that the program serves.
ghost use Rattle.std.specs.Prelude.{◌≡◌, ◌≤◌, IfOk};
ghost use Rattle.modbus_store.specs.Passes.{first_pass};
ghost use Rattle.modbus_app.specs.Words.{most_entries};
ghost use Rattle.modbus_app.specs.Device.{entries_by, third, odd, same, down, seeded_tables, broadcasts_of, device_of, mode_of, shared_opening};

use crate::words::{DEFAULT_SIZE, Form, Mode};
use modbus_frame::{Coil, Word};
use modbus_port::Framing;
use modbus_store::{RegisterStore, Sizes, StoreError, StorePass, StoreTable};
use std::alloc::{AllocError, Global};

#[tactic(auto, unfolding(crate::specs::Device::entries_by))]
fn thirds(alloc: Global, size: u32) -> Result<Vec<Coil>, AllocError>
    ensures { IfOk result (λ table. table.items ≡ entries_by third size) }
{
    let mut table = Vec::new(alloc);
    for i in 0..size {
        table.push(i % 3 == 0)?;
    }
    Ok(table)
}

#[tactic(auto, unfolding(crate::specs::Device::entries_by))]
fn odds(alloc: Global, size: u32) -> Result<Vec<Coil>, AllocError>
    ensures { IfOk result (λ table. table.items ≡ entries_by odd size) }
{
    let mut table = Vec::new(alloc);
    for i in 0..size {
        table.push(i % 2 == 1)?;
    }
    Ok(table)
}

#[tactic(auto, unfolding(crate::specs::Device::entries_by))]
fn addresses(alloc: Global, size: u32) -> Result<Vec<Word>, AllocError>
    requires { size ≤ most_entries }
    ensures { IfOk result (λ table. table.items ≡ entries_by same size) }
{
    let mut table = Vec::new(alloc);
    for i in 0..size {
        table.push(i as u16)?;
    }
    Ok(table)
}

#[tactic(auto, unfolding(crate::specs::Device::entries_by))]
fn complements(alloc: Global, size: u32) -> Result<Vec<Word>, AllocError>
    requires { size ≤ most_entries }
    ensures { IfOk result (λ table. table.items ≡ entries_by down size) }
{
    let mut table = Vec::new(alloc);
    for i in 0..size {
        table.push((0xFFFF - i) as u16)?;
    }
    Ok(table)
}

fn seeded(alloc: Global, size: u32, broadcast: bool) -> Result<RegisterStore, StoreError>
    requires { size ≤ most_entries }
    ensures { IfOk result (λ store. store ≡ seeded_tables size broadcast) }
{
    let Ok(coils) = thirds(alloc, size) else {
        return Err(StoreError::NoMemory);
    };
    let Ok(discrete_inputs) = odds(alloc, size) else {
        return Err(StoreError::NoMemory);
    };
    let Ok(holding_registers) = addresses(alloc, size) else {
        return Err(StoreError::NoMemory);
    };
    let Ok(input_registers) = complements(alloc, size) else {
        return Err(StoreError::NoMemory);
    };
    RegisterStore::with_contents(
        alloc,
        &coils,
        &discrete_inputs,
        &holding_registers,
        &input_registers,
        broadcast,
    )
}

/// Whether slave 0 stands for all devices: on a serial line, where nobody answers, and not over TCP.
fn has_broadcasts(mode: Mode) -> bool
    ensures { result ≡ broadcasts_of mode }
{
    match mode {
        Mode::Rtu | Mode::Ascii => true,
        Mode::Tcp => false,
    }
}

/// The device of a form, as it begins.
pub fn open(alloc: Global, form: Form) -> Result<RegisterStore, StoreError>
    requires { form.size ≤ most_entries }
    ensures { IfOk result (λ store. store ≡ device_of form) }
{
    let broadcast = has_broadcasts(form.mode);
    if form.seeded {
        return seeded(alloc, form.size, broadcast);
    }
    let sizes = Sizes {
        coils: form.size,
        discrete_inputs: form.size,
        holding_registers: form.size,
        input_registers: form.size,
    };
    RegisterStore::new(alloc, sizes, broadcast)
}

/// The mode of the connections to a listener.
fn mode_of(framing: Framing) -> Mode
    ensures { result ≡ mode_of framing }
{
    match framing {
        Framing::Rtu => Mode::Rtu,
        Framing::Tcp => Mode::Tcp,
    }
}

/// The device that all connections to a listener share, as it begins, and its first pass. No record of its calls is kept, so it does not
/// grow.
pub fn open_shared(alloc: Global, framing: Framing) -> Result<(StoreTable, StorePass), StoreError>
    ensures table { IfOk result (λ r. r.0.opening ≡ shared_opening framing) }
    ensures pass { IfOk result (λ r. r.1 ≡ first_pass r.0.table r.0.opening) }
{
    let form = Form {
        mode: mode_of(framing),
        size: DEFAULT_SIZE,
        seeded: false,
    };
    let store = open(alloc, form)?;
    match StoreTable::open_unrecorded(alloc, store) {
        Ok(opened) => Ok(opened),
        Err(_) => Err(StoreError::NoMemory),
    }
}
