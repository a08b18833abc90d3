//! The tables of a device, and what a request does to them.
ghost use Rattle.std.specs.Prelude.{◌≡◌, ◌&&◌, [], ◌∷◌, length, slice_get, IfOk, Err};
ghost use Rattle.modbus_frame.specs.Meaning.{meaning};
ghost use Rattle.modbus_store.specs.Tables.{Tables, with_entries, with_discrete_inputs, with_input_registers};
ghost use Rattle.modbus_store.specs.Opening.{fits_table, zeros_of, OpensTables, Sets};
ghost use Rattle.modbus_service.specs.Answering.{Keeps};
ghost use Rattle.modbus_store.specs.Step.{device, inside};

use crate::change::write_entries;
use crate::plan::step;
use modbus_frame::{Address, Coil, Response, SlaveRequest, Word};
use modbus_service::{Service, ServiceError};
use std::alloc::{AllocError, Global};
use std::marker::Model;

/// How many entries each table has, from 1 to 65536.
#[derive(Clone, Copy, Debug, PartialEq, Eq)]
pub struct Sizes {
    pub coils: u32,
    pub discrete_inputs: u32,
    pub holding_registers: u32,
    pub input_registers: u32,
}

/// Why there is no store.
#[derive(Clone, Copy, Debug, PartialEq, Eq, thiserror::Error)]
pub enum StoreError {
    /// A size is not 1 to 65536.
    #[error("bad size")]
    BadSize,
    /// Memory was refused.
    #[error("no memory")]
    NoMemory,
}

/// The address lies past the end of the table.
#[derive(Clone, Copy, Debug, PartialEq, Eq, thiserror::Error)]
#[error("out of range")]
pub struct OutOfRange;

/// Coils, discrete inputs, holding registers and input registers.
#[derive(Drop)]
pub struct RegisterStore {
    pub(crate) coils: Vec<Coil>,
    pub(crate) discrete_inputs: Vec<Coil>,
    pub(crate) holding_registers: Vec<Word>,
    pub(crate) input_registers: Vec<Word>,
    pub(crate) broadcast: bool,
}

/// A contract sees the tables.
impl Model for RegisterStore {
    ghost Value = { Tables };

    ghost view = { λ store. record { coils = store.coils.items; discrete_inputs = store.discrete_inputs.items; holding_registers = store.holding_registers.items; input_registers = store.input_registers.items; broadcast = store.broadcast } };
}

/// The most entries of a table, which has at most one for each address (Modbus Application Protocol V1.1b3, section 4.4).
const MAX_ENTRIES: usize = 0x10000;

fn is_size(size: usize) -> bool
    ensures { result ≡ fits_table size }
{
    size != 0 && size <= MAX_ENTRIES
}

impl RegisterStore {
    /// Four tables of coils that are off and registers that hold 0. Where `broadcast` is true, a request of slave 0 takes effect
    /// unanswered (MODBUS over Serial Line V1.02, section 2.2).
    ///
    /// # Errors
    /// `BadSize` exactly where a size is not 1 to 65536; else `NoMemory` where memory was refused.
    pub fn new(alloc: Global, sizes: Sizes, broadcast: bool) -> Result<RegisterStore, StoreError>
        ensures { OpensTables (fits_table sizes.coils && fits_table sizes.discrete_inputs && fits_table
            sizes.holding_registers && fits_table sizes.input_registers) (zeros_of sizes broadcast)
            result }
    {
        if !is_size(sizes.coils as usize)
            || !is_size(sizes.discrete_inputs as usize)
            || !is_size(sizes.holding_registers as usize)
            || !is_size(sizes.input_registers as usize)
        {
            return Err(StoreError::BadSize);
        }
        match zeros(alloc, sizes, broadcast) {
            Ok(store) => Ok(store),
            Err(_) => Err(StoreError::NoMemory),
        }
    }

    /// Four tables with these contents; `broadcast` as for `new`.
    ///
    /// # Errors
    /// `BadSize` exactly where a table has not 1 to 65536 entries; else `NoMemory` where memory was refused.
    pub fn with_contents(
        alloc: Global,
        coils: &[Coil],
        discrete_inputs: &[Coil],
        holding_registers: &[Word],
        input_registers: &[Word],
        broadcast: bool,
    ) -> Result<RegisterStore, StoreError>
        ensures { OpensTables (fits_table (length coils.now) && fits_table (length discrete_inputs.now) &&
            fits_table (length holding_registers.now) && fits_table (length input_registers.now))
            (record {
              coils = coils.now;
              discrete_inputs = discrete_inputs.now;
              holding_registers = holding_registers.now;
              input_registers = input_registers.now;
              broadcast = broadcast;
            }) result }
    {
        if !is_size(coils.len())
            || !is_size(discrete_inputs.len())
            || !is_size(holding_registers.len())
            || !is_size(input_registers.len())
        {
            return Err(StoreError::BadSize);
        }
        match copies(
            alloc,
            coils,
            discrete_inputs,
            holding_registers,
            input_registers,
            broadcast,
        ) {
            Ok(store) => Ok(store),
            Err(_) => Err(StoreError::NoMemory),
        }
    }

    /// The coil at an address; `None` exactly past the end.
    pub fn coil(&self, address: Address) -> Option<Coil>
        ensures { result ≡ slice_get self.now.coils address }
    {
        self.coils.get(usize::from(address)).copied()
    }

    /// The discrete input at an address; `None` exactly past the end.
    pub fn discrete_input(&self, address: Address) -> Option<Coil>
        ensures { result ≡ slice_get self.now.discrete_inputs address }
    {
        self.discrete_inputs.get(usize::from(address)).copied()
    }

    /// The holding register at an address; `None` exactly past the end.
    pub fn holding_register(&self, address: Address) -> Option<Word>
        ensures { result ≡ slice_get self.now.holding_registers address }
    {
        self.holding_registers.get(usize::from(address)).copied()
    }

    /// The input register at an address; `None` exactly past the end.
    pub fn input_register(&self, address: Address) -> Option<Word>
        ensures { result ≡ slice_get self.now.input_registers address }
    {
        self.input_registers.get(usize::from(address)).copied()
    }

    /// Sets the discrete input at an address, as the process behind the device does.
    ///
    /// # Errors
    /// `OutOfRange` exactly past the end; the store is then as it was.
    pub fn set_discrete(&mut self, address: Address, state: Coil) -> Result<(), OutOfRange>
        ensures { Sets (inside (length self.old.discrete_inputs) address 1) self.old
            (with_discrete_inputs self.old (with_entries address (state ∷ []) self.old.discrete_inputs))
            result self.new }
    {
        write_entries(self.discrete_inputs.as_mut_slice(), address, &[state])
    }

    /// Sets the input register at an address, as the process behind the device does.
    ///
    /// # Errors
    /// `OutOfRange` exactly past the end; the store is then as it was.
    pub fn set_input(&mut self, address: Address, word: Word) -> Result<(), OutOfRange>
        ensures { Sets (inside (length self.old.input_registers) address 1) self.old
            (with_input_registers self.old (with_entries address (word ∷ []) self.old.input_registers))
            result self.new }
    {
        write_entries(self.input_registers.as_mut_slice(), address, &[word])
    }
}

impl RegisterStore {
    /// Answers a request of a slave, and does what it asks. Where the store takes part in broadcasts, a request of slave 0 takes
    /// effect unanswered.
    ///
    /// # Errors
    /// An exception, after which no table has changed: `IllegalFunction` where the store has no such function, `IllegalDataValue`
    /// where a count is out of its bounds, `IllegalDataAddress` where a range is not inside a table (section 7). `NoMemory` where
    /// memory was refused for what is read; the store is then as it was.
    #[inline(always)]
    #[tactic(auto, unfolding(crate::specs::Step::store_step))]
    pub fn apply(
        &mut self,
        alloc: Global,
        request: SlaveRequest<'_>,
    ) -> Result<Option<Response>, ServiceError>
        ensures { Keeps device self.old request.entry.slave (meaning request.entry.request) result
            self.new }
    {
        let is_silent = self.broadcast && request.slave == 0;
        match step(self, alloc, &request.request) {
            Ok(response) if !is_silent => Ok(Some(response)),
            Err(error) if !is_silent || error == ServiceError::NoMemory => Err(error),
            _ => Ok(None),
        }
    }
}

impl Service for RegisterStore {
    ghost use Rattle.modbus_store.specs.Step.{StepsTo, TakesMemory};

    ghost answers = { StepsTo };

    ghost takes_memory = { TakesMemory };

    #[inline(always)]
    fn call(
        &mut self,
        alloc: Global,
        request: SlaveRequest<'_>,
    ) -> Result<Option<Response>, ServiceError> {
        self.apply(alloc, request)
    }
}

fn zeros(alloc: Global, sizes: Sizes, broadcast: bool) -> Result<RegisterStore, AllocError>
    ensures { IfOk result (λ store. store ≡ zeros_of sizes broadcast) }
{
    Ok(RegisterStore {
        coils: Vec::from_elem(alloc, false, sizes.coils as usize)?,
        discrete_inputs: Vec::from_elem(alloc, false, sizes.discrete_inputs as usize)?,
        holding_registers: Vec::from_elem(alloc, 0, sizes.holding_registers as usize)?,
        input_registers: Vec::from_elem(alloc, 0, sizes.input_registers as usize)?,
        broadcast,
    })
}

fn copies(
    alloc: Global,
    coils: &[Coil],
    discrete_inputs: &[Coil],
    holding_registers: &[Word],
    input_registers: &[Word],
    broadcast: bool,
) -> Result<RegisterStore, AllocError>
    ensures { IfOk result (λ store. store
        ≡ record {
          coils = coils.now;
          discrete_inputs = discrete_inputs.now;
          holding_registers = holding_registers.now;
          input_registers = input_registers.now;
          broadcast = broadcast;
        }) }
{
    Ok(RegisterStore {
        coils: Vec::from_slice(alloc, coils)?,
        discrete_inputs: Vec::from_slice(alloc, discrete_inputs)?,
        holding_registers: Vec::from_slice(alloc, holding_registers)?,
        input_registers: Vec::from_slice(alloc, input_registers)?,
        broadcast,
    })
}
