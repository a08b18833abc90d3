//! The tables of a device that another keeps and lends, as the arrays of another program are.
//!
//! They are stepped by the same body as those of a `RegisterStore`, so each answer is that of a store with the same tables.
ghost use Rattle.modbus_frame.specs.Meaning.{meaning};
ghost use Rattle.modbus_service.specs.Answering.{Keeps};
ghost use Rattle.modbus_store.specs.Lent.{lent_device};

use crate::change::write_entries;
use crate::plan::{Target, step};
use modbus_frame::{Address, Coil, Response, SlaveRequest, Word};
use modbus_service::{Service, ServiceError};
use std::alloc::Global;

/// Coils, discrete inputs, holding registers and input registers that are lent. A table may have any length; an entry past the 65536th
/// has no address.
#[derive(Drop)]
pub struct LentTables<'t> {
    /// The coils, which requests read and write.
    pub coils: &'t mut [Coil],
    /// The discrete inputs, which requests read.
    pub discrete_inputs: &'t [Coil],
    /// The holding registers, which requests read and write.
    pub holding_registers: &'t mut [Word],
    /// The input registers, which requests read.
    pub input_registers: &'t [Word],
    /// Whether a request of slave 0 takes effect unanswered (MODBUS over Serial Line V1.02, section 2.2).
    pub broadcast: bool,
}

impl<'t, 'a> Target<'a> for LentTables<'t> {
    ghost use Rattle.std.specs.Prelude.{◌≡◌};
    ghost use Rattle.modbus_store.specs.Lent.{lent, SameLoans};

    ghost tables = { lent };

    ghost becomes = { λ old after new. (lent new ≡ after) × SameLoans old new };

    #[inline(always)]
    fn coils(&self) -> &[Coil] {
        self.coils
    }

    #[inline(always)]
    fn discrete_inputs(&self) -> &[Coil] {
        self.discrete_inputs
    }

    #[inline(always)]
    fn holding_registers(&self) -> &[Word] {
        self.holding_registers
    }

    #[inline(always)]
    fn input_registers(&self) -> &[Word] {
        self.input_registers
    }

    #[inline(always)]
    fn keep(&mut self) {}

    #[inline(always)]
    fn set_coil(&mut self, address: Address, coil: Coil) {
        let _ = write_entries(self.coils, address, &[coil]);
    }

    #[inline(always)]
    fn set_coils(&mut self, first: Address, coils: &'a [Coil]) {
        let _ = write_entries(self.coils, first, coils);
    }

    #[inline(always)]
    fn set_register(&mut self, address: Address, word: Word) {
        let _ = write_entries(self.holding_registers, address, &[word]);
    }

    #[inline(always)]
    fn set_registers(&mut self, first: Address, words: &'a [Word]) {
        let _ = write_entries(self.holding_registers, first, words);
    }
}

impl<'t> LentTables<'t> {
    /// Answers a request of a slave, and does what it asks. Where the tables take part in broadcasts, a request of slave 0 takes effect
    /// unanswered.
    ///
    /// # Errors
    /// Those of `RegisterStore::apply`, after which no table has changed.
    #[inline(always)]
    #[tactic(auto, unfolding(crate::specs::Step::store_step))]
    pub fn apply(
        &mut self,
        alloc: Global,
        request: SlaveRequest<'_>,
    ) -> Result<Option<Response>, ServiceError>
        ensures { Keeps lent_device self.old request.entry.slave (meaning request.entry.request)
            result self.new }
    {
        let is_silent = self.broadcast && request.slave == 0;
        match step(self, alloc, &request.request) {
            Ok(_) if is_silent => Ok(None),
            Ok(response) => Ok(Some(response)),
            Err(ServiceError::Exception(_)) if is_silent => Ok(None),
            Err(error) => Err(error),
        }
    }
}

impl<'t> Service for LentTables<'t> {
    ghost use Rattle.modbus_store.specs.Lent.{LentStepsTo, LentTakesMemory};

    ghost answers = { LentStepsTo };

    ghost takes_memory = { LentTakesMemory };

    #[inline(always)]
    fn call(
        &mut self,
        alloc: Global,
        request: SlaveRequest<'_>,
    ) -> Result<Option<Response>, ServiceError> {
        self.apply(alloc, request)
    }
}
