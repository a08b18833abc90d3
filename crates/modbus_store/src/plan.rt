//! A request in two parts: its plan, which takes all memory and changes nothing, and its change, which takes none.
ghost use Rattle.std.specs.Prelude.{◌≡◌};
ghost use Rattle.modbus_frame.specs.Meaning.{meaning};
ghost use Rattle.modbus_store.specs.Step.{masked_word};
ghost use Rattle.modbus_store.specs.Plan.{Plans, Steps, tables_after};

use crate::bounds::{check_count, check_range};
use crate::change::{Change, write_entries};
use crate::read::{read_after_write, read_entries, read_queue};
use crate::store::RegisterStore;
use modbus_frame::{
    Address, Coil, Coils, ExceptionCode, Quantity, Request, Response, SlaveRequest, Word, Words,
};
use modbus_pdu::{MAX_READ_COILS, MAX_READ_REGISTERS, MAX_WRITE_COILS, MAX_WRITE_REGISTERS};
use modbus_service::ServiceError;
use std::alloc::Global;

/// What a request comes to: how it is answered, and what it changes.
#[derive(Debug, PartialEq, Eq, Drop)]
pub struct Planned<'a> {
    /// The response; `None` for a request of slave 0 where the store takes part in broadcasts.
    pub response: Option<Response>,
    /// The change, which is still to be made.
    pub change: Change<'a>,
}

/// What a request is asked of: tables that change at once, a store's own or lent ones, or a store that only shows what it would answer.
pub(crate) trait Target<'a> {
    ghost use Rattle.modbus_store.specs.Tables.{Tables};
    ghost use Rattle.modbus_store.specs.declared.change.Change.TheVariants as change;
    ghost use Rattle.modbus_store.specs.Plan.{tables_after};

    ghost tables: { Self → Tables };

    ghost becomes: { Self → Tables → Self → Type 0 };

    /// The coils.
    fn coils(&self) -> &[Coil]
        ensures { result.now ≡ (tables self.now).coils };

    /// The discrete inputs.
    fn discrete_inputs(&self) -> &[Coil]
        ensures { result.now ≡ (tables self.now).discrete_inputs };

    /// The holding registers.
    fn holding_registers(&self) -> &[Word]
        ensures { result.now ≡ (tables self.now).holding_registers };

    /// The input registers.
    fn input_registers(&self) -> &[Word]
        ensures { result.now ≡ (tables self.now).input_registers };

    /// Takes in that nothing changes.
    fn keep(&mut self)
        ensures { becomes self.old (tables self.old) self.new };

    /// Takes in one coil.
    fn set_coil(&mut self, address: Address, coil: Coil)
        ensures { becomes self.old (tables_after (tables self.old) (change.Coil address coil)) self.new };

    /// Takes in coils one after another.
    fn set_coils(&mut self, first: Address, coils: &'a [Coil])
        ensures { becomes self.old (tables_after (tables self.old) (change.Coils first coils.entry))
            self.new };

    /// Takes in one holding register.
    fn set_register(&mut self, address: Address, word: Word)
        ensures { becomes self.old (tables_after (tables self.old) (change.Register address word))
            self.new };

    /// Takes in holding registers one after another.
    fn set_registers(&mut self, first: Address, words: &'a [Word])
        ensures { becomes self.old (tables_after (tables self.old) (change.Registers first words.entry))
            self.new };
}

impl<'a> Target<'a> for RegisterStore {
    ghost use Rattle.std.specs.Prelude.{◌≡◌};

    ghost tables = { λ store. store };

    ghost becomes = { λ old after new. new ≡ after };

    #[inline(always)]
    fn coils(&self) -> &[Coil] {
        self.coils.as_slice()
    }

    #[inline(always)]
    fn discrete_inputs(&self) -> &[Coil] {
        self.discrete_inputs.as_slice()
    }

    #[inline(always)]
    fn holding_registers(&self) -> &[Word] {
        self.holding_registers.as_slice()
    }

    #[inline(always)]
    fn input_registers(&self) -> &[Word] {
        self.input_registers.as_slice()
    }

    #[inline(always)]
    fn keep(&mut self) {}

    #[inline(always)]
    fn set_coil(&mut self, address: Address, coil: Coil) {
        let _ = write_entries(self.coils.as_mut_slice(), address, &[coil]);
    }

    #[inline(always)]
    fn set_coils(&mut self, first: Address, coils: &'a [Coil]) {
        let _ = write_entries(self.coils.as_mut_slice(), first, coils);
    }

    #[inline(always)]
    fn set_register(&mut self, address: Address, word: Word) {
        let _ = write_entries(self.holding_registers.as_mut_slice(), address, &[word]);
    }

    #[inline(always)]
    fn set_registers(&mut self, first: Address, words: &'a [Word]) {
        let _ = write_entries(self.holding_registers.as_mut_slice(), first, words);
    }
}

/// A store that stays as it is, and the change that a step asks of it.
#[derive(Drop)]
struct Draft<'s, 'a> {
    store: &'s RegisterStore,
    change: Change<'a>,
}

impl<'s, 'a> Target<'a> for Draft<'s, 'a> {
    ghost use Rattle.std.specs.Prelude.{◌≡◌};
    ghost use Rattle.modbus_store.specs.Plan.{tables_after};

    ghost tables = { λ draft. draft.store.now };

    ghost becomes = { λ old after new. tables_after old.store.now new.change ≡ after };

    #[inline(always)]
    fn coils(&self) -> &[Coil] {
        let store = self.store;
        store.coils.as_slice()
    }

    #[inline(always)]
    fn discrete_inputs(&self) -> &[Coil] {
        let store = self.store;
        store.discrete_inputs.as_slice()
    }

    #[inline(always)]
    fn holding_registers(&self) -> &[Word] {
        let store = self.store;
        store.holding_registers.as_slice()
    }

    #[inline(always)]
    fn input_registers(&self) -> &[Word] {
        let store = self.store;
        store.input_registers.as_slice()
    }

    #[inline(always)]
    fn keep(&mut self) {
        self.change = Change::Nothing;
    }

    #[inline(always)]
    fn set_coil(&mut self, address: Address, coil: Coil) {
        self.change = Change::Coil(address, coil);
    }

    #[inline(always)]
    fn set_coils(&mut self, first: Address, coils: &'a [Coil]) {
        self.change = Change::Coils(first, coils);
    }

    #[inline(always)]
    fn set_register(&mut self, address: Address, word: Word) {
        self.change = Change::Register(address, word);
    }

    #[inline(always)]
    fn set_registers(&mut self, first: Address, words: &'a [Word]) {
        self.change = Change::Registers(first, words);
    }
}

impl RegisterStore {
    /// What a request of a slave comes to; nothing changes. With `commit` of its change it is a call in two parts, of which this one takes
    /// all memory.
    ///
    /// # Errors
    /// Those of `apply`: the exception that the request is answered, which changes nothing, or `NoMemory` where memory was refused for what
    /// is read.
    #[tactic(auto, unfolding(crate::specs::Step::store_step))]
    pub fn plan<'a>(
        &self,
        alloc: Global,
        request: &'a SlaveRequest<'_>,
    ) -> Result<Planned<'a>, ServiceError>
        ensures { Plans self.now request.now.slave (meaning request.now.request) result }
    {
        let is_silent = self.broadcast && request.slave == 0;
        let mut draft = Draft {
            store: self,
            change: Change::Nothing,
        };
        match step(&mut draft, alloc, &request.request) {
            Ok(response) => {
                let response = if is_silent { None } else { Some(response) };
                Ok(Planned {
                    response,
                    change: draft.change,
                })
            }
            Err(ServiceError::Exception(_)) if is_silent => Ok(Planned {
                response: None,
                change: Change::Nothing,
            }),
            Err(error) => Err(error),
        }
    }

    /// Makes a change, as `plan` told it. One that reaches past the end of its table changes nothing. It takes no memory.
    pub fn commit(&mut self, change: Change<'_>)
        ensures { self.new ≡ tables_after self.old change.entry }
    {
        match change {
            Change::Nothing => {}
            Change::Coil(address, coil) => self.set_coil(address, coil),
            Change::Coils(first, coils) => self.set_coils(first, coils),
            Change::Register(address, word) => self.set_register(address, word),
            Change::Registers(first, words) => self.set_registers(first, words),
        }
    }
}

/// What a request comes to, whatever its slave: the one match over its kinds.
///
/// Each arm makes its change itself. Where the arms had met, the kind would be told apart again by the change and by the response, which
/// costs a single write up to 55 instructions more.
#[inline(always)]
#[tactic(auto, unfolding(crate::specs::Step::step_of))]
pub(crate) fn step<'a, T: Target<'a>>(
    target: &mut T,
    alloc: Global,
    request: &'a Request<'_>,
) -> Result<Response, ServiceError>
    ensures { Steps T.tables T.becomes target.old (meaning request.now) result target.new }
{
    match request {
        Request::ReadCoils(address, quantity) => {
            let table = target.coils();
            let found = read_entries(alloc, table, *address, *quantity, MAX_READ_COILS)?;
            target.keep();
            Ok(Response::ReadCoils(Coils::new(found)))
        }
        Request::ReadDiscreteInputs(address, quantity) => {
            let table = target.discrete_inputs();
            let found = read_entries(alloc, table, *address, *quantity, MAX_READ_COILS)?;
            target.keep();
            Ok(Response::ReadDiscreteInputs(Coils::new(found)))
        }
        Request::ReadHoldingRegisters(address, quantity) => {
            let table = target.holding_registers();
            let found = read_entries(alloc, table, *address, *quantity, MAX_READ_REGISTERS)?;
            target.keep();
            Ok(Response::ReadHoldingRegisters(Words::new(found)))
        }
        Request::ReadInputRegisters(address, quantity) => {
            let table = target.input_registers();
            let found = read_entries(alloc, table, *address, *quantity, MAX_READ_REGISTERS)?;
            target.keep();
            Ok(Response::ReadInputRegisters(Words::new(found)))
        }
        Request::WriteSingleCoil(address, coil) => {
            check_range(target.coils().len(), *address, 1)?;
            target.set_coil(*address, *coil);
            Ok(Response::WriteSingleCoil(*address, *coil))
        }
        Request::WriteSingleRegister(address, word) => {
            check_range(target.holding_registers().len(), *address, 1)?;
            target.set_register(*address, *word);
            Ok(Response::WriteSingleRegister(*address, *word))
        }
        Request::WriteMultipleCoils(address, coils) => {
            let coils = coils.as_slice();
            check_count(coils.len(), MAX_WRITE_COILS)?;
            check_range(target.coils().len(), *address, coils.len())?;
            target.set_coils(*address, coils);
            Ok(Response::WriteMultipleCoils(*address, coils.len() as Quantity))
        }
        Request::WriteMultipleRegisters(address, words) => {
            let words = words.as_slice();
            check_count(words.len(), MAX_WRITE_REGISTERS)?;
            check_range(target.holding_registers().len(), *address, words.len())?;
            target.set_registers(*address, words);
            Ok(Response::WriteMultipleRegisters(*address, words.len() as Quantity))
        }
        Request::MaskWriteRegister(address, and_mask, or_mask) => {
            check_range(target.holding_registers().len(), *address, 1)?;
            let old = target.holding_registers()[usize::from(*address)];
            let new = mask_word(old, *and_mask, *or_mask);
            target.set_register(*address, new);
            Ok(Response::MaskWriteRegister(*address, *and_mask, *or_mask))
        }
        Request::ReadWriteMultipleRegisters(address, quantity, write_address, words) => {
            let table = target.holding_registers();
            let words = words.as_slice();
            let found = read_after_write(alloc, table, *address, *quantity, *write_address, words)?;
            target.set_registers(*write_address, words);
            Ok(Response::ReadWriteMultipleRegisters(Words::new(found)))
        }
        Request::ReadFifoQueue(address) => {
            let table = target.holding_registers();
            let found = read_queue(alloc, table, *address)?;
            target.keep();
            Ok(Response::ReadFifoQueue(Words::new(found)))
        }
        Request::ReportServerId | Request::ReadDeviceIdentification(_, _) | Request::Custom(_, _) =>
            Err(ServiceError::Exception(ExceptionCode::IllegalFunction)),
    }
}

/// A register with the bits changed where the AND mask has 0, to those of the OR mask (section 6.16).
fn mask_word(word: Word, and_mask: Word, or_mask: Word) -> Word
    ensures { result ≡ masked_word and_mask or_mask word }
{
    (word & and_mask) | (or_mask & !and_mask)
}
