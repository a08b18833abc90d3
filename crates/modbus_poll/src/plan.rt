//! Reads, and the plan of those that give each item.
ghost use Rattle.std.specs.Prelude.{◌≡◌, ◌≤◌, All, [], ◌∷◌, ◌++◌, position, OnOk};
ghost use Rattle.modbus_poll.specs.declared.read.Read.{Read};
ghost use Rattle.modbus_poll.specs.Items.{read_end, lies_in, gives, covers};
ghost use Rattle.modbus_poll.specs.Spans.{one, is_within, is_read, are_read};

use crate::item::Item;
use crate::read::{Read, first_with};
use crate::span::Span;
use modbus_frame::Address;
use std::alloc::{AllocError, Global};
use std::marker::Model;

/// Reads that give items, in the order in which they are made.
#[derive(Drop)]
pub struct Plan {
    reads: Vec<Read>,
}

impl Model for Plan {
    ghost use Rattle.std.specs.Prelude.{List};
    ghost use Rattle.modbus_poll.specs.declared.read.Read.{Read};
    ghost use Rattle.modbus_poll.specs.ReadOrder.{AreRising};

    ghost Value = { List Read };

    ghost view = { λ plan. plan.reads.items };

    ghost invariant = { λ plan. AreRising plan.reads.items };
}

/// Why there is no plan.
#[derive(Clone, Copy, Debug, PartialEq, Eq, thiserror::Error)]
pub enum PlanError {
    /// No read can give the item or span at this place: it has none or too many registers or bits, or they pass the last address.
    #[error("no read can give the item at place {0}")]
    BadItem(usize),
    /// Memory was refused.
    #[error("no memory")]
    NoMemory,
}

impl From<AllocError> for PlanError {
    ghost use Rattle.modbus_poll.specs.declared.plan.PlanError.TheVariants as errors;

    ghost from_gives = { λ _ error. error ≡ errors.NoMemory };

    fn from(_error: AllocError) -> PlanError {
        PlanError::NoMemory
    }
}

impl Plan {
    /// A plan without reads.
    pub(crate) fn new(alloc: Global) -> Plan
        ensures { result ≡ [] }
    {
        Plan {
            reads: Vec::new(alloc),
        }
    }

    /// The reads, in the order in which they are made.
    pub fn reads(&self) -> &[Read]
        ensures { result.now ≡ self.now }
    {
        self.reads.as_slice()
    }

    /// Appends a read that neither begins nor ends before the others.
    pub(crate) fn push(&mut self, read: Read) -> Result<(), AllocError>
        requires begins { All (λ (other : Read). other.address ≤ read.address) self.old }
        requires ends { All (λ (other : Read). read_end other ≤ read_end read) self.old }
        ensures { OnOk result (self.new ≡ self.old ++ read ∷ []) }
    {
        self.reads.push(read)?;
        Ok(())
    }

    /// The place of the first read in which an item lies.
    pub(crate) fn read_of(&self, item: &Item) -> Option<usize>
        ensures { result ≡ position (lies_in item.now) self.now }
    {
        self.place_of(&item.span())
    }

    /// The place of the first read in which a span lies.
    pub fn place_of(&self, span: &Span) -> Option<usize>
        ensures { result ≡ position (is_within span.now) self.now }
    {
        first_with(self.reads.as_slice(), span)
    }

    #[tactic(auto, using(crate::proofs::Positions::some_place))]
    /// Whether an address is one of a read.
    fn reads_address(&self, address: Address) -> bool
        ensures { result ≡ is_read self.now (one address) }
    {
        self.place_of(&Span::one(address)).is_some()
    }

    /// Whether each of these addresses is one of a read.
    pub fn reads_each(&self, addresses: &[Address]) -> bool
        ensures { result ≡ are_read self.now addresses.now }
    {
        addresses.iter().all(|address| self.reads_address(*address))
    }

    #[tactic(auto, using(crate::proofs::Positions::some_place))]
    /// Whether an item has 1 to 125 registers and lies in one of the reads.
    fn gives(&self, item: &Item) -> bool
        ensures { result ≡ gives self.now item.now }
    {
        item.kind.fits_read() && self.read_of(item).is_some()
    }

    /// Whether each of these items has 1 to 125 registers and lies in one of the reads.
    pub fn covers(&self, items: &[Item]) -> bool
        ensures { result ≡ covers self.now items.now }
    {
        items.iter().all(|item| self.gives(item))
    }
}
