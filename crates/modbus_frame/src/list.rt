//! Lists of coils, registers and bytes, and the numbers that speak of them (Application Protocol V1.1b3, section 4.3).
//!
//! A response owns its lists. Contracts see each of them as the plain list of its items, in order, so two lists are
//! equal exactly where their items are.
ghost use Rattle.std.specs.Prelude.{◌≡◌, IfOk};

use std::alloc::{AllocError, Global};
use std::fmt;
use std::marker::Model;

/// The address of a coil or a register, from 0 (Application Protocol V1.1b3, section 4.4).
pub type Address = u16;

/// A number of coils or registers.
pub type Quantity = u16;

/// One bit: a coil or a discrete input; `true` is ON.
pub type Coil = bool;

/// The content of a register: 16 bits, on the wire with the high byte first.
pub type Word = u16;

/// Items that a response owns, in their order.
#[derive(Drop)]
pub struct Items<T> {
    items: Vec<T>,
}

/// The states of coils or discrete inputs, in the order of their addresses.
pub type Coils = Items<Coil>;

/// The contents of registers, in the order of their addresses.
pub type Words = Items<Word>;

/// Raw bytes, in their order.
pub type Data = Items<u8>;

impl<T> Model for Items<T> {
    ghost use Rattle.std.specs.Prelude.{List};

    ghost Value = { List T };

    ghost view = { λ list. list.items.items };
}

impl<T> Items<T> {
    /// The list of these items, in their order.
    pub fn new(items: Vec<T>) -> Self
        ensures { result ≡ items.items }
    {
        Items { items }
    }

    /// The items, in their order.
    pub fn as_slice(&self) -> &[T]
        ensures { result.now ≡ self.now }
    {
        self.items.as_slice()
    }

    /// The items as a vector, in their order.
    pub fn into_vec(self) -> Vec<T>
        ensures { result.items ≡ self }
    {
        self.items
    }
}

impl<T: Copy> Items<T> {
    /// An equal list, with memory from `alloc`. Refused memory is the one error.
    pub(crate) fn try_clone(&self, alloc: Global) -> Result<Self, AllocError>
        ensures { IfOk result (λ copy. copy ≡ self.now) }
    {
        Ok(Items::new(Vec::from_slice(alloc, self.items.as_slice())?))
    }
}

impl<T: PartialEq> PartialEq for Items<T> {
    ghost use Rattle.std.specs.Cmp.Lexicographic.{pointwise, lists_per};

    ghost eq = { pointwise T.eq };

    ghost laws = { lists_per T.laws };

    fn eq(&self, other: &Items<T>) -> bool {
        self.as_slice() == other.as_slice()
    }
}

impl<T: Eq> Eq for Items<T> {
    ghost use Rattle.std.specs.Cmp.Lexicographic.{lists_equiv};

    ghost laws = { lists_equiv T.Eq.laws };
}

impl<T: fmt::Debug> fmt::Debug for Items<T> {
    fn fmt<W: fmt::Write>(&self, f: &mut fmt::Formatter<W>) -> fmt::Result {
        fmt::Debug::fmt(&self.as_slice(), f)
    }
}
