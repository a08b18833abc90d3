//! The lock of a shared store: what its slot holds, what a seat knows, the rule, and what each step tells.
//!
//! A pass draws a ticket, waits until the word `serving` shows it, takes the store out of the slot, and puts it back before it lets the
//! next one in. specs/Lock.antt has the words and the rule, steps.rt the steps, specs/Plays.antt what each of them tells.

use crate::history::History;
use crate::store::RegisterStore;
use atomic_table::{Join, Play, Split, TableRule};
use std::marker::{Brand, Model, PhantomData};
use std::snapshot::Snapshot;

/// What the slot holds between turns. The history stands in the views; a record of it is kept only where the store is to keep one.
#[derive(Drop)]
pub(crate) struct Stored {
    pub(crate) store: RegisterStore,
    pub(crate) count: u64,
    pub(crate) history: Option<History>,
}

/// What a seat knows. No value of it is made: a contract sees a view where a seat has this type.
pub(crate) struct View;

impl Model for View {
    ghost use Rattle.modbus_store.specs.Views.{View as Known, spent_view};

    ghost Value = { Known };

    ghost view = { λ _. spent_view };
}

/// The rule that holds between any two steps.
pub(crate) struct InTurn;

impl TableRule<Option<Stored>, View, Snapshot<Stored>> for InTurn {
    ghost use Rattle.modbus_store.specs.Views.{newcomer};
    ghost use Rattle.modbus_store.specs.Lock.{Kept, opening_of};

    ghost holds = { λ about. Kept (opening_of about.value) };

    ghost first = { λ about. newcomer (opening_of about.value) };
}

/// Step 1: draws a number.
pub(crate) struct DrawNumber;

impl Play<Option<Stored>, View> for DrawNumber {
    ghost use Rattle.modbus_store.specs.Plays.{DrewNumber};

    ghost then = { DrewNumber };
}

/// Step 2: draws a ticket.
pub(crate) struct DrawTicket;

impl Play<Option<Stored>, View> for DrawTicket {
    ghost use Rattle.modbus_store.specs.Plays.{DrewTicket};

    ghost then = { DrewTicket };
}

/// Step 3: looks whose turn it is, and takes the slot where it is one's own.
pub(crate) struct LookServing;

impl Play<Option<Stored>, View> for LookServing {
    ghost use Rattle.modbus_store.specs.Plays.{LookedServing};

    ghost then = { LookedServing };
}

/// Names the call that a step adds.
pub(crate) trait Adds {
    ghost use Rattle.modbus_store.specs.Legal.{Call};

    ghost added: { Call };
}

impl Adds for Brand {
    ghost use Rattle.modbus_store.specs.Plays.{no_call};

    ghost added = { no_call };
}

/// Step 5: counts a call, which joins the history here.
pub(crate) struct CountCall<E> {
    call: PhantomData<E>,
}

impl<E: Adds> Play<Option<Stored>, View> for CountCall<E> {
    ghost use Rattle.modbus_store.specs.Plays.{CountsCall};

    ghost then = { CountsCall E.added };
}

/// Step 7: lets the next one in, and gives the slot back.
pub(crate) struct Advance;

impl Play<Option<Stored>, View> for Advance {
    ghost use Rattle.modbus_store.specs.Plays.{Advanced};

    ghost then = { Advanced };
}

/// A step on a word that passes sleep on, of which the rule says nothing.
pub(crate) struct Ring;

impl Play<Option<Stored>, View> for Ring {
    ghost use Rattle.modbus_store.specs.Plays.{Rang};

    ghost then = { Rang };
}

/// Step 8: a new seat has seen as much.
pub(crate) struct Copies;

impl Split<View> for Copies {
    ghost use Rattle.modbus_store.specs.Views.{split_view};

    ghost left = { λ v. v };

    ghost right = { split_view };
}

/// Step 9: a seat takes in what another has seen.
pub(crate) struct Glues;

impl Join<View> for Glues {
    ghost use Rattle.modbus_store.specs.Views.{spent_view};
    ghost use Rattle.modbus_store.specs.Plays.{joined_view};

    ghost both = { joined_view };

    ghost spent = { spent_view };
}

/// Step 10: loads how many numbers were drawn.
pub(crate) struct LoadDrawn;

impl Play<Option<Stored>, View> for LoadDrawn {
    ghost use Rattle.modbus_store.specs.Plays.{LoadedDrawn};

    ghost then = { LoadedDrawn };
}
