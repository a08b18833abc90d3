//! A device that holds coils, discrete inputs, holding registers and input registers, for one caller or for many.
//!
//! `RegisterStore` is a `Service`: it answers each request as the Modbus Application Protocol V1.1b3 says (sections 6 and 7).
//! `LentTables` is the same over tables that another keeps. `StoreTable` shares one store among many callers, and `SharedStore` is the
//! `Service` of one of them.
#![tactic(auto)]

mod bounds;
mod change;
mod history;
pub mod laws;
mod lent;
mod lock;
mod outcome;
mod pass;
mod plan;
mod read;
mod shared;
mod steps;
mod store;
mod table;
mod turn;
mod waiting;

pub use crate::change::Change;
pub use crate::history::{Entry, History};
pub use crate::lent::LentTables;
pub use crate::outcome::Outcome;
pub use crate::pass::{LastTurn, StorePass};
pub use crate::plan::Planned;
pub use crate::shared::SharedStore;
pub use crate::store::{OutOfRange, RegisterStore, Sizes, StoreError};
pub use crate::table::{ClosedStore, PassesOut, StoreTable};
