//! A register map and a read planner: numbers and texts that lie in the registers of a device, and states of its bits, few reads that give
//! them, and polls that make these reads.
//!
//! `plan_reads` makes a `Plan` for items in any order, which may overlap and repeat, and `plan_spans` one for spans of registers or bits, by
//! reads within the limits of a device. `poll` makes the reads of a plan by any client, each once, and gives the value of each item;
//! `value_of` gives one from the words of its registers. `poll_coils` gives the states of bits. `take_answer` and `values_among` are the steps
//! of a poll, for one that asks another way. The standard is the Modbus Application Protocol V1.1b3, which is meant by every section that is named here.
#![tactic(auto)]

mod inputs;
mod item;
mod limits;
mod notation;
mod number;
mod plan;
mod planner;
mod polling;
mod read;
mod span;
mod states;
mod text;
mod value;
mod words;

pub use crate::inputs::poll_inputs;
pub use crate::item::{Item, Kind, Order};
pub use crate::limits::plan_spans;
pub use crate::notation::{Point, PointError, Table, parse_point};
pub use crate::number::number_within;
pub use crate::plan::{Plan, PlanError};
pub use crate::planner::plan_reads;
pub use crate::polling::{PollError, poll, take_answer};
pub use crate::read::Read;
pub use crate::span::{Limits, Span};
pub use crate::states::{poll_coils, poll_discrete_inputs};
pub use crate::text::shown;
pub use crate::value::{Value, value_of};
pub use crate::words::values_among;
