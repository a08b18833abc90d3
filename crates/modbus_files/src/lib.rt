//! Files in a device: Read File Record and Write File Record (Modbus Application Protocol V1.1b3, sections 6.14 and 6.15).
//!
//! A file is a row of records, each a register. `Files` keeps as many of them as were asked for, all of one length, and answers the data of a
//! request; `Filed` is a service that has them, `MaybeFiled` one that has them or none.
#![tactic(auto)]

mod answer;
mod filed;
mod files;
mod group;
mod maybe_filed;
mod write;

pub use crate::filed::Filed;
pub use crate::files::{Files, MAX_RECORDS};
pub use crate::group::Group;
pub use crate::maybe_filed::MaybeFiled;
