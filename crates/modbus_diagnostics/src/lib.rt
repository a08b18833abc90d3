//! What a device says of itself: its diagnostics, and in `identity` who it is (Modbus Application Protocol V1.1b3, sections 6.7 to 6.10,
//! 6.13 and 6.21).
//!
//! A port hears every message of its line, and noise. It counts and logs what it hears and how that ends, and answers by itself what asks
//! for that: Read Exception Status, Diagnostics, Get Comm Event Counter and Get Comm Event Log. All else is its units'.
#![tactic(auto)]

mod counters;
mod heard;
pub mod identity;
mod journal;
pub mod laws;
mod port;
mod port_units;
mod query;

pub use crate::counters::{Counters, Ended};
pub use crate::heard::Heard;
pub use crate::journal::MOST_EVENTS;
pub use crate::port::{Port, PortError};
pub use crate::query::Query;
