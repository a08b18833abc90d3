//! How another crate stands on modbus_server: a framing of its own, and an answerer that refused memory leaves changed.
//!
//! `Singles` is the least framing that there is, and `Counter` the least answerer that is no `Service`. `serve_singles` serves one by
//! the other, with the promises of any server.
#![tactic(auto)]

mod counter;
mod serve;
mod single;
mod thermometer;

pub use crate::counter::Counter;
pub use crate::serve::serve_singles;
pub use crate::single::{Singles, Zero};
pub use crate::thermometer::Thermometer;
