//! A serial line whose adapter may give back what is sent, which nobody told.
//!
//! The receiver of a two-wire line that stays on while its driver sends hears what is sent (MODBUS over Serial Line V1.02, section 3.3.2), and
//! a device takes its reply for a request then: that to a write of one coil or register is the request itself, which is done again and again.
//! `EchoGuard` learns by the silences of the line whether replies come back.
#![tactic(auto)]

mod bytes;
mod guard;
pub mod laws;

pub use crate::guard::{Echo, EchoGuard, FRAME};
