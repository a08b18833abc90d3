//! What masters may do: which units they may ask, and what they may write. Modbus has no passwords, so this is what keeps masters from what
//! they have no part in.
//!
//! `Rules` judges a request. A gateway asks its line by them, and `Restricted` is a service that they stand before, as that of a device.
#![tactic(auto)]

pub mod laws;
mod restricted;
mod rules;

pub use crate::restricted::Restricted;
pub use crate::rules::{Rules, UnitSpan, WriteSpan};
