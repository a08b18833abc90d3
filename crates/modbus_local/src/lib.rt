//! A request to a service without a transport: for the tests of a service, and for a service in the same program.
//!
//! `exchange` asks one request, and answers as a client of a serial line would whose server has this service. `poll_service` makes the
//! reads of a plan so, each once.
#![tactic(auto)]

pub mod laws;
mod local;
mod polling;

pub use crate::local::exchange;
pub use crate::polling::poll_service;
