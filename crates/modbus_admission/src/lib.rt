//! Connections of peers that may come, and of no other, for a program of one thread.
#![tactic(auto)]

mod acceptor;
pub mod laws;

pub use crate::acceptor::AdmittingAcceptor;
