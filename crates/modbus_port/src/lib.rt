//! A port of this machine: what programs stand on that listen on one, with a thread of a scope for each connection.
#![tactic(auto)]

mod ending;
pub mod laws;
mod listen;
mod patient;
mod port;
mod services;
mod serving;
mod telling;
mod turning;
mod watched;

pub use crate::ending::Ending;
pub use crate::listen::{Framing, run_listen};
pub use crate::patient::{Keeper, PatientAcceptor};
pub use crate::port::{PortAcceptor, PortKeeper, accept_port, bind, loopback};
pub use crate::services::Services;
pub use crate::serving::{serve_listener, serve_peers};
pub use crate::telling::report;
pub use crate::turning::TurningSpawner;
pub use crate::watched::{WatchedAcceptor, WatchedLink};
