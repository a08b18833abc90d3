//! Services: what answers the requests of a server, and what a run of one is.
//!
//! A service says by a relation what it answers and where it then stands, and every promise of a server is one about runs of its
//! service. `Service` is for what refused memory leaves as it was, as a device with tables is; `Answerer` is for the rest, as a
//! gateway that has written to a line.
#![tactic(auto)]

pub mod laws;
mod only_unit;
mod service;
mod units;

pub use crate::only_unit::OnlyUnit;
pub use crate::service::{Answerer, Forward, Service, ServiceError};
pub use crate::units::{Units, UnitsError};
