//! A gateway makes the devices of one serial line reachable over Modbus TCP (MODBUS Messaging on TCP/IP V1.0b, section 4.4).
//!
//! Each request of a TCP connection goes to the line once, as an RTU frame for the slave that its unit identifier names, and what the
//! line answers goes back under the transaction and the unit of the request.
//!
//! Many masters share one line under a lock, so there is one exchange on it at a time, and none within another. Each connection has a
//! service of its own, which takes the lock for one exchange. A request that waited longer for its turn than masters wait is not made. A
//! line that may still bring a late reply is left to fall silent before its next exchange, so no master gets the reply of another's
//! request.
#![tactic(auto)]

mod answer;
mod gateway;
mod guarded;
pub mod laws;
mod reading;
mod reopened;
mod serial;
mod service;
mod serving;
mod sparing;
mod standing;
mod timely;
mod turns;
mod watcher;

pub use crate::answer::{answer_broadcast, answer_call};
pub use crate::gateway::{Forwarder, Gateway};
pub use crate::guarded::Guarded;
pub use crate::reopened::{LineOpener, MayBreak, Reopened};
pub use crate::serial::SerialLine;
pub use crate::service::{LineService, LineServices, Services, ServicesOut};
pub use crate::serving::process;
pub use crate::sparing::Sparing;
pub use crate::standing::SparingLimits;
pub use crate::turns::{CONNECTIONS, Opening, SharedLine};
pub use crate::watcher::{LineChange, Watcher};
