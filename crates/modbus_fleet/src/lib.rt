//! Many devices that one thread asks, each over a link of its own.
//!
//! A `Device` is a machine with no clock and no waiting: it is away, or its link is idle, or a call is under way. A `Fleet` keeps devices
//! by key, polls those that may be ready, and tells each answer with its key. After an answer that leaves a reply owed, and after a call
//! that is given up, the link is dropped, so no answer is taken from the bytes of an earlier request. `Dues` keep a time under each key, as that at
//! which a call is given up or the next one is due, and find the next of many fast.
#![tactic(auto)]

mod conversation;
mod device;
mod dues;
mod fleet;

pub use crate::conversation::{Conversation, Stand};
pub use crate::device::Device;
pub use crate::dues::Dues;
pub use crate::fleet::{Fleet, Told};
