//! Clients of a serial line in the ASCII transmission mode (MODBUS over Serial Line V1.02, section 2.5.2).
//!
//! The reply is the first whole frame with a right LRC from the slave that was asked, whatever pieces its characters come in. All else is
//! dropped: noise, what stands before the `:`, a frame that is cut off or has a wrong LRC, and a frame of another slave, which is counted.
#![tactic(auto)]

mod client;
pub mod laws;
mod search;

pub use crate::client::{Client, Frames, PolledCall, attach, attach_slave, open_call};
use modbus_reconnect::SettlingClient;

/// A client of the slaves of a serial line in the ASCII transmission mode, over a link that tells silence, which lets the line fall silent where it
/// is in doubt.
///
/// A silence ends a frame that was begun, so it is to be longer than the time that the line lets pass between two characters: the standard lets
/// a second pass (section 2.5.2.1).
pub type SerialClient<L> = SettlingClient<Frames, L>;
