//! Which peers are served, by their addresses. Modbus has no passwords, so this is what lets no one in who doesn't belong there.
#![tactic(auto)]

mod peers;

pub use crate::peers::{Network, Peers};
