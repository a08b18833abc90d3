//! Modbus clients that are never one reply behind.
//!
//! After an answer that leaves a reply owed on its link, as a time-out does, a client over a connector shuts the link down, and its next
//! call makes a new one. A client of a line, as a serial line, lets it fall silent before its next request. So no answer is taken from the
//! bytes of an earlier request. Each is a `Client`, so it has the typed calls of `Reader` and `Writer`, and goes into a `Context`.
#![tactic(auto)]

mod call_line;
mod client;
mod idle;
mod idle_memory;
mod looking;
mod once;
mod opening;
mod owing;
mod raw;
mod reply;
mod resend;
mod rtu_over_tcp;
mod settling;
mod settling_client;
mod silences;
mod telling;
mod waiting;

pub use crate::call_line::CallLine;
pub use crate::client::ReconnectingClient;
pub use crate::idle_memory::IdleMemoryLink;
pub use crate::owing::leaves_nothing;
pub use crate::resend::Resend;
pub use crate::rtu_over_tcp::RtuOverTcpClient;
pub use crate::settling::{Unsettled, settle};
pub use crate::settling_client::SettlingClient;
pub use modbus_client::IdleLink;
use modbus_client::{rtu, tcp};

/// A client of a TCP device, which drops the responses of other transactions and units, and connects anew where its link is in doubt.
pub type TcpClient<C> = ReconnectingClient<tcp::OwnAdus, C>;

/// A client of the slaves of a serial line, which lets the line fall silent where it is in doubt. Noise and the frames of other slaves do not
/// end its calls, and a silence of the line ends every frame (MODBUS over Serial Line V1.02, sections 2.4.1 and 2.5.1.1).
pub type SerialClient<L> = SettlingClient<rtu::LineFrames, L>;
