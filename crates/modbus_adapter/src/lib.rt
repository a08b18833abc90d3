//! Links for real lines: an adapter that gives back what is written, a pause between frames, a deadline for a call.
//!
//! Each is a link over another one, which does what that does and no more than its contract says beside it. `EchoedLink` drops the echo of
//! what was written. `PacedLink` keeps a pause between what is read and what is written behind it. `DeadlineLink` bounds the time of all
//! reads and writes of a call, and `DeadlineConnector` makes such links; `DeadlineLine` bounds it on a serial line, for the calls of a
//! `DeadlineClient`. `PausedConnector` makes links with a pause after a connection that failed.
#![tactic(auto)]

mod deadline;
mod deadline_client;
mod deadline_line;
mod echo;
mod moment;
mod nap;
mod owed;
mod paced;
mod paused;

pub use crate::deadline::{DeadlineConnector, DeadlineLink};
pub use crate::deadline_client::{DeadlineClient, DeadlineSerialClient};
pub use crate::deadline_line::DeadlineLine;
pub use crate::echo::{COLLISION_ROOM, EchoedLink};
pub use crate::owed::ECHO_ROOM;
pub use crate::paced::{PacedLink, pause_of};
pub use crate::paused::PausedConnector;
