//! A server of many connections on one thread, over whatever accepts them and tells which are ready.
//!
//! The connections stand side by side in `Seats`, take turns at one service, and are accepted and waited for by an `EventServer`. Whatever
//! the order in which they are ready, there is one run of the service over what they asked, in the order of their turns, and each
//! connection has the contract of `process` over its own messages.
#![tactic(auto)]

mod counted;
pub mod laws;
mod losses;
mod progress;
mod rationed;
mod seat;
mod seats;
mod server;
mod sweeps;
mod turn;
mod watcher;

pub use counted::Counted;
pub use losses::Losses;
pub use progress::Progress;
pub use seat::Seat;
pub use seats::{Limits, Places, Seats};
pub use server::EventServer;
pub use sweeps::Deadlines;
pub use turn::{Taken, Turn, TurnLimits, take_turn};
pub use watcher::{Unwatched, Watcher};
