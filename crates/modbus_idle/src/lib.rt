//! Serial lines that are waited for and looked at by epoll, and connections that are looked at.
//!
//! A device reads until its line is silent for a few milliseconds, and a client of a line looks before each request whether something came
//! that was not asked for. A terminal tells neither by itself: its shortest wait is a tenth of a second; and the time-out of a socket is longer
//! than it was said to be.
#![tactic(auto)]

mod alive;
mod port_line;
mod watched;
mod watcher;

pub use crate::alive::keep_alive;
pub use crate::port_line::PortLine;
pub use crate::watched::{WatchedConnector, WatchedLink};
