//! What the programs share that have a command line: what it may have, its words, what clap has to say, and their status.
#![tactic(auto)]

mod arguments;
mod words;

pub use crate::arguments::{command, flag, option, positional};
pub use crate::words::{say, words_of};
pub use modbus_about::{FAILED, FilledStreams, USAGE, VERSION, fill_closed_streams};
