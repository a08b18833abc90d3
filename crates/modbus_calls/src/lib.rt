//! Typed calls of the functions that serve the maintenance of a device, and of those that read and write records of files, for every
//! client (Modbus Application Protocol V1.1b3, sections 6.7 to 6.10 and 6.13 to 6.15).
//!
//! `Diagnoser` and `RecordKeeper` have them. Each makes one call of its client, as the calls of `Reader` and `Writer` do; Read Device
//! Identification is a call of `Reader`. `only_reads_code` says which requests of such functions change nothing on a device.
#![tactic(auto)]

mod data;
mod diagnoser;
mod diagnostic;
mod events;
mod files;
mod only_reads;
mod place;
mod records;
mod server;

pub use crate::diagnoser::Diagnoser;
pub use crate::diagnostic::Diagnostic;
pub use crate::events::{EventCounter, EventLog, MAX_EVENTS};
pub use crate::files::MAX_RECORDS_WRITTEN;
pub use crate::only_reads::only_reads_code;
pub use crate::place::{FilePlace, FileRange, LAST_RECORD, MAX_RECORDS_READ};
pub use crate::records::RecordKeeper;
pub use crate::server::ServerId;
