//! What the program does: it serves a device over its standard streams or to many connections, or makes requests and sums up the
//! replies. The program of crates/modbus calls it with the words of its command line.
#![tactic(auto)]

mod device;
mod gateway;
pub mod laws;
mod make;
mod plan;
pub mod port;
mod program;
mod services;
mod status;
mod words;

pub use crate::device::{open, open_shared};
pub use crate::gateway::{forward_client, run_gateway};
pub use crate::program::{run, run_task};
pub use crate::services::StoreServices;
pub use crate::status::{NO_MEMORY, USAGE_LINE, report_fault};
pub use crate::words::{Form, Mode, Task, listening, read_words};
pub use modbus_port::{Framing, run_listen};
