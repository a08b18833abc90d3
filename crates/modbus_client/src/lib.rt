//! Modbus clients: a client sends a request over its link and waits for the reply, whatever pieces its bytes come in.
//!
//! A `Call` is a machine without IO: it has the bytes of a request to be written, and is fed the bytes that come. The clients of a
//! serial line and of TCP drive it over a link, with blocking reads and writes, and a `PolledCall` drives it over one that may not be
//! ready. Every `Client` has the typed calls of `Reader` and
//! `Writer`, also a caller's own one; a `Context` is any of them behind a box.
#![tactic(auto)]

mod call;
mod client;
mod context;
mod drive;
mod idle;
pub mod laws;
mod line;
mod line_length;
mod link_client;
mod matching;
mod polled;
pub mod prelude;
mod protocol;
mod raw;
mod reader;
mod reading;
pub mod rtu;
mod stream;
mod stream_judge;
pub mod tcp;
mod transactions;
mod typed;
mod writer;

pub use crate::call::{Call, ROOM};
pub use crate::client::Client;
pub use crate::context::Context;
pub use crate::idle::IdleLink;
pub use crate::link_client::{LinkClient, TURNS};
pub use crate::polled::PolledCall;
pub use crate::protocol::{LineProtocol, LookError, Protocol, Reply};
pub use crate::raw::{AsItCame, RawLineProtocol, RawProtocol};
pub use crate::reader::Reader;
pub use crate::reading::{AsBytes, AsResponse, Reading};
pub use crate::writer::Writer;
