//! Modbus servers: a service answers the requests of one connection, whatever pieces its bytes come in.
#![tactic(auto)]

mod answer;
mod connection;
mod drive;
mod error;
mod framing;
pub mod laws;
mod listener;
mod piece;
mod polled;
pub mod rtu;
pub mod rtu_over_tcp;
mod serving;
pub mod tcp;
mod worker;

pub use crate::connection::Connection;
pub use crate::error::{Next, NextError, PolledTurn, ProcessError, ServeError, Step};
pub use crate::framing::{Framing, NoFault};
pub use crate::listener::{Server, accept_tcp_connection, serve_acceptor, serve_in_scope};
pub use crate::piece::serve_piece;
pub use crate::polled::PolledProcess;
pub use crate::serving::{serve, serve_link, serve_until};
pub use crate::worker::ConnectionWorker;
pub use modbus_frame::Terminated;
pub use modbus_service::{Answerer, Forward, Service, ServiceError};
