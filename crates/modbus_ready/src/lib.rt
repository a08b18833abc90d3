//! What a program of one thread and many links waits on: which of them may be ready, and who connects.
//!
//! Nothing is rested on what a source of readiness says, since a link that is asked and is not ready says so itself. So a `Readiness` promises
//! its count of faults alone, and what it was told: under which key to watch a link, and how long to wait. It tells what it found, so that each
//! link of which it tells can be promised to be asked. There is one over mio
//! (epoll), with links and an acceptor over TCP that never wait, and one in memory that follows a schedule.
#![tactic(auto)]

mod acceptor;
mod mio_readiness;
mod peered;
mod readiness;
mod setback;
mod tcp_acceptor;
mod tcp_link;
mod token;

pub use acceptor::{PolledAcceptor, ScheduledAcceptor};
pub use mio_readiness::MioReadiness;
pub use peered::{PeerAddress, Peered};
pub use readiness::{Readiness, Ready, ScheduledReadiness};
pub use tcp_acceptor::PolledTcpAcceptor;
pub use tcp_link::PolledTcpLink;
