//! The outside of a Modbus program: where its bytes come from and go to.
//!
//! A `Source` gives bytes and a `Sink` takes them; both are described by what they mean, so that a contract above can say which
//! bytes a call read and wrote, in which pieces, and what failed. There are sources and sinks in memory, which tell all that, and
//! adapters over the readers and writers of std, which tell only how often they failed. A `Link` has both ends and can be shut down,
//! a `Connector` makes links to addresses, an `Acceptor` gives the links of peers that connect, and a `Stop` is a signal to stop; each is
//! there in memory, and over TCP or a shared flag. A `Spawner` starts `Worker`s, on the caller or in threads of a scope. A `PolledLink` may
//! not be ready, and says so where another waits; a `TimedLink` waits for a while first, and so tells silence.
#![tactic(auto)]

mod acceptor;
mod both;
mod connector;
mod link;
mod memory;
mod memory_link;
mod outside;
mod polled;
mod reading;
mod real;
mod room;
mod silence;
mod spawner;
mod stop;
mod tcp;
mod terminal;
mod timed;
mod write;

pub use acceptor::{Acceptor, MemoryAcceptor};
pub use both::Both;
pub use connector::{Connector, MemoryConnector};
pub use link::Link;
pub use memory::{MemorySink, MemorySource};
pub use memory_link::MemoryLink;
pub use outside::{Cut, Ends, Failed, Sink, Source};
pub use polled::{Polled, PolledLink, PolledMemoryLink};
pub use real::{ReadSource, WriteSink};
pub use room::READ_ROOM;
pub use silence::{TerminalLink, TimedLink, TimedMemoryLink, TimedTcpLink};
pub use spawner::{InlineSpawner, ScopeSpawner, Spawner, Worker};
pub use stop::{FlagStop, MemoryStop, Stop};
pub use tcp::{TcpAcceptor, TcpConnector, TcpLink};
pub use terminal::TerminalLine;
pub use write::{flush, write_all};
