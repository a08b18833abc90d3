//! What asks the system whether a descriptor has something to be read.
//!
//! What the system reports is trusted no further than that nothing came: where it reports something, or refuses to, as for a file that is no
//! terminal, pipe or socket, the next read tells.

use mio::unix::SourceFd;
use mio::{Events, Interest, Poll, Token};
use std::alloc::{AllocGlobal, Global};
use std::io;
use std::net::Net;
use std::os::fd::RawFd;
use std::time::Duration;

/// The token of the one descriptor that is watched.
const LINE: Token = Token(0);

/// What watches one descriptor, if the system lets it be watched.
#[derive(Drop)]
pub(crate) struct Watcher {
    fd: RawFd,
    watch: Option<Watch>,
}

/// What the system was asked to watch it with.
#[derive(Drop)]
struct Watch {
    poll: Poll,
    events: Events,
}

/// Starts to watch a descriptor.
///
/// # Errors
/// Where the system or memory is refused.
fn start<R: Net + AllocGlobal>(rt: &R, fd: RawFd) -> io::Result<Watch> {
    let alloc: Global = rt.alloc();
    let poll = Poll::new(rt)?;
    poll.registry()
        .register(&mut SourceFd(&fd), LINE, Interest::READABLE)?;
    let events = Events::with_capacity(alloc, 1)?;
    Ok(Watch { poll, events })
}

impl Watch {
    /// Whether something can be read within this time.
    ///
    /// # Errors
    /// Where the system refuses.
    fn finds(&mut self, fd: RawFd, within: Duration) -> io::Result<bool> {
        // Each change is told once, so that what lies there already is asked for anew.
        self.poll
            .registry()
            .reregister(&mut SourceFd(&fd), LINE, Interest::READABLE)?;
        self.poll.poll(&mut self.events, Some(within))?;
        Ok(!self.events.is_empty())
    }
}

impl Watcher {
    /// What watches this descriptor.
    pub(crate) fn new<R: Net + AllocGlobal>(rt: &R, fd: RawFd) -> Watcher {
        Watcher {
            fd,
            watch: start(rt, fd).ok(),
        }
    }

    /// Whether something may have come within this time. A descriptor that can't be watched may give something at any time.
    pub(crate) fn may_give(&mut self, within: Duration) -> bool {
        match &mut self.watch {
            Some(watch) => watch.finds(self.fd, within).unwrap_or(true),
            None => true,
        }
    }
}
