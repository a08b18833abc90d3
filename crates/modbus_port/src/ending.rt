//! How a listener is ended from another thread.

use libc::net::{SHUT_RDWR, shutdown};
use std::net::TcpListener;
use std::os::fd::AsRawFd;
use std::sync::atomic::{AtomicBool, AtomicI32, Ordering};

/// No listener.
const NONE: i32 = -1;

/// What ends a listener, from whatever thread: it accepts no more peers, and each of its connections ends within a second.
#[derive(Drop)]
pub struct Ending {
    ended: AtomicBool,
    listener: AtomicI32,
}

impl Ending {
    /// One that was not told to end, and of no listener.
    pub fn new() -> Ending {
        Ending {
            ended: AtomicBool::new(false),
            listener: AtomicI32::new(NONE),
        }
    }

    /// What is set once the listener ends.
    pub(crate) fn flag(&self) -> &AtomicBool {
        &self.ended
    }

    /// Is that of this listener, which is shut down where it was to end before.
    pub(crate) fn attach(&self, listener: &TcpListener) {
        self.listener.store(listener.as_raw_fd(), Ordering::SeqCst);
        if self.ended.load(Ordering::SeqCst) {
            self.end();
        }
    }

    /// Is that of no listener any more. Who serves with a listener calls it before that is closed.
    pub(crate) fn detach(&self) {
        self.listener.store(NONE, Ordering::SeqCst);
    }

    /// Ends the listener. What waits for a peer fails at once.
    pub fn end(&self) {
        self.ended.store(true, Ordering::SeqCst);
        let listener = self.listener.load(Ordering::SeqCst);
        if listener != NONE {
            let _ = shutdown(listener, SHUT_RDWR);
        }
    }
}
