//! Whose turn it is at a connection that several devices share.
ghost use Rattle.std.specs.Prelude.{◌≡◌, ◌++◌, [], None, OnErr, option_to_list};
ghost use Rattle.modbus_supervisor.specs.Queues.{IsEntered};

use std::alloc::{AllocError, Global};
use std::collections::VecDeque;
use std::marker::Model;

/// The devices that share a connection, as those behind a gateway: the one whose poll is under way, and those that wait for theirs, in the order
/// in which they came.
#[derive(Drop)]
pub struct Queue {
    current: Option<usize>,
    waiting: VecDeque<usize>,
}

/// A contract sees whose poll is under way, and who waits.
impl Model for Queue {
    ghost use Rattle.modbus_supervisor.specs.Queues.{QueueState};

    ghost Value = { QueueState };

    ghost view = { λ it. record { current = it.current; waiting = it.waiting.items } };
}

impl Queue {
    /// A queue in which no device is.
    pub fn new(alloc: Global) -> Queue
        ensures { (result.current ≡ None) × (result.waiting ≡ []) }
    {
        Queue {
            current: None,
            waiting: VecDeque::new(alloc),
        }
    }

    /// The device whose poll is under way.
    pub fn current(&self) -> Option<usize>
        ensures { result ≡ self.now.current }
    {
        self.current
    }

    /// Has a device polled: at once where no poll is under way; else it waits behind the others. Whether it is polled at once.
    ///
    /// # Errors
    /// `AllocError` where memory is refused: it does not wait then.
    pub fn enter(&mut self, key: usize) -> Result<bool, AllocError>
        ensures enters { IsEntered key self.old result self.new }
        ensures stays { OnErr result (self.new ≡ self.old) }
    {
        let Some(_current) = self.current else {
            self.current = Some(key);
            return Ok(true);
        };
        match self.waiting.push_back(key) {
            Ok(()) => Ok(false),
            Err(_) => Err(AllocError),
        }
    }

    /// Ends the poll that is under way: the next is that of the device that waited for longest, which is told.
    pub fn leave(&mut self) -> Option<usize>
        ensures next { self.new.current ≡ result }
        ensures first { self.old.waiting ≡ option_to_list result ++ self.new.waiting }
    {
        self.current = self.waiting.pop_front();
        self.current
    }
}
