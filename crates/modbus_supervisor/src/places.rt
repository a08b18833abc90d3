//! The connections over which devices are polled. Devices at one address share them.

use crate::queue::Queue;
use std::alloc::{AllocError, Global};
use std::net::SocketAddr;

/// A connection to an address, and who is polled over it.
#[derive(Drop)]
pub struct Place {
    /// Where it goes.
    pub address: SocketAddr,
    /// Whose poll is under way over it, and who waits.
    pub queue: Queue,
    /// Whether no answer came over it yet.
    pub is_fresh: bool,
    // how many devices are polled over it
    devices: u32,
}

impl Place {
    /// Whether several devices are polled over it.
    pub fn is_shared(&self) -> bool {
        self.devices > 1
    }
}

/// The connections, each under its place.
#[derive(Drop)]
pub struct Places {
    all: Vec<Place>,
    // how many go to one address at most
    most: usize,
}

impl Places {
    /// No connection yet, and at most so many to one address.
    pub fn new(alloc: Global, most: usize) -> Places {
        Places {
            all: Vec::new(alloc),
            most: most.max(1),
        }
    }

    /// How many there are.
    pub fn len(&self) -> usize {
        self.all.len()
    }

    /// The connection at a place.
    pub fn get(&self, place: usize) -> Option<&Place> {
        self.all.get(place)
    }

    /// The connection at a place.
    pub fn get_mut(&mut self, place: usize) -> Option<&mut Place> {
        self.all.get_mut(place)
    }

    /// How many connections go to an address, and the place of the one of them with the fewest devices.
    fn emptiest(&self, address: SocketAddr) -> (usize, Option<usize>) {
        let mut count = 0_usize;
        let mut found = None;
        let mut fewest = u32::MAX;
        for (place, it) in self.all.iter().enumerate() {
            if it.address == address {
                count = count.saturating_add(1);
                if it.devices < fewest {
                    fewest = it.devices;
                    found = Some(place);
                }
            }
        }
        (count, found)
    }

    /// The place of the connection over which one more device at an address is polled: a new one, or where there are as many as there may be
    /// the one with the fewest devices.
    ///
    /// # Errors
    /// Refused memory.
    pub fn take_in(&mut self, alloc: Global, address: SocketAddr) -> Result<usize, AllocError> {
        let (count, emptiest) = self.emptiest(address);
        if count >= self.most {
            if let Some(place) = emptiest {
                self.add_device(place);
                return Ok(place);
            }
        }
        let place = self.all.len();
        self.all.push(Place {
            address,
            queue: Queue::new(alloc),
            is_fresh: true,
            devices: 1,
        })?;
        Ok(place)
    }

    /// One more device is polled over the connection at a place.
    fn add_device(&mut self, place: usize) {
        if let Some(it) = self.all.get_mut(place) {
            it.devices = it.devices.saturating_add(1);
        }
    }
}
