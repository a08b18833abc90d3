//! A device that is polled.

use crate::turn::Turn;
use crate::watched::Watched;
use modbus_frame::Slave;

/// A device of the plant.
#[derive(Drop)]
pub struct Supervised {
    /// The place of the connection over which it is polled.
    pub place: usize,
    /// Its unit identifier.
    pub unit: Slave,
    /// Its points, and how far its poll is.
    pub watched: Watched,
    /// When it is polled.
    pub turn: Turn,
    /// How many milliseconds a read may take.
    pub timeout: u64,
    /// How often a read is made again that has no answer.
    pub retries: u8,
    /// How often the one that is asked still is.
    pub tries: u8,
    /// How many polls in a row it was away.
    pub misses: u32,
    /// Whether it answered some read.
    pub has_answered: bool,
}
