//! What is polled: devices, how each is reached, and the points of each.

use modbus_lines::Points;
use modbus_map::LinkKind;
use modbus_plant::Settings;
use std::alloc::{AllocError, AllocFailed, Global};
use std::time::Duration;

/// A device to poll.
#[derive(Drop)]
pub struct Target {
    /// The name by which it is told.
    pub name: String,
    /// The place of its link among the plant's.
    pub link: usize,
    pub settings: Settings,
    /// Its points, and the reads that give them.
    pub points: Points,
}

/// The devices to poll, in their order, and the links to them. Those that are reached in the same way share a link.
#[derive(Drop)]
pub struct Plant {
    pub links: Vec<LinkKind>,
    pub targets: Vec<Target>,
}

/// The place of a link among others: that of the same serial port, or of the same host and port, or behind them all.
fn place_of(links: &mut Vec<LinkKind>, link: LinkKind) -> Result<usize, AllocFailed<LinkKind>> {
    if let Some(place) = links.iter().position(|known| known == &link) {
        return Ok(place);
    }
    let place = links.len();
    links.push(link)?;
    Ok(place)
}

/// The longest time-out of the devices that share a link, this one at least.
fn longest(targets: &[Target], link: usize, timeout: Duration) -> Duration {
    let mut longest = timeout;
    for target in targets {
        if target.link == link && longest < target.settings.timeout {
            longest = target.settings.timeout;
        }
    }
    longest
}

impl Plant {
    /// A plant with no device.
    pub fn new(alloc: Global) -> Plant {
        Plant {
            links: Vec::new(alloc),
            targets: Vec::new(alloc),
        }
    }

    /// Adds a device that is reached by this link.
    ///
    /// # Errors
    /// Refused memory.
    pub fn add(&mut self, link: LinkKind, mut target: Target) -> Result<(), AllocError> {
        target.link = place_of(&mut self.links, link)?;
        self.targets.push(target)?;
        Ok(())
    }

    /// The settings by which the link of a device is opened: its own, with the longest time-out of the devices that share the link, by which
    /// the deadline of a call is kept.
    pub fn opening_of(&self, target: &Target) -> Settings {
        let mut settings = target.settings;
        settings.timeout = longest(self.targets.as_slice(), target.link, settings.timeout);
        settings
    }
}
