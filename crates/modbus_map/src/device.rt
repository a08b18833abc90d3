//! Devices of a plant: how each is reached, how often it is asked, and its points.
ghost use Rattle.std.specs.Prelude.{◌≡◌, ◌≢◌, All, IfSome, IfNone, string_bytes};
ghost use Rattle.modbus_map.specs.declared.device.Device.{Device};
ghost use Rattle.modbus_map.specs.declared.point.Point.{Point};

use crate::point::Point;
use modbus_poll::Limits;
use std::time::Duration;

/// How a device is reached.
#[derive(Debug, PartialEq, Eq, Drop)]
pub enum LinkKind {
    /// Modbus TCP, at a host and a port, as `192.0.2.1:502`.
    Tcp(String),
    /// RTU frames over TCP, at a host and a port.
    RtuOverTcp(String),
    /// RTU on a serial line, by the path of its port.
    Serial(String),
}

/// A device and its points.
#[derive(Debug, PartialEq, Eq, Drop)]
pub struct Device {
    /// Its name, which no other device has.
    pub name: String,
    /// How it is reached.
    pub link: LinkKind,
    /// Its unit identifier, or slave address.
    pub unit: u8,
    /// How often it is polled, where the map tells it.
    pub every: Option<Duration>,
    /// How long an answer is waited for.
    pub timeout: Duration,
    /// How often a read is made again that has no answer.
    pub retries: u8,
    /// What one read of its registers may give. Of bits a read may give 2000, with the same gaps.
    pub limits: Limits,
    /// Its points, with names that differ.
    pub points: Vec<Point>,
}

/// The map of a plant.
#[derive(Debug, PartialEq, Eq, Drop)]
pub struct Map {
    /// Its devices, in the order of the text, with names that differ.
    pub devices: Vec<Device>,
}

impl Map {
    /// The device of a name.
    pub fn device(&self, name: &str) -> Option<&Device>
        ensures named { IfSome result (λ device. string_bytes device.now.name ≡ name.now) }
        ensures none { IfNone result
            (All (λ (device : Device). string_bytes device.name ≢ name.now) self.now.devices.items) }
    {
        self.devices
            .iter()
            .find(|device| device.name.as_str() == name)
    }

    /// The point of a name, of the device of a name.
    pub fn find(&self, device: &str, point: &str) -> Option<&Point>
        ensures { IfSome result (λ found. string_bytes found.now.name ≡ point.now) }
    {
        self.device(device)?.point(point)
    }
}

impl Device {
    /// The point of a name.
    pub fn point(&self, name: &str) -> Option<&Point>
        ensures named { IfSome result (λ point. string_bytes point.now.name ≡ name.now) }
        ensures none { IfNone result
            (All (λ (point : Point). string_bytes point.name ≢ name.now) self.now.points.items) }
    {
        self.points.iter().find(|point| point.name.as_str() == name)
    }
}
