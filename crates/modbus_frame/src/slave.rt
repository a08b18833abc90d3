//! The address of a device (MODBUS over Serial Line V1.02, section 2.2).
//!
//! A client selects a slave for its requests. On a serial line 0 is the broadcast address, 1 to 247 are single
//! devices, and 248 to 255 are reserved. In TCP the same byte is the unit identifier of the MBAP header.
ghost use Rattle.std.specs.Prelude.{◌≡◌, ℕ, ◌≤◌, ◌<◌, ◌↔◌, IsTrue, Some};
ghost use Rattle.modbus_frame.specs.SlaveText.{slave_text, ParsesSlave};

use std::fmt;
use std::str::FromStr;
use thiserror::Error;

/// The number of a slave, or the unit identifier of a TCP device.
pub type SlaveId = u8;

/// The address of a device, ordered by its number.
#[derive(Clone, Copy, Debug, PartialEq, Eq, PartialOrd, Ord, Hash)]
pub struct Slave(pub SlaveId);

impl Slave {
    /// All devices of a serial line at once, which do not answer: 0.
    pub const fn broadcast() -> Self
        ensures { result.0 ≡ 0 }
    {
        Slave(0)
    }

    /// The lowest address of a single device: 1.
    pub const fn min_device() -> Self
        ensures { result.0 ≡ 1 }
    {
        Slave(1)
    }

    /// The highest address of a single device: 247.
    pub const fn max_device() -> Self
        ensures { result.0 ≡ 247 }
    {
        Slave(247)
    }

    /// A device that is reached by its TCP address alone, and not through a gateway: 255
    /// (MODBUS Messaging on TCP/IP V1.0b, section 4.4).
    pub const fn tcp_device() -> Self
        ensures { result.0 ≡ 255 }
    {
        Slave(255)
    }

    /// Whether it is the broadcast address, 0.
    pub const fn is_broadcast(self) -> bool
        ensures { IsTrue result ↔ (self.0 ≡ 0) }
    {
        self.0 == 0
    }

    /// Whether it is the address of a single device, 1 to 247.
    pub const fn is_single_device(self) -> bool
        ensures { IsTrue result ↔ ((1 ≤ self.0) × (self.0 ≤ 247)) }
    {
        self.0 >= 1 && self.0 <= 247
    }

    /// Whether it is a reserved address, 248 to 255.
    pub const fn is_reserved(self) -> bool
        ensures { IsTrue result ↔ (247 < self.0) }
    {
        self.0 > 247
    }
}

impl From<SlaveId> for Slave {
    ghost from_gives = { λ id slave. slave.0 ≡ id };

    fn from(id: SlaveId) -> Slave {
        Slave(id)
    }
}

impl From<Slave> for SlaveId {
    ghost from_gives = { λ slave id. id ≡ slave.0 };

    fn from(slave: Slave) -> SlaveId {
        slave.0
    }
}

/// The number in decimal, and in two upper-case hexadecimal digits: `123 (0x7B)`.
impl fmt::Display for Slave {
    ghost output = { λ slave. Some (slave_text slave.0) };

    fn fmt<W: fmt::Write>(&self, f: &mut fmt::Formatter<W>) -> fmt::Result {
        let Slave(id) = *self;
        write!(f, "{id} (0x{id:02X})")
    }
}

/// The text is not the address of a slave.
#[derive(Clone, Copy, Debug, PartialEq, Eq, Error)]
#[error("invalid slave address")]
pub struct ParseSlaveError;

/// Reads a number up to 255: decimal digits, or `0x` and hexadecimal digits of either case. One `+` may stand before the
/// digits. Every other text is a [`ParseSlaveError`].
impl FromStr for Slave {
    type Err = ParseSlaveError;

    ghost from_str_gives = { λ bytes result. ParsesSlave (λ slave. slave.0) bytes result };

    fn from_str(text: &str) -> Result<Slave, ParseSlaveError> {
        if let Ok(id) = text.parse::<u8>() {
            return Ok(Slave(id));
        }
        let digits = text.strip_prefix("0x").ok_or(ParseSlaveError)?;
        match u8::from_str_radix(digits, 16) {
            Ok(id) => Ok(Slave(id)),
            Err(_) => Err(ParseSlaveError),
        }
    }
}

/// What sends its requests to one slave at a time, as a client does.
pub trait SlaveContext {
    // the number of the slave that requests go to
    ghost selected: { Self → ℕ };

    // what selecting a slave may lead to, by the state before, the slave's number and the state after; an
    // implementation says here what else it changes and leaves, and by default nothing is said
    ghost set_slave_gives: { Self → ℕ → Self → Type 0 } = { λ _ _ _. Unit {0} };

    /// Selects the slave for all later requests.
    fn set_slave(&mut self, slave: Slave)
        ensures selects { selected self.new ≡ slave.0 }
        ensures gives { set_slave_gives self.old slave.0 self.new };
}
