//! Why a text is no map.

use std::alloc::{AllocError, Global};
use std::fmt;

/// Why a word of a map is refused.
#[derive(Clone, Copy, Debug, PartialEq, Eq, thiserror::Error)]
pub enum Reason {
    /// No key of its table.
    #[error("no such key here")]
    UnknownKey,
    /// The key has to be told.
    #[error("this key is missing")]
    Missing,
    /// It has to be a text in quotes.
    #[error("a text in quotes is wanted")]
    Text,
    /// It has to be an integer from the first to the second.
    #[error("an integer from {0} to {1} is wanted")]
    Integer(i64, i64),
    /// It has to be `true` or `false`.
    #[error("true or false is wanted")]
    Boolean,
    /// It has to be a list.
    #[error("a list in brackets is wanted")]
    List,
    /// It has to be a table of keys.
    #[error("a table of keys is wanted")]
    Table,
    /// A number with a point is not exact in TOML: it has to be a text.
    #[error("write the number in quotes, which keeps it exact")]
    Float,
    /// No number in decimal.
    #[error("a number in decimal is wanted, as \"0.1\" or 10")]
    Number,
    /// No kind of value.
    #[error("no kind: bool, bit 3, u16, i16, u32, i32, u64, i64, f32, f64, text 8")]
    Kind,
    /// No order of bytes.
    #[error("no order: ABCD, CDAB, BADC or DCBA")]
    Order,
    /// No table.
    #[error("no table: coils, discrete inputs, input registers or holding registers")]
    TableName,
    /// No address.
    #[error("no address: 0 to 65535, \"0x0100\", or \"40101\" as in manuals")]
    Address,
    /// The address of a manual is one of another table.
    #[error("this address is one of another table")]
    OtherTable,
    /// The kind does not lie in the table.
    #[error("no such kind lies in its table")]
    Fit,
    /// It passes the last address, or one read cannot give it.
    #[error("it passes address 65535, or is longer than one read may be")]
    TooLong,
    /// A factor of 0.
    #[error("a factor of 0 makes every value the same")]
    ZeroFactor,
    /// A factor or an offset of too many digits.
    #[error("too many digits")]
    TooManyDigits,
    /// A kind that takes no factor and no offset.
    #[error("only integers have a factor and an offset")]
    NoScale,
    /// What no client can write.
    #[error("only coils and whole holding registers can be written")]
    NotWritable,
    /// No time.
    #[error("no time: 500ms, 1s, 2min or 1h")]
    Time,
    /// Neither one nor another of the three ways.
    #[error("one of tcp, rtu_over_tcp and serial is wanted")]
    Link,
    /// No host and port.
    #[error("a host is wanted, or a host and a port, as \"192.0.2.1:502\"")]
    Host,
    /// Two keys that tell the same.
    #[error("gaps and max_gap tell the same: one is wanted")]
    TwoGaps,
    /// A name that stands twice.
    #[error("this name stands twice")]
    Twice,
    /// No group of this name.
    #[error("no group of this name")]
    UnknownGroup,
}

/// Why a table of a map is refused: the word and the reason.
#[derive(Debug, PartialEq, Eq, Drop)]
pub enum Fault {
    /// This word, for this reason.
    Refused { word: String, reason: Reason },
    /// Memory was refused.
    NoMemory,
}

impl From<AllocError> for Fault {
    ghost use Rattle.std.specs.Prelude.{◌≡◌};
    ghost use Rattle.modbus_map.specs.declared.file.fault.Fault.TheVariants as faults;

    ghost from_gives = { λ _ fault. fault ≡ faults.NoMemory };

    fn from(_error: AllocError) -> Fault {
        Fault::NoMemory
    }
}

/// The fault of a word.
pub(crate) fn refused(alloc: Global, word: &str, reason: Reason) -> Fault {
    match String::from_str(alloc, word) {
        Ok(word) => Fault::Refused { word, reason },
        Err(_) => Fault::NoMemory,
    }
}

/// Where in a map a word stands.
#[derive(Debug, PartialEq, Eq, Drop)]
pub enum MapPlace {
    /// In no device.
    Map,
    /// In the device of this name.
    Device(String),
    /// In the device of the first name, and there in the point of the second.
    Point(String, String),
}

impl fmt::Display for MapPlace {
    fn fmt<W: fmt::Write>(&self, f: &mut fmt::Formatter<W>) -> fmt::Result {
        match self {
            MapPlace::Map => f.write_str("the map"),
            MapPlace::Device(device) => write!(f, "device {device}"),
            MapPlace::Point(device, point) => write!(f, "device {device}, point {point}"),
        }
    }
}

/// Why a text is no map, in one line.
#[derive(Debug, PartialEq, Eq, Drop, thiserror::Error)]
pub enum MapError {
    /// It is no TOML: the line, from 1, and what is wrong there.
    #[error("line {line}: {message}")]
    Toml {
        line: usize,
        message: String,
    },
    /// It is TOML, and at this place a word is refused.
    #[error("{place}: {word}: {reason}")]
    Refused {
        place: MapPlace,
        word: String,
        reason: Reason,
    },
    /// Memory was refused.
    #[error("no memory")]
    NoMemory,
}

impl From<AllocError> for MapError {
    ghost use Rattle.std.specs.Prelude.{◌≡◌};
    ghost use Rattle.modbus_map.specs.declared.file.fault.MapError.TheVariants as errors;

    ghost from_gives = { λ _ error. error ≡ errors.NoMemory };

    fn from(_error: AllocError) -> MapError {
        MapError::NoMemory
    }
}

/// Where in a map a word stands, while it is read.
#[derive(Clone, Copy)]
pub(crate) enum At<'a> {
    /// In no device.
    Map,
    /// In the device of this name.
    Device(&'a str),
    /// In a device, and in the point of this name.
    Point(&'a str, &'a str),
}

impl At<'_> {
    /// The place.
    fn place(self, alloc: Global) -> Result<MapPlace, AllocError> {
        match self {
            At::Map => Ok(MapPlace::Map),
            At::Device(device) => Ok(MapPlace::Device(String::from_str(alloc, device)?)),
            At::Point(device, point) => {
                let device = String::from_str(alloc, device)?;
                Ok(MapPlace::Point(device, String::from_str(alloc, point)?))
            }
        }
    }

    /// The error of a fault that stands there.
    pub(crate) fn error(self, alloc: Global, fault: Fault) -> MapError {
        let (word, reason) = match fault {
            Fault::Refused { word, reason } => (word, reason),
            Fault::NoMemory => return MapError::NoMemory,
        };
        match self.place(alloc) {
            Ok(place) => MapError::Refused {
                place,
                word,
                reason,
            },
            Err(_) => MapError::NoMemory,
        }
    }
}
