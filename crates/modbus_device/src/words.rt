//! What the words of the command line ask for.

use crate::device::{Addressing, Texts};
use crate::files::FileSizes;
use crate::setting::Setting;
use clap::ArgMatches;
use clap::parser::ValueSource;
use modbus_command::{FAILED, USAGE};
use modbus_frame::SlaveId;
use modbus_hub::Places;
use modbus_rule_words::PeerWords;
use std::alloc::{AllocFailed, Global};
use std::fmt;
use std::fmt::{Display, Formatter, Write};
use std::net::SocketAddr;

/// How many milliseconds without a byte end a frame of a serial port, unless told: more than the 16 after which a USB converter delivers.
const PORT_SILENCE: u64 = 20;

/// How many milliseconds without a byte end a frame of a line behind an address, unless told.
const STREAM_SILENCE: u64 = 5;

/// How many seconds a message over Modbus TCP may be begun and not completed, unless told.
const MESSAGE_TIMEOUT: u64 = 10;

/// How many connections over Modbus TCP there are at a time, unless told. A process often may have 1,024 file descriptors.
const CONNECTIONS: u32 = 1_000;

/// Where a serial line is.
#[derive(Clone, Copy, Debug, PartialEq, Eq)]
pub enum LinePlace<'w> {
    /// On the standard streams.
    Streams,
    /// At this file of a serial port.
    File(&'w str),
    /// Behind this address, which carries its bytes.
    Address(SocketAddr),
}

impl Display for LinePlace<'_> {
    fn fmt<W: Write>(&self, f: &mut Formatter<W>) -> fmt::Result {
        match self {
            LinePlace::Streams => f.write_str("the line"),
            LinePlace::File(path) => f.write_str(path),
            LinePlace::Address(address) => write!(f, "{address}"),
        }
    }
}

/// A serial line.
#[derive(Clone, Copy, Debug, PartialEq, Eq)]
pub struct SerialLine<'w> {
    /// Where it is.
    pub place: LinePlace<'w>,
    /// How many milliseconds without a byte end a frame.
    pub silence: u64,
    /// Whether it gives back what is sent.
    pub has_echo: bool,
}

/// A port of Modbus TCP.
#[derive(Clone, Copy, Debug, PartialEq, Eq)]
pub struct TcpPort {
    /// Where it is.
    pub address: SocketAddr,
    /// How many seconds a message may be begun and not completed.
    pub message_timeout: u64,
    /// How many connections there are at a time, in all and of one address.
    pub places: Places,
}

/// Where the units are reached.
#[derive(Clone, Copy, Debug, PartialEq, Eq)]
pub enum Place<'w> {
    /// A serial line.
    Line(SerialLine<'w>),
    /// A port of Modbus TCP, and what its requests are for.
    Port(TcpPort, Addressing),
}

/// What the program is to do.
#[derive(Drop)]
pub struct Task<'w> {
    /// Where the units are reached.
    pub place: Place<'w>,
    /// The addresses of the units.
    pub units: Vec<SlaveId>,
    /// What their inputs are at first, where they are not 0.
    pub settings: Vec<Setting>,
    /// How many entries each table of a unit has.
    pub entries: u32,
    /// The files of records that each unit has, where it has any.
    pub files: Option<FileSizes>,
    /// Whether masters may write nothing.
    pub is_read_only: bool,
}

/// Why words ask for nothing.
#[derive(Clone, Copy, Debug, PartialEq, Eq, thiserror::Error)]
pub enum Wrong {
    /// A word is no unit.
    #[error("a unit is a number from 1 to 247")]
    Unit,
    /// Two words name a place.
    #[error("--listen, --line and --serial name a place each, and one is wanted")]
    Places,
    /// This word is of a line, and there is none.
    #[error("--{0} is of a line, and --listen has none")]
    NoLine(&'static str),
    /// This word is of use beside the other alone, which is not there.
    #[error("--{0} needs --{1}")]
    Lacks(&'static str, &'static str),
    /// A word is no address.
    #[error("an address is an IP address and a port, as 192.0.2.1:502")]
    Address,
    /// A word sets no input.
    #[error("--set wants UNIT:iADDRESS=VALUE for an input register, or UNIT:dADDRESS=0 or 1 for a discrete input")]
    Setting,
    /// A word tells no files.
    #[error("--files wants N or N:RECORDS: 1 to 64 files of 1 to 10000 records each")]
    Files,
    /// A word tells no network.
    #[error("--allow wants an address, or one and how many of its bits are common, as 192.0.2.0/24")]
    Network,
    /// Memory was refused.
    #[error("no memory")]
    NoMemory,
}

impl Wrong {
    /// The status of the program with such words.
    pub fn status(self) -> u8 {
        match self {
            Wrong::NoMemory => FAILED,
            _ => USAGE,
        }
    }
}

impl<T: Drop> From<AllocFailed<T>> for Wrong {
    fn from(_error: AllocFailed<T>) -> Wrong {
        Wrong::NoMemory
    }
}

/// The address that a word names.
fn address(word: &str) -> Result<SocketAddr, Wrong> {
    match word.parse() {
        Ok(address) => Ok(address),
        Err(_) => Err(Wrong::Address),
    }
}

/// Words that are of use beside another alone.
const BESIDE: [(&str, &str); 7] = [
    ("default-unit", "listen"),
    ("broadcast-0", "listen"),
    ("silent", "listen"),
    ("message-timeout", "listen"),
    ("connections", "listen"),
    ("per-peer", "listen"),
    ("allow", "listen"),
];

/// Whether a word stands on the command line.
fn is_given(matches: &ArgMatches<'_>, word: &str) -> bool {
    matches.value_source(word) == Some(ValueSource::CommandLine)
}

/// Refuses words that do not go together.
fn check_together(matches: &ArgMatches<'_>) -> Result<(), Wrong> {
    let places = ["listen", "line", "serial"];
    if places.iter().filter(|word| is_given(matches, word)).count() > 1 {
        return Err(Wrong::Places);
    }
    for word in ["silence", "echo"] {
        if is_given(matches, word) && is_given(matches, "listen") {
            return Err(Wrong::NoLine(word));
        }
    }
    for (word, other) in BESIDE {
        if is_given(matches, word) && !is_given(matches, other) {
            return Err(Wrong::Lacks(word, other));
        }
    }
    Ok(())
}

/// The unit that a word names.
fn unit(word: &str) -> Result<SlaveId, Wrong> {
    match word.parse() {
        Ok(unit) => Ok(unit),
        Err(_) => Err(Wrong::Unit),
    }
}

/// What the words have requests over Modbus TCP be for.
fn addressing_of(matches: &ArgMatches<'_>) -> Result<Addressing, Wrong> {
    let default_unit = match matches.get_str("default-unit") {
        Some(word) => Some(unit(word)?),
        None => None,
    };
    Ok(Addressing {
        default_unit,
        zero_is_broadcast: matches.get_flag("broadcast-0"),
        is_silent: matches.get_flag("silent"),
    })
}

/// Where the words want a line.
fn line_place_of<'w>(matches: &ArgMatches<'w>) -> Result<LinePlace<'w>, Wrong> {
    if let Some(file) = matches.get_str("serial") {
        return Ok(LinePlace::File(file));
    }
    match matches.get_str("line") {
        Some(word) => Ok(LinePlace::Address(address(word)?)),
        None => Ok(LinePlace::Streams),
    }
}

/// The line that the words want.
fn line_of<'w>(matches: &ArgMatches<'w>) -> Result<SerialLine<'w>, Wrong> {
    let place = line_place_of(matches)?;
    let usual = match place {
        LinePlace::Address(_) => STREAM_SILENCE,
        _ => PORT_SILENCE,
    };
    Ok(SerialLine {
        place,
        silence: matches.get_one("silence").unwrap_or(usual),
        has_echo: matches.get_flag("echo"),
    })
}

/// The number behind a word, or another where there is no such word.
fn count_of(matches: &ArgMatches<'_>, word: &str, usual: u32) -> usize {
    let count: u32 = matches.get_one(word).unwrap_or(usual);
    usize::try_from(count).unwrap_or(usize::MAX)
}

/// How many connections the words want, in all and of one address.
fn places_of(matches: &ArgMatches<'_>) -> Places {
    Places {
        connections: count_of(matches, "connections", CONNECTIONS),
        per_peer: count_of(matches, "per-peer", u32::MAX),
    }
}

/// Where the words want the units.
fn place_of<'w>(matches: &ArgMatches<'w>) -> Result<Place<'w>, Wrong> {
    if let Some(word) = matches.get_str("listen") {
        let port = TcpPort {
            address: address(word)?,
            message_timeout: matches
                .get_one("message-timeout")
                .unwrap_or(MESSAGE_TIMEOUT),
            places: places_of(matches),
        };
        return Ok(Place::Port(port, addressing_of(matches)?));
    }
    Ok(Place::Line(line_of(matches)?))
}

/// The settings that the words name.
fn settings_of(alloc: Global, words: &[&str]) -> Result<Vec<Setting>, Wrong> {
    let mut settings = Vec::new(alloc);
    for word in words {
        match word.parse() {
            Ok(setting) => settings.push(setting)?,
            Err(_) => return Err(Wrong::Setting),
        }
    }
    Ok(settings)
}

/// The files that a unit is to have; none without the word.
fn files_of(matches: &ArgMatches<'_>) -> Result<Option<FileSizes>, Wrong> {
    let Some(word) = matches.get_str("files") else {
        return Ok(None);
    };
    match word.parse() {
        Ok(sizes) => Ok(Some(sizes)),
        Err(_) => Err(Wrong::Files),
    }
}

/// The masters that the words let come.
///
/// # Errors
/// `Network`: a word tells none; `NoMemory`: memory was refused.
pub fn peers_of(alloc: Global, matches: &ArgMatches<'_>) -> Result<PeerWords, Wrong> {
    let mut peers = PeerWords::new(alloc);
    for word in matches.get_strs("allow").unwrap_or(&[]) {
        match peers.add(word) {
            Ok(true) => {}
            Ok(false) => return Err(Wrong::Network),
            Err(_) => return Err(Wrong::NoMemory),
        }
    }
    Ok(peers)
}

/// The addresses that the words name.
fn units_of(alloc: Global, words: &[&str]) -> Result<Vec<SlaveId>, Wrong> {
    let mut units = Vec::new(alloc);
    for word in words {
        units.push(unit(word)?)?;
    }
    Ok(units)
}

/// What the words ask for.
///
/// # Errors
/// `Places`, `NoLine`, `Lacks`: words do not go together; `Unit`, `Address`, `Setting`, `Files`: a word is none; `NoMemory`: memory was refused.
pub fn task_of<'w>(alloc: Global, matches: &ArgMatches<'w>) -> Result<Task<'w>, Wrong> {
    check_together(matches)?;
    Ok(Task {
        place: place_of(matches)?,
        units: units_of(alloc, matches.get_strs("units").unwrap_or(&[]))?,
        settings: settings_of(alloc, matches.get_strs("set").unwrap_or(&[]))?,
        entries: matches.get_one("entries").unwrap_or(1024),
        files: files_of(matches)?,
        is_read_only: matches.get_flag("read-only"),
    })
}

/// The text behind a word; none where there is no such word and it has no other text.
fn text_of<'w>(matches: &ArgMatches<'w>, word: &str) -> &'w str {
    match matches.get_str(word) {
        Some(text) => text,
        None => "",
    }
}

/// What the words have the device say of itself.
pub fn texts_of<'w>(matches: &ArgMatches<'w>) -> Texts<'w> {
    let vendor = text_of(matches, "vendor");
    let product = text_of(matches, "product");
    let revision = text_of(matches, "revision");
    let url = matches.get_str("vendor-url");
    let name = matches.get_str("product-name");
    let model = matches.get_str("model");
    let application = matches.get_str("application");
    Texts {
        server_id: matches.get_one("server-id").unwrap_or(1),
        vendor,
        product,
        revision,
        others: [url, name, model, application],
    }
}
