//! The words of the command line.

use crate::lines::Output;
use clap::{Arg, ArgMatches, Command, Error, value_parser};
use modbus_command::{VERSION, command, flag, option, positional};
use modbus_lines::LargeNumbers;
use std::alloc::{AllocError, Global};

/// What the words ask for.
#[derive(Clone, Copy)]
pub struct Task<'a> {
    /// The file with the map of the plant.
    pub file: &'a str,
    /// How many milliseconds pass from the beginning of a device's poll to that of its next, where not the map tells it.
    pub every: Option<u32>,
    /// How many milliseconds a read may take, with the connection where there is none, where not the map tells it.
    pub timeout: Option<u32>,
    /// How many polls each device has.
    pub count: u64,
    /// How many connections there are to one address at most.
    pub connections: usize,
    /// Whether each poll tells all values, and not changes alone.
    pub tells_all: bool,
    /// How many seconds pass from a line of life to the next, where there are such lines.
    pub alive: Option<u32>,
    /// How lines are written.
    pub output: Output,
    /// Whether the reads are printed, and nothing is sent.
    pub is_plan: bool,
}

/// How many milliseconds an option has at most: a day.
const MOST_MILLIS: i64 = 86_400_000;

/// The same in seconds.
const MOST_SECONDS: i64 = 86_400;

/// How lines are written.
const FORMATS: [&str; 2] = ["json", "influx"];

fn millis<'a>(alloc: Global, name: &'a str, help: &'a str) -> Arg<'a> {
    option(alloc, name, "MS", help).value_parser(value_parser!(u32).range(1..=MOST_MILLIS))
}

fn file<'a>(alloc: Global) -> Arg<'a> {
    positional(
        alloc,
        "file",
        "PLANT",
        "The map of the plant, a text in TOML; its devices are reached over Modbus TCP",
    )
}

fn chosen<'a>(alloc: Global) -> Arg<'a> {
    positional(
        alloc,
        "words",
        "DEVICE[.POINT]",
        "The devices of the map, or points, that are polled: all where none is named",
    )
    .required(false)
    .num_args(0..)
}

fn every<'a>(alloc: Global) -> Arg<'a> {
    millis(
        alloc,
        "every",
        "Poll each device again after so many milliseconds; else what the map says of it, and 1000 where that says nothing",
    )
}

fn timeout<'a>(alloc: Global) -> Arg<'a> {
    millis(
        alloc,
        "timeout",
        "How long a read may take, in milliseconds, with its connection; else what the map says",
    )
}

fn count<'a>(alloc: Global) -> Arg<'a> {
    option(
        alloc,
        "count",
        "N",
        "End after so many polls of each device; else it goes on for ever",
    )
    .value_parser(value_parser!(u64).range(1..=1_000_000_000_000))
}

fn connections<'a>(alloc: Global) -> Arg<'a> {
    option(
        alloc,
        "connections",
        "N",
        "Have so many connections to one address at most, among which its devices are divided; else one",
    )
    .value_parser(value_parser!(usize).range(1..=65_535))
}

fn all<'a>(alloc: Global) -> Arg<'a> {
    flag(
        alloc,
        "all",
        "Tell all values of each poll, and not changes alone",
    )
}

fn alive<'a>(alloc: Global) -> Arg<'a> {
    option(
        alloc,
        "alive",
        "SECONDS",
        "Print a line each so many seconds that tells how many devices are polled, and how many of them are away",
    )
    .value_parser(value_parser!(u32).range(1..=MOST_SECONDS))
}

fn format<'a>(alloc: Global) -> Arg<'a> {
    option(
        alloc,
        "format",
        "FORMAT",
        "How lines are written; influx is the line protocol of InfluxDB",
    )
    .value_parser(FORMATS.as_slice())
    .default_value("json")
}

fn big_as_text<'a>(alloc: Global) -> Arg<'a> {
    flag(
        alloc,
        "big-as-text",
        "In JSON numbers above 2^53 are texts, for readers that take each number as a double",
    )
}

fn plan<'a>(alloc: Global) -> Arg<'a> {
    flag(
        alloc,
        "plan",
        "Print the reads of each device, and send nothing",
    )
}

// Each word is a function of its own: a function that owns several is proved for minutes.
fn whole<'a>(alloc: Global) -> Result<Command<'a>, AllocError> {
    let words = vec![in alloc;
        file(alloc),
        chosen(alloc),
        every(alloc),
        timeout(alloc),
        count(alloc),
        connections(alloc),
        all(alloc),
        alive(alloc),
        format(alloc),
        big_as_text(alloc),
        plan(alloc),
    ]?;
    let whole = command(
        alloc,
        "modbus_supervisor",
        "Polls the Modbus TCP devices of a plant's map, and prints what changes",
        words,
    )?;
    Ok(whole.version(VERSION))
}

/// Reads the words of the command line, the program's name first.
///
/// # Errors
/// What clap has to say: the help that was asked for, or the word that cannot be read.
pub fn parse<'a>(alloc: Global, words: &'a [String]) -> Result<ArgMatches<'a>, Error> {
    whole(alloc)?.try_get_matches_from(words)
}

/// How lines are written.
fn output_of(matches: &ArgMatches<'_>) -> Output {
    match matches.get_str("format") {
        Some("influx") => Output::Influx,
        _ if matches.get_flag("big-as-text") => Output::Json(LargeNumbers::AsTexts),
        _ => Output::Json(LargeNumbers::AsNumbers),
    }
}

/// What the words ask for that were read.
pub fn task_of<'a>(matches: &ArgMatches<'a>) -> Task<'a> {
    Task {
        file: matches.get_str("file").unwrap_or(""),
        every: matches.get_one("every"),
        timeout: matches.get_one("timeout"),
        count: matches.get_one("count").unwrap_or(u64::MAX),
        connections: matches.get_one("connections").unwrap_or(1),
        tells_all: matches.get_flag("all"),
        alive: matches.get_one("alive"),
        output: output_of(matches),
        is_plan: matches.get_flag("plan"),
    }
}
