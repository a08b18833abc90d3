//! The words that the command line may have.

use clap::{Arg, ArgAction, ArgMatches, Command, Error, value_parser};
use modbus_command::{VERSION, command, flag, option, positional};
use std::alloc::{AllocError, Global};

fn units<'a>(alloc: Global) -> Arg<'a> {
    positional(
        alloc,
        "units",
        "UNIT",
        "The address of a unit, 1 to 247, each once",
    )
    .num_args(1..)
}

fn entries<'a>(alloc: Global) -> Arg<'a> {
    option(
        alloc,
        "entries",
        "N",
        "How many coils, discrete inputs, holding registers and input registers a unit has",
    )
    .value_parser(value_parser!(u32).range(1..=65_536))
    .default_value("1024")
}

fn listen<'a>(alloc: Global) -> Arg<'a> {
    option(
        alloc,
        "listen",
        "ADDRESS:PORT",
        "Listen for Modbus TCP, in place of the line on the standard streams",
    )
}

fn line<'a>(alloc: Global) -> Arg<'a> {
    option(
        alloc,
        "line",
        "ADDRESS:PORT",
        "Connect to what carries the bytes of a serial line, as socat or a device server does",
    )
}

fn serial<'a>(alloc: Global) -> Arg<'a> {
    option(
        alloc,
        "serial",
        "FILE",
        "The file of a serial port, as /dev/ttyUSB0, set by stty raw -echo clocal",
    )
}

fn silence<'a>(alloc: Global) -> Arg<'a> {
    option(
        alloc,
        "silence",
        "MS",
        "How many milliseconds without a byte end a frame of a line [default: 20, behind --line 5]",
    )
    .value_parser(value_parser!(u64).range(1..=60_000))
}

fn echo<'a>(alloc: Global) -> Arg<'a> {
    flag(
        alloc,
        "echo",
        "The adapter of the line gives back what is sent, which is then no request",
    )
}

fn set<'a>(alloc: Global) -> Arg<'a> {
    option(
        alloc,
        "set",
        "UNIT:iADDRESS=VALUE",
        "What an input register is at first, or with d for i a discrete input; may stand more than once",
    )
    .action(ArgAction::Append)
}

fn files<'a>(alloc: Global) -> Arg<'a> {
    option(
        alloc,
        "files",
        "N[:RECORDS]",
        "How many files of records a unit has, 1 to 64, and how many registers each is [default: 10000]",
    )
}

fn default_unit<'a>(alloc: Global) -> Arg<'a> {
    option(
        alloc,
        "default-unit",
        "N",
        "The unit that requests for 255 and 0 over Modbus TCP are for [default: the first]",
    )
}

fn broadcast_zero<'a>(alloc: Global) -> Arg<'a> {
    flag(
        alloc,
        "broadcast-0",
        "Over Modbus TCP take 0 for a broadcast, which each unit does and none answers",
    )
}

fn silent<'a>(alloc: Global) -> Arg<'a> {
    flag(
        alloc,
        "silent",
        "Over Modbus TCP do not answer for a unit that is not there, in place of the exception 0B",
    )
}

fn message_timeout<'a>(alloc: Global) -> Arg<'a> {
    option(
        alloc,
        "message-timeout",
        "SECONDS",
        "Over Modbus TCP let a master go that begins a message and does not complete it for so long, at the latest after twice that [default: 10]",
    )
    .value_parser(value_parser!(u64).range(1..=86_400))
}

fn connections<'a>(alloc: Global) -> Arg<'a> {
    option(
        alloc,
        "connections",
        "N",
        "How many masters over Modbus TCP are connected at a time; to one more the one that was idle for longest gives way [default: 1000]",
    )
    .value_parser(value_parser!(u32).range(1..=1_000_000))
}

fn per_peer<'a>(alloc: Global) -> Arg<'a> {
    option(
        alloc,
        "per-peer",
        "N",
        "How many of these masters are of one address; one more is turned away [default: as many as there are]",
    )
    .value_parser(value_parser!(u32).range(1..=1_000_000))
}

fn allow<'a>(alloc: Global) -> Arg<'a> {
    option(
        alloc,
        "allow",
        "NETWORK",
        "Over Modbus TCP serve masters of these addresses alone, as 192.0.2.7 or 192.0.2.0/24; may stand more than once [default: all]",
    )
    .action(ArgAction::Append)
}

fn read_only<'a>(alloc: Global) -> Arg<'a> {
    flag(
        alloc,
        "read-only",
        "Masters may write nothing: what may change something has the exception 01",
    )
}

fn server_id<'a>(alloc: Global) -> Arg<'a> {
    option(alloc, "server-id", "N", "Its number in Report Server ID")
        .value_parser(value_parser!(u8))
        .default_value("1")
}

/// A word of what the device says of itself, which takes a text.
fn text<'a>(alloc: Global, name: &'a str, help: &'a str) -> Arg<'a> {
    option(alloc, name, "TEXT", help)
}

fn vendor<'a>(alloc: Global) -> Arg<'a> {
    text(alloc, "vendor", "The name of its vendor, object 0").default_value("Mudrezzi")
}

fn product<'a>(alloc: Global) -> Arg<'a> {
    text(
        alloc,
        "product",
        "Its product code, object 1, which Report Server ID tells too",
    )
    .default_value("modbus_device")
}

fn revision<'a>(alloc: Global) -> Arg<'a> {
    text(alloc, "revision", "Its revision, object 2").default_value("1")
}

// Each word is a function of its own: a function that owns several is proved for minutes.
fn words<'a>(alloc: Global) -> Result<Vec<Arg<'a>>, AllocError> {
    Ok(vec![in alloc;
        units(alloc),
        entries(alloc),
        listen(alloc),
        default_unit(alloc),
        broadcast_zero(alloc),
        silent(alloc),
        message_timeout(alloc),
        connections(alloc),
        per_peer(alloc),
        allow(alloc),
        read_only(alloc),
        line(alloc),
        serial(alloc),
        silence(alloc),
        echo(alloc),
        set(alloc),
        files(alloc),
        vendor(alloc),
        product(alloc),
        revision(alloc),
        server_id(alloc),
        text(alloc, "vendor-url", "The address of its vendor, object 3"),
        text(alloc, "product-name", "The name of the product, object 4"),
        text(alloc, "model", "Its model, object 5"),
        text(alloc, "application", "What it is used for, object 6"),
    ]?)
}

fn whole<'a>(alloc: Global) -> Result<Command<'a>, AllocError> {
    let whole = command(
        alloc,
        "modbus_device",
        "A Modbus device: units with four tables each, on a serial line or a port",
        words(alloc)?,
    )?;
    Ok(whole.version(VERSION))
}

/// Reads the words of the command line, the program's name first.
///
/// # Errors
/// What clap has to say: the help that was asked for, or the word that can't be read.
pub fn parse<'a>(alloc: Global, words: &'a [String]) -> Result<ArgMatches<'a>, Error> {
    whole(alloc)?.try_get_matches_from(words)
}
