//! The words of the command line: those of every call, and then, where its device is no map, those of a call of a device alone.

use crate::arguments as words;
use clap::{Arg, ArgMatches, Command, Error};
use modbus_command::{VERSION, command};
use std::alloc::{AllocError, Global};

/// How a poll is called.
const POLL_USAGE: &str =
    "modbus_poller poll [OPTIONS] DEVICE UNIT ITEM..\n       modbus_poller poll [OPTIONS] PLANT.toml [DEVICE[.POINT]]..";

/// How a write is called.
const WRITE_USAGE: &str =
    "modbus_poller write [OPTIONS] DEVICE UNIT FIRST VALUE..\n       modbus_poller write [OPTIONS] DEVICE UNIT ITEM VALUE\n       modbus_poller \
     write [OPTIONS] PLANT.toml DEVICE.POINT VALUE";

/// Adds a word or a command. A function that owns several is proved for minutes.
fn add<T: Drop>(list: &mut Vec<T>, one: T) -> Result<(), AllocError> {
    list.push(one)?;
    Ok(())
}

/// Adds one that was made.
fn add_made<T: Drop>(list: &mut Vec<T>, made: Result<T, AllocError>) -> Result<(), AllocError> {
    add(list, made?)
}

/// What is told of a serial line.
fn line_options<'a>(alloc: Global, words: &mut Vec<Arg<'a>>) -> Result<(), AllocError> {
    add(words, words::silence(alloc))?;
    add(words, words::baud(alloc))?;
    add(words, words::echo(alloc))
}

/// What a device alone and a map have in common.
fn link_options<'a>(alloc: Global, words: &mut Vec<Arg<'a>>) -> Result<(), AllocError> {
    add(words, words::timeout(alloc))?;
    add(words, words::rtu(alloc))?;
    line_options(alloc, words)
}

/// The options of when a poll is made.
fn time_options<'a>(alloc: Global, words: &mut Vec<Arg<'a>>) -> Result<(), AllocError> {
    add(words, words::every(alloc))?;
    add_made(words, words::count(alloc))
}

/// The options of the reads of a poll.
fn read_options<'a>(alloc: Global, words: &mut Vec<Arg<'a>>) -> Result<(), AllocError> {
    add(words, words::retries(alloc))?;
    add(words, words::max_gap(alloc))?;
    add(words, words::max_read(alloc))
}

/// The options of what a poll prints.
fn print_options<'a>(alloc: Global, words: &mut Vec<Arg<'a>>) -> Result<(), AllocError> {
    add(words, words::format(alloc))?;
    add(words, words::big_as_text(alloc))?;
    add(words, words::plan(alloc))
}

/// The options of a poll.
fn poll_options<'a>(alloc: Global, words: &mut Vec<Arg<'a>>) -> Result<(), AllocError> {
    time_options(alloc, words)?;
    read_options(alloc, words)?;
    link_options(alloc, words)?;
    print_options(alloc, words)
}

/// A poll of what these words tell.
fn poll_of<'a>(alloc: Global, words: Vec<Arg<'a>>) -> Result<Command<'a>, AllocError> {
    let command = command(
        alloc,
        "poll",
        "Reads items or points, and prints their values",
        words,
    )?;
    Ok(command.override_usage(POLL_USAGE))
}

/// A poll of a map, or of anything.
fn poll_any<'a>(alloc: Global) -> Result<Command<'a>, AllocError> {
    let mut words = vec![in alloc; words::device(alloc), words::polled(alloc)]?;
    poll_options(alloc, &mut words)?;
    poll_of(alloc, words)
}

/// A poll of a device alone.
fn poll_device<'a>(alloc: Global) -> Result<Command<'a>, AllocError> {
    let mut words = vec![in alloc;
        words::device(alloc),
        words::unit(alloc),
        words::items(alloc),
    ]?;
    poll_options(alloc, &mut words)?;
    poll_of(alloc, words)
}

/// A write of what these words tell.
fn write_of<'a>(alloc: Global, words: Vec<Arg<'a>>) -> Result<Command<'a>, AllocError> {
    let command = command(
        alloc,
        "write",
        "Writes holding registers, one after another, or an item or a point",
        words,
    )?;
    Ok(command.override_usage(WRITE_USAGE))
}

/// The options of a write.
fn write_options<'a>(alloc: Global, words: &mut Vec<Arg<'a>>) -> Result<(), AllocError> {
    link_options(alloc, words)?;
    add(words, words::verify(alloc))
}

/// A write to a map, or to anything.
fn write_any<'a>(alloc: Global) -> Result<Command<'a>, AllocError> {
    let mut words = vec![in alloc; words::device(alloc), words::written(alloc)]?;
    write_options(alloc, &mut words)?;
    write_of(alloc, words)
}

/// A write to a device alone.
fn write_device<'a>(alloc: Global) -> Result<Command<'a>, AllocError> {
    let mut words = vec![in alloc;
        words::device(alloc),
        words::unit(alloc),
        words::place(alloc),
        words::values(alloc),
    ]?;
    write_options(alloc, &mut words)?;
    write_of(alloc, words)
}

fn write_coils<'a>(alloc: Global) -> Result<Command<'a>, AllocError> {
    let mut words = vec![in alloc;
        words::device(alloc),
        words::unit(alloc),
        words::first(alloc),
        words::states(alloc),
    ]?;
    link_options(alloc, &mut words)?;
    command(
        alloc,
        "write-coils",
        "Writes coils, one after another",
        words,
    )
}

/// The program with these commands.
fn program<'a>(alloc: Global, commands: Vec<Command<'a>>) -> Result<Command<'a>, AllocError> {
    Command::new(alloc, "modbus_poller")
        .about("Reads and writes Modbus devices: one, or those of a plant's map")
        .version(VERSION)
        .subcommand_required(true)
        .subcommands(commands)
}

/// The program, whatever its device is.
fn for_any<'a>(alloc: Global) -> Result<Command<'a>, AllocError> {
    let mut commands = Vec::new(alloc);
    add_made(&mut commands, poll_any(alloc))?;
    add_made(&mut commands, write_any(alloc))?;
    add_made(&mut commands, write_coils(alloc))?;
    program(alloc, commands)
}

/// The program where its device is no map.
fn for_device<'a>(alloc: Global) -> Result<Command<'a>, AllocError> {
    let mut commands = Vec::new(alloc);
    add_made(&mut commands, poll_device(alloc))?;
    add_made(&mut commands, write_device(alloc))?;
    add_made(&mut commands, write_coils(alloc))?;
    program(alloc, commands)
}

/// Whether the device of these words is a map.
fn names_map(matches: &ArgMatches<'_>) -> bool {
    match matches.subcommand() {
        Some((_, given)) => is_map(given.get_str("device").unwrap_or("")),
        None => false,
    }
}

/// Whether a word is the file of a map.
pub fn is_map(word: &str) -> bool {
    word.ends_with(".toml")
}

/// Reads the words of the command line, the program's name first.
///
/// # Errors
/// What clap has to say: the help that was asked for, or the word that cannot be read.
pub fn parse<'a>(alloc: Global, words: &'a [String]) -> Result<ArgMatches<'a>, Error> {
    let matches = for_any(alloc)?.try_get_matches_from(words)?;
    if names_map(&matches) {
        return Ok(matches);
    }
    for_device(alloc)?.try_get_matches_from(words)
}
