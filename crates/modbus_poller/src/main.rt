//! A program that reads and writes Modbus devices from the command line, one or those of a plant's map: values once or again and again, as a
//! table, as CSV, as JSON or in the line protocol of InfluxDB.
#![tactic(auto)]

mod arguments;
mod asking;
mod command;
mod fault;
mod once;
mod options;
mod place;
mod planning;
mod plant;
mod polling;
mod printing;
mod refusal;
mod target;
mod telling;
mod wanted;
mod write_wanted;
mod writing;

use clap::ArgMatches;
use modbus_command::{FAILED, fill_closed_streams, say, words_of};
use refusal::Refusal;
use std::process::ExitCode;

/// What its messages begin with.
const PROGRAM: &str = "modbus_poller";

fn poll<'a>(rt: &HostRuntime, given: &ArgMatches<'a>) -> Result<bool, Refusal<'a>> {
    Ok(polling::run(rt, &wanted::poll(rt, given)?))
}

fn write<'a>(rt: &HostRuntime, given: &ArgMatches<'a>) -> Result<bool, Refusal<'a>> {
    Ok(writing::run(rt, &write_wanted::write(rt, given)?))
}

fn write_coils<'a>(rt: &HostRuntime, given: &ArgMatches<'a>) -> Result<bool, Refusal<'a>> {
    Ok(writing::coils(rt, &write_wanted::coils(rt.alloc(), given)?))
}

/// Does what the words ask for; whether the last poll, or the write, was good.
fn run<'a>(rt: &HostRuntime, matches: &ArgMatches<'a>) -> Result<bool, Refusal<'a>> {
    match matches.subcommand() {
        Some(("poll", given)) => poll(rt, given),
        Some(("write", given)) => write(rt, given),
        Some(("write-coils", given)) => write_coils(rt, given),
        _ => Ok(false),
    }
}

/// Reads the words and does what they ask for; the status.
fn serve(rt: &HostRuntime, words: &[String]) -> u8 {
    let matches = match command::parse(rt.alloc(), words) {
        Ok(matches) => matches,
        Err(error) => return say(rt, PROGRAM, &error),
    };
    match run(rt, &matches) {
        Ok(true) => 0,
        Ok(false) => FAILED,
        Err(refusal) => {
            let _ = eprintln!(rt; "modbus_poller: {refusal}");
            refusal.status()
        }
    }
}

fn main(rt: HostRuntime) -> ExitCode {
    let _filled = fill_closed_streams(&rt);
    let status = match words_of(&rt, PROGRAM) {
        Ok(words) => serve(&rt, words.as_slice()),
        Err(status) => status,
    };
    ExitCode::from(status)
}
