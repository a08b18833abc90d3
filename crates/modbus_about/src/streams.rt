//! Standard streams that a program was started without.
//!
//! The number of a stream that is closed goes to the next file or socket that is opened, and what a program says then goes into it: a text
//! for the terminal between the messages of a Modbus connection. So each program fills these places before it opens anything.

use std::fs::File;
use std::os::fd::AsRawFd;

/// Where nothing is read and nothing is kept.
const NULL_DEVICE: &str = "/dev/null";

/// The number of the standard input.
const INPUT: i32 = 0;

/// The number of the standard error, the last of the three streams.
const LAST: i32 = 2;

/// Files in place of the standard streams that were closed; they are closed with it.
#[derive(Drop)]
pub struct FilledStreams {
    _input: Option<File>,
    _first: Option<File>,
    _second: Option<File>,
}

/// The null device in place of the standard input, where that is closed. It is open for writing alone, so that a read fails as before.
fn fill_input(rt: &HostRuntime) -> Option<File> {
    match File::options().write(true).open(rt, NULL_DEVICE) {
        Ok(file) if file.as_raw_fd() == INPUT => Some(file),
        _ => None,
    }
}

/// The null device in place of the first of standard output and standard error that is closed. It is open for reading alone, so that a write fails
/// as before.
fn fill_output(rt: &HostRuntime) -> Option<File> {
    match File::open(rt, NULL_DEVICE) {
        Ok(file) if file.as_raw_fd() <= LAST => Some(file),
        _ => None,
    }
}

/// Opens the null device in place of each standard stream that is closed. What is read from such a stream, or written to it, fails as it did
/// when the stream was closed. The places are filled for as long as the result is kept.
pub fn fill_closed_streams(rt: &HostRuntime) -> FilledStreams {
    FilledStreams {
        _input: fill_input(rt),
        _first: fill_output(rt),
        _second: fill_output(rt),
    }
}
