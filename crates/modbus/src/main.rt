//! The program: a Modbus server over its standard streams, or over TCP.
#![tactic(auto)]

use modbus_about::{asked, fill_closed_streams, tell};
use modbus_app::{Task, USAGE_LINE, port, read_words, run_task};
use modbus_link::{ReadSource, WriteSink};
use modbus_server::ProcessError;
use std::alloc::{AllocError, Global};
use std::env::{Env, FillError};
use std::process::ExitCode;

/// What its messages begin with.
const PROGRAM: &str = "modbus";

/// The bytes of the longest word of a form, and some more.
const LONGEST_WORD: usize = 16;

/// The text of a word. A word that is not UTF-8 is empty, and so no word of a form.
fn text_of(alloc: Global, word: &[u8]) -> Result<String, AllocError> {
    match str::from_utf8(word) {
        Ok(text) => String::from_str(alloc, text),
        Err(_) => Ok(String::new(alloc)),
    }
}

/// The words after the program's name, which may have any bytes. A word that is longer than each word of a form, or that is not UTF-8, is
/// empty.
fn args(rt: &HostRuntime) -> Result<Vec<String>, AllocError> {
    let mut words = Vec::new(rt.alloc());
    for place in 1..usize::MAX {
        let mut room = [0; LONGEST_WORD];
        match rt.arg(place, &mut room) {
            Ok(length) => words.push(text_of(rt.alloc(), &room[..length])?)?,
            Err(FillError::TooLong) => words.push(String::new(rt.alloc()))?,
            Err(FillError::NotPresent) => break,
        }
    }
    Ok(words)
}

fn main(rt: HostRuntime) -> ExitCode {
    let _filled = fill_closed_streams(&rt);
    let mut errors = WriteSink::new(rt.stderr());
    let Ok(words) = args(&rt) else {
        modbus_app::report_fault(&mut errors, ProcessError::NoMemory);
        return ExitCode::from(modbus_app::NO_MEMORY);
    };
    if let [word] = words.as_slice() {
        if let Some(about) = asked(word.as_str()) {
            return ExitCode::from(tell(&rt, PROGRAM, USAGE_LINE, about));
        }
    }
    let status = match read_words(&words) {
        Some(Task::Listen(framing, port)) => {
            let notes = (WriteSink::new(rt.stderr()), WriteSink::new(rt.stderr()));
            let (_errors, status) = port::serve(
                &rt,
                rt.alloc(),
                framing,
                port,
                |_error: ProcessError| {},
                errors,
                notes,
            );
            status
        }
        Some(Task::Forward(port)) => port::forward(
            &rt,
            rt.alloc(),
            port,
            &mut ReadSource::new(rt.stdin()),
            &mut WriteSink::new(rt.stdout()),
            &mut errors,
        ),
        task => run_task(
            rt.alloc(),
            task,
            &words,
            &mut ReadSource::new(rt.stdin()),
            &mut WriteSink::new(rt.stdout()),
            &mut errors,
        ),
    };
    ExitCode::from(status)
}
