//! Runs of the program over memory, and the words that ask to listen.

use crate::outside::{Outside, read_outside};
use crate::text::Text;
use crate::word::Word;
use modbus_app::{listening, run};
use modbus_link::MemorySink;
use std::alloc::{AllocError, Global};

/// The room of what a run tells, in bytes.
const ROOM: usize = 256;

/// The words before a colon, and those after it.
fn split<'w, 'l>(words: &'w [Word]) -> (&'w [Word], &'w [Word]) {
    for (at, word) in words.iter().enumerate() {
        if word.text() == ":" {
            return (&words[..at], &words[at + 1..]);
        }
    }
    (words, &[])
}

/// Words as they are handed over by the system.
fn handed_over(alloc: Global, words: &[Word]) -> Result<Vec<String>, AllocError> {
    let mut handed = Vec::new(alloc);
    for word in words {
        handed.push(String::from_str(alloc, word.text())?)?;
    }
    Ok(handed)
}

/// The output of a run: the text of its requests, or else its bytes.
fn push_output(text: &mut Text, output: &[u8]) {
    match std::str::from_utf8(output) {
        Ok(found) if found.starts_with("requests ") => write!(text, "{found:?}"),
        _ => text.push_hex(output),
    }
}

/// What a run told.
pub fn push_errors(text: &mut Text, errors: &[u8]) {
    match std::str::from_utf8(errors) {
        Ok(found) => write!(text, "{found:?}"),
        Err(_) => text.push_str("no text"),
    }
}

/// The status of a run, and its output and its text where those are asked for.
fn push_run(
    text: &mut Text,
    call: &str,
    words: &[String],
    outside: &mut Outside,
    errors: &mut MemorySink,
) {
    let status = run(
        text.alloc,
        words,
        &mut outside.source,
        &mut outside.sink,
        errors,
    );
    write!(text, "{status}");
    if call == "run" {
        text.push_str(" ");
        push_output(text, outside.sink.bytes());
        text.push_str(" ");
        push_errors(text, errors.bytes());
    }
}

/// The same over the outside that these words say.
fn ran(text: &mut Text, call: &str, words: &[String], pieces: &[Word]) -> bool {
    let Some(mut outside) = read_outside(text.alloc, pieces) else {
        return false;
    };
    match MemorySink::new(text.alloc, ROOM, ROOM, &[]) {
        Ok(mut errors) => push_run(text, call, words, &mut outside, &mut errors),
        Err(_) => return false,
    }
    true
}

/// The answer of these words of the program.
fn answer_words(text: &mut Text, call: &str, words: &[String], pieces: &[Word]) -> bool {
    match call {
        "run" | "status" => return ran(text, call, words, pieces),
        "listening" => text.push_shown(listening(words)),
        _ => return false,
    }
    true
}

/// `run`, the words of the program, a colon and its outside; `status` and the same, for its status alone; `listening` and the words.
pub fn answer(text: &mut Text, call: &str, words: &[Word]) -> bool {
    let (words, pieces) = split(words);
    match handed_over(text.alloc, words) {
        Ok(words) => answer_words(text, call, words.as_slice(), pieces),
        Err(_) => false,
    }
}
