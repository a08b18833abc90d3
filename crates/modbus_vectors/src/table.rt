//! The lines of a table, each read and answered.

use crate::calls::answer;
use crate::text::Text;
use crate::word::{Word, split};
use std::io;
use std::process::ExitCode;
use std::sync::Wait;

/// Appends the answer to the call that these words are, or why there may be none.
fn push_answer<R: Wait + Sync>(rt: &R, text: &mut Text, words: &[Word]) {
    let Some((call, rest)) = words.split_first() else {
        text.push_str("no call");
        return;
    };
    if !answer(rt, text, call.text(), rest) {
        text.push_str("no such call, no such arguments, or no memory");
    }
}

/// Appends the answer to a call, whose words have one blank between them.
fn push_call<R: Wait + Sync>(rt: &R, text: &mut Text, call: &str) {
    match split(text.alloc, call, ' ') {
        Ok(words) => push_answer(rt, text, words.as_slice()),
        Err(_) => text.cut_short(),
    }
}

/// How many rows were answered that say what answer they want, and how many of these got another.
#[derive(Drop)]
struct Tally {
    rows: u64,
    others: u64,
}

/// Prints the answer to a call that stands alone; of a row nothing, unless it gets another answer than it wants.
fn answer_line<R: Wait + Sync>(
    rt: &HostRuntime,
    waits: &R,
    tally: &mut Tally,
    line: &str,
) -> io::Result<()> {
    if line.is_empty() || line.starts_with('#') {
        return Ok(());
    }
    let mut text = Text::new(rt.alloc());
    let Some((call, wanted)) = line.split_once(" => ") else {
        push_call(waits, &mut text, line);
        return println!(rt; "{}", text.whole()?);
    };
    push_call(waits, &mut text, call);
    tally.rows = tally.rows.saturating_add(1);
    if text.whole()? != wanted {
        tally.others = tally.others.saturating_add(1);
        println!(rt; "{call} => {}, where {wanted} is wanted", text.whole()?)?;
    }
    Ok(())
}

fn answer_lines<R: Wait + Sync>(rt: &HostRuntime, waits: &R) -> io::Result<()> {
    let mut tally = Tally { rows: 0, others: 0 };
    for line in rt.lines(rt.alloc()) {
        answer_line(rt, waits, &mut tally, line?.as_str())?;
    }
    if tally.rows > 0 {
        println!(rt; "{} rows, {} with another answer", tally.rows, tally.others)?;
    }
    Ok(())
}

/// Answers the table of standard input on standard output: which rows got another answer than they want, and how many there were; calls that
/// stand alone get theirs. Its status is 1 where that failed.
///
/// What waits is the runtime too: that it can is known in `main` alone.
pub fn answer_table<R: Wait + Sync>(rt: &HostRuntime, waits: &R) -> ExitCode {
    match answer_lines(rt, waits) {
        Ok(()) => ExitCode::SUCCESS,
        Err(_) => ExitCode::from(1),
    }
}
