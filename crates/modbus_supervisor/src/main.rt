//! A program that polls the Modbus TCP devices of a plant's map on one thread: it reads the points of each so often, and prints a line for each
//! value that changed, for each device that is away and for each that is back.
#![tactic(auto)]

mod alive;
mod ask;
mod fault;
mod halves;
mod lines;
mod places;
mod plan;
mod plant;
mod queue;
mod reads;
mod refusal;
mod supervise;
mod supervised;
mod target;
mod time;
mod turn;
mod watched;
mod words;

use modbus_command::{FAILED, fill_closed_streams, say, words_of};
use plan::print_plan;
use refusal::Refusal;
use std::process::ExitCode;
use supervise::supervise;
use target::{Target, targets};
use words::Task;

/// What its messages begin with.
const PROGRAM: &str = "modbus_supervisor";

/// Polls devices, or prints their reads; the status.
fn serve_targets(rt: &HostRuntime, task: &Task<'_>, targets: Vec<Target>) -> u8 {
    let served = if task.is_plan {
        print_plan(rt, targets.as_slice())
    } else {
        supervise(rt, task, targets)
    };
    match served {
        Ok(()) => 0,
        Err(fault) => {
            let _ = eprintln!(rt; "modbus_supervisor: {fault}");
            FAILED
        }
    }
}

/// Tells why nothing can be polled, and gives the status.
fn refuse(rt: &HostRuntime, refusal: &Refusal<'_>) -> u8 {
    let _ = eprintln!(rt; "modbus_supervisor: {refusal}");
    refusal.status()
}

/// Does what the words ask for that were read, of the devices and points that some of them choose; the status.
fn serve_task<'a>(rt: &HostRuntime, task: &Task<'a>, chosen: &[&'a str]) -> u8 {
    match targets(rt, task, chosen) {
        Ok(targets) => serve_targets(rt, task, targets),
        Err(refusal) => refuse(rt, &refusal),
    }
}

/// Reads the words and does what they ask for; the status.
fn serve(rt: &HostRuntime, words: &[String]) -> u8 {
    let matches = match words::parse(rt.alloc(), words) {
        Ok(matches) => matches,
        Err(error) => return say(rt, PROGRAM, &error),
    };
    let task = words::task_of(&matches);
    serve_task(rt, &task, matches.get_strs("words").unwrap_or(&[]))
}

fn main(rt: HostRuntime) -> ExitCode {
    let _filled = fill_closed_streams(&rt);
    let status = match words_of(&rt, PROGRAM) {
        Ok(words) => serve(&rt, words.as_slice()),
        Err(status) => status,
    };
    ExitCode::from(status)
}
