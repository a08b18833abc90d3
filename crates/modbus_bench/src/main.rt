//! Measures the library, and shows its clients: calls of a store by many threads, plans of reads for many items, and reads of one register
//! after another over links that may be late.
//!
//! `rate THREADS MILLISECONDS` and `calls THREADS EACH` make calls (bench/store.py runs them), `sorted ITEMS` and `plain ITEMS` plan
//! (bench/plan.py), `watch FORM ADDRESS COUNT MILLIS [RETRIES [PAUSE]]` and `watch MODE TERMINAL COUNT MILLIS [0 PAUSE]` read
//! (tools/late/run). The terminal was set by `stty raw -echo`.
#![tactic(auto)]

mod job;
mod plain;
mod plans;
mod store;
mod watch;
mod words;

use modbus_about::{FAILED, USAGE, fill_closed_streams, tell};
use std::process::ExitCode;
use watch::watch_device;
use words::{Task, task_of};

/// What it says of its words.
const HELP: &str =
    "usage: modbus_bench rate THREADS MILLISECONDS | calls THREADS EACH | sorted ITEMS | plain ITEMS
       modbus_bench watch tcp|patient|rtu|once-tcp|once-rtu ADDRESS COUNT MILLIS [RETRIES [PAUSE]]
       modbus_bench watch serial|echoed|deadline|ascii TERMINAL COUNT MILLIS [0 PAUSE]
";

fn main(rt: HostRuntime) -> ExitCode {
    let _filled = fill_closed_streams(&rt);
    match task_of(&rt) {
        Some(Task::Calls(threads, limit)) => {
            store::tell(&rt, store::calls(&rt, rt.alloc(), threads, limit))
        }
        Some(Task::Plan(rule, count)) => plans::measure(&rt, rt.alloc(), rule, count),
        Some(Task::Watch(watched)) => match watch_device(&rt, watched) {
            Ok(()) => ExitCode::SUCCESS,
            Err(_) => ExitCode::from(FAILED),
        },
        Some(Task::Say(about)) => ExitCode::from(tell(&rt, "modbus_bench", HELP, about)),
        None => {
            let _ = eprint!(rt; "modbus_bench: {HELP}");
            ExitCode::from(USAGE)
        }
    }
}
