//! A program that serves Modbus to many connections on one thread: `modbus_loop tcp PORT [SECONDS [SECONDS [CONNECTIONS]]] [--per-peer N]`,
//! or `modbus_loop rtu PORT ..`.
//!
//! It listens on 127.0.0.1, and lets a connection go that sends nothing for so many seconds, or for ten minutes, and one that begins a message
//! and does not complete it for so many, or for ten seconds. Where there are so many connections, or 20,000, the one that was idle for longest
//! gives way to a new one; with `--per-peer N` one address of a peer has N at a time, and a connection past these is closed at once. All connections share one device of four tables of 1024 entries that hold 0 at first. `tcp` frames requests as ADUs with an MBAP header, and a header that no master
//! sends ends its connection; `rtu` as RTU frames over TCP, and then the device takes part in broadcasts.
#![tactic(auto)]

mod serving;
mod teller;
mod words;

use mio::net::TcpListener;
use modbus_about::{FAILED, USAGE, fill_closed_streams, tell};
use serving::serve;
use std::net::SocketAddr;
use std::process::ExitCode;
use teller::Teller;
use words::{Wish, parse_args};

/// What it says of its words.
const HELP: &str =
    "usage: modbus_loop tcp|rtu PORT [SECONDS [SECONDS [CONNECTIONS]]] [--per-peer N]\n";

fn main(rt: HostRuntime) -> ExitCode {
    let _filled = fill_closed_streams(&rt);
    let task = match parse_args(&rt) {
        Some(Wish::Serve(task)) => task,
        Some(Wish::Say(about)) => return ExitCode::from(tell(&rt, "modbus_loop", HELP, about)),
        None => {
            let _ = eprint!(rt; "modbus_loop: {HELP}");
            return ExitCode::from(USAGE);
        }
    };
    let address = SocketAddr::from(([127, 0, 0, 1], task.port));
    let Ok(listener) = TcpListener::bind(&rt, address) else {
        let _ = eprintln!(rt; "modbus_loop: bind fault");
        return ExitCode::from(FAILED);
    };
    let bound = listener.local_addr().unwrap_or(address);
    let _ = eprintln!(rt; "modbus_loop: listening on {bound}");
    let mut teller = Teller::new(&rt);
    let fault = serve(&rt, task, listener, &mut teller);
    let _ = eprintln!(rt; "modbus_loop: {fault}");
    ExitCode::from(FAILED)
}
