//! A table of calls. A row of the input is `CALL => ANSWER`: it names a call with its arguments, and the answer that is wanted. The output has the
//! rows that got another one, and how many rows there were. A line with a call alone gets its answer. Empty lines and those that begin with
//! `#` are for the reader.
//!
//! Byte strings are hexadecimal, and `-` is the empty one. A value is shown as its `Debug` text.
#![tactic(auto)]

// the table, and what its lines are made of
mod calls;
mod outside;
mod same_words;
mod table;
mod text;
mod word;

// codecs
mod codecs;
mod faults;
mod pdus;
mod values;

// clients over links in memory, and what stands on them
mod ascii;
mod clients;
mod connecting;
mod context;
mod diagnosing;
mod filing;
mod gateway;
mod left;
mod one_call;
mod reconnect;
mod typed;

// servers and listeners over memory, by each driver
mod listeners;
mod servers;

// the program over memory, its device, and polls
mod asking;
mod maps;
mod passes;
mod polls;
mod program;
mod store;
mod units;

use std::process::ExitCode;

fn main(rt: HostRuntime) -> ExitCode {
    table::answer_table(&rt, &rt)
}
