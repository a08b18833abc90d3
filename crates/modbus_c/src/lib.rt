//! The protocol for callers that do not write Rattle: C, and all that calls C.
//!
//! Nothing here reads or writes a file or a socket, and nothing is kept between two calls. Each export states the clauses of the call of
//! the library that it makes, over structs of C and the caller's own arrays. `include/modbus.h` declares them.
#![tactic(auto)]

mod answer;
mod ascii;
mod begin;
mod call;
mod call_pdu;
mod export;
mod find;
mod fits;
mod inbox;
mod line;
mod place;
mod put;
mod raw;
mod reply;
mod request;
mod response;
mod seek;
mod serve;
mod settle;
mod status;
mod stream;
mod tables;
mod text;
mod unit;
mod wrap;
