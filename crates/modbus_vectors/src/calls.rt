//! Which module answers a call.
//!
//! Each appends the answer. False where there is no such call, it has no such arguments, or memory was refused.

use crate::text::Text;
use crate::word::Word;
use crate::{
    ascii, clients, codecs, connecting, context, diagnosing, faults, gateway, listeners, maps,
    one_call, passes, pdus, polls, program, reconnect, servers, store, typed, units, values,
};
use std::sync::Wait;

/// The calls of the codecs: types of the protocol, PDUs, RTU frames, Modbus TCP ADUs, and the texts of faults.
fn answer_codecs(text: &mut Text, call: &str, words: &[Word]) -> bool {
    match call {
        "inbox" => return codecs::answer_inbox(text, words),
        "recover" | "transaction" => return codecs::answer_of_count(text, call, words),
        _ => {}
    }
    values::answer(text, call, words)
        || pdus::answer(text, call, words)
        || codecs::answer(text, call, words)
        || faults::answer(text, call, words)
}

/// The calls of clients over links, blocking and polled.
fn answer_over_links(text: &mut Text, call: &str, words: &[Word]) -> bool {
    match call {
        "rtu_call" | "rtu_lent" | "tcp_call" | "matching_call" => {
            clients::answer(text, call, words)
        }
        "ascii_call" => ascii::answer(text, words),
        "tcp_attach" => clients::answer_attached(text, words),
        "tcp_connect" | "matching_connect" => connecting::answer(text, call, words),
        "rtu_polled" | "ascii_polled" | "tcp_polled" | "matching_polled" => {
            one_call::answer(text, call, words)
        }
        "exchange_words" => one_call::answer_exchange(text, words),
        _ => false,
    }
}

/// The calls of clients, and of what stands on them: clients that connect anew or settle their line, and the gateway.
fn answer_clients(text: &mut Text, call: &str, words: &[Word]) -> bool {
    match call {
        "typed" => typed::answer(text, words),
        "only_reads" => diagnosing::answer_only_reads(text, words),
        "context" | "context_poll" | "context_coils" | "context_inputs" => context::answer(
            text, call, words,
        ),
        _ if call.starts_with("gateway") => gateway::answer(text, call, words),
        _ if call.starts_with("reconnect") => reconnect::answer(text, call, words),
        _ => answer_over_links(text, call, words),
    }
}

/// The calls of servers and listeners.
fn answer_servers<R: Wait + Sync>(rt: &R, text: &mut Text, call: &str, words: &[Word]) -> bool {
    match call {
        "serve_singles" => servers::answer_by_bytes(text, words),
        "serve_forever" => servers::answer_forever(text, words),
        "run_listen" => listeners::answer_shared(rt, text, words),
        "listen_not" => listeners::answer_given_back(text, words),
        "passes" => passes::answer(rt, text, words),
        "listen" | "listen_until" | "listen_to_eight" => {
            listeners::answer(rt, text, call, words)
        }
        "serve" | "serve_lent" | "polled_serve" | "serve_until" | "work" => {
            servers::answer(text, call, words)
        }
        "step" => servers::answer_by_steps(text, words),
        _ => false,
    }
}

/// The calls of the program and its device, and of polls.
fn answer_program(text: &mut Text, call: &str, words: &[Word]) -> bool {
    match call {
        "store" | "exchange" | "entries" => store::answer(text, call, words),
        "only_unit" | "units" | "quiet_units" | "port" | "files" => units::answer(
            text, call, words,
        ),
        "point" | "items" | "spans" | "poll" | "poll_asked" | "poll_inputs" => {
            polls::answer(text, call, words)
        }
        "map" | "map_hex" | "map_find" | "map_get" | "map_set" => maps::answer(text, call, words),
        "place_poll" | "place_write" => maps::answer_place(text, call, words),
        "run" | "status" | "listening" => program::answer(text, call, words),
        _ => false,
    }
}

/// Every call.
pub fn answer<R: Wait + Sync>(rt: &R, text: &mut Text, call: &str, words: &[Word]) -> bool {
    answer_program(text, call, words)
        || answer_servers(rt, text, call, words)
        || answer_clients(text, call, words)
        || answer_codecs(text, call, words)
}
