//! A client behind a box: what it is told reaches the client in there, and a poll of it.

use crate::clients::{push_called, step};
use crate::polls::points_of;
use crate::text::Text;
use crate::typed::Prompted;
use crate::word::Word;
use bytes::Bytes;
use modbus_client::{Client, Context, Reader};
use modbus_frame::{Address, Request};
use modbus_poll::{
    Item, Limits, Plan, Span, plan_reads, plan_spans, poll, poll_coils, poll_discrete_inputs,
};
use std::alloc::Global;

/// How long a call of a client waits.
fn push_limit<C: Client>(text: &mut Text, client: &C) {
    write!(text, " within {:?}; ", client.timeout());
}

/// The answers of a client to steps with commas between them, each with how long a call then waits.
fn limited_steps<C: Client>(text: &mut Text, client: &mut C, words: &str) -> bool {
    for word in words.split(',') {
        if !step(text, client, word) {
            return false;
        }
        push_limit(text, client);
    }
    true
}

/// The answers of a context whose client is this one, and how long it waits once that is reset; then how long its client does, out of the
/// context, and what that answers a read.
fn stepped(text: &mut Text, prompted: Box<Prompted>, words: &str) -> bool {
    let client: Box<dyn Client> = prompted;
    let mut context = Context::from(client);
    context.reset_timeout();
    push_limit(text, &context);
    let is_done = limited_steps(text, &mut context, words);
    let mut back: Box<dyn Client> = context.into();
    write!(text, "boxed within {:?} ", back.as_ref().timeout());
    push_called(
        text,
        back.as_mut().call(Request::ReadHoldingRegisters(1, 1)),
    );
    is_done
}

/// The values that a poll of these items gives. False where no plan covers them.
fn push_poll<C: Reader>(text: &mut Text, client: &mut C, items: &[Item]) -> bool {
    let Ok(plan) = plan_reads(text.alloc, items) else {
        return false;
    };
    if !plan.covers(items) {
        return false;
    }
    text.push_outcome(poll(text.alloc, client, items, &plan));
    true
}

/// The same of a context whose client is this one, of the points that these words name.
fn polled(text: &mut Text, prompted: Box<Prompted>, words: &[Word]) -> bool {
    let client: Box<dyn Client> = prompted;
    match points_of(text.alloc, words) {
        Some(items) => push_poll(text, &mut Context::from(client), items.as_slice()),
        None => false,
    }
}

/// The addresses that these words name.
fn addresses_of(alloc: Global, words: &[Word]) -> Option<Vec<Address>> {
    let mut addresses = Vec::new(alloc);
    for word in words {
        addresses.push(word.text().parse().ok()?).ok()?;
    }
    Some(addresses)
}

/// The plan of reads of the bits at these addresses.
fn bit_plan(alloc: Global, addresses: &[Address]) -> Option<Plan> {
    let mut spans = Vec::new(alloc);
    for address in addresses {
        spans.push(Span::one(*address)).ok()?;
    }
    plan_spans(alloc, Limits::BITS, spans.as_slice()).ok()
}

/// The states that a poll of the bits at these addresses gives, of coils or else of discrete inputs.
fn bits_polled(text: &mut Text, prompted: Box<Prompted>, of_coils: bool, words: &[Word]) -> bool {
    let Some(addresses) = addresses_of(text.alloc, words) else {
        return false;
    };
    let Some(plan) = bit_plan(text.alloc, addresses.as_slice()) else {
        return false;
    };
    if !plan.reads_each(addresses.as_slice()) {
        return false;
    }
    let client: Box<dyn Client> = prompted;
    let mut context = Context::from(client);
    text.push_outcome(if of_coils {
        poll_coils(text.alloc, &mut context, addresses.as_slice(), &plan)
    } else {
        poll_discrete_inputs(text.alloc, &mut context, addresses.as_slice(), &plan)
    });
    true
}

/// What is done with a context whose client answers this PDU.
fn answer_of(text: &mut Text, call: &str, pdu: Bytes, words: &[Word]) -> bool {
    match (call, Prompted::boxed(text.alloc, pdu), words) {
        ("context", Some(prompted), [steps]) => stepped(text, prompted, steps.text()),
        ("context_poll", Some(prompted), _) => polled(text, prompted, words),
        ("context_coils", Some(prompted), _) => bits_polled(text, prompted, true, words),
        ("context_inputs", Some(prompted), _) => bits_polled(text, prompted, false, words),
        _ => false,
    }
}

/// `context`, the PDU that its client answers, and steps with commas between them; or `context_poll`, that PDU and points; or
/// `context_coils` or `context_inputs`, that PDU and addresses of bits.
pub fn answer(text: &mut Text, call: &str, words: &[Word]) -> bool {
    let [pdu, words @ ..] = words else {
        return false;
    };
    let Some(pdu) = pdu.bytes() else {
        return false;
    };
    match Bytes::copy_from_slice(text.alloc, pdu) {
        Ok(pdu) => answer_of(text, call, pdu, words),
        Err(_) => false,
    }
}
