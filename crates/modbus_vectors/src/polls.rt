//! Words that name points, plans of items, and polls of a store.

use crate::text::Text;
use crate::typed::Prompted;
use crate::word::Word;
use bytes::Bytes;
use modbus_client::{Client, Context, Reader};
use modbus_frame::Slave;
use modbus_local::poll_service;
use modbus_poll::{
    Item, Kind, Limits, Span, parse_point, plan_reads, plan_spans, poll, poll_inputs,
};
use modbus_store::RegisterStore;
use std::alloc::Global;

/// An item as its address and so many registers.
fn item_of(word: &str) -> Option<Item> {
    let (address, width) = word.split_once(':')?;
    Some(Item {
        address: address.parse().ok()?,
        kind: Kind::Text(width.parse().ok()?),
    })
}

fn items_of(alloc: Global, words: &[Word]) -> Option<Vec<Item>> {
    let mut items = Vec::new(alloc);
    for word in words {
        items.push(item_of(word.text())?).ok()?;
    }
    Some(items)
}

/// The plan of these items, and whether it covers them.
fn push_plan(text: &mut Text, items: &[Item]) {
    match plan_reads(text.alloc, items) {
        Ok(plan) => {
            let is_whole = plan.covers(items);
            for read in plan.reads() {
                write!(text, "{read:?} ");
            }
            write!(text, "{is_whole}");
        }
        Err(error) => text.push_told(error),
    }
}

fn planned(text: &mut Text, words: &[Word]) -> bool {
    match items_of(text.alloc, words) {
        Some(items) => push_plan(text, items.as_slice()),
        None => return false,
    }
    true
}

/// A span as its address and so many registers or bits.
fn span_of(word: &str) -> Option<Span> {
    let (address, count) = word.split_once(':')?;
    Some(Span {
        address: address.parse().ok()?,
        count: count.parse().ok()?,
    })
}

fn spans_of(alloc: Global, words: &[Word]) -> Option<Vec<Span>> {
    let mut spans = Vec::new(alloc);
    for word in words {
        spans.push(span_of(word.text())?).ok()?;
    }
    Some(spans)
}

fn limits_of(most: &str, gap: &str) -> Option<Limits> {
    Some(Limits {
        most: most.parse().ok()?,
        gap: gap.parse().ok()?,
    })
}

/// The plan of these spans within limits.
fn push_span_plan(text: &mut Text, limits: Limits, spans: &[Span]) {
    match plan_spans(text.alloc, limits, spans) {
        Ok(plan) => {
            for read in plan.reads() {
                write!(text, "{read:?} ");
            }
            let is_whole = spans.iter().all(|span| plan.place_of(span).is_some());
            write!(text, "{is_whole}");
        }
        Err(error) => text.push_told(error),
    }
}

fn spans_planned(text: &mut Text, most: &str, gap: &str, words: &[Word]) -> bool {
    match (limits_of(most, gap), spans_of(text.alloc, words)) {
        (Some(limits), Some(spans)) => push_span_plan(text, limits, spans.as_slice()),
        _ => return false,
    }
    true
}

/// Numbers with commas between them.
fn registers_of(alloc: Global, numbers: &str) -> Option<Vec<u16>> {
    let mut registers = Vec::new(alloc);
    for number in numbers.split(',') {
        registers.push(number.parse().ok()?).ok()?;
    }
    Some(registers)
}

/// A store whose holding registers hold these numbers.
pub fn store_of(alloc: Global, numbers: &str) -> Option<RegisterStore> {
    let registers = registers_of(alloc, numbers)?;
    RegisterStore::with_contents(alloc, &[false], &[false], registers.as_slice(), &[0], false).ok()
}

/// What a poll of these items gives. False where no plan covers them.
fn push_poll(text: &mut Text, store: &mut RegisterStore, items: &[Item]) -> bool {
    let Ok(plan) = plan_reads(text.alloc, items) else {
        return false;
    };
    if !plan.covers(items) {
        return false;
    }
    text.push_outcome(poll_service(text.alloc, Slave(1), items, &plan, store));
    true
}

/// The items of the points that these words name.
pub fn points_of(alloc: Global, words: &[Word]) -> Option<Vec<Item>> {
    let mut items = Vec::new(alloc);
    for word in words {
        items.push(parse_point(word.text()).ok()?.item).ok()?;
    }
    Some(items)
}

fn polled(text: &mut Text, numbers: &str, words: &[Word]) -> bool {
    let Some(items) = points_of(text.alloc, words) else {
        return false;
    };
    match store_of(text.alloc, numbers) {
        Some(mut store) => push_poll(text, &mut store, items.as_slice()),
        None => false,
    }
}

/// What the poll that is named gives of these items, by a client. False where no plan covers them.
fn push_asked<R: Reader>(text: &mut Text, call: &str, client: &mut R, items: &[Item]) -> bool {
    let Ok(plan) = plan_reads(text.alloc, items) else {
        return false;
    };
    if !plan.covers(items) {
        return false;
    }
    match call {
        "poll_inputs" => text.push_outcome(poll_inputs(text.alloc, client, items, &plan)),
        _ => text.push_outcome(poll(text.alloc, client, items, &plan)),
    }
    true
}

/// The same by this client.
fn push_prompted(text: &mut Text, call: &str, prompted: Box<Prompted>, items: &[Item]) -> bool {
    let client: Box<dyn Client> = prompted;
    push_asked(text, call, &mut Context::from(client), items)
}

/// The same by a client that gives the answer of this PDU to each read.
fn push_answered(text: &mut Text, call: &str, pdu: &[u8], items: &[Item]) -> bool {
    let Ok(pdu) = Bytes::copy_from_slice(text.alloc, pdu) else {
        return false;
    };
    match Prompted::boxed(text.alloc, pdu) {
        Some(prompted) => push_prompted(text, call, prompted, items),
        None => false,
    }
}

/// The same of the points that these words name.
fn asked(text: &mut Text, call: &str, pdu: &Word, words: &[Word]) -> bool {
    match points_of(text.alloc, words) {
        Some(items) => push_answered(text, call, pdu.bytes().unwrap_or(&[]), items.as_slice()),
        None => false,
    }
}

/// `point 100:u16`: what a word names; `items 0:1 100:2`: the plan of items, each an address and so many registers, and whether it covers them;
/// `spans 125 0 0:1 100:2`: the plan of spans of so many registers or bits, by reads of at most so many and with gaps of at most so many; `poll 1,2 0:u32`: the values of points of a store whose holding registers hold these numbers;
/// `poll_asked PDU 0:u32`, `poll_inputs PDU 0:u32`: those of a client that gives this answer to each read, of holding and of input registers.
pub fn answer(text: &mut Text, call: &str, words: &[Word]) -> bool {
    match (call, words) {
        ("point", [word]) => text.push_outcome(parse_point(word.text())),
        ("items", _) => return planned(text, words),
        ("spans", [most, gap, words @ ..]) => {
            return spans_planned(text, most.text(), gap.text(), words);
        }
        ("poll", [numbers, words @ ..]) => return polled(text, numbers.text(), words),
        ("poll_asked" | "poll_inputs", [pdu, words @ ..]) => {
            return asked(text, call, pdu, words);
        }
        _ => return false,
    }
    true
}
