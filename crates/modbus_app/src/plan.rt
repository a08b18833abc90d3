//! The form `plan`: the items that its words name, and the text that tells the reads of their plan.
ghost use Rattle.std.specs.Prelude.{◌≡◌, ◌+◌, ◌<◌, ◌≤◌, ◌==◌, ◌++◌, true, length, map, position, string_bytes, Some, IfOk, IfSome};
ghost use Rattle.std.specs.List.{AllPass};
ghost use Rattle.arrayvec.specs.ArrayString.{array_string_len};
ghost use Rattle.modbus_pdu.specs.Limits.{max_read_registers};
ghost use Rattle.modbus_poll.specs.Items.{is_readable};
ghost use Rattle.modbus_ascii.specs.Limits.{colon};
ghost use Rattle.modbus_app.specs.Plan.{item_of, item_split, item_named, items_named, read_line, count_line, plan_text, ArePlanned, IsPlanText, TellsPlan};

use arrayvec::ArrayString;
use itoa::Buffer;
use modbus_link::{Sink, write_all};
use modbus_pdu::MAX_READ_REGISTERS;
use modbus_poll::{Item, Kind, Plan, PlanError, Read, number_within, plan_reads};
use modbus_server::ProcessError;
use std::alloc::{AllocError, Global};

/// How many registers a device can have.
const ADDRESSES: u32 = 0x1_0000;

/// The length of the longest line.
const LINE: usize = 32;

/// The item of an address and a width in registers, where both are there and no register of it is behind the last address.
fn item_of(address: Option<u32>, width: Option<u32>) -> Option<Item>
    requires address { IfSome address (λ address. address ≤ 65535) }
    requires width { IfSome width (λ width. width ≤ max_read_registers) }
    requires some { IfSome width (λ width. 1 ≤ width) }
    ensures exact { result ≡ item_of address width }
    ensures readable { IfSome result (λ item. is_readable item ≡ true) }
{
    match (address, width) {
        (Some(address), Some(width)) if address + width <= ADDRESSES => Some(Item {
            address: address as u16,
            kind: Kind::Text(width as u8),
        }),
        _ => None,
    }
}

/// The place of the first colon.
fn first_colon(text: &[u8]) -> Option<usize>
    ensures { result ≡ position (λ byte. byte == colon) text.now }
{
    text.iter().position(|byte| *byte == b':')
}

/// The item of a text with its first colon at this place.
fn item_split(text: &[u8], colon: usize) -> Option<Item>
    requires { colon < length text.now }
    ensures exact { result ≡ item_split text.now (Some colon) }
    ensures readable { IfSome result (λ item. is_readable item ≡ true) }
{
    let address = number_within(&text[..colon], 5, 0, 0xFFFF);
    let width = number_within(&text[colon + 1..], 3, 1, MAX_READ_REGISTERS as u32);
    item_of(address, width)
}

/// The item that a word names: an address of one to five digits, a colon, and a width of one to three digits, from 1 to 125.
#[tactic(auto, using(crate::proofs::Planned::colon_within))]
pub fn item_of_word(word: &str) -> Option<Item>
    ensures exact { result ≡ item_named word.now }
    ensures readable { IfSome result (λ item. is_readable item ≡ true) }
{
    match first_colon(word.as_bytes()) {
        Some(colon) => item_split(word.as_bytes(), colon),
        None => None,
    }
}

/// The items that words name, in their order. A word that names none is passed over.
fn items_of(alloc: Global, words: &[String]) -> Result<Vec<Item>, AllocError>
    ensures named { IfOk result (λ items. items.items ≡ items_named (map string_bytes words.now)) }
    ensures readable { IfOk result (λ items. AllPass is_readable items.items) }
{
    let mut items = Vec::new(alloc);
    for word in words {
        if let Some(item) = item_of_word(word.as_str()) {
            items.push(item)?;
        }
    }
    Ok(items)
}

/// The plan for items, each of which a read can give.
fn plan_of(alloc: Global, items: &[Item]) -> Result<Plan, AllocError>
    requires { AllPass is_readable items.now }
    ensures { IfOk result (ArePlanned items.now) }
{
    match plan_reads(alloc, items) {
        Ok(plan) => Ok(plan),
        Err(PlanError::NoMemory) => Err(AllocError),
        Err(PlanError::BadItem(_)) => unreachable!(),
    }
}

/// Appends a text for which there is room.
fn push(line: &mut ArrayString<LINE>, text: &str)
    requires { array_string_len line.old + length text.now ≤ 32 }
    ensures { line.new.bytes ≡ line.old.bytes ++ text.now }
{
    match line.try_push_str(text) {
        Ok(()) => {}
        Err(_) => unreachable!(),
    }
}

/// A read on a line.
fn read_line(read: Read) -> ArrayString<LINE>
    ensures { result.bytes ≡ read_line read }
{
    let mut digits = Buffer::new();
    let mut line = ArrayString::new();
    push(&mut line, "read ");
    push(&mut line, digits.format(read.address));
    push(&mut line, " ");
    push(&mut line, digits.format(read.count));
    push(&mut line, "\n");
    line
}

/// How many reads there are, on a line.
fn count_line(count: usize) -> ArrayString<LINE>
    ensures { result.bytes ≡ count_line count }
{
    let mut digits = Buffer::new();
    let mut line = ArrayString::new();
    push(&mut line, "reads ");
    push(&mut line, digits.format(count));
    push(&mut line, "\n");
    line
}

/// The reads, each on a line, and how many they are.
fn text_of(alloc: Global, reads: &[Read]) -> Result<Vec<u8>, AllocError>
    ensures { IfOk result (λ text. text.items ≡ plan_text reads.now) }
{
    let mut text = Vec::new(alloc);
    for read in reads {
        text.extend_from_slice(read_line(*read).as_bytes())?;
    }
    text.extend_from_slice(count_line(reads.len()).as_bytes())?;
    Ok(text)
}

/// The text of the plan for the items that words name.
fn planned(alloc: Global, words: &[String]) -> Result<Vec<u8>, AllocError>
    ensures { IfOk result (λ text. IsPlanText (items_named (map string_bytes words.now))
        text.items) }
{
    let items = items_of(alloc, words)?;
    let plan = plan_of(alloc, items.as_slice())?;
    text_of(alloc, plan.reads())
}

/// Appends to a sink the reads of the plan for the items that words name, each on a line, and how many they are.
///
/// # Errors
/// `WriteFault`, only where the sink's count of faults rose; a front of the text was then appended. `NoMemory` where memory was
/// refused; nothing was appended.
pub fn tell_plan<K: Sink>(alloc: Global, words: &[String], sink: &mut K) -> Result<(), ProcessError>
    ensures { TellsPlan (items_named (map string_bytes words.now)) (K.output sink.old)
        (K.output sink.new) result }
{
    let Ok(text) = planned(alloc, words) else {
        return Err(ProcessError::NoMemory);
    };
    match write_all(sink, text.as_slice()) {
        Ok(()) => Ok(()),
        Err(_) => Err(ProcessError::WriteFault),
    }
}
