//! What each word of the command line may be.

use clap::{Arg, value_parser};
use modbus_command::{flag, option, positional};
use std::alloc::{AllocError, Global};

/// How values are printed.
const FORMATS: [&str; 4] = ["table", "csv", "json", "influx"];

/// The states of a coil.
const STATES: [&str; 2] = ["0", "1"];

/// What the help says of items.
const ITEMS: &str =
    "Items, as 100:u16: a table (h holding registers, which needs no letter, i input registers, c coils, d discrete inputs), an address from \
                     0 to 65535, a colon and a kind: u16 i16 u32 i32 u64 i64 f32 f64, with an order behind it or none (abcd, high word first, \
                     which needs no word; cdab or le, low word first; badc; dcba), bit0 to bit15, text1 to text125 (registers of two \
                     characters), and bool for coils and discrete inputs";

/// What the help says of the words behind the device of a poll.
const POLLED: &str =
    "Of a map the devices, or points as DEVICE.POINT, that are polled: all where none is named. Of a device its unit identifier, 0 to 255, and \
                      items, as 100:u16: a table (h holding registers, which needs no letter, i input registers, c coils, d discrete inputs), an \
                      address from 0 to 65535, a colon and a kind: u16 i16 u32 i32 u64 i64 f32 f64, with an order behind it or none (abcd, \
                      high word first, which needs no word; cdab or le, low word first; badc; dcba), bit0 to bit15, text1 to text125 \
                      (registers of two characters), and bool for coils and discrete inputs";

/// What the help says of the words behind the device of a write.
const WRITTEN: &str =
    "Of a map a point, as DEVICE.POINT, and its value. Of a device its unit identifier, 0 to 255, and an item, as 100:f32cdab or c5:bool, with its \
                       value; or the address of the first holding register, and what the registers are to hold: 1 to 123 of them, each from \
                       -32768 (in two's complement) to 65535, or 0x0 to 0xFFFF";

pub fn device<'a>(alloc: Global) -> Arg<'a> {
    positional(
        alloc,
        "device",
        "DEVICE",
        "The device: HOST[:PORT], as 192.0.2.1:502, meter.example or [2001:db8::1]:502, port 502 where none is told; or the file of a serial \
         port, with a slash in it; or the file of a map, which ends in .toml",
    )
}

pub fn unit<'a>(alloc: Global) -> Arg<'a> {
    positional(alloc, "unit", "UNIT", "The unit identifier, 0 to 255").value_parser(value_parser!(
        u8
    ))
}

/// The words behind the device of a poll, whatever they are.
pub fn polled<'a>(alloc: Global) -> Arg<'a> {
    positional(alloc, "words", "WORD", POLLED)
        .required(false)
        .num_args(0..)
}

/// The words behind the device of a write, whatever they are.
pub fn written<'a>(alloc: Global) -> Arg<'a> {
    positional(alloc, "words", "WORD", WRITTEN)
        .required(false)
        .num_args(0..)
        .allow_negative_numbers(true)
}

pub fn items<'a>(alloc: Global) -> Arg<'a> {
    positional(alloc, "items", "ITEM", ITEMS).num_args(1..)
}

/// An option of so many milliseconds, a day at most.
fn millis<'a>(alloc: Global, name: &'a str, help: &'a str) -> Arg<'a> {
    option(alloc, name, "MS", help).value_parser(value_parser!(u64).range(1..=86_400_000))
}

pub fn timeout<'a>(alloc: Global) -> Arg<'a> {
    millis(
        alloc,
        "timeout",
        "How long a connection, and then each call, may take, in milliseconds; else what the map says, and 1000 without one",
    )
}

pub fn every<'a>(alloc: Global) -> Arg<'a> {
    millis(
        alloc,
        "every",
        "Poll again after so many milliseconds, and again",
    )
}

pub fn count<'a>(alloc: Global) -> Result<Arg<'a>, AllocError> {
    option(alloc, "count", "N", "End after so many polls")
        .value_parser(value_parser!(u64).range(1..=1_000_000_000_000))
        .requires_arg("every")
}

pub fn retries<'a>(alloc: Global) -> Arg<'a> {
    option(
        alloc,
        "retries",
        "N",
        "How often a read is sent again, over a new connection; else what the map says, and 1 without one",
    )
    .value_parser(value_parser!(u32).range(0..=1000))
}

pub fn max_gap<'a>(alloc: Global) -> Arg<'a> {
    option(
        alloc,
        "max-gap",
        "N",
        "A read takes at most so many registers, or bits, in a row that nothing names; else what the map says, and any without one",
    )
    .value_parser(value_parser!(u16))
}

pub fn max_read<'a>(alloc: Global) -> Arg<'a> {
    option(
        alloc,
        "max-read",
        "N",
        "A read takes at most so many registers; else what the map says, and 125 without one",
    )
    .value_parser(value_parser!(u16).range(1..=125))
}

pub fn format<'a>(alloc: Global) -> Arg<'a> {
    option(
        alloc,
        "format",
        "FORMAT",
        "How values are printed; csv and json have a line for each poll, influx is the line protocol of InfluxDB",
    )
    .value_parser(FORMATS.as_slice())
    .default_value("table")
}

pub fn big_as_text<'a>(alloc: Global) -> Arg<'a> {
    flag(
        alloc,
        "big-as-text",
        "In JSON numbers above 2^53 are texts, for readers that take each number as a double",
    )
}

pub fn plan<'a>(alloc: Global) -> Arg<'a> {
    flag(alloc, "plan", "Print the reads of a poll, and send nothing")
}

pub fn rtu<'a>(alloc: Global) -> Arg<'a> {
    flag(
        alloc,
        "rtu",
        "RTU frames over TCP, as gateways without the MBAP header have them",
    )
}

pub fn silence<'a>(alloc: Global) -> Arg<'a> {
    option(
        alloc,
        "silence",
        "MS",
        "How long a serial line is silent where a frame ends, in milliseconds",
    )
    .value_parser(value_parser!(u64).range(1..=1000))
    .default_value("20")
}

pub fn baud<'a>(alloc: Global) -> Arg<'a> {
    option(
        alloc,
        "baud",
        "N",
        "The speed of a serial line, for the pause between two frames; it is not set",
    )
    .value_parser(value_parser!(u32).range(1..=9_999_999))
}

pub fn echo<'a>(alloc: Global) -> Arg<'a> {
    flag(
        alloc,
        "echo",
        "The adapter of a serial line gives back what is sent",
    )
}

pub fn verify<'a>(alloc: Global) -> Arg<'a> {
    flag(
        alloc,
        "verify",
        "Read the point back, and compare it with what was written",
    )
}

pub fn first<'a>(alloc: Global) -> Arg<'a> {
    positional(
        alloc,
        "first",
        "FIRST",
        "The address of the first, 0 to 65535",
    )
    .value_parser(value_parser!(u16))
}

/// Where a write begins.
pub fn place<'a>(alloc: Global) -> Arg<'a> {
    positional(
        alloc,
        "first",
        "FIRST",
        "The address of the first register, 0 to 65535; or an item, as 100:f32cdab, which then has one value",
    )
}

pub fn values<'a>(alloc: Global) -> Arg<'a> {
    positional(
        alloc,
        "values",
        "VALUE",
        "What the registers are to hold, each from -32768 (in two's complement) to 65535, or 0x0 to 0xFFFF; 1 to 123 of them",
    )
    .num_args(1..)
    .allow_negative_numbers(true)
}

pub fn states<'a>(alloc: Global) -> Arg<'a> {
    positional(
        alloc,
        "states",
        "STATE",
        "What the coils are to be, 0 for OFF and 1 for ON; 1 to 1968 of them",
    )
    .num_args(1..)
    .value_parser(STATES.as_slice())
}
