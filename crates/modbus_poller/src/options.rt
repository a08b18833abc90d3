//! What the options of the command line tell.

use crate::printing::{Output, Style};
use clap::ArgMatches;
use modbus_frame::Slave;
use modbus_lines::LargeNumbers;
use modbus_map::Device;
use modbus_plant::Settings;
use modbus_poll::Limits;
use std::time::Duration;

/// How long an answer is waited for where nothing tells it, in milliseconds.
const TIMEOUT: u64 = 1000;

/// How often a read is made again where nothing tells it.
const RETRIES: u32 = 1;

/// How long a serial line is silent where a frame ends, in milliseconds: more than the 16 after which a USB converter delivers.
const SILENCE: u64 = 20;

/// How a device is asked whose timeout and retries these are, where no option tells others.
fn settings_of(matches: &ArgMatches<'_>, unit: u8, timeout: Duration, retries: u32) -> Settings {
    Settings {
        unit: Slave(unit),
        timeout: matches
            .get_one("timeout")
            .map(Duration::from_millis)
            .unwrap_or(timeout),
        retries: matches.get_one("retries").unwrap_or(retries),
        silence: Duration::from_millis(matches.get_one("silence").unwrap_or(SILENCE)),
        baud: matches.get_one("baud").unwrap_or(0),
        has_echo: matches.get_flag("echo"),
    }
}

/// How a device alone is asked.
pub fn settings(matches: &ArgMatches<'_>) -> Settings {
    let unit = matches.get_one("unit").unwrap_or(0);
    settings_of(matches, unit, Duration::from_millis(TIMEOUT), RETRIES)
}

/// How a device of a map is asked.
pub fn settings_for(matches: &ArgMatches<'_>, device: &Device) -> Settings {
    settings_of(
        matches,
        device.unit,
        device.timeout,
        u32::from(device.retries),
    )
}

/// What a read may give, where no option tells less or more.
pub fn limits(matches: &ArgMatches<'_>, limits: Limits) -> Limits {
    Limits {
        most: matches.get_one("max-read").unwrap_or(limits.most),
        gap: matches.get_one("max-gap").unwrap_or(limits.gap),
    }
}

/// What a poll prints, in the format of this name.
fn output_named(name: &str) -> Output {
    match name {
        "csv" => Output::Csv,
        "json" => Output::Json,
        "influx" => Output::Influx,
        _ => Output::Table,
    }
}

/// How a poll prints.
pub fn style(matches: &ArgMatches<'_>, has_devices: bool) -> Style {
    let large = if matches.get_flag("big-as-text") {
        LargeNumbers::AsTexts
    } else {
        LargeNumbers::AsNumbers
    };
    Style {
        output: output_named(matches.get_str("format").unwrap_or("table")),
        large,
        has_devices,
    }
}
