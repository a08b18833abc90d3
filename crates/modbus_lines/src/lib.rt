//! The values of a device's points, polled by a client, and the lines that tell them: a table, CSV (RFC 4180), JSON (RFC 8259) and the line
//! protocol of InfluxDB.
//!
//! `Points` plans the reads that give the points of a device, and `poll` makes them, each once, and gives a `Reading` of each point. A `Format`
//! says what the text of a value is. `table_lines`, `csv_line` and `json_line` tell a poll of one device alone; `device_rows`, `device_csv`,
//! `device_json` and `influx_line` name the device, and all but the first the time, so that lines of many devices and many polls stand in one
//! stream. `point_json`, `exception_json`, `away_json` and `back_json`, and the same of `_influx`, tell one thing each: a value that changed, an
//! exception, a device that is away and one that is back. No input or output is made here but the reads of the client.
#![tactic(auto)]

mod append;
mod csv_lines;
mod influx;
mod influx_value;
mod json_lines;
mod points;
mod reading;
mod rows;
mod time;
mod told_influx;
mod told_json;

pub use crate::csv_lines::{csv_header, csv_line, device_csv, device_csv_header};
pub use crate::influx::influx_line;
pub use crate::json_lines::{LargeNumbers, device_json, json_line};
pub use crate::points::Points;
pub use crate::reading::{Format, Polled, Reading, given_in, poll, reading_of};
pub use crate::rows::{device_rows, table_lines};
pub use crate::time::time_text;
pub use crate::told_influx::{away_influx, back_influx, exception_influx, point_influx};
pub use crate::told_json::{away_json, back_json, exception_json, point_json};
