//! A map of the points of a plant: where each lies in a device's tables, and what the words that lie there are worth.
//!
//! A `Point` names a place and says how it is read. `value_of` gives the exact value of the words of its registers, `shown` the text of a
//! value and `json_of` its text as JSON; `words_for` gives the words that stand for a value, and `value_in` the value that a text stands
//! for. No input or output is made here. The standard is the Modbus Application Protocol V1.1b3, which is meant by every section that is
//! named here.
#![tactic(auto)]

mod decimal;
mod decimal_text;
mod device;
mod device_plan;
mod file;
mod gathering;
mod given;
mod grid;
mod json_text;
mod kind;
mod names;
mod notation;
mod order;
mod places;
mod point;
mod point_write;
mod reading;
mod scale;
mod sound;
mod tables;
mod text;
mod value;
mod write;
mod write_error;

pub use crate::decimal::{Decimal, DecimalError};
pub use crate::device::{Device, LinkKind, Map};
pub use crate::device_plan::{Found, plan_table, value_among};
pub use crate::file::{MapError, MapPlace, Reason, line_of, read_map};
pub use crate::gathering::{TableError, gather, plan_device};
pub use crate::given::{Given, read_table};
pub use crate::json_text::json_of;
pub use crate::kind::{ByteOrder, Kind, Table};
pub use crate::notation::{Place, PlaceError, parse_place};
pub use crate::point::{Encoding, Point};
pub use crate::reading::value_in;
pub use crate::scale::{Scale, ScaleError};
pub use crate::tables::Tables;
pub use crate::text::shown;
pub use crate::value::{PointValue, value_of};
pub use crate::write::words_for;
pub use crate::write_error::WriteError;
