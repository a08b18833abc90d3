//! Requests to stores behind their addresses on one line.

use crate::asking::ask_all;
use crate::text::Text;
use crate::word::Word;
use modbus_app::{Form, Mode, open};
use modbus_diagnostics::Port;
use modbus_field::burst::QuietUnits;
use modbus_files::{Filed, Files};
use modbus_frame::ExceptionCode;
use modbus_service::{OnlyUnit, Units};
use modbus_store::RegisterStore;
use std::alloc::Global;

/// A store at an address, with eight entries a table that hold 0, as a device of this mode has it: that of RTU tells nothing of what is
/// for all, and that of TCP answers it. None where that is no address.
fn unit_of(alloc: Global, mode: Mode, address: &str) -> Option<OnlyUnit<RegisterStore>> {
    let unit = address.parse().ok()?;
    let form = Form {
        mode,
        size: 8,
        seeded: false,
    };
    Some(OnlyUnit {
        unit,
        service: open(alloc, form).ok()?,
    })
}

/// The answers of a store at an address.
fn only(text: &mut Text, address: &str, words: &[Word]) -> bool {
    match unit_of(text.alloc, Mode::Rtu, address) {
        Some(mut unit) => ask_all(text, &mut unit, words),
        None => false,
    }
}

/// Stores at these addresses, which have commas between them.
fn units_of(alloc: Global, mode: Mode, addresses: &str) -> Option<Vec<OnlyUnit<RegisterStore>>> {
    let mut units = Vec::new(alloc);
    for address in addresses.split(',') {
        units.push(unit_of(alloc, mode, address)?).ok()?;
    }
    Some(units)
}

/// The answers of several units, with this exception for an address that none has or silence, or why they cannot share their line.
fn several(
    text: &mut Text,
    absent: Option<ExceptionCode>,
    addresses: &str,
    words: &[Word],
) -> bool {
    let Some(units) = units_of(text.alloc, Mode::Rtu, addresses) else {
        return false;
    };
    match Units::new(units, absent) {
        Ok(mut units) => return ask_all(text, &mut units, words),
        Err(error) => write!(text, "Err({error:?})"),
    }
    true
}

/// The answers of several units that are silent to any other address, or why they cannot share their line.
fn quiet(text: &mut Text, addresses: &str, words: &[Word]) -> bool {
    let Some(units) = units_of(text.alloc, Mode::Rtu, addresses) else {
        return false;
    };
    match QuietUnits::new(units) {
        Ok(mut units) => return ask_all(text, &mut units, words),
        Err(error) => write!(text, "Err({error:?})"),
    }
    true
}

/// The answers of several units behind a port that counts and logs.
fn behind_port(text: &mut Text, addresses: &str, words: &[Word]) -> bool {
    let Some(units) = units_of(text.alloc, Mode::Tcp, addresses) else {
        return false;
    };
    match Port::new(text.alloc, units) {
        Ok(mut port) => return ask_all(text, &mut port, words),
        Err(error) => write!(text, "Err({error:?})"),
    }
    true
}

/// The answers of a device with so many files of so many records, in front of a store.
fn with_files(text: &mut Text, files: u16, records: u16, words: &[Word]) -> bool {
    let form = Form {
        mode: Mode::Rtu,
        size: 8,
        seeded: false,
    };
    match (
        Files::new(text.alloc, files, records),
        open(text.alloc, form),
    ) {
        (Ok(files), Ok(service)) => ask_all(text, &mut Filed { files, service }, words),
        _ => false,
    }
}

/// `only_unit 5 5 0300010001`: a store at an address, and the requests on its line; `units 11 1,2 1 0300010001`: stores at several, with the
/// exception for any other address or `-` for silence; `quiet_units 1,2 1 0300010001`: the same, which are silent to any other;
/// `port 1,2 1 0B`: the same behind a port;
/// `files 2 10 1 1407..`: so many files of so many records.
pub fn answer(text: &mut Text, call: &str, words: &[Word]) -> bool {
    match (call, words) {
        ("only_unit", [address, words @ ..]) => only(text, address.text(), words),
        ("units", [absent, addresses, words @ ..]) => {
            let absent = absent.byte().map(ExceptionCode::new);
            several(text, absent, addresses.text(), words)
        }
        ("port", [addresses, words @ ..]) => behind_port(text, addresses.text(), words),
        ("quiet_units", [addresses, words @ ..]) => quiet(text, addresses.text(), words),
        ("files", [files, records, words @ ..]) => match (files.number(), records.number()) {
            (Some(files), Some(records)) => with_files(text, files, records, words),
            _ => false,
        },
        _ => false,
    }
}
