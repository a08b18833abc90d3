//! Lines that other programs read: those of the references of CSV, JSON and the line protocol, and times of GNU date.
use crate::check::check;
use modbus_frame::{ExceptionCode, Word};
use modbus_lines::{
    Format, LargeNumbers, Reading, csv_header, csv_line, device_csv, device_csv_header,
    device_json, device_rows, influx_line, json_line, table_lines, time_text,
};
use modbus_map::{
    ByteOrder, Encoding, Kind, Point, PointValue, Scale, Table, json_of, shown, value_of,
};
use std::alloc::Global;
use std::test::Fail;
use std::time::Duration;

const TIME: &str = "2026-12-01T06:12:34.567Z";

const NANOS: i64 = 1_701_411_154_000_000_000;

fn point(alloc: Global, name: &str, kind: &str, factor: &str, unit: &str) -> Result<Point, Fail> {
    Ok(Point {
        name: String::from_str(alloc, name)?,
        table: Table::HoldingRegisters,
        address: 0,
        encoding: Encoding {
            kind: Kind::of_name(kind).ok_or("kind")?,
            order: ByteOrder::Abcd,
            scale: Scale::new(factor.parse()?, "0".parse()?)?,
        },
        unit: String::from_str(alloc, unit)?,
        is_writable: false,
    })
}

/// A point, and the words of its registers; none where the device refuses it.
#[derive(Drop)]
struct Held {
    point: Point,
    words: Vec<Word>,
}

/// Points of a device, and the words of each.
#[derive(Drop)]
struct Registers {
    held: Vec<Held>,
    alloc: Global,
}

impl Registers {
    fn new(alloc: Global) -> Registers {
        Registers {
            held: Vec::new(alloc),
            alloc,
        }
    }

    /// Adds a point without a factor that has a unit of measure or none.
    fn add(&mut self, name: &str, kind: &str, unit: &str, words: &[Word]) -> Result<(), Fail> {
        self.add_scaled(name, kind, "1", unit, words)
    }

    /// Adds a point with a factor.
    fn add_scaled(
        &mut self,
        name: &str,
        kind: &str,
        factor: &str,
        unit: &str,
        words: &[Word],
    ) -> Result<(), Fail> {
        let point = point(self.alloc, name, kind, factor, unit)?;
        let mut held = Vec::new(self.alloc);
        held.extend_from_slice(words)?;
        self.held.push(Held { point, words: held })?;
        Ok(())
    }
}

/// The text of a value in a format.
fn text_of(alloc: Global, format: Format, value: &PointValue) -> Result<String, Fail> {
    match format {
        Format::Json => Ok(json_of(alloc, value)?),
        Format::Table | Format::Csv | Format::Influx => Ok(shown(alloc, value)?),
    }
}

/// What a point is by its words.
fn reading<'p>(alloc: Global, format: Format, held: &'p Held) -> Result<Reading<'p>, Fail> {
    let point = &held.point;
    let words = held.words.as_slice();
    if words.len() != usize::from(point.encoding.kind.width()) {
        return Ok(Reading {
            point,
            found: Some(Err(ExceptionCode::IllegalDataAddress)),
            text: None,
        });
    }
    let value = value_of(alloc, &point.encoding, words)?;
    let text = text_of(alloc, format, &value)?;
    Ok(Reading {
        point,
        found: Some(Ok(value)),
        text: Some(text),
    })
}

/// What the points are by their words.
fn readings<'p>(alloc: Global, format: Format, held: &'p [Held]) -> Result<Vec<Reading<'p>>, Fail> {
    let mut readings = Vec::new(alloc);
    for one in held {
        readings.push(reading(alloc, format, one)?)?;
    }
    Ok(readings)
}

/// The rows of a table that name no device.
fn table_of(alloc: Global, registers: &Registers) -> Result<Vec<u8>, Fail> {
    let readings = readings(alloc, Format::Table, registers.held.as_slice())?;
    Ok(table_lines(alloc, readings.as_slice())?)
}

/// The rows of a table that name their device.
fn rows_of(alloc: Global, device: &str, registers: &Registers) -> Result<Vec<u8>, Fail> {
    let readings = readings(alloc, Format::Table, registers.held.as_slice())?;
    Ok(device_rows(alloc, device, readings.as_slice())?)
}

#[test]
fn tables_have_a_row_for_each_value(rt: HostRuntime) -> Result<(), Fail> {
    let alloc = rt.alloc();
    let mut registers = Registers::new(alloc);
    registers.add_scaled("voltage", "u16", "0.1", "V", &[2301])?;
    registers.add("current", "u16", "A", &[])?;
    registers.add("energy", "u32", "", &[0, 12])?;
    check(
        &rt,
        table_of(alloc, &registers)?.as_slice(),
        b"voltage         230.1 V\nenergy          12\n".as_slice(),
    );
    check(
        &rt,
        rows_of(alloc, "meter-1", &registers)?.as_slice(),
        b"meter-1.voltage 230.1 V\nmeter-1.energy  12\n".as_slice(),
    );
    check(
        &rt,
        rows_of(alloc, "meter-north", &registers)?.as_slice(),
        b"meter-north.voltage 230.1 V\nmeter-north.energy 12\n".as_slice(),
    );
    Ok(())
}

/// A line of values between commas that names no device.
fn values_of(alloc: Global, registers: &Registers) -> Result<Vec<u8>, Fail> {
    let readings = readings(alloc, Format::Csv, registers.held.as_slice())?;
    Ok(csv_line(alloc, readings.as_slice())?)
}

/// A line for each value between commas, with time and device.
fn records_of(alloc: Global, device: &str, registers: &Registers) -> Result<Vec<u8>, Fail> {
    let readings = readings(alloc, Format::Csv, registers.held.as_slice())?;
    Ok(device_csv(alloc, TIME, device, readings.as_slice())?)
}

#[test]
fn records_quote_what_has_a_comma(rt: HostRuntime) -> Result<(), Fail> {
    let alloc = rt.alloc();
    let mut registers = Registers::new(alloc);
    registers.add("voltage", "u16", "V", &[])?;
    registers.add("energy, all", "u32", "kWh", &[0, 12])?;
    check(
        &rt,
        values_of(alloc, &registers)?.as_slice(),
        b",12\n".as_slice(),
    );
    check(
        &rt,
        records_of(alloc, "meter-1", &registers)?.as_slice(),
        b"2026-12-01T06:12:34.567Z,meter-1,\"energy, all\",12,kWh\n".as_slice(),
    );
    Ok(())
}

#[test]
fn records_have_a_header(rt: HostRuntime) -> Result<(), Fail> {
    let alloc = rt.alloc();
    let mut points = Vec::new(alloc);
    points.push(point(alloc, "voltage", "u16", "0.1", "V")?)?;
    points.push(point(alloc, "energy, all", "u32", "1", "kWh")?)?;
    check(
        &rt,
        csv_header(alloc, points.as_slice())?.as_slice(),
        b"voltage,\"energy, all\"\n".as_slice(),
    );
    check(
        &rt,
        device_csv_header(alloc)?.as_slice(),
        b"time,device,point,value,unit\n".as_slice(),
    );
    Ok(())
}

/// An object that names its device and has a time.
fn object_of(alloc: Global, device: &str, registers: &Registers) -> Result<Vec<u8>, Fail> {
    let readings = readings(alloc, Format::Json, registers.held.as_slice())?;
    let large = LargeNumbers::AsNumbers;
    Ok(device_json(alloc, large, TIME, device, readings.as_slice())?)
}

#[test]
fn objects_name_the_device(rt: HostRuntime) -> Result<(), Fail> {
    let alloc = rt.alloc();
    let mut registers = Registers::new(alloc);
    registers.add_scaled("voltage", "u16", "0.1", "V", &[2301])?;
    registers.add("energy", "u32", "", &[])?;
    check(
        &rt,
        object_of(alloc, "meter \"1\"", &registers)?.as_slice(),
        b"{\"time\":\"2026-12-01T06:12:34.567Z\",\"device\":\"meter \\\"1\\\"\",\"points\":{\"voltage\":230.1,\"energy\":null}}\n".as_slice(),
    );
    Ok(())
}

/// An object of a point for each member.
fn members_of(alloc: Global, large: LargeNumbers, registers: &Registers) -> Result<Vec<u8>, Fail> {
    let readings = readings(alloc, Format::Json, registers.held.as_slice())?;
    Ok(json_line(alloc, large, readings.as_slice())?)
}

#[test]
fn large_numbers_are_texts_on_request(rt: HostRuntime) -> Result<(), Fail> {
    let alloc = rt.alloc();
    let mut registers = Registers::new(alloc);
    registers.add("exact", "u64", "", &[0x20, 0, 0, 0])?;
    registers.add("total", "u64", "", &[0x20, 0, 0, 1])?;
    registers.add("loss", "i64", "", &[0x8000, 0, 0, 0])?;
    check(
        &rt,
        members_of(alloc, LargeNumbers::AsNumbers, &registers)?.as_slice(),
        b"{\"exact\":9007199254740992,\"total\":9007199254740993,\"loss\":-9223372036854775808}\n".as_slice(),
    );
    check(
        &rt,
        members_of(alloc, LargeNumbers::AsTexts, &registers)?.as_slice(),
        b"{\"exact\":9007199254740992,\"total\":\"9007199254740993\",\"loss\":\"-9223372036854775808\"}\n".as_slice(),
    );
    Ok(())
}

/// A line of the line protocol.
fn fields_of(
    alloc: Global,
    nanos: i64,
    device: &str,
    registers: &Registers,
) -> Result<Vec<u8>, Fail> {
    let readings = readings(alloc, Format::Influx, registers.held.as_slice())?;
    Ok(influx_line(alloc, nanos, device, readings.as_slice())?)
}

#[test]
fn line_protocol_has_types(rt: HostRuntime) -> Result<(), Fail> {
    let alloc = rt.alloc();
    let mut registers = Registers::new(alloc);
    registers.add_scaled("voltage", "u16", "0.1", "V", &[2301])?;
    registers.add("energy", "u32", "kWh", &[0, 12])?;
    registers.add("count", "u64", "", &[0x7FFF, 0xFFFF, 0xFFFF, 0xFFFF])?;
    check(
        &rt,
        fields_of(alloc, NANOS, "meter-1", &registers)?.as_slice(),
        b"modbus,device=meter-1 voltage=230.1,energy=12i,count=9223372036854775807i 1701411154000000000\n".as_slice(),
    );
    let mut registers = Registers::new(alloc);
    registers.add("count", "u64", "", &[0x8000, 0, 0, 0])?;
    registers.add("on", "bit0", "", &[1])?;
    registers.add("level", "f32", "", &[0x42F6, 0xE979])?;
    check(
        &rt,
        fields_of(alloc, -1, "meter-1", &registers)?.as_slice(),
        b"modbus,device=meter-1 count=9223372036854775808u,on=true,level=123.456 -1\n".as_slice(),
    );
    Ok(())
}

#[test]
fn line_protocol_has_no_line_without_a_value(rt: HostRuntime) -> Result<(), Fail> {
    let alloc = rt.alloc();
    let mut registers = Registers::new(alloc);
    registers.add("level", "f32", "", &[0x7FC0, 0])?;
    registers.add("flow", "f32", "", &[])?;
    check(
        &rt,
        fields_of(alloc, NANOS, "meter-1", &registers)?.as_slice(),
        b"".as_slice(),
    );
    Ok(())
}

#[test]
fn line_protocol_has_escapes(rt: HostRuntime) -> Result<(), Fail> {
    let alloc = rt.alloc();
    let mut registers = Registers::new(alloc);
    registers.add("a b", "text2", "", &[0x415C, 0x2200])?;
    registers.add("level", "f32", "", &[0xFF80, 0])?;
    check(
        &rt,
        fields_of(alloc, NANOS, "north, 1=a\\\n", &registers)?.as_slice(),
        b"modbus,device=north\\,\\ 1\\=a\\\\\\n a\\ b=\"A\\\\x5c\\\"\" 1701411154000000000\n".as_slice(),
    );
    Ok(())
}

#[test]
fn times_are_those_of_the_calendar(rt: HostRuntime) -> Result<(), Fail> {
    let alloc = rt.alloc();
    let times = [
        (0, 0, "1970-01-01T00:00:00.000Z"),
        (951_868_799, 999_999_999, "2000-02-29T23:59:59.999Z"),
        (1_796_105_554, 567_000_000, TIME),
        (253_402_207_199, 5_000_000, "9999-12-30T21:59:59.005Z"),
        (u64::MAX, 0, "9999-12-30T22:00:00.000Z"),
    ];
    for (seconds, nanos, text) in times.iter() {
        let since_epoch = Duration::new(*seconds, *nanos);
        check(&rt, time_text(alloc, since_epoch)?.as_str(), *text);
    }
    Ok(())
}
