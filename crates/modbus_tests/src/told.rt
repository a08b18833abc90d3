//! Lines that tell one thing of a device: a value, an exception, that it is away, and that it is back.

use crate::check::check;
use modbus_frame::ExceptionCode;
use modbus_lines::{
    Format, LargeNumbers, away_influx, away_json, back_influx, back_json, exception_influx,
    exception_json, point_influx, point_json, reading_of,
};
use modbus_map::{ByteOrder, Decimal, Encoding, Found, Kind, Point, PointValue, Scale, Table};
use std::alloc::Global;
use std::test::Fail;

const TIME: &str = "2026-12-01T06:12:34.567Z";

const NANOS: i64 = 1_701_411_154_000_000_000;

/// A point with a name that both formats escape.
fn flow(alloc: Global) -> Result<Point, Fail> {
    Ok(Point {
        name: String::from_str(alloc, "flow, \"a\"")?,
        table: Table::InputRegisters,
        address: 7,
        encoding: Encoding {
            kind: Kind::I16,
            order: ByteOrder::Abcd,
            scale: Scale::ONE,
        },
        unit: String::from_str(alloc, "l/s")?,
        is_writable: false,
    })
}

/// A value of that point.
fn found() -> Found {
    Some(Ok(PointValue::Number(Decimal {
        units: -5,
        places: 0,
    })))
}

/// A value of that point as JSON.
fn json_of(alloc: Global, point: &Point) -> Result<Vec<u8>, Fail> {
    let reading = reading_of(alloc, Format::Json, point, found())?;
    Ok(point_json(alloc, LargeNumbers::AsNumbers, TIME, "m \"1\"", &reading)?)
}

/// A value of that point in the line protocol.
fn influx_of(alloc: Global, point: &Point) -> Result<Vec<u8>, Fail> {
    let reading = reading_of(alloc, Format::Influx, point, found())?;
    Ok(point_influx(alloc, NANOS, "m 1", &reading)?)
}

#[test]
fn a_value_is_told_with_its_unit(rt: HostRuntime) -> Result<(), Fail> {
    let alloc = rt.alloc();
    let point = flow(alloc)?;
    check(
        &rt,
        json_of(alloc, &point)?.as_slice(),
        b"{\"time\":\"2026-12-01T06:12:34.567Z\",\"device\":\"m \\\"1\\\"\",\"point\":\"flow, \\\"a\\\"\",\"value\":-5,\"unit\":\"l/s\"}\n".as_slice(),
    );
    check(
        &rt,
        influx_of(alloc, &point)?.as_slice(),
        b"modbus,device=m\\ 1 flow\\,\\ \"a\"=-5i 1701411154000000000\n".as_slice(),
    );
    Ok(())
}

#[test]
fn an_exception_is_told_with_its_number(rt: HostRuntime) -> Result<(), Fail> {
    let alloc = rt.alloc();
    let code = ExceptionCode::IllegalDataAddress;
    check(
        &rt,
        exception_json(alloc, TIME, "m", "a \"b\"", code)?.as_slice(),
        b"{\"time\":\"2026-12-01T06:12:34.567Z\",\"device\":\"m\",\"point\":\"a \\\"b\\\"\",\"exception\":2}\n".as_slice(),
    );
    check(
        &rt,
        exception_influx(alloc, NANOS, "m", "a b", code)?.as_slice(),
        b"modbus_state,device=m,point=a\\ b exception=2i 1701411154000000000\n".as_slice(),
    );
    Ok(())
}

#[test]
fn a_device_is_away_and_back(rt: HostRuntime) -> Result<(), Fail> {
    let alloc = rt.alloc();
    check(
        &rt,
        away_json(alloc, TIME, "m", "no \"answer\"")?.as_slice(),
        b"{\"time\":\"2026-12-01T06:12:34.567Z\",\"device\":\"m\",\"away\":true,\"why\":\"no \\\"answer\\\"\"}\n".as_slice(),
    );
    check(
        &rt,
        back_json(alloc, TIME, "m")?.as_slice(),
        b"{\"time\":\"2026-12-01T06:12:34.567Z\",\"device\":\"m\",\"away\":false}\n".as_slice(),
    );
    check(
        &rt,
        away_influx(alloc, NANOS, "m 1", "no \"answer\"")?.as_slice(),
        b"modbus_state,device=m\\ 1 away=true,why=\"no \\\"answer\\\"\" 1701411154000000000\n".as_slice(),
    );
    check(
        &rt,
        back_influx(alloc, NANOS, "m 1")?.as_slice(),
        b"modbus_state,device=m\\ 1 away=false 1701411154000000000\n".as_slice(),
    );
    Ok(())
}
