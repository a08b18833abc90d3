//! Values of the field: floats of IEEE 754, factors, orders, and what is refused.
use crate::check::check;
use modbus_frame::Word;
use modbus_map::{
    ByteOrder, Encoding, Kind, Point, Scale, Table, WriteError, json_of, plan_device, plan_table,
    shown, value_of,
};
use modbus_poll::{Limits, PlanError};
use std::alloc::Global;
use std::test::Fail;

fn encoding(kind: &str, order: &str, factor: &str, offset: &str) -> Result<Encoding, Fail> {
    Ok(Encoding {
        kind: Kind::of_name(kind).ok_or("kind")?,
        order: ByteOrder::of_name(order).ok_or("order")?,
        scale: Scale::new(factor.parse()?, offset.parse()?)?,
    })
}

/// The text of the value of words.
fn read(alloc: Global, encoding: Encoding, words: &[Word]) -> Result<String, Fail> {
    if words.len() != usize::from(encoding.kind.width()) {
        return Err(Fail::from("width"));
    }
    let value = value_of(alloc, &encoding, words)?;
    Ok(shown(alloc, &value)?)
}

/// The value of words as JSON.
fn json(alloc: Global, encoding: Encoding, words: &[Word]) -> Result<String, Fail> {
    if words.len() != usize::from(encoding.kind.width()) {
        return Err(Fail::from("width"));
    }
    let value = value_of(alloc, &encoding, words)?;
    Ok(json_of(alloc, &value)?)
}

/// A point that may be written: a coil, or holding registers.
fn point(alloc: Global, encoding: Encoding) -> Result<Point, Fail> {
    let table = if encoding.kind == Kind::Bool {
        Table::Coils
    } else {
        Table::HoldingRegisters
    };
    Ok(Point {
        name: String::from_str(alloc, "level")?,
        table,
        address: 0,
        encoding,
        unit: String::new(alloc),
        is_writable: true,
    })
}

/// The words that are written for a text.
fn written(alloc: Global, encoding: Encoding, text: &str) -> Result<Vec<Word>, Fail> {
    Ok(
        point(alloc, encoding)?
            .words_of_text(alloc, text)?
            .into_vec(),
    )
}

#[test]
fn floats_have_four_orders(rt: HostRuntime) -> Result<(), Fail> {
    let alloc = rt.alloc();
    let orders = [
        ("ABCD", [0x42F6, 0xE979]),
        ("CDAB", [0xE979, 0x42F6]),
        ("BADC", [0xF642, 0x79E9]),
        ("DCBA", [0x79E9, 0xF642]),
    ];
    for (order, words) in orders.iter() {
        let float = encoding("f32", order, "1", "0")?;
        check(
            &rt,
            read(alloc, float, words.as_slice())?.as_str(),
            "123.456",
        );
        check(
            &rt,
            written(alloc, float, "123.456")?.as_slice(),
            words.as_slice(),
        );
    }
    Ok(())
}

#[test]
fn integers_have_factors(rt: HostRuntime) -> Result<(), Fail> {
    let alloc = rt.alloc();
    let level = encoding("u16", "AB", "0.1", "0")?;
    check(&rt, read(alloc, level, &[215])?.as_str(), "21.5");
    check(&rt, read(alloc, level, &[200])?.as_str(), "20.0");
    let warmth = encoding("i16", "AB", "0.1", "-273.15")?;
    check(&rt, read(alloc, warmth, &[0xFFFF])?.as_str(), "-273.25");
    let energy = encoding("i64", "CDAB", "0.001", "0")?;
    check(
        &rt,
        read(alloc, energy, &[0, 0, 0, 0x8000])?.as_str(),
        "-9223372036854775.808",
    );
    check(
        &rt,
        written(alloc, level, "21.5")?.as_slice(),
        [215].as_slice(),
    );
    check(
        &rt,
        written(alloc, level, "21.50")?.as_slice(),
        [215].as_slice(),
    );
    check(
        &rt,
        written(alloc, warmth, "-273.25")?.as_slice(),
        [0xFFFF].as_slice(),
    );
    check(
        &rt,
        written(alloc, energy, "0.001")?.as_slice(),
        [1, 0, 0, 0].as_slice(),
    );
    Ok(())
}

/// Why a text is not written.
fn refusal(alloc: Global, encoding: Encoding, text: &str) -> Result<WriteError, Fail> {
    match point(alloc, encoding)?.words_of_text(alloc, text) {
        Ok(_) => Err(Fail::from("written")),
        Err(error) => Ok(error),
    }
}

#[test]
fn refusals_have_causes(rt: HostRuntime) -> Result<(), Fail> {
    let alloc = rt.alloc();
    let level = encoding("u16", "AB", "0.1", "0")?;
    check(&rt, refusal(alloc, level, "21.55")?, WriteError::OffGrid);
    check(
        &rt,
        refusal(alloc, level, "6553.6")?,
        WriteError::OutOfRange,
    );
    check(&rt, refusal(alloc, level, "-0.1")?, WriteError::OutOfRange);
    check(&rt, refusal(alloc, level, "warm")?, WriteError::NotOfKind);
    check(
        &rt,
        refusal(alloc, encoding("bit 3", "AB", "1", "0")?, "1")?,
        WriteError::BitOfRegister,
    );
    check(
        &rt,
        refusal(alloc, encoding("text1", "AB", "1", "0")?, "abc")?,
        WriteError::TooLong,
    );
    check(
        &rt,
        refusal(alloc, encoding("f32", "ABCD", "1", "0")?, "1e39")?,
        WriteError::OutOfRange,
    );
    check(
        &rt,
        written(alloc, encoding("text2", "BA", "1", "0")?, "abc")?.as_slice(),
        [0x6261, 0x0063].as_slice(),
    );
    check(
        &rt,
        written(alloc, encoding("bool", "AB", "1", "0")?, "true")?.as_slice(),
        [1].as_slice(),
    );
    Ok(())
}

#[test]
fn values_have_texts(rt: HostRuntime) -> Result<(), Fail> {
    let alloc = rt.alloc();
    check(
        &rt,
        read(alloc, encoding("bit3", "AB", "1", "0")?, &[0x0008])?.as_str(),
        "1",
    );
    check(
        &rt,
        read(alloc, encoding("bit3", "BA", "1", "0")?, &[0x0008])?.as_str(),
        "0",
    );
    check(
        &rt,
        read(alloc, encoding("f32", "ABCD", "1", "0")?, &[0xFF80, 0])?.as_str(),
        "-inf",
    );
    let no_number = encoding("f64", "ABCD", "1", "0")?;
    check(
        &rt,
        read(alloc, no_number, &[0x7FF8, 0, 0, 0])?.as_str(),
        "NaN",
    );
    check(
        &rt,
        json(alloc, no_number, &[0x7FF8, 0, 0, 0])?.as_str(),
        "null",
    );
    check(
        &rt,
        json(alloc, encoding("u16", "AB", "0.1", "0")?, &[200])?.as_str(),
        "20.0",
    );
    let name = encoding("text2", "AB", "1", "0")?;
    check(
        &rt,
        read(alloc, name, &[0x415C, 0x2200])?.as_str(),
        "A\\x5c\"",
    );
    check(
        &rt,
        json(alloc, name, &[0x415C, 0x2200])?.as_str(),
        "\"A\\\\x5c\\\"\"",
    );
    Ok(())
}

/// A coil, a text in two registers, and a number in two of which the second is past the last address.
fn unlike_points(alloc: Global) -> Result<Vec<Point>, Fail> {
    let mut past_the_last = point(alloc, encoding("u32", "ABCD", "1", "0")?)?;
    past_the_last.address = 0xFFFF;
    let mut points = Vec::new(alloc);
    points.push(point(alloc, encoding("bool", "AB", "1", "0")?)?)?;
    points.push(point(alloc, encoding("text2", "AB", "1", "0")?)?)?;
    points.push(past_the_last)?;
    Ok(points)
}

/// Why a table, or all tables of a device, have no plan for these points within limits.
fn why_no_plan(
    alloc: Global,
    table: Option<Table>,
    limits: Limits,
    points: &[Point],
) -> Option<PlanError> {
    match table {
        Some(table) => plan_table(alloc, table, limits, points).err(),
        None => plan_device(alloc, limits, points).err(),
    }
}

#[test]
fn plans_tell_the_first_point_that_no_read_gives(rt: HostRuntime) -> Result<(), Fail> {
    let alloc = rt.alloc();
    let points = unlike_points(alloc)?;
    let single = Limits { most: 1, gap: 0 };
    let cases = [
        (None, Limits::REGISTERS, Some(PlanError::BadItem(2))),
        (None, single, Some(PlanError::BadItem(1))),
        (Some(Table::Coils), single, None),
        (
            Some(Table::HoldingRegisters),
            single,
            Some(PlanError::BadItem(1)),
        ),
    ];
    for (table, limits, wanted) in cases.iter() {
        let found = why_no_plan(alloc, *table, *limits, points.as_slice());
        check(&rt, found, *wanted);
    }
    Ok(())
}
