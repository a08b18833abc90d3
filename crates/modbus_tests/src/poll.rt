//! Registers of items: which read gives them, and the texts of their values.
use crate::check::check;
use modbus_poll::{Item, Kind, Read, Value, shown};
use std::test::Fail;

/// Whether a read of two registers from 10 on holds one of so many there.
fn holds(address: u16, kind: Kind) -> bool {
    let read = Read {
        address: 10,
        count: 2,
    };
    read.holds(&Item { address, kind })
}

#[test]
fn a_read_holds_the_items_that_lie_within(rt: HostRuntime) -> Result<(), Fail> {
    let ends = (
        holds(10, Kind::U16),
        holds(11, Kind::I16),
        holds(10, Kind::Text(2)),
    );
    check(&rt, ends, (true, true, true));
    let past = (
        holds(9, Kind::U16),
        holds(11, Kind::Text(2)),
        holds(12, Kind::U16),
    );
    check(&rt, past, (false, false, false));
    Ok(())
}

#[test]
fn numbers_are_shown_in_decimal(rt: HostRuntime) -> Result<(), Fail> {
    let most = shown(rt.alloc(), &Value::Unsigned(u64::MAX))?;
    let least = shown(rt.alloc(), &Value::Signed(i64::MIN))?;
    let wanted = ("18446744073709551615", "-9223372036854775808");
    check(&rt, (most.as_str(), least.as_str()), wanted);
    Ok(())
}
