//! Signals to stop.
use crate::check::check;
use modbus_link::{FlagStop, MemoryStop, Stop};
use std::alloc::AllocError;
use std::process::Abort;
use std::test::Fail;

/// Fails where three looks do not say this.
fn check_looks<R: Abort, X: Stop>(rt: &R, stop: &mut X, wanted: [bool; 3]) {
    check(rt, [stop.is_set(), stop.is_set(), stop.is_set()], wanted);
}

/// Raises the flag of the second share, which is one of the first one's flag and none of the other one's.
fn check_raised<R: Abort>(
    rt: &R,
    first: &mut FlagStop,
    second: &mut FlagStop,
    other: &mut FlagStop,
) {
    check_looks(rt, first, [false, false, false]);
    second.raise();
    check_looks(rt, first, [true, true, true]);
    check_looks(rt, second, [true, true, true]);
    check_looks(rt, other, [false, false, false]);
}

fn check_shares<R: Abort>(
    rt: &R,
    first: &mut FlagStop,
    other: &mut FlagStop,
) -> Result<(), AllocError> {
    check_raised(rt, first, &mut first.share()?, other);
    check_looks(rt, &mut first.share()?, [true, true, true]);
    Ok(())
}

#[test]
fn a_flag_is_raised_for_each_of_its_shares(rt: HostRuntime) -> Result<(), Fail> {
    check_looks(&rt, &mut MemoryStop::new(1), [false, true, true]);
    let mut first = FlagStop::new(rt.alloc())?;
    check_shares(&rt, &mut first, &mut FlagStop::new(rt.alloc())?)?;
    Ok(())
}
