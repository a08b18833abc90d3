//! The time of a line.

use crate::fault::Fault;
use modbus_lines::time_text;
use std::time::{Duration, SystemTime, UNIX_EPOCH};

/// A time by the system's clock.
#[derive(Drop)]
pub struct Time {
    /// It in UTC, as RFC 3339 has it.
    pub text: String,
    /// It in nanoseconds since 1970, as far as they have 64 bits.
    pub nanos: i64,
}

/// How long after 1970 it is by the system's clock.
fn since_epoch(rt: &HostRuntime) -> Result<Duration, Fault> {
    match SystemTime::now(rt) {
        Ok(time) => Ok(time.duration_since(UNIX_EPOCH).unwrap_or(Duration::ZERO)),
        Err(_) => Err(Fault::Clock),
    }
}

impl Time {
    /// What time it is.
    ///
    /// # Errors
    /// `Clock` where that can't be read, `NoMemory` where memory is refused.
    pub fn now(rt: &HostRuntime) -> Result<Time, Fault> {
        let since = since_epoch(rt)?;
        Ok(Time {
            text: time_text(rt.alloc(), since)?,
            nanos: i64::try_from(since.as_nanos()).unwrap_or(i64::MAX),
        })
    }
}
