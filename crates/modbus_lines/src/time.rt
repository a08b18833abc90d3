//! The time of a poll as a text.
use jiff::Timestamp;
use std::alloc::{AllocError, Global};
use std::time::Duration;

/// The greatest number of seconds since 1970 that an instant has: 9999-12-30T22:00:00Z.
const MOST_SECONDS: u64 = 253_402_207_200;

/// The instant so long after 1970, to the millisecond; within the last second that there is where it would come later.
fn instant(since_epoch: Duration) -> Timestamp {
    let seconds = since_epoch.as_secs().min(MOST_SECONDS) as i64;
    let millis = i64::from(since_epoch.subsec_millis());
    Timestamp::from_millisecond(seconds * 1000 + millis).unwrap_or(Timestamp::MAX)
}

/// The time so long after the beginning of 1970 in UTC, as RFC 3339 has it, with just three digits behind the seconds:
/// `2026-12-01T06:12:34.567Z`. What is shorter than a millisecond is left out. In place of a later time than 9999-12-30T22:00:00Z that second
/// is told.
///
/// # Errors
/// Refused memory.
pub fn time_text(alloc: Global, since_epoch: Duration) -> Result<String, AllocError> {
    let instant = instant(since_epoch);
    format!(in alloc; "{instant:.3}")
}
