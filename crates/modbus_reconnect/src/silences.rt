//! How long a line is waited for, in silences of a link that tells them.
ghost use Rattle.std.specs.Prelude.{◌≡◌};
ghost use Rattle.modbus_reconnect.specs.OnLine.{time_or};
ghost use Rattle.modbus_reconnect.specs.Silences.{silences_for};

use std::time::Duration;

/// As many silences of this length as do not end before this time, and one at least; with no time as many as there can be.
pub(crate) fn silences_for(time: Option<Duration>, silence: Duration) -> u64
    ensures { result ≡ silences_for time silence }
{
    let Some(time) = time else {
        return u64::MAX;
    };
    let before = time.as_nanos().saturating_sub(1) / silence.as_nanos().max(1);
    match u64::try_from(before) {
        Ok(before) => before.saturating_add(1),
        Err(_) => u64::MAX,
    }
}

/// The time that was told, or else another one.
pub(crate) fn time_or(time: Option<Duration>, other: Duration) -> Duration
    ensures { result ≡ time_or time other }
{
    match time {
        Some(time) => time,
        None => other,
    }
}
