//! A line that is left to fall silent, so that no late reply is before the next request.
ghost use Rattle.std.specs.Prelude.{◌≡◌, ◌<◌};
ghost use Rattle.modbus_reconnect.specs.Settles.{DropsNoise, Settles};

use modbus_link::{Failed, Polled, READ_ROOM, TimedLink};

/// Why a line was not settled.
#[derive(Clone, Copy, Debug, PartialEq, Eq, thiserror::Error)]
pub enum Unsettled {
    /// As many bytes came as may be dropped, and the line was not silent for as long as is wanted.
    #[error("the line does not fall silent")]
    StillSending,
    /// A read failed.
    #[error("read fault")]
    ReadFault,
    /// The input has ended.
    #[error("the input has ended")]
    Ended,
}

/// Waits for what comes next, and drops it: so many bytes, or none where so many silences came in a row first.
///
/// # Errors
/// `ReadFault` only where the link's count of read faults rose. `Ended` where a link that tells its bytes has none left.
fn drop_next<L: TimedLink>(link: &mut L, silences: u64, most: usize) -> Result<usize, Unsettled>
    requires { 0 < most }
    ensures drops { DropsNoise silences most (L.input link.old) (L.input link.new)
        (L.not_ready link.old) (L.not_ready link.new) result }
    ensures sink { L.output link.new ≡ L.output link.old }
    ensures line { L.line link.new ≡ L.line link.old }
{
    let mut room = [0; READ_ROOM];
    let len = most.min(READ_ROOM);
    'silences: for _told in 0..silences {
        match link.poll_read(&mut room[..len]) {
            Ok(Polled::Pending) => {}
            Ok(Polled::Ready(0)) => return Err(Unsettled::Ended),
            Ok(Polled::Ready(count)) => return Ok(count),
            Err(Failed) => return Err(Unsettled::ReadFault),
        }
    }
    Ok(0)
}

/// Reads what still comes and drops it, until the line was silent for `silences` silences in a row. It answers how many bytes were
/// dropped. It writes nothing.
///
/// A line that gives `limit` bytes before that is not settled: no more than these are dropped.
///
/// # Errors
/// `StillSending` where `limit` bytes were dropped. `ReadFault` only where the link's count of read faults rose. `Ended` where a link
/// that tells its bytes has none left.
pub fn settle<L: TimedLink>(link: &mut L, silences: u64, limit: usize) -> Result<usize, Unsettled>
    requires { 0 < silences }
    ensures settles { Settles silences limit (L.input link.old) (L.input link.new)
        (L.not_ready link.old) (L.not_ready link.new) result }
    ensures sink { L.output link.new ≡ L.output link.old }
    ensures line { L.line link.new ≡ L.line link.old }
{
    let mut dropped = 0;
    while dropped < limit {
        match drop_next(link, silences, limit - dropped) {
            Ok(0) => return Ok(dropped),
            Ok(count) => dropped += count,
            Err(reason) => return Err(reason),
        }
    }
    Err(Unsettled::StillSending)
}
