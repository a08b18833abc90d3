//! Writing a whole piece, in as many writes as the sink makes of it, or as far as a link is ready.
ghost use Rattle.std.specs.Prelude.{◌≡◌, ◌≤◌, length, drop, IsTrue, OnOk, OnErr};
ghost use Rattle.modbus_link.specs.Outside.{outside, Rose, Extends, bytes_appended, IsFront};
ghost use Rattle.modbus_link.specs.Polled.{Flushes};

use crate::outside::{Failed, Sink};
use crate::polled::{Polled, PolledLink};

/// Writes all of these bytes, in as many writes as it takes.
///
/// # Errors
/// `Failed`, only where the sink's count of faults rose; a front of the bytes was then written.
pub fn write_all<K: Sink>(sink: &mut K, bytes: &[u8]) -> Result<(), Failed>
    ensures sink { Extends (K.output sink.old) (K.output sink.new) }
    ensures all { OnOk result (IsTrue (K.output sink.old).told
        → bytes_appended (K.output sink.old) (K.output sink.new) ≡ bytes.now) }
    ensures front { OnErr result (IsTrue (K.output sink.old).told
        → IsFront (bytes_appended (K.output sink.old) (K.output sink.new)) bytes.now) }
    ensures cause { OnErr result (Rose (K.output sink.old).faults (K.output sink.new).faults) }
    ensures source { K.input sink.new ≡ K.input sink.old }
{
    let mut at = 0;
    while at < bytes.len() {
        at += sink.write(&bytes[at..])?;
    }
    Ok(())
}

/// Writes what was not written yet of these bytes, as far as the link is ready, and counts on what it wrote. The link is not ready only
/// where bytes are left.
///
/// # Errors
/// `Failed`, only where the link's count of write faults rose; then bytes are left.
pub fn flush<L: PolledLink>(
    link: &mut L,
    bytes: &[u8],
    written: &mut usize,
) -> Result<Polled<()>, Failed>
    requires { written.old ≤ length bytes.now }
    ensures within { written.new ≤ length bytes.now }
    ensures flushes { Flushes (outside (L.input link.old) (L.output link.old))
        (outside (L.input link.new) (L.output link.new)) (L.not_ready link.old)
        (L.not_ready link.new) (drop written.old bytes.now) (drop written.new bytes.now) result }
    ensures line { L.line link.new ≡ L.line link.old }
{
    while *written < bytes.len() {
        match link.poll_write(&bytes[*written..])? {
            Polled::Pending => return Ok(Polled::Pending),
            Polled::Ready(count) => *written += count,
        }
    }
    Ok(Polled::Ready(()))
}
