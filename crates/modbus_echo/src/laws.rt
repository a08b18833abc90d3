//! Laws on whole runs of an `EchoGuard`, about definitions alone. Each is proved by its contract, and its body is empty.
ghost use Rattle.modbus_echo.specs.Runs.{WatchesForWritten, StaysKnown, WatchesForGood, DropsEachReply};

use modbus_field::burst::CountedLink;

/// Behind an adapter that is known to echo each own reply is dropped that comes back: over a whole run of writes and reads it stays known, and
/// each read behind a write watches for what was written since the read before it.
pub fn known_echoes_are_dropped<L: CountedLink>()
    ensures written { WatchesForWritten L.input L.not_ready }
    ensures known { StaysKnown L.input L.not_ready }
    ensures watches { WatchesForGood L.input L.not_ready }
{}

/// Behind an adapter that echoes, of which nothing was known, no own reply is given either: each read behind a write drops it.
pub fn echoes_are_dropped<L: CountedLink>()
    ensures { DropsEachReply L.input L.not_ready }
{}
