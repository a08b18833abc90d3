//! Laws on what a line gives to the device, about definitions alone. Each is proved by its contract, and its body is empty.
ghost use Rattle.modbus_device.specs.Echoes.{DropsWhatWasWritten, GivesWhatIsLeft};

use modbus_field::burst::CountedLink;

/// With `--echo` no byte of an own reply is served: over a whole run of writes and reads of an `EchoedLink`, in which no other bytes came in
/// place of an echo, what the reads dropped is what was written, in order; what they gave is the rest of what came, and they gave it only
/// where all that was written had come back before.
pub fn own_replies_are_taken_off<L: CountedLink>()
    ensures drops { DropsWhatWasWritten L.input }
    ensures gives { GivesWhatIsLeft L.input }
{}
