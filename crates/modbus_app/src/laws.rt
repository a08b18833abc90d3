//! Laws on the device that the program serves.
ghost use Rattle.std.specs.Prelude.{◌≡◌, ℕ, List, [], All, Err};
ghost use Rattle.modbus_rtu.specs.Leftmost.{IsLeftmost};
ghost use Rattle.modbus_rtu.specs.Stands.{frame_at};
ghost use Rattle.modbus_server.specs.declared.error.ProcessError.TheVariants.{NoMemory};
ghost use Rattle.modbus_server.specs.Rtu.{rtu};
ghost use Rattle.modbus_server.specs.Step.{Ran};
ghost use Rattle.modbus_store.specs.Step.{device};
ghost use Rattle.modbus_store.specs.Tables.{Tables};
ghost use Rattle.modbus_app.specs.Memory.{IsSingleWrite};
ghost use Rattle.modbus_server.specs.Moment.{Moment};

use modbus_store::RegisterStore;

/// Serving a store over RTU frames that write one entry each takes memory only as it begins: where it wants memory, nothing was read,
/// nothing was written, and the store is as it was.
pub fn single_writes_take_no_memory()
    ensures { (turns : ℕ) (before after : Moment Tables)
        (ran : Ran rtu device turns before after (Err NoMemory))
        (frames : List ℕ) (stop : ℕ) → IsLeftmost ran.fed frames stop
        → All (λ f. IsSingleWrite (frame_at ran.fed f)) frames
        → (ran.fed ≡ []) × (ran.sent ≡ []) × (after.service ≡ before.service) }
{
    modbus_server::laws::memory_at_the_opening::<RegisterStore>();
}
