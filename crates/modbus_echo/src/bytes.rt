//! Bytes within others.
ghost use Rattle.std.specs.Prelude.{◌≡◌, ◌+◌, ◌-◌, ◌<◌, ◌≤◌, ◌++◌, ℕ, length, take, drop, false, IsTrue};
ghost use Rattle.modbus_link.specs.Outside.{IsFront};
ghost use Rattle.modbus_echo.specs.Guard.{IsWithin};

/// Whether bytes begin with these.
pub(crate) fn begins_with(bytes: &[u8], front: &[u8]) -> bool
    ensures begins { IsTrue result → bytes.now ≡ front.now ++ drop (length front.now) bytes.now }
    ensures differs { result ≡ false → IsFront front.now bytes.now → ⊥ }
{
    bytes.starts_with(front)
}

/// Whether these stand somewhere in bytes.
pub(crate) fn holds(bytes: &[u8], part: &[u8]) -> bool
    ensures within { IsTrue result → IsWithin part.now bytes.now }
    ensures apart { result ≡ false → IsWithin part.now bytes.now → ⊥ }
{
    for start in 0..bytes.len() + 1 {
        if begins_with(&bytes[start..], part) {
            return true;
        }
    }
    false
}

/// Takes so many bytes off the front of those that stand in a room, and moves the others there: how many they are.
pub(crate) fn drop_front(room: &mut [u8], front: usize, count: usize) -> usize
    requires front { front ≤ count }
    requires count { count ≤ length room.old }
    ensures left { result ≡ count - front }
    ensures length { length room.new ≡ length room.old }
    ensures moved { take result room.new ≡ drop front (take count room.old) }
{
    room.copy_within(front..count, 0);
    count - front
}
