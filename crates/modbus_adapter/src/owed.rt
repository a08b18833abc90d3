//! The echo that is owed: what was written and was not given back yet.
ghost use Rattle.std.specs.Prelude.{◌≡◌, ◌+◌, ◌≤◌, ◌↔◌, [], ◌++◌, length, drop, false, IsTrue};
ghost use Rattle.modbus_link.specs.Outside.{IsFront};
ghost use Rattle.modbus_adapter.specs.Echo.{echo_room};

use arrayvec::ArrayVec;
use std::marker::Model;

/// How many bytes of an echo are kept: as many as the longest frame has, an ASCII frame (MODBUS over Serial Line V1.02, section 2.5.2.1).
pub const ECHO_ROOM: usize = 513;

/// What was written and was not given back yet, in order.
#[derive(Drop)]
pub(crate) struct Owed {
    bytes: ArrayVec<u8, ECHO_ROOM>,
}

/// A contract sees these bytes.
impl Model for Owed {
    ghost use Rattle.std.specs.Prelude.{ℕ, List};

    ghost Value = { List ℕ };

    ghost view = { λ it. it.bytes.items };
}

/// Copies bytes of an echo.
fn copy(bytes: &[u8]) -> ArrayVec<u8, ECHO_ROOM>
    requires { length bytes.now ≤ echo_room }
    ensures { result.items ≡ bytes.now }
{
    match ArrayVec::try_from(bytes) {
        Ok(copy) => copy,
        Err(_) => unreachable!(),
    }
}

/// Whether bytes begin with these.
fn begins_with(bytes: &[u8], front: &[u8]) -> bool
    ensures begins { IsTrue result → bytes.now ≡ front.now ++ drop (length front.now) bytes.now }
    ensures differs { result ≡ false → IsFront front.now bytes.now → ⊥ }
{
    bytes.starts_with(front)
}

impl Owed {
    /// Nothing is owed.
    pub(crate) fn new() -> Owed
        ensures { result ≡ [] }
    {
        Owed {
            bytes: ArrayVec::new(),
        }
    }

    /// Whether nothing is owed.
    pub(crate) fn is_empty(&self) -> bool
        ensures { IsTrue result ↔ (self.now ≡ []) }
    {
        self.bytes.is_empty()
    }

    /// How many bytes are owed.
    pub(crate) fn len(&self) -> usize
        ensures same { result ≡ length self.now }
        ensures within { length self.now ≤ echo_room }
    {
        self.bytes.len()
    }

    /// How many more bytes can be owed.
    pub(crate) fn free(&self) -> usize
        ensures { result + length self.now ≡ echo_room }
    {
        ECHO_ROOM - self.bytes.len()
    }

    /// These bytes were written too.
    pub(crate) fn add(&mut self, piece: &[u8])
        requires { length self.old + length piece.now ≤ echo_room }
        ensures { self.new ≡ self.old ++ piece.now }
    {
        match self.bytes.try_extend_from_slice(piece) {
            Ok(()) => {}
            Err(_) => unreachable!(),
        }
    }

    /// These bytes came. Whether they are the next of the echo, which are then owed no longer; else nothing is owed any more.
    pub(crate) fn take_off(&mut self, came: &[u8]) -> bool
        ensures echo { IsTrue result → self.old ≡ came.now ++ self.new }
        ensures differs { result ≡ false → IsFront came.now self.old → ⊥ }
        ensures forgotten { result ≡ false → self.new ≡ [] }
    {
        if !begins_with(self.bytes.as_slice(), came) {
            self.bytes.clear();
            return false;
        }
        self.bytes = copy(&self.bytes.as_slice()[came.len()..]);
        true
    }
}
