//! The numbers that a client gives its requests (MODBUS Messaging on TCP/IP V1.0b, section 3.1.3).
ghost use Rattle.std.specs.Prelude.{◌≡◌, ◌+◌, ◌%◌, ◌^◌};

use std::marker::Model;

/// Numbers for requests, one after another: 0, 1, and so on, and 0 again after 65535.
#[derive(Debug, Drop)]
pub struct TransactionIds {
    following: u16,
}

/// A contract sees the number that comes next.
impl Model for TransactionIds {
    ghost use Rattle.std.specs.Prelude.{ℕ};

    ghost Value = { ℕ };

    ghost view = { λ ids. ids.following };
}

impl Default for TransactionIds {
    ghost is_default = { λ ids. ids ≡ 0 };

    fn default() -> Self {
        Self::new()
    }
}

impl TransactionIds {
    /// Numbers from 0 on.
    pub fn new() -> Self
        ensures { result ≡ 0 }
    {
        TransactionIds { following: 0 }
    }

    /// The next number.
    pub fn next(&mut self) -> u16
        ensures given { result ≡ self.old }
        ensures after { self.new ≡ (self.old + 1) % 2 ^ 16 }
    {
        let given = self.following;
        self.following = given.wrapping_add(1);
        given
    }
}
