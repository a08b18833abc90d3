//! A sleep that was slept.
ghost use Rattle.std.specs.Prelude.{◌≡◌};
ghost use Rattle.std.specs.Duration.{as_nanos};

use std::marker::Model;
use std::thread;
use std::time::{Clock, Duration};

/// For how long a sleep was asked for. It is made by that alone.
#[derive(Drop)]
pub(crate) struct Nap {
    length: Duration,
}

/// A contract sees the nanoseconds.
impl Model for Nap {
    ghost use Rattle.std.specs.Prelude.{ℕ};
    ghost use Rattle.std.specs.Duration.{as_nanos};

    ghost Value = { ℕ };

    ghost view = { λ it. as_nanos it.length };
}

impl Nap {
    /// None was taken.
    pub(crate) fn none() -> Nap
        ensures { result ≡ 0 }
    {
        Nap {
            length: Duration::ZERO,
        }
    }

    /// Sleeps so long.
    pub(crate) fn take<R: Clock>(clock: &R, length: Duration) -> Nap
        ensures { result ≡ as_nanos length }
    {
        thread::sleep(clock, length);
        Nap { length }
    }
}
