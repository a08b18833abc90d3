//! Signals to stop.
ghost use Rattle.std.specs.Prelude.{◌≡◌, ◌↔◌, ℕ, ◌≤◌, Bool, IsTrue, IfOk};
ghost use Rattle.modbus_link.specs.Outside.{Rose};
ghost use Rattle.modbus_link.specs.Stops.{stop_at_start, looked_at, stops_after};

use std::alloc::{AllocError, Global};
use std::marker::Model;
use std::sync::Arc;
use std::sync::atomic::{AtomicBool, Ordering};

/// A signal to stop, which is looked at from time to time.
pub trait Stop {
    // how often it said that it is set
    ghost stops: { Self → ℕ };

    // what a look may lead to: the answer, and the signal after it
    ghost looks: { Self → Bool → Self → Type 0 } = { λ old answer new. Unit {0} };

    /// Whether to stop: true only where the signal counted a stop in this call.
    fn is_set(&mut self) -> bool
        ensures later { stops self.old ≤ stops self.new }
        ensures cause { IsTrue result → Rose (stops self.old) (stops self.new) }
        ensures looks { looks self.old result self.new };
}

impl<T: Stop> Stop for &mut T {
    ghost stops = { λ it. T.stops it.now };

    ghost looks = { λ old answer new. T.looks old.now answer new.now };

    fn is_set(&mut self) -> bool {
        (**self).is_set()
    }
}

/// A signal that is set once it was looked at so many times, for tests.
#[derive(Drop)]
pub struct MemoryStop {
    left: u64,
    stops: u64,
}

impl Model for MemoryStop {
    ghost use Rattle.modbus_link.specs.Stops.{StopState};

    ghost Value = { StopState };

    ghost view = { λ stop. record { left = stop.left; stops = stop.stops } };
}

impl MemoryStop {
    /// A signal that is not set at the first `after` looks, and set from then on.
    pub fn new(after: u64) -> MemoryStop
        ensures { result ≡ stop_at_start after }
    {
        MemoryStop {
            left: after,
            stops: 0,
        }
    }
}

impl Stop for MemoryStop {
    ghost stops = { λ stop. stop.stops };

    ghost looks = { λ old answer new. (IsTrue answer ↔ (old.left ≡ 0)) × (new ≡ looked_at old) };

    /// Whether it was looked at as often before as it was made with; each answer `true` is counted.
    fn is_set(&mut self) -> bool {
        if self.left > 0 {
            self.left -= 1;
            return false;
        }
        self.stops = self.stops.saturating_add(1);
        true
    }
}

/// One holder's share of a flag, which any holder may raise from any thread. A raised flag stays raised.
#[derive(Drop)]
pub struct FlagStop {
    flag: Arc<AtomicBool>,
    stops: u64,
}

/// What a contract knows of it is how often this share said that it is set.
impl Model for FlagStop {
    ghost use Rattle.std.specs.Prelude.{ℕ};

    ghost Value = { ℕ };

    ghost view = { λ stop. stop.stops };
}

impl FlagStop {
    /// A flag that is not raised.
    ///
    /// # Errors
    /// `AllocError` where memory is refused.
    pub fn new(alloc: Global) -> Result<FlagStop, AllocError>
        ensures { IfOk result (λ stop. stop ≡ 0) }
    {
        Ok(FlagStop {
            flag: Arc::new(alloc, AtomicBool::new(false))?,
            stops: 0,
        })
    }

    /// Raises the flag for each of its holders.
    pub fn raise(&self) {
        self.flag.store(true, Ordering::Release);
    }

    /// Another share of this flag, with a count of its own. It takes no memory.
    ///
    /// # Errors
    /// `AllocError` where the flag has as many holders as can be counted.
    pub fn share(&self) -> Result<FlagStop, AllocError>
        ensures { IfOk result (λ stop. stop ≡ 0) }
    {
        Ok(FlagStop {
            flag: Arc::try_clone(&self.flag)?,
            stops: 0,
        })
    }
}

impl Stop for FlagStop {
    ghost stops = { λ stop. stop };

    ghost looks = { λ old answer new. new ≡ stops_after answer old };

    /// Whether the flag was raised; each answer `true` is counted in this share.
    fn is_set(&mut self) -> bool {
        let is_raised = self.flag.load(Ordering::Acquire);
        if is_raised {
            self.stops = self.stops.saturating_add(1);
        }
        is_raised
    }
}
