//! Links: objects of the outside with both ends, which can be shut down.
ghost use Rattle.std.specs.Prelude.{◌≡◌};
ghost use Rattle.modbus_link.specs.Line.{Shuts};

use crate::outside::{Failed, Sink, Source};
use std::time::Duration;

/// Where bytes come from and go to, as one object that can be shut down.
pub trait Link: Source + Sink {
    /// Shuts the link down.
    ///
    /// # Errors
    /// `Failed`, only where the link's count of shutdown faults rose.
    fn shutdown(&mut self) -> Result<(), Failed>
        ensures line { Shuts (Self.line self.old) result (Self.line self.new) }
        ensures source { Self.input self.new ≡ Self.input self.old }
        ensures sink { Self.output self.new ≡ Self.output self.old };

    /// Keeps how long a read or a write may take from then on; `None` for any time.
    fn set_timeout(&mut self, duration: Option<Duration>)
        ensures line { Self.line self.new ≡ record (Self.line self.old) { timeout = duration } }
        ensures source { Self.input self.new ≡ Self.input self.old }
        ensures sink { Self.output self.new ≡ Self.output self.old };
}

impl<T: Link> Link for &mut T {
    fn shutdown(&mut self) -> Result<(), Failed> {
        (**self).shutdown()
    }

    fn set_timeout(&mut self, duration: Option<Duration>) {
        (**self).set_timeout(duration)
    }
}
