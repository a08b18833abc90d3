//! What every client does.
ghost use Rattle.std.specs.Prelude.{◌≡◌, Option, Result};
ghost use Rattle.modbus_frame.specs.Meaning.{Asked, meaning};
ghost use Rattle.modbus_frame.specs.declared.fault.ShutdownFault.{ShutdownFault};
ghost use Rattle.std.specs.declared.time.Duration.{Duration};
ghost use Rattle.modbus_client.specs.Matches.{Answer};

use modbus_frame::{Request, Response, Result, ShutdownFault, SlaveContext};
use std::time::Duration;

/// A client sends one request after another, and waits for the reply to each.
///
/// An implementation states its relation of the state before, the request, the answer and the state after.
pub trait Client: SlaveContext + Send + Drop {
    // what a call may lead to
    ghost answers: { Self → Asked → Answer → Self → Type 0 };

    // what a disconnection may lead to
    ghost disconnects: { Self → Result (Unit {0}) ShutdownFault → Self → Type 0 };

    // the timeout that was set last, and what setting it may lead to
    ghost time_limit: { Self → Option Duration };

    ghost limits: { Self → Option Duration → Self → Type 0 };

    /// Sends a request, and waits for the reply.
    ///
    /// # Errors
    /// Those of the implementation.
    fn call(&mut self, request: Request<'_>) -> Result<Response>
        ensures { answers self.old (meaning request.entry) result self.new };

    /// Shuts the link down. The client is disconnected in any case.
    ///
    /// # Errors
    /// `ShutdownFault` where the shutdown of the link failed.
    fn disconnect(&mut self) -> std::result::Result<(), ShutdownFault>
        ensures { disconnects self.old result self.new };

    /// How long a read or a write may take; `None` for any time.
    fn timeout(&self) -> Option<Duration>
        ensures { result ≡ time_limit self.now };

    /// Keeps how long a read or a write may take from then on.
    fn set_timeout(&mut self, duration: Option<Duration>)
        ensures keeps { time_limit self.new ≡ duration }
        ensures limits { limits self.old duration self.new };
}
