//! What a listener serves with.
ghost use Rattle.std.specs.Prelude.{◌≡◌, ℕ, List, Result};
ghost use Rattle.modbus_server.specs.declared.error.ServeError.{ServeError};

use modbus_server::{Answerer, ServeError};

/// What gives a service for each connection to a program's port, and tells why the program does not go on.
pub trait Services {
    /// The service of a connection.
    type Service: Answerer;

    /// Why there is no service for one more connection.
    type Refusal;

    // what opening a service may lead to
    ghost opens: { Self → Result Self.Service Self.Refusal → Self → Type 0 };

    // the status of each end, and its line
    ghost status_of: { ServeError Self.Refusal → ℕ };

    ghost line_of: { ServeError Self.Refusal → List ℕ };

    /// A service for one more connection. It takes no memory.
    ///
    /// # Errors
    /// Why there is none.
    fn open(&mut self) -> Result<Self::Service, Self::Refusal>
        ensures { opens self.old result self.new };

    /// The status of a listener that does not go on, and the line that tells it.
    fn ending(error: ServeError<Self::Refusal>) -> (u8, &'static str)
        ensures status { result.0 ≡ status_of error }
        ensures line { result.1.now ≡ line_of error };

    /// The name of the program, with which the lines begin that are told of peers that are kept waiting.
    fn program() -> &'static str;
}
