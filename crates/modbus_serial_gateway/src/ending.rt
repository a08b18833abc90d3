//! The lines that tell how a gateway ends that listens.
ghost use Rattle.std.specs.Prelude.{◌≡◌};
ghost use Rattle.modbus_serial_gateway.specs.Ends.{line_of};

use modbus_gateway::ServicesOut;
use modbus_server::ServeError;

/// The line where memory is refused.
pub const NO_MEMORY_LINE: &str = "modbus_serial_gateway: no memory\n";

/// The line where the system refuses the listener.
pub const BIND_LINE: &str = "modbus_serial_gateway: bind fault\n";

/// The line of a listener that does not go on.
pub fn line(error: ServeError<ServicesOut>) -> &'static str
    ensures { result.now ≡ line_of error }
{
    match error {
        ServeError::AcceptFault => "modbus_serial_gateway: accept fault\n",
        ServeError::SpawnFault => "modbus_serial_gateway: spawn fault\n",
        ServeError::Connect(ServicesOut) => "modbus_serial_gateway: services out\n",
        ServeError::NoMemory => NO_MEMORY_LINE,
    }
}
