//! What is asked of a device.
ghost use Rattle.modbus_supervisor.specs.Asking.{AsksNext};

use crate::supervised::Supervised;
use modbus_client::Protocol;
use modbus_fleet::Fleet;
use modbus_frame::Error;
use modbus_link::PolledLink;
use modbus_ready::Readiness;

/// Hands the read of a device that comes next to its connection, for its unit; `None` where no read comes next, or the connection takes none.
///
/// # Errors
/// Those of a call that is opened.
pub fn hand_on<P: Protocol, L: PolledLink + Drop, S: Readiness<L>>(
    fleet: &mut Fleet<'static, P, L, S>,
    device: &Supervised,
    now: u64,
) -> Option<Result<(), Error>>
    ensures { AsksNext P.protocol P.heading now device.now fleet.old.devices result fleet.new.devices }
{
    match device.watched.request() {
        Some(request) => fleet.ask_of(device.place, device.unit, request, now),
        None => None,
    }
}
