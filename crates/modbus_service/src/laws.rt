//! Laws on the runs of services that share a line, about definitions alone. Each is proved by its contract.
ghost use Rattle.modbus_service.specs.Shared.{UnitRuns, UnitIsSilent, UnitsRun};

use crate::service::{Answerer, Service};

/// A run of a service as one unit of a line is a run of the service over its own requests and the broadcasts, in order, and the unit
/// answers nothing else.
pub fn only_unit_runs<H, S: Service>()
    ensures run { UnitRuns H S.answers S.takes_memory }
    ensures silent { UnitIsSilent H S.answers S.takes_memory }
{}

/// A run of units is, for each unit that is there, a run of its service over its own requests and the broadcasts, in order.
pub fn units_run<H, S: Answerer>()
    ensures { UnitsRun H S.answering }
{}
