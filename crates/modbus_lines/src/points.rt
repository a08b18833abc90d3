//! The points of a device, and the reads that give them.
ghost use Rattle.std.specs.Prelude.{◌≡◌, ◌↔◌, ℕ, IfOk};
ghost use Rattle.modbus_map.specs.Gathering.{PlansDevice};
ghost use Rattle.modbus_map.specs.Planning.{IsWhyNoPlans};

use modbus_map::{Point, Tables, plan_device};
use modbus_poll::{Limits, Plan, PlanError};
use std::alloc::Global;

/// The points of a device, and the reads of each table that give them.
#[derive(Drop)]
pub struct Points {
    /// The points, with the names by which they are told.
    pub points: Vec<Point>,
    /// The reads of each table.
    pub plans: Tables<Plan>,
}

impl Points {
    /// Plans the reads of a device's points, within its limits.
    ///
    /// # Errors
    /// Those of `plan_device`: `BadItem` with the place of the first point that no read of its table can give, `NoMemory` where memory was
    /// refused and there is no such point.
    pub fn new(alloc: Global, limits: Limits, points: Vec<Point>) -> Result<Points, PlanError>
        ensures points { IfOk result (λ planned. planned.points ≡ points) }
        ensures plans { IfOk result (λ planned. PlansDevice limits points.items planned.plans) }
        ensures refused { (place : ℕ) → (result ≡ Err (PlanError.BadItem place))
            ↔ IsWhyNoPlans limits points.items place }
    {
        match plan_device(alloc, limits, points.as_slice()) {
            Ok(plans) => Ok(Points { points, plans }),
            Err(error) => Err(error),
        }
    }
}
