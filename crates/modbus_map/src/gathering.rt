//! The poll of a device: its plans, and what their reads were answered.
ghost use Rattle.std.specs.Prelude.{◌≡◌, ◌↔◌, ℕ, None, IfOk, IfErr};
ghost use Rattle.modbus_map.specs.Asking.{AsksTable, ReadsAll, Stops};
ghost use Rattle.modbus_map.specs.Gathering.{IsTablePlan, spans_in, PlansDevice, GathersAll, StopsIn, seen_by};
ghost use Rattle.modbus_map.specs.Planning.{is_out_of_reach, limits_in, first_out_of_reach, IsWhyNoPlans};

use crate::device_plan::{plan_reached, span_of};
use crate::given::{Given, read_table};
use crate::kind::Table;
use crate::point::Point;
use crate::tables::Tables;
use modbus_client::Reader;
use modbus_poll::{Limits, Plan, PlanError, PollError};
use std::alloc::{AllocError, Global};

/// A poll that was ended, in this table, for this reason.
#[derive(Debug, PartialEq, Eq, Drop)]
pub struct TableError {
    pub table: Table,
    pub error: PollError,
}

/// What one read of a table may give, by the limits of a device, which are told for registers.
fn limits_in(limits: Limits, table: Table) -> Limits
    ensures { result ≡ limits_in limits table }
{
    match table {
        Table::Coils | Table::DiscreteInputs => Limits {
            most: Limits::BITS.most,
            gap: limits.gap,
        },
        Table::InputRegisters | Table::HoldingRegisters => limits,
    }
}

/// Whether no read of its table can give a point, within the limits of its device.
fn is_out_of_reach(limits: Limits, point: &Point) -> bool
    ensures { result ≡ is_out_of_reach limits point.now }
{
    !limits_in(limits, point.table).allow(&span_of(point))
}

/// The place of the first point that no read of its table can give.
fn first_out_of_reach(limits: Limits, points: &[Point]) -> Option<usize>
    ensures { result ≡ first_out_of_reach limits points.now }
{
    points
        .iter()
        .position(|point| is_out_of_reach(limits, point))
}

/// The plan of a table for points, each of which a read of its table can give.
fn plan_in(
    alloc: Global,
    table: Table,
    limits: Limits,
    points: &[Point],
) -> Result<Plan, AllocError>
    requires { first_out_of_reach limits points.now ≡ None }
    ensures { IfOk result (λ plan.
        IsTablePlan (limits_in limits table) (spans_in table points.now) plan) }
{
    plan_reached(alloc, table, limits_in(limits, table), points)
}

/// The plans for points, each of which a read of its table can give.
fn plan_tables(alloc: Global, limits: Limits, points: &[Point]) -> Result<Tables<Plan>, AllocError>
    requires { first_out_of_reach limits points.now ≡ None }
    ensures { IfOk result (λ plans. PlansDevice limits points.now plans) }
{
    Ok(Tables {
        coils: plan_in(alloc, Table::Coils, limits, points)?,
        discrete_inputs: plan_in(alloc, Table::DiscreteInputs, limits, points)?,
        input_registers: plan_in(alloc, Table::InputRegisters, limits, points)?,
        holding_registers: plan_in(alloc, Table::HoldingRegisters, limits, points)?,
    })
}

/// Plans the reads that give the points of a device, within its limits for registers. A read of bits may give 2000, with the same gaps.
///
/// # Errors
/// `BadItem` with the place of the first point that no read of its table can give: it has no register or bit, more than the limits allow,
/// or one past the last address. `NoMemory` where memory was refused, and there is no such point.
pub fn plan_device(
    alloc: Global,
    limits: Limits,
    points: &[Point],
) -> Result<Tables<Plan>, PlanError>
    ensures plans { IfOk result (λ plans. PlansDevice limits points.now plans) }
    ensures refused { (place : ℕ) → (result ≡ Err (PlanError.BadItem place))
        ↔ IsWhyNoPlans limits points.now place }
{
    match first_out_of_reach(limits, points) {
        Some(place) => Err(PlanError::BadItem(place)),
        None => Ok(plan_tables(alloc, limits, points)?),
    }
}

/// Makes the reads of one table, and tells which it is where that fails.
fn read_of<R: Reader>(
    alloc: Global,
    reader: &mut R,
    table: Table,
    plan: &Plan,
) -> Result<Vec<Given>, TableError>
    ensures made { IfOk result (λ found.
        ReadsAll (AsksTable R.Client.answers table) reader.old plan.now found.items reader.new) }
    ensures told { IfErr result (λ stop. stop.table ≡ table) }
    ensures stops { IfErr result (λ stop.
        Stops (AsksTable R.Client.answers table) reader.old plan.now stop.error reader.new) }
{
    match read_table(alloc, reader, table, plan.reads()) {
        Ok(found) => Ok(found),
        Err(error) => Err(TableError { table, error }),
    }
}

/// Makes the reads of a device by a client, each once: of coils, discrete inputs, input registers, then holding registers. One that is refused
/// with an exception ends them not.
///
/// # Errors
/// That of `read_table`, with its table, behind the reads of the tables before it; no later read was made.
pub fn gather<R: Reader>(
    alloc: Global,
    reader: &mut R,
    plans: &Tables<Plan>,
) -> Result<Tables<Vec<Given>>, TableError>
    ensures made { IfOk result (λ found. GathersAll R.Client.answers reader.old plans.now
        (seen_by (λ v. v.items) found) reader.new) }
    ensures stops { IfErr result (λ stop.
        StopsIn R.Client.answers reader.old plans.now stop reader.new) }
{
    let coils = read_of(alloc, reader, Table::Coils, &plans.coils)?;
    let discrete_inputs = read_of(alloc, reader, Table::DiscreteInputs, &plans.discrete_inputs)?;
    let input_registers = read_of(alloc, reader, Table::InputRegisters, &plans.input_registers)?;
    let holding_registers = read_of(
        alloc,
        reader,
        Table::HoldingRegisters,
        &plans.holding_registers,
    )?;
    Ok(Tables {
        coils,
        discrete_inputs,
        input_registers,
        holding_registers,
    })
}
