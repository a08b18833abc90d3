//! What the units of a line answer a request.
ghost use Rattle.std.specs.Prelude.{◌≡◌, ◌≢◌, ◌<◌, MatchOption, IfOk, IfSome, length, take, get_or};
ghost use Rattle.std.specs.List.{AllZip};
ghost use Rattle.modbus_frame.specs.Meaning.{meaning};
ghost use Rattle.modbus_pdu.specs.Encodes.{Fits};
ghost use Rattle.modbus_pdu.specs.ResponsePdu.{response_pdu};
ghost use Rattle.modbus_service.specs.Outcome.{Outcome};
ghost use Rattle.modbus_c.specs.Units.{tables_in, TablesTell, UnitTells, plain_units, outcome_of, HearsAll, NoneHas, UnitsTell};

use crate::tables::{ModbusTables, ModbusUnit};
use modbus_field::standard::{Unread, unread_request};
use modbus_frame::{ExceptionCode, Request, Response, SlaveId, SlaveRequest};
use modbus_service::ServiceError;
use modbus_store::LentTables;
use modbus_store::laws::answers_fit;
use std::alloc::Global;

/// The slave address that all units hear.
const BROADCAST: SlaveId = 0;

/// A device that answers each request, also one that can't be read.
pub(crate) trait Device {
    ghost use Rattle.std.specs.Prelude.{ℕ, IfOk, IfSome};
    ghost use Rattle.modbus_frame.specs.Meaning.{Asked, meaning};
    ghost use Rattle.modbus_pdu.specs.Encodes.{Fits};
    ghost use Rattle.modbus_pdu.specs.ResponsePdu.{response_pdu};
    ghost use Rattle.modbus_service.specs.Outcome.{Outcome};
    ghost use Rattle.modbus_c.specs.Units.{outcome_of};

    ghost tells: { ℕ → Asked → Outcome → Self → Self → Type 0 };

    /// What it answers a request of a slave; `None` where there is no answer.
    ///
    /// # Errors
    /// The exception that is answered.
    fn ask(
        &mut self,
        alloc: Global,
        slave: SlaveId,
        request: Request<'_>,
    ) -> Result<Option<Response>, ExceptionCode>
        ensures tells { tells slave (meaning request.entry) (outcome_of result) self.old self.new }
        ensures fits { IfOk result (λ found.
            IfSome found (λ response. Fits (response_pdu response))) };
}

/// A unit of a line: a device behind an address.
pub(crate) trait LineUnit {
    ghost use Rattle.std.specs.Prelude.{◌≡◌, ℕ, IfOk, IfSome};
    ghost use Rattle.modbus_frame.specs.Meaning.{meaning};
    ghost use Rattle.modbus_pdu.specs.Encodes.{Fits};
    ghost use Rattle.modbus_pdu.specs.ResponsePdu.{response_pdu};
    ghost use Rattle.modbus_c.specs.Units.{Units, outcome_of};

    ghost units: { Units Self };

    /// The address that it answers to.
    fn address(&self) -> SlaveId
        ensures { result ≡ units.address self.now };

    /// What it answers a request of a slave; `None` where there is no answer.
    ///
    /// # Errors
    /// The exception that is answered.
    fn ask(
        &mut self,
        alloc: Global,
        slave: SlaveId,
        request: Request<'_>,
    ) -> Result<Option<Response>, ExceptionCode>
        ensures tells { units.tells slave (meaning request.entry) (outcome_of result) self.old
            self.new }
        ensures fits { IfOk result (λ found.
            IfSome found (λ response. Fits (response_pdu response))) };
}

/// What tables answer a request of a slave; `None` where there is no answer.
///
/// # Errors
/// The exception that is answered.
fn ask_tables(
    alloc: Global,
    tables: &mut ModbusTables<'_>,
    slave: SlaveId,
    request: Request<'_>,
) -> Result<Option<Response>, ExceptionCode>
    ensures tells { TablesTell slave (meaning request.entry) (outcome_of result) tables.old
        tables.new }
{
    match unread_request(&request) {
        Some(Unread::Refused(exception)) => return Err(exception),
        Some(Unread::Silent) => return Ok(None),
        None => {}
    }
    let mut lent = LentTables {
        coils: &mut *tables.coils,
        discrete_inputs: tables.discrete_inputs,
        holding_registers: &mut *tables.holding_registers,
        input_registers: tables.input_registers,
        broadcast: true,
    };
    match lent.apply(alloc, SlaveRequest { slave, request }) {
        Ok(answer) => Ok(answer),
        Err(ServiceError::Exception(exception)) => Err(exception),
        Err(ServiceError::NoMemory) => Err(ExceptionCode::ServerDeviceFailure),
    }
}

impl<'t> Device for ModbusTables<'t> {
    ghost use Rattle.modbus_c.specs.Units.{TablesTell};

    ghost tells = { TablesTell };

    fn ask(
        &mut self,
        alloc: Global,
        slave: SlaveId,
        request: Request<'_>,
    ) -> Result<Option<Response>, ExceptionCode> {
        answers_fit();
        ask_tables(alloc, self, slave, request)
    }
}

impl<'t> LineUnit for ModbusUnit<'t> {
    ghost use Rattle.modbus_c.specs.Units.{plain_units};

    ghost units = { plain_units };

    fn address(&self) -> SlaveId {
        self.unit
    }

    fn ask(
        &mut self,
        alloc: Global,
        slave: SlaveId,
        request: Request<'_>,
    ) -> Result<Option<Response>, ExceptionCode> {
        Device::ask(&mut self.tables, alloc, slave, request)
    }
}

/// The place of the first unit of an address.
fn place_of<U: LineUnit>(units: &[U], slave: SlaveId) -> Option<usize>
    ensures { MatchOption result (NoneHas U.units slave units.now) (λ place.
        (place < length units.now) × NoneHas U.units slave (take place units.now)
        × ((it : _) → U.units.address (get_or units.now place it) ≡ slave)) }
{
    for (place, it) in units.iter().enumerate() {
        if it.address() == slave {
            return Some(place);
        }
    }
    None
}

/// Has each unit in turn do what all are asked.
fn tell_all<U: LineUnit>(alloc: Global, units: &mut [U], request: &Request<'_>)
    ensures { AllZip (HearsAll U.units (meaning request.now)) units.old units.new }
{
    for it in units.iter_mut() {
        let _ = it.ask(alloc, BROADCAST, request.lend());
    }
}

/// What the units of a line answer a request; `None` where there is no answer.
///
/// # Errors
/// The exception that is answered.
pub(crate) fn ask_units<U: LineUnit>(
    alloc: Global,
    units: &mut [U],
    slave: SlaveId,
    request: Request<'_>,
) -> Result<Option<Response>, ExceptionCode>
    ensures tells { UnitsTell U.units slave (meaning request.entry) (outcome_of result) units.old
        units.new }
    ensures fits { IfOk result (λ found. IfSome found (λ response. Fits (response_pdu response))) }
{
    if slave == BROADCAST {
        tell_all(alloc, units, &request);
        return Ok(None);
    }
    match place_of(units, slave) {
        Some(place) => units[place].ask(alloc, slave, request),
        None => Ok(None),
    }
}
