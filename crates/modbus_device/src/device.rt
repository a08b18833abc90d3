//! The units of the device.
ghost use Rattle.std.specs.Prelude.{◌≡◌, IfOk, IfErr};
ghost use Rattle.modbus_field.specs.LineAnswers.{addresses_of};
ghost use Rattle.modbus_files.specs.Files.{files_at_start};
ghost use Rattle.modbus_device.specs.Held.{HasFiles, rules_by};

use crate::files::FileSizes;
use crate::setting::Setting;
use modbus_command::{FAILED, USAGE};
use modbus_diagnostics::identity::{Identified, Identity, IdentityError};
use modbus_diagnostics::{Port, PortError};
use modbus_field::standard::StandardAnswers;
use modbus_field::stream::{DefaultUnit, NON_SIGNIFICANT, ReservedCodes};
use modbus_files::{Filed, Files, MaybeFiled};
use modbus_frame::{ExceptionCode, SlaveId};
use modbus_rules::{Restricted, Rules};
use modbus_service::{OnlyUnit, Units, UnitsError};
use modbus_store::{RegisterStore, Sizes, StoreError};
use std::alloc::{AllocFailed, Global};

/// What a unit holds: four tables, and files where it has any.
type Held = MaybeFiled<RegisterStore>;

/// A unit: what it holds, behind the rules of what masters may do, and what the device says of itself. It answers as the standard wants where a
/// request can't be read.
type Unit = StandardAnswers<Identified<Restricted<'static, Held>>>;

/// The units behind a port of Modbus TCP, one of which is the device itself. What has a function code that no request has is answered too.
pub type Device = ReservedCodes<DefaultUnit<Units<Unit>>>;

/// The units on a serial line, behind a port that counts and logs what it hears and answers for that.
pub type LineDevice = Port<Unit>;

/// Why there are no such units.
#[derive(Clone, Copy, Debug, PartialEq, Eq, thiserror::Error)]
pub enum OpenError {
    /// A unit is 0 or above 247.
    #[error("a unit is a number from 1 to 247, and not {0}")]
    Unit(SlaveId),
    /// Two units have this address.
    #[error("two units have the address {0}")]
    Twice(SlaveId),
    /// The default unit is none of the units.
    #[error("the default unit {0} is none of the units")]
    Default(SlaveId),
    /// A table would not have 1 to 65536 entries.
    #[error("a table has 1 to 65536 entries")]
    Entries,
    /// What is set is no input of a unit that is there.
    #[error("--set names a unit that is not there, or an address past the end of its table")]
    Setting,
    /// A text of the identity does not fit a response.
    #[error("a text of the device has at most 244 bytes")]
    Text,
    /// Memory was refused.
    #[error("no memory")]
    NoMemory,
}

impl OpenError {
    /// The status of the program that can't have its units.
    pub fn status(self) -> u8 {
        match self {
            OpenError::NoMemory => FAILED,
            _ => USAGE,
        }
    }
}

impl<T: Drop> From<AllocFailed<T>> for OpenError {
    fn from(_error: AllocFailed<T>) -> OpenError {
        OpenError::NoMemory
    }
}

impl From<UnitsError> for OpenError {
    fn from(error: UnitsError) -> OpenError {
        match error {
            UnitsError::OutOfRange(unit) => OpenError::Unit(unit),
            UnitsError::Twice(unit) => OpenError::Twice(unit),
        }
    }
}

impl From<PortError> for OpenError {
    fn from(error: PortError) -> OpenError {
        match error {
            PortError::BadUnits(wrong) => OpenError::from(wrong),
            PortError::NoRoom => OpenError::NoMemory,
        }
    }
}

impl From<IdentityError> for OpenError {
    fn from(error: IdentityError) -> OpenError {
        match error {
            IdentityError::NoMemory => OpenError::NoMemory,
            _ => OpenError::Text,
        }
    }
}

/// What makes a device: its units, their tables, and what it says of itself.
#[derive(Clone, Copy)]
pub struct Plan<'w> {
    /// The addresses of the units.
    pub units: &'w [SlaveId],
    /// How many entries each table of a unit has.
    pub entries: u32,
    /// What their inputs are at first, where they are not 0.
    pub settings: &'w [Setting],
    /// The files of records that each unit has, where it has any.
    pub files: Option<FileSizes>,
    /// Whether masters may write nothing.
    pub is_read_only: bool,
    /// What the device says of itself.
    pub texts: Texts<'w>,
}

/// What a request over Modbus TCP is for, by its unit identifier.
#[derive(Clone, Copy, Debug, PartialEq, Eq)]
pub struct Addressing {
    /// The unit that is the device itself; the first one where there is none.
    pub default_unit: Option<SlaveId>,
    /// Whether 0 is a broadcast, as on a serial line, and not the device itself.
    pub zero_is_broadcast: bool,
    /// Whether a request for a unit that is not there has no answer.
    pub is_silent: bool,
}

/// What a device says of itself (Modbus Application Protocol V1.1b3, sections 6.13 and 6.21).
#[derive(Clone, Copy)]
pub struct Texts<'w> {
    /// The number of Report Server ID.
    pub server_id: u8,
    /// The name of its vendor.
    pub vendor: &'w str,
    /// Its product code, which Report Server ID tells too.
    pub product: &'w str,
    /// Its revision.
    pub revision: &'w str,
    /// The objects 3 to 6: the address of the vendor in the net, the name of the product, the model, the application.
    pub others: [Option<&'w str>; 4],
}

/// The first of the other objects.
const FIRST_OTHER: u8 = 3;

/// The identity that has these texts.
fn identity_of(alloc: Global, texts: &Texts<'_>) -> Result<Identity, IdentityError> {
    let product = texts.product.as_bytes();
    let vendor = texts.vendor.as_bytes();
    let revision = texts.revision.as_bytes();
    let mut identity = Identity::new(alloc, texts.server_id, product, vendor, product, revision)?;
    for (id, text) in (FIRST_OTHER..).zip(texts.others) {
        if let Some(text) = text {
            identity.add(alloc, id, text.as_bytes())?;
        }
    }
    Ok(identity)
}

/// Tables that hold zeros, as many entries each. They answer what is for all as what is for one: the units keep that answer from the line,
/// and a port counts by it how the message ended.
fn open_store(alloc: Global, entries: u32) -> Result<RegisterStore, OpenError> {
    let sizes = Sizes {
        coils: entries,
        discrete_inputs: entries,
        holding_registers: entries,
        input_registers: entries,
    };
    match RegisterStore::new(alloc, sizes, false) {
        Ok(store) => Ok(store),
        Err(StoreError::BadSize) => Err(OpenError::Entries),
        Err(StoreError::NoMemory) => Err(OpenError::NoMemory),
    }
}

/// Sets the inputs of the unit at this address.
fn set_inputs(
    store: &mut RegisterStore,
    unit: SlaveId,
    settings: &[Setting],
) -> Result<(), OpenError> {
    for setting in settings {
        if setting.unit == unit && setting.apply(store).is_err() {
            return Err(OpenError::Setting);
        }
    }
    Ok(())
}

/// These tables, and beside them so many files, which hold zeros.
fn open_files(alloc: Global, sizes: FileSizes, store: RegisterStore) -> Result<Held, OpenError>
    ensures held { IfOk result (λ held. held ≡ MaybeFiled.With (record {
      files = files_at_start sizes.files sizes.records;
      service = store;
    })) }
    ensures memory { IfErr result (λ error. error ≡ OpenError.NoMemory) }
{
    match Files::new(alloc, sizes.files, sizes.records) {
        Ok(files) => Ok(MaybeFiled::With(Filed {
            files,
            service: store,
        })),
        Err(_) => Err(OpenError::NoMemory),
    }
}

/// What the unit at this address holds at first.
fn open_held(alloc: Global, plan: &Plan<'_>, address: SlaveId) -> Result<Held, OpenError>
    ensures { IfOk result (λ held. HasFiles plan.now.files held) }
{
    let mut store = open_store(alloc, plan.entries)?;
    set_inputs(&mut store, address, plan.settings)?;
    match plan.files {
        Some(sizes) => open_files(alloc, sizes, store),
        None => Ok(MaybeFiled::Without(store)),
    }
}

/// What masters may do.
fn rules_of(is_read_only: bool) -> Rules<'static>
    ensures { result ≡ rules_by is_read_only }
{
    if is_read_only {
        Rules::read_only()
    } else {
        Rules::none()
    }
}

/// The unit of the device at this address.
fn open_unit(alloc: Global, plan: &Plan<'_>, address: SlaveId) -> Result<Unit, OpenError>
    ensures files { IfOk result (λ unit. HasFiles plan.now.files unit.service.service.service) }
    ensures rules { IfOk result (λ unit. unit.service.service.rules
        ≡ rules_by plan.now.is_read_only) }
{
    let held = open_held(alloc, plan, address)?;
    Ok(StandardAnswers {
        service: Identified {
            identity: identity_of(alloc, &plan.texts)?,
            service: Restricted {
                rules: rules_of(plan.is_read_only),
                service: held,
            },
        },
    })
}

/// Whether each setting is of a unit that is there.
fn have_units(plan: &Plan<'_>) -> bool {
    plan.settings
        .iter()
        .all(|setting| plan.units.contains(&setting.unit))
}

/// The units of a device, each with four tables of zeros, but for the inputs that are set.
fn open_units(alloc: Global, plan: &Plan<'_>) -> Result<Vec<OnlyUnit<Unit>>, OpenError>
    ensures { IfOk result (λ units. addresses_of units.items ≡ plan.now.units.now) }
{
    if !have_units(plan) {
        return Err(OpenError::Setting);
    }
    let mut units = Vec::new(alloc);
    for address in plan.units {
        units.push(OnlyUnit {
            unit: *address,
            service: open_unit(alloc, plan, *address)?,
        })?;
    }
    Ok(units)
}

impl Addressing {
    /// The answer to a request for a unit that is not there.
    fn absent(self) -> Option<ExceptionCode> {
        if self.is_silent {
            None
        } else {
            Some(ExceptionCode::GatewayTargetDevice)
        }
    }

    /// The unit that is the device itself, among these.
    fn device_among(self, units: &[SlaveId]) -> Result<SlaveId, OpenError> {
        match (self.default_unit, units) {
            (None, [first, ..]) => Ok(*first),
            (None, []) => Ok(NON_SIGNIFICANT),
            (Some(unit), _) if units.contains(&unit) => Ok(unit),
            (Some(unit), _) => Err(OpenError::Default(unit)),
        }
    }
}

/// The units of a device behind a port of Modbus TCP, each with four tables. They tell that a unit is not there by the exception
/// 0B, or are silent to a request for it.
///
/// # Errors
/// A default unit that is none of them, the first address that is no unit's or stands twice, a number of entries out of range, a text that
/// is too long, or refused memory.
pub fn open(alloc: Global, plan: &Plan<'_>, addressing: Addressing) -> Result<Device, OpenError> {
    let unit = addressing.device_among(plan.units)?;
    let units = Units::new(open_units(alloc, plan)?, addressing.absent())?;
    Ok(ReservedCodes {
        service: DefaultUnit {
            unit,
            zero_is_broadcast: addressing.zero_is_broadcast,
            service: units,
        },
    })
}

/// The same units on a serial line, whose port has heard nothing. They are silent to whatever is for another: a port has no exception for
/// an address that none of them has.
///
/// # Errors
/// Those of `open`, but for the default unit.
pub fn open_line(alloc: Global, plan: &Plan<'_>) -> Result<LineDevice, OpenError>
    ensures { IfOk result (λ device. device.units ≡ plan.now.units.now) }
{
    Ok(Port::new(alloc, open_units(alloc, plan)?)?)
}
