//! Several services behind their addresses on a line that others share.
ghost use Rattle.std.specs.Prelude.{◌≡◌, None};
ghost use Rattle.modbus_service.specs.Units.{MakesUnits, units_answering};
ghost use Rattle.modbus_field.specs.LineAnswers.{addresses_of};

use crate::burst::laws::units_keep_to_own;
use crate::burst::line_answerer::LineAnswerer;
use modbus_frame::{Response, SlaveRequest};
use modbus_service::{Answerer, OnlyUnit, ServiceError, Units, UnitsError};
use std::alloc::Global;
use std::marker::Model;

/// Services behind distinct addresses on a line that others share: `Units` of modbus_service which are silent to every other address.
///
/// `Units` may have an exception for an address that no unit has, as behind a port of Modbus TCP, and is no [`LineAnswerer`] therefore.
#[derive(Drop)]
pub struct QuietUnits<S> {
    units: Units<S>,
}

/// A contract sees the units, which have no exception for another address.
impl<S> Model for QuietUnits<S> {
    ghost use Rattle.std.specs.Prelude.{◌≡◌, None};
    ghost use Rattle.modbus_service.specs.Units.{LineUnits};

    ghost Value = { LineUnits S };

    ghost view = { λ it. it.units };

    ghost invariant = { λ it. it.units.absent ≡ None };
}

impl<S: Drop> QuietUnits<S> {
    /// Puts services behind their addresses.
    ///
    /// # Errors
    /// The first address that is out of range, or that an earlier unit has too.
    pub fn new(units: Vec<OnlyUnit<S>>) -> Result<QuietUnits<S>, UnitsError>
        ensures { MakesUnits units.items None result }
    {
        match Units::new(units, None) {
            Ok(units) => Ok(QuietUnits { units }),
            Err(error) => Err(error),
        }
    }
}

impl<S: Answerer> Answerer for QuietUnits<S> {
    ghost answering = { units_answering S.answering };

    fn ask(
        &mut self,
        alloc: Global,
        request: SlaveRequest<'_>,
    ) -> Result<Option<Response>, ServiceError> {
        self.units.ask(alloc, request)
    }
}

impl<S: Answerer> LineAnswerer for QuietUnits<S> {
    ghost addresses = { λ it. addresses_of it.units };

    ghost is_quiet = { λ it. it.absent ≡ None };

    fn keep_to_own(&self) {
        let _units = &self.units;
        units_keep_to_own::<S>();
    }
}
