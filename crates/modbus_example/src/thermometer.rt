//! A complete service: a device with one input register.
ghost use Rattle.std.specs.Prelude.{IfOk, ◌≡◌, ◌∷◌, []};
ghost use Rattle.modbus_frame.specs.declared.response.Response.TheVariants.{ReadInputRegisters};

use modbus_frame::{ExceptionCode, Request, Response, SlaveRequest, Words};
use modbus_server::{Service, ServiceError};
use std::alloc::{AllocError, Global};

/// A device with one input register: the temperature in tenths of a degree.
#[derive(Drop)]
pub struct Thermometer {
    pub tenths: u16,
}

impl Thermometer {
    /// The register in a response.
    fn measure(&self, alloc: Global) -> Result<Response, AllocError>
        ensures { IfOk result (λ response. response ≡ ReadInputRegisters (self.now.tenths ∷ [])) }
    {
        let words = Vec::from_slice(alloc, &[self.tenths])?;
        Ok(Response::ReadInputRegisters(Words::new(words)))
    }
}

impl Service for Thermometer {
    ghost use Rattle.modbus_example.specs.Thermometer.{MeasuresAs};

    ghost answers = { MeasuresAs };

    ghost takes_memory = { λ it slave request. Unit {0} };

    fn call(
        &mut self,
        alloc: Global,
        request: SlaveRequest<'_>,
    ) -> Result<Option<Response>, ServiceError> {
        match request.request {
            Request::ReadInputRegisters(0, 1) => Ok(Some(self.measure(alloc)?)),
            Request::ReadInputRegisters(_, _) => Err(ExceptionCode::IllegalDataAddress.into()),
            _ => Err(ExceptionCode::IllegalFunction.into()),
        }
    }
}
