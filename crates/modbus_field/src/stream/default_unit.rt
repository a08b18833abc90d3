//! The unit identifiers by which masters address a Modbus TCP device itself (MODBUS Messaging on TCP/IP V1.0b, section 4.4.1.2).
ghost use Rattle.std.specs.Prelude.{◌≡◌};
ghost use Rattle.modbus_field.specs.DefaultUnit.{is_for_device, unit_asked, default_unit};

use modbus_frame::{Response, SlaveId, SlaveRequest};
use modbus_service::{Answerer, ServiceError};
use std::alloc::Global;

/// The unit identifier that says nothing: the device is reached by its IP address alone (section 4.4.1.2).
pub const NON_SIGNIFICANT: SlaveId = 255;

/// The unit identifier that is accepted too to communicate directly with a device (section 4.4.1.2); a broadcast on a serial line.
const ZERO: SlaveId = 0;

/// Units behind a port of Modbus TCP, one of which is the device itself: it is asked what is for unit identifier 255, and what is for 0.
///
/// Each other request goes through as it is, and so does one for 0 where `zero_is_broadcast`. An answer still has the request's unit
/// identifier: a framing takes it from the request's header, as a master takes no answer of another unit for its own.
#[derive(Drop)]
pub struct DefaultUnit<S> {
    /// The unit that is the device itself.
    pub unit: SlaveId,
    /// Whether 0 is a broadcast, as on a serial line.
    pub zero_is_broadcast: bool,
    /// What answers.
    pub service: S,
}

impl<S> DefaultUnit<S> {
    /// Whether this unit identifier is that of the device itself.
    fn is_for_device(&self, unit: SlaveId) -> bool
        ensures { result ≡ is_for_device self.now.zero_is_broadcast unit }
    {
        unit == NON_SIGNIFICANT || unit == ZERO && !self.zero_is_broadcast
    }

    /// The unit that is asked what is for this unit identifier.
    pub fn unit_asked(&self, unit: SlaveId) -> SlaveId
        ensures { result ≡ unit_asked self.now unit }
    {
        if self.is_for_device(unit) {
            self.unit
        } else {
            unit
        }
    }
}

impl<S: Answerer> Answerer for DefaultUnit<S> {
    ghost answering = { default_unit S.answering };

    fn ask(
        &mut self,
        alloc: Global,
        request: SlaveRequest<'_>,
    ) -> Result<Option<Response>, ServiceError> {
        let slave = self.unit_asked(request.slave);
        let asked = SlaveRequest {
            slave,
            request: request.request,
        };
        self.service.ask(alloc, asked)
    }
}
