//! A service as one of the devices that share a line.
//!
//! On a serial line each device hears the requests to all. Address 0 is the broadcast address, 1 to 247 are single devices, and 248 to
//! 255 are reserved (MODBUS over Serial Line V1.02, section 2.2). A device does what a broadcast asks and sends nothing back
//! (section 2.1), and leaves the requests for other devices alone.
ghost use Rattle.std.specs.Prelude.{◌≡◌};
ghost use Rattle.modbus_service.specs.Answering.{steady};
ghost use Rattle.modbus_service.specs.OnlyUnit.{unsent_answer, only_unit, only_unit_takes};

use crate::service::{Answerer, Service, ServiceError};
use modbus_frame::{Response, Slave, SlaveId, SlaveRequest};
use std::alloc::{AllocError, Global};

// What is left of an answer that is not sent. Refused memory is the one error.
pub(crate) fn unsent(answer: Result<Option<Response>, ServiceError>) -> Result<(), AllocError>
    ensures { result ≡ unsent_answer answer }
{
    match answer {
        Ok(_) => Ok(()),
        Err(ServiceError::Exception(_)) => Ok(()),
        Err(ServiceError::NoMemory) => Err(AllocError),
    }
}

/// A service as one of the devices of a line: it answers the requests for its address alone.
///
/// A broadcast is done by the service and is not answered, whatever the service said to it; this is so where `unit` is 0 too. A request
/// for any other slave is not answered, and leaves the service as it was.
///
/// It is an [`Answerer`] and no [`Service`], so no service that answers by itself, as one does that tells the exceptions of requests that
/// can't be read, can be put over it: that one would answer the requests for all other slaves. Such a service stands behind the address.
#[derive(Drop)]
pub struct OnlyUnit<S> {
    /// The address of the service.
    pub unit: SlaveId,
    /// What answers the requests for it.
    pub service: S,
}

impl<S: Service> Answerer for OnlyUnit<S> {
    ghost answering = { steady (only_unit S.answers) (only_unit_takes S.takes_memory) };

    fn ask(
        &mut self,
        alloc: Global,
        request: SlaveRequest<'_>,
    ) -> Result<Option<Response>, ServiceError> {
        if Slave(request.slave).is_broadcast() {
            unsent(self.service.call(alloc, request))?;
            Ok(None)
        } else if request.slave == self.unit {
            self.service.call(alloc, request)
        } else {
            Ok(None)
        }
    }
}
