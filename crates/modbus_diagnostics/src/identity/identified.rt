//! A service that says what it is.
ghost use Rattle.std.specs.Prelude.{◌≡◌};
ghost use Rattle.modbus_frame.specs.Meaning.{meaning};
ghost use Rattle.modbus_diagnostics.specs.IdentityAnswers.{asks_of, identified_answers, identified_takes};

use crate::identity::objects::Identity;
use modbus_frame::{ObjectId, ReadCode, Request, Response, SlaveRequest};
use modbus_service::{Service, ServiceError};
use std::alloc::Global;

/// What a request asks of the identity of a device.
#[derive(Clone, Copy, Debug, PartialEq, Eq)]
enum Asks {
    /// Its number: Report Server ID.
    Number,
    /// Objects of this category, from this one on: Read Device Identification.
    Objects(ReadCode, ObjectId),
    /// Nothing.
    Other,
}

/// What a request asks of the identity of a device.
fn asks_of(request: &Request<'_>) -> Asks
    ensures { result ≡ asks_of (meaning request.now) }
{
    match request {
        Request::ReportServerId => Asks::Number,
        Request::ReadDeviceIdentification(code, id) => Asks::Objects(*code, *id),
        _ => Asks::Other,
    }
}

/// A service that says what it is: it answers Report Server ID (Modbus Application Protocol V1.1b3, section 6.13) and Read Device
/// Identification (section 6.21) by its identity. All else is asked of the service.
///
/// A stream of objects has as many as fit a response, and says where to go on. An object that is not there is told as exception 02 where it
/// was asked for alone; a stream then begins at its first object.
///
/// On a line that is shared it stands behind the address of its unit: over an `OnlyUnit` it would answer for all devices, and that is no
/// `Service`, so that order has no type. It stands behind `StandardAnswers`, which has answered what can't be read.
#[derive(Drop)]
pub struct Identified<S> {
    /// What it says of itself.
    pub identity: Identity,
    /// What answers all else.
    pub service: S,
}

impl<S: Service> Service for Identified<S> {
    ghost answers = { identified_answers S.answers };

    ghost takes_memory = { identified_takes S.takes_memory };

    fn call(
        &mut self,
        alloc: Global,
        request: SlaveRequest<'_>,
    ) -> Result<Option<Response>, ServiceError> {
        match asks_of(&request.request) {
            Asks::Number => Ok(Some(self.identity.report(alloc)?)),
            Asks::Objects(code, id) => self.identity.find(alloc, code, id),
            Asks::Other => self.service.call(alloc, request),
        }
    }
}
