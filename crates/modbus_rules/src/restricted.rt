//! A service behind rules.
ghost use Rattle.modbus_rules.specs.Restricted.{restricted_answers, restricted_takes};

use crate::rules::Rules;
use modbus_frame::{Response, SlaveRequest};
use modbus_service::{Service, ServiceError};
use std::alloc::Global;

/// A service that is asked what the rules allow alone: any other request is answered by an exception, and nothing is done.
///
/// It stands behind the address of its unit, so what a broadcast asks of it is refused as what a request for the unit does.
#[derive(Drop)]
pub struct Restricted<'r, S> {
    /// The rules.
    pub rules: Rules<'r>,
    /// What answers the requests that are allowed.
    pub service: S,
}

impl<'r, S: Service> Service for Restricted<'r, S> {
    ghost answers = { restricted_answers S.answers };

    ghost takes_memory = { restricted_takes S.takes_memory };

    fn call(
        &mut self,
        alloc: Global,
        request: SlaveRequest<'_>,
    ) -> Result<Option<Response>, ServiceError> {
        match self.rules.rules_refusal(request.slave, &request.request) {
            Some(code) => Err(ServiceError::Exception(code)),
            None => self.service.call(alloc, request),
        }
    }
}
