//! A service that has files, or none.
ghost use Rattle.modbus_files.specs.MaybeFiled.{maybe_filed_answers, maybe_filed_takes};

use crate::filed::Filed;
use modbus_frame::{Response, SlaveRequest};
use modbus_service::{Service, ServiceError};
use std::alloc::Global;

/// A service with files or without any, as a program is told that makes it.
#[derive(Drop)]
pub enum MaybeFiled<S> {
    /// It has files.
    With(Filed<S>),
    /// It has none: what asks for records is the service's to answer too, as all else.
    Without(S),
}

impl<S: Service> Service for MaybeFiled<S> {
    ghost answers = { maybe_filed_answers S.answers };

    ghost takes_memory = { maybe_filed_takes S.takes_memory };

    fn call(
        &mut self,
        alloc: Global,
        request: SlaveRequest<'_>,
    ) -> Result<Option<Response>, ServiceError> {
        match self {
            MaybeFiled::With(filed) => filed.call(alloc, request),
            MaybeFiled::Without(service) => service.call(alloc, request),
        }
    }
}
