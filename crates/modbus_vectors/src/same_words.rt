//! A service for tables.

use modbus_frame::{Response, SlaveRequest, Words};
use modbus_service::{Service, ServiceError};
use std::alloc::Global;

/// Answers so many registers, all of them 0x0020, and counts its calls.
#[derive(Drop)]
pub struct SameWords {
    count: usize,
    pub calls: u64,
}

impl SameWords {
    pub fn new(count: u16) -> SameWords {
        SameWords {
            count: usize::from(count),
            calls: 0,
        }
    }
}

impl Service for SameWords {
    ghost answers = { λ old slave request outcome new. Unit {0} };

    ghost takes_memory = { λ it slave request. Unit {0} };

    fn call(
        &mut self,
        alloc: Global,
        _request: SlaveRequest<'_>,
    ) -> Result<Option<Response>, ServiceError> {
        let Ok(words) = Vec::from_elem(alloc, 0x0020, self.count) else {
            return Err(ServiceError::NoMemory);
        };
        self.calls = self.calls.saturating_add(1);
        Ok(Some(Response::ReadHoldingRegisters(Words::new(words))))
    }
}
