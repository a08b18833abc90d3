//! An answerer that is no `Service`: it has counted a request, and then wants memory.
ghost use Rattle.std.specs.Prelude.{◌≡◌};
ghost use Rattle.modbus_example.specs.Counter.{counting};

use modbus_frame::{ExceptionCode, Response, SlaveRequest};
use modbus_server::{Answerer, ServiceError};
use std::alloc::Global;

/// Answers each request with the exception `ServerDeviceBusy`, counts the requests, and keeps a note of each, which takes memory.
///
/// Where memory was refused the request is counted, as a gateway has then written to its line.
#[derive(Drop)]
pub struct Counter {
    pub asked: u64,
    notes: Vec<u64>,
}

impl Counter {
    /// One that was asked nothing.
    pub fn new(alloc: Global) -> Counter
        ensures { result.asked ≡ 0 }
    {
        Counter {
            asked: 0,
            notes: Vec::new(alloc),
        }
    }
}

impl Answerer for Counter {
    ghost answering = { counting };

    fn ask(
        &mut self,
        _alloc: Global,
        _request: SlaveRequest<'_>,
    ) -> Result<Option<Response>, ServiceError> {
        self.asked = self.asked.saturating_add(1);
        match self.notes.push(self.asked) {
            Ok(()) => Err(ServiceError::Exception(ExceptionCode::ServerDeviceBusy)),
            Err(_) => Err(ServiceError::NoMemory),
        }
    }
}
