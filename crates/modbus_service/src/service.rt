//! What answers requests.
ghost use Rattle.std.specs.Prelude.{◌≡◌, ℕ};
ghost use Rattle.modbus_frame.specs.Meaning.{Asked, meaning};
ghost use Rattle.modbus_service.specs.declared.service.ServiceError.TheVariants as errors;
ghost use Rattle.modbus_service.specs.Outcome.{Outcome};
ghost use Rattle.modbus_service.specs.Answering.{Answering, Keeps, steady};

use modbus_frame::{ExceptionCode, Response, SlaveRequest};
use std::alloc::{AllocError, Global};

/// Why a service gives no response.
#[derive(Clone, Copy, Debug, PartialEq, Eq)]
pub enum ServiceError {
    /// The service answers with this exception (Modbus Application Protocol V1.1b3, section 7).
    Exception(ExceptionCode),
    /// Memory was refused.
    NoMemory,
}

impl From<ExceptionCode> for ServiceError {
    ghost from_gives = { λ code error. error ≡ errors.Exception code };

    fn from(code: ExceptionCode) -> ServiceError {
        ServiceError::Exception(code)
    }
}

impl From<AllocError> for ServiceError {
    ghost from_gives = { λ _ error. error ≡ errors.NoMemory };

    fn from(_error: AllocError) -> ServiceError {
        ServiceError::NoMemory
    }
}

/// What answers the requests of a server, however refused memory leaves it.
///
/// An implementation states by relations which outcomes it may give and in which states refused memory may leave it. Each `Service`
/// is one.
pub trait Answerer {
    ghost answering: { Answering Self };

    /// Answers a request; `None` where there is nothing to answer, as to a broadcast.
    ///
    /// # Errors
    /// An exception, or refused memory; what that leaves is one of the states that the implementation tells.
    fn ask(
        &mut self,
        alloc: Global,
        request: SlaveRequest<'_>,
    ) -> Result<Option<Response>, ServiceError>
        ensures { Keeps answering self.old request.entry.slave (meaning request.entry.request)
            result self.new };
}

/// What answers the requests of a server, and is as it was where memory was refused.
///
/// An implementation states its relation of state, slave, request, outcome and next state, and when a call may take memory.
pub trait Service {
    ghost answers: { Self → ℕ → Asked → Outcome → Self → Type 0 };

    ghost takes_memory: { Self → ℕ → Asked → Type 0 };

    /// Answers a request; `None` where there is nothing to answer, as to a broadcast.
    ///
    /// # Errors
    /// An exception, or refused memory, which comes only where a call may take memory; after that the service is as it was.
    fn call(
        &mut self,
        alloc: Global,
        request: SlaveRequest<'_>,
    ) -> Result<Option<Response>, ServiceError>
        ensures { Keeps (steady answers takes_memory) self.old request.entry.slave
            (meaning request.entry.request) result self.new };
}

impl<V: Service> Answerer for V {
    ghost answering = { steady V.answers V.takes_memory };

    #[inline(always)]
    fn ask(
        &mut self,
        alloc: Global,
        request: SlaveRequest<'_>,
    ) -> Result<Option<Response>, ServiceError> {
        self.call(alloc, request)
    }
}

/// A service that is lent: it answers as the one behind the reference does.
#[derive(Drop)]
pub struct Forward<'a, S>(pub &'a mut S);

impl<'a, S: Service> Service for Forward<'a, S> {
    ghost answers = { λ old slave request outcome new. S.answers old.0.now slave request outcome new.0.now × (new.0.ghost_name ≡ old.0.ghost_name) };

    ghost takes_memory = { λ it slave request. S.takes_memory it.0.now slave request };

    fn call(
        &mut self,
        alloc: Global,
        request: SlaveRequest<'_>,
    ) -> Result<Option<Response>, ServiceError> {
        self.0.call(alloc, request)
    }
}
