//! The outcome of a call.
ghost use Rattle.std.specs.Prelude.{◌≡◌, IfOk};
ghost use Rattle.modbus_store.specs.Outcomes.{outcome_of, result_of};
ghost use Rattle.modbus_store.specs.Plan.{outcome_planned};

use modbus_frame::{ExceptionCode, Response};
use modbus_service::ServiceError;
use std::alloc::{AllocError, Global};

/// What a call of a shared store was answered.
#[derive(Debug, PartialEq, Eq, Drop)]
pub enum Outcome {
    /// A broadcast has its effect and no answer (MODBUS over Serial Line V1.02, section 2.2).
    Silent,
    /// A response.
    Response(Response),
    /// An exception (Modbus Application Protocol V1.1b3, section 7).
    Exception(ExceptionCode),
}

impl Outcome {
    /// An equal outcome. Refused memory is the one error.
    pub fn try_clone(&self, alloc: Global) -> Result<Outcome, AllocError>
        ensures { IfOk result (λ copy. copy ≡ self.now) }
    {
        match self {
            Outcome::Silent => Ok(Outcome::Silent),
            Outcome::Response(response) => Ok(Outcome::Response(response.try_clone(alloc)?)),
            Outcome::Exception(code) => Ok(Outcome::Exception(*code)),
        }
    }

    /// The outcome of a response; a broadcast has none.
    pub(crate) fn of(response: Option<Response>) -> Outcome
        ensures { outcome_of result ≡ outcome_planned response }
    {
        match response {
            Some(response) => Outcome::Response(response),
            None => Outcome::Silent,
        }
    }

    /// The answer of a service with this outcome.
    pub(crate) fn into_answer(self) -> Result<Option<Response>, ServiceError>
        ensures { result ≡ result_of self }
    {
        match self {
            Outcome::Silent => Ok(None),
            Outcome::Response(response) => Ok(Some(response)),
            Outcome::Exception(code) => Err(ServiceError::Exception(code)),
        }
    }
}
