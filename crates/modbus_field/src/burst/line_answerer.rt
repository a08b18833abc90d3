//! What may answer on a line that others share.
//!
//! On a serial line each device hears the requests to all, and one alone answers: an answer to a request for a neighbour, be it an exception,
//! is spoken into the neighbour's own (MODBUS over Serial Line V1.02, sections 2.1 and 2.2).
ghost use Rattle.std.specs.Prelude.{[], ◌∷◌, List, ℕ};
ghost use Rattle.modbus_field.specs.LineAnswers.{KeepsToOwn};

use modbus_service::{Answerer, OnlyUnit, Service};

/// An answerer with addresses of its own, which is silent to whatever is for another: the one kind that a line of bursts is served by.
///
/// An implementation states the addresses of each state, and which states are quiet, and proves `keep_to_own`.
pub trait LineAnswerer: Answerer {
    ghost addresses: { Self → List ℕ };

    ghost is_quiet: { Self → Type 0 };

    /// Each value of the type is quiet; a call of a quiet one answers nothing that is for no address of its own, and leaves it quiet,
    /// with the same addresses. It has no code.
    fn keep_to_own(&self)
        ensures quiet { is_quiet self.now }
        ensures own { KeepsToOwn Self.answering addresses is_quiet };
}

impl<S: Service> LineAnswerer for OnlyUnit<S> {
    ghost addresses = { λ it. it.unit ∷ [] };

    ghost is_quiet = { λ it. Unit {0} };

    fn keep_to_own(&self) {}
}
