//! The devices of a line behind rules.
ghost use Rattle.std.specs.Prelude.{◌≡◌};
ghost use Rattle.modbus_gateway.specs.Guarded.{guarded};

use crate::gateway::Forwarder;
use modbus_frame::{Response, SlaveRequest};
use modbus_rules::Rules;
use modbus_service::ServiceError;
use std::marker::Model;

/// What reaches devices, for requests that the rules allow alone: any other is answered by an exception, and nothing is done.
#[derive(Drop)]
pub struct Guarded<'r, C> {
    rules: Rules<'r>,
    line: C,
}

/// A contract sees the rules, and what lies behind them.
impl<'r, C> Model for Guarded<'r, C> {
    ghost use Rattle.modbus_gateway.specs.Guarded.{GuardedState};

    ghost Value = { GuardedState C };

    ghost view = { λ it. record { rules = it.rules; line = it.line } };
}

impl<'r, C> Guarded<'r, C> {
    /// What reaches the devices of `line` by these rules.
    pub fn new(rules: Rules<'r>, line: C) -> Guarded<'r, C>
        ensures { result ≡ record { rules = rules.entry; line = line } }
    {
        Guarded { rules, line }
    }
}

impl<'r, C: Forwarder> Forwarder for Guarded<'r, C> {
    ghost forwarding = { guarded C.forwarding };

    fn forward(&mut self, request: SlaveRequest<'_>) -> Result<Option<Response>, ServiceError> {
        match self.rules.refusal(&request) {
            Some(code) => Err(ServiceError::Exception(code)),
            None => self.line.forward(request),
        }
    }
}
