//! The devices of a serial line, as what answers the requests of TCP.
ghost use Rattle.modbus_link.specs.Line.{meaning_of};
ghost use Rattle.modbus_frame.specs.Meaning.{meaning};
ghost use Rattle.modbus_service.specs.Answering.{Answering, Keeps};
ghost use Rattle.modbus_gateway.specs.Forwards.{forwards, behind};

use crate::answer::{answer_broadcast, answer_call};
use modbus_client::{Client, rtu};
use modbus_frame::{Response, Slave, SlaveContext, SlaveRequest};
use modbus_link::Link;
use modbus_service::{Answerer, ServiceError};
use std::alloc::Global;

/// What reaches devices by their slave addresses, as a client of a serial line does.
///
/// An implementation states by relations which outcomes it may tell and in which states refused memory may leave it.
pub trait Forwarder {
    ghost forwarding: { Answering Self };

    /// Forwards a request to the device of its unit identifier, and answers what came of it; `None` where no device answers, as a broadcast.
    ///
    /// # Errors
    /// The exception of the device, or one that tells why there is no answer of it; `NoMemory` where memory was refused.
    fn forward(&mut self, request: SlaveRequest<'_>) -> Result<Option<Response>, ServiceError>
        ensures { Keeps forwarding self.old request.entry.slave (meaning request.entry.request)
            result self.new };
}

/// Each request is one exchange on the line: a call of the slave, or for unit 0 a request that is sent to all slaves.
impl<L: Link + Send + Drop> Forwarder for rtu::Client<L> {
    ghost forwarding = { forwards (meaning_of L.input L.output L.line) };

    #[tactic(auto, using(crate::proofs::Answering::keeps_given))]
    fn forward(&mut self, request: SlaveRequest<'_>) -> Result<Option<Response>, ServiceError> {
        let unit = Slave(request.slave);
        self.set_slave(unit);
        if unit.is_broadcast() {
            answer_broadcast(self.send(request.request))
        } else {
            answer_call(self.call(request.request))
        }
    }
}

/// The devices of a line that is lent, as what answers requests.
#[derive(Drop)]
pub struct Gateway<'a, C>(pub &'a mut C);

impl<'a, C: Forwarder> Answerer for Gateway<'a, C> {
    ghost answering = { behind (λ it. it.0.now) (λ it. it.0.ghost_name) C.forwarding };

    fn ask(
        &mut self,
        _alloc: Global,
        request: SlaveRequest<'_>,
    ) -> Result<Option<Response>, ServiceError> {
        self.0.forward(request)
    }
}
