//! A serial line that tells silence, as what reaches devices by their slave addresses.
ghost use Rattle.std.specs.Prelude.{◌≡◌};
ghost use Rattle.modbus_link.specs.Line.{meaning_of};
ghost use Rattle.modbus_client.specs.LineReading.{line_protocol, silent_protocol};
ghost use Rattle.modbus_client.specs.Rtu.{rtu_heading};
ghost use Rattle.modbus_reconnect.specs.SettleState.{line_by};
ghost use Rattle.modbus_gateway.specs.Serial.{forwards_settled};

use crate::answer::{answer_broadcast, answer_call};
use crate::gateway::Forwarder;
use modbus_client::Client;
use modbus_frame::function_code::REPORT_SERVER_ID;
use modbus_frame::{Request, Response, Slave, SlaveContext, SlaveRequest};
use modbus_link::TimedLink;
use modbus_reconnect::{IdleLink, SerialClient};
use modbus_service::ServiceError;
use std::marker::Model;

/// The devices of a serial line, by a client that lets the line fall silent where it is in doubt.
#[derive(Drop)]
pub struct SerialLine<L> {
    client: SerialClient<L>,
}

/// A contract sees the client.
impl<L> Model for SerialLine<L> {
    ghost use Rattle.modbus_gateway.specs.Serial.{SerialState};

    ghost Value = { SerialState L };

    ghost view = { λ it. it.client };
}

impl<L> SerialLine<L> {
    /// The devices that this client reaches.
    pub fn new(client: SerialClient<L>) -> SerialLine<L>
        ensures { result ≡ client }
    {
        SerialLine { client }
    }

    /// The client of the line.
    pub fn client(&self) -> &SerialClient<L>
        ensures { result.now ≡ self.now }
    {
        &self.client
    }
}

/// Each request is one exchange on the line: a call of the slave, or for unit 0 a request that is sent to all slaves. A line that does not
/// settle, or has ended, is told by the exception 0A, and then nothing is sent.
impl<L: TimedLink + IdleLink + Send + Drop> Forwarder for SerialLine<L> {
    ghost forwarding = { forwards_settled
        (line_by line_protocol silent_protocol rtu_heading (meaning_of L.input L.output L.line) L.not_ready L.looks) };

    fn forward(&mut self, request: SlaveRequest<'_>) -> Result<Option<Response>, ServiceError> {
        let unit = Slave(request.slave);
        self.client.set_slave(unit);
        if unit.is_broadcast() {
            return answer_broadcast(self.client.send(request.request));
        }
        // What the reply tells of the request is compared by the client; where it tells nothing of that, its bytes go back as they came.
        match &request.request {
            Request::ReportServerId => answer_call(self.client.call_raw(REPORT_SERVER_ID, &[])),
            Request::Custom(function, data) => {
                answer_call(self.client.call_raw(*function, data.as_slice()))
            }
            _ => answer_call(self.client.call(request.request)),
        }
    }
}
