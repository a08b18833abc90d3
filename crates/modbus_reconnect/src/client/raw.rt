//! Calls of a client that connects anew, whose replies are given as they came.
ghost use Rattle.modbus_link.specs.Line.{meaning_of};
ghost use Rattle.modbus_frame.specs.Meaning.{Custom};
ghost use Rattle.modbus_client.specs.Connects.{connector_of};
ghost use Rattle.modbus_client.specs.Raw.{read_raw};
ghost use Rattle.modbus_reconnect.specs.State.{meaning_by};
ghost use Rattle.modbus_reconnect.specs.Tries.{TriedBy};
ghost use Rattle.modbus_reconnect.specs.Calls.{CallsRawOnce};

use super::{ReconnectingClient, left_after};
use crate::raw::{AskRaw, CallRawOnce, TryRaw};
use modbus_client::RawProtocol;
use modbus_frame::{Error, Request, Response, Result, TransportError};
use modbus_link::{Connector, Link};
use std::borrow::CowSlice;

impl<P: RawProtocol, C: Connector> TryRaw for ReconnectingClient<P, C>
where
    P::Ids: Send,
    C::Link: Link + Send + Drop,
{
    ghost tried_raw = { TriedBy
        (meaning_by P.protocol P.heading (connector_of C.connects C.faults)
        (meaning_of C.Link.input C.Link.output C.Link.line)) (read_raw P.protocol) };

    fn try_raw(&mut self, request: &Request<'_>) -> Result<Response> {
        let Some(client) = self.take_client() else {
            self.left = self.patience;
            return Err(Error::Transport(TransportError::NotConnected));
        };
        let (answer, kept) = client.call_raw_once(0 < self.left, request);
        self.left = left_after(kept.is_some(), &answer, self.patience, self.left);
        self.client = kept;
        answer
    }
}

impl<P: RawProtocol, C: Connector> AskRaw for ReconnectingClient<P, C>
where
    P::Ids: Send,
    C::Link: Link + Send + Drop,
{
    ghost asks_raw = { CallsRawOnce
        (meaning_by P.protocol P.heading (connector_of C.connects C.faults)
        (meaning_of C.Link.input C.Link.output C.Link.line)) };

    fn ask_raw(&mut self, request: &Request<'_>) -> Result<Response> {
        'tries: for earlier in 0..self.retries {
            let answer = self.try_raw(request);
            if !self.resend.lets_follow(request, &answer) {
                self.tries = u64::from(earlier) + 1;
                return answer;
            }
        }
        let answer = self.try_raw(request);
        self.tries = u64::from(self.retries) + 1;
        answer
    }
}

impl<P: RawProtocol, C: Connector> ReconnectingClient<P, C>
where
    P::Ids: Send,
    C::Link: Link + Send + Drop,
{
    /// Asks for a function by its code, with the bytes that follow it in the PDU, and gives those of the reply as they came: a `Custom`
    /// response of that code, or the exception. So it reads also what no kind of response has room for, and functions of a maker's own.
    ///
    /// # Errors
    /// Those of `call`; `InvalidResponse` only where a reply has no function code or no exception code. An answer of another function is
    /// `FunctionCodeMismatch`.
    pub fn call_raw(&mut self, function: u8, data: &[u8]) -> Result<Response>
        ensures { CallsRawOnce
            (meaning_by P.protocol P.heading (connector_of C.connects C.faults)
            (meaning_of C.Link.input C.Link.output C.Link.line))
            self.old (Custom function data.now) result self.new }
    {
        self.ask_raw(&Request::Custom(function, CowSlice::Borrowed(data)))
    }
}
