//! One call of the client of one link, one try, and a call of a client that connects anew, whose replies are given as they came.
//!
//! They are traits, as those of `once` are.
ghost use Rattle.std.specs.Prelude.{Bool, Option};
ghost use Rattle.modbus_link.specs.Line.{meaning_of};
ghost use Rattle.modbus_frame.specs.Meaning.{Asked, meaning};
ghost use Rattle.modbus_client.specs.Matches.{Answer};
ghost use Rattle.modbus_client.specs.Raw.{read_raw};
ghost use Rattle.modbus_reconnect.specs.Tries.{CallsOn};

use crate::owing::is_kept;
use crate::reply::fitted;
use modbus_client::{Client, LinkClient, RawProtocol};
use modbus_frame::{Request, Response, Result};
use modbus_link::Link;

/// A client that is asked once for a reply as it came, and kept where its link can be used again.
pub(crate) trait CallRawOnce: Sized {
    // what a call may lead to: the answer, and the client that is kept
    ghost calls_raw_on: { Self → Bool → Asked → Answer → Option Self → Type 0 };

    /// Makes a call as `call_once` does, whose reply is given as it came.
    fn call_raw_once(
        self,
        is_patient: bool,
        request: &Request<'_>,
    ) -> (Result<Response>, Option<Self>)
        ensures { calls_raw_on self is_patient (meaning request.now) result.0 result.1 };
}

impl<P: RawProtocol, L: Link + Send + Drop> CallRawOnce for LinkClient<P, L>
where
    P::Ids: Send,
{
    ghost calls_raw_on = { CallsOn (read_raw P.protocol) P.heading (meaning_of L.input L.output L.line) };

    fn call_raw_once(
        mut self,
        is_patient: bool,
        request: &Request<'_>,
    ) -> (Result<Response>, Option<Self>) {
        let found = self.ask_raw(request);
        let keeps = is_kept(is_patient, request, &found, self.held());
        let answer = fitted(request, found);
        if keeps {
            return (answer, Some(self));
        }
        // The link is of no more use, whatever its shutdown answers.
        let _ = self.disconnect();
        (answer, None)
    }
}

/// What makes one try of a call whose reply is given as it came.
pub(crate) trait TryRaw {
    // what a try may lead to
    ghost tried_raw: { Self → Asked → Answer → Self → Type 0 };

    /// Makes one try, on the link that is there or on a new one.
    fn try_raw(&mut self, request: &Request<'_>) -> Result<Response>
        ensures { tried_raw self.old (meaning request.now) result self.new };
}

/// A client whose calls give replies as they came.
pub(crate) trait AskRaw {
    // what a call may lead to
    ghost asks_raw: { Self → Asked → Answer → Self → Type 0 };

    /// Makes a call, with as many tries as it may make.
    fn ask_raw(&mut self, request: &Request<'_>) -> Result<Response>
        ensures { asks_raw self.old (meaning request.now) result self.new };
}
