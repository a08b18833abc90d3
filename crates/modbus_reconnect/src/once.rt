//! One call of the client of one link, and one try of a client that connects anew.
//!
//! Both are traits, since what an implementation calls may not ask of a type parameter that it can be sent to a thread, and a `Client` can.
ghost use Rattle.std.specs.Prelude.{Bool, Option};
ghost use Rattle.modbus_link.specs.Line.{meaning_of};
ghost use Rattle.modbus_frame.specs.Meaning.{Asked, meaning};
ghost use Rattle.modbus_client.specs.Matches.{Answer};
ghost use Rattle.modbus_reconnect.specs.Tries.{CallsOn};

use crate::owing::is_kept;
use crate::reply::fitted;
use modbus_client::{Client, LinkClient, Protocol};
use modbus_frame::{Request, Response, Result};
use modbus_link::Link;

/// A client that is asked once, and kept where its link can be used again.
pub(crate) trait CallOnce: Sized {
    // what a call may lead to: the answer, and the client that is kept
    ghost calls_on: { Self → Bool → Asked → Answer → Option Self → Type 0 };

    /// Makes a call, and keeps the client where what it found leaves nothing owed on its link, and a patient one where the reply is late.
    /// Else its link is shut down. A response that can't be the reply is told as `PayloadMismatch`.
    fn call_once(self, is_patient: bool, request: &Request<'_>) -> (Result<Response>, Option<Self>)
        ensures { calls_on self is_patient (meaning request.now) result.0 result.1 };
}

impl<P: Protocol, L: Link + Send + Drop> CallOnce for LinkClient<P, L>
where
    P::Ids: Send,
{
    ghost calls_on = { CallsOn P.protocol P.heading (meaning_of L.input L.output L.line) };

    fn call_once(
        mut self,
        is_patient: bool,
        request: &Request<'_>,
    ) -> (Result<Response>, Option<Self>) {
        let found = self.call(request.lend());
        let keeps = is_kept(is_patient, request, &found, self.held());
        let answer = fitted(request, found);
        if keeps {
            return (answer, Some(self));
        }
        // The link is of no more use, whatever its shutdown answers.
        let _ = self.disconnect();
        (answer, None)
    }
}

/// What makes one try of a call.
pub(crate) trait TryOnce {
    // what a try may lead to
    ghost tried: { Self → Asked → Answer → Self → Type 0 };

    /// Makes one try, on the link that is there or on a new one.
    fn try_once(&mut self, request: &Request<'_>) -> Result<Response>
        ensures { tried self.old (meaning request.now) result self.new };
}
