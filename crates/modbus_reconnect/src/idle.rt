//! A look at the link that is used, which gives it up where something came.
//!
//! As the tries of a call, both are traits, since what an implementation calls may not ask of a type parameter that it can be sent to a
//! thread, and a `Client` can.
ghost use Rattle.std.specs.Prelude.{◌≡◌, Option};
ghost use Rattle.modbus_link.specs.Line.{meaning_of};
ghost use Rattle.modbus_reconnect.specs.LooksFirst.{is_idle, LooksAtClient};

use crate::looking::look_at_client;
use crate::settling::Unsettled;
use modbus_client::{Client, IdleLink, LinkClient, Protocol};
use modbus_link::Link;

/// Whether a look found nothing.
fn is_idle(found: Result<usize, Unsettled>) -> bool
    ensures { result ≡ is_idle found }
{
    matches!(found, Ok(0))
}

/// A client whose link is looked at once, and kept where nothing came.
pub(crate) trait LookOnce: Sized {
    // the client that is kept
    ghost looked: { Self → Option Self → Type 0 };

    /// Looks at the link, and keeps the client where nothing was found. Where something came, the link ended or a read of it failed, it is
    /// shut down.
    fn look_once(self) -> Option<Self>
        ensures { looked self result };
}

impl<P: Protocol, L: Link + IdleLink + Send + Drop> LookOnce for LinkClient<P, L>
where
    P::Ids: Send,
{
    ghost looked = { LooksAtClient (meaning_of L.input L.output L.line) L.looks };

    fn look_once(mut self) -> Option<LinkClient<P, L>> {
        let found = look_at_client(&mut self);
        if is_idle(found) {
            return Some(self);
        }
        // The link is of no more use, whatever its shutdown answers.
        let _ = self.disconnect();
        None
    }
}

/// A client over a connector that looks at the link that it uses.
pub(crate) trait LookFirst {
    // what becomes of the client
    ghost looks_first: { Self → Self → Type 0 };

    /// Looks at the link that is used, and gives it up unless nothing was found. It sends nothing.
    fn look_first(&mut self)
        ensures { looks_first self.old self.new };
}
