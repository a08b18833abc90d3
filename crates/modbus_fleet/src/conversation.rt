//! One call that is under way.
ghost use Rattle.std.specs.Prelude.{◌↔◌, ◌≤◌, IsTrue};
ghost use Rattle.modbus_frame.specs.Meaning.{meaning};
ghost use Rattle.modbus_link.specs.Line.{meaning_of};
ghost use Rattle.modbus_fleet.specs.Device.{OpensConversation, ConversationGoesOn};

use modbus_client::{PolledCall, Protocol};
use modbus_frame::{Error, Request, Response};
use modbus_link::{Polled, PolledLink};
use modbus_reconnect::leaves_nothing;
use std::alloc::Global;
use std::marker::Model;

/// How a device stands, by its link and its call.
#[derive(Drop)]
pub enum Stand<C, L> {
    /// It has no link.
    Away,
    /// It has a link on which nothing is owed, and no call is under way.
    Idle(L),
    /// A call is under way on its link.
    Calling(L, C),
}

/// A call that is under way: what it asks, what it keeps between its polls, and when it is given up.
#[derive(Drop)]
pub struct Conversation<'a, P: Protocol> {
    call: PolledCall<P>,
    request: Request<'a>,
    deadline: u64,
}

/// A contract sees the call, what it asks, and when it is given up. No poll answered yet.
impl<'a, P: Protocol> Model for Conversation<'a, P> {
    ghost use Rattle.std.specs.Prelude.{IsTrue};
    ghost use Rattle.modbus_frame.specs.Meaning.{meaning};
    ghost use Rattle.modbus_fleet.specs.Device.{ConversationState};

    ghost Value = { ConversationState };

    ghost view = { λ it. record { call = it.call.call; asked = meaning it.request; deadline = it.deadline } };

    ghost invariant = { λ it. IsTrue it.call.is_open };
}

impl<'a, P: Protocol> Conversation<'a, P> {
    /// A call of this request under a header, with at most `turns` reads that give bytes, which is given up at this time.
    ///
    /// # Errors
    /// Those of a call that is opened.
    pub(crate) fn open(
        alloc: Global,
        header: P::Header,
        request: Request<'a>,
        turns: u64,
        deadline: u64,
    ) -> Result<Conversation<'a, P>, Error>
        ensures { OpensConversation P.protocol header (meaning request.entry) turns deadline result }
    {
        match PolledCall::open(alloc, header, &request, turns) {
            Err(error) => Err(error),
            Ok(call) => Ok(Conversation {
                call,
                request,
                deadline,
            }),
        }
    }

    /// Whether it is to be given up at this time.
    pub(crate) fn is_due(&self, now: u64) -> bool
        ensures { IsTrue result ↔ (self.now.deadline ≤ now) }
    {
        self.deadline <= now
    }

    /// One poll over its link: how the device stands then, and the answer, where there is one.
    pub(crate) fn go_on<L: PolledLink + Drop>(
        self,
        mut link: L,
    ) -> (
        Stand<Conversation<'a, P>, L>,
        Option<modbus_frame::Result<Response>>,
    )
        ensures { ConversationGoesOn P.protocol (meaning_of L.input L.output L.line) L.not_ready link
            self.entry result.0 result.1 }
    {
        let Conversation {
            mut call,
            request,
            deadline,
        } = self;
        match call.poll(&mut link) {
            Polled::Pending => {
                let on = Conversation {
                    call,
                    request,
                    deadline,
                };
                (Stand::Calling(link, on), None)
            }
            Polled::Ready(answer) => {
                if leaves_nothing(&request, &answer, call.held()) {
                    (Stand::Idle(link), Some(answer))
                } else {
                    (Stand::Away, Some(answer))
                }
            }
        }
    }
}
