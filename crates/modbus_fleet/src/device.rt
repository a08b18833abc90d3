//! One device.
ghost use Rattle.std.specs.Prelude.{◌≡◌, ◌↔◌, IsTrue, if◌then◌else◌};
ghost use Rattle.modbus_frame.specs.Meaning.{meaning};
ghost use Rattle.modbus_link.specs.Line.{meaning_of};
ghost use Rattle.modbus_fleet.specs.Device.{new_device, fleet_by, is_away, is_idle, IsDue, Begins, Polls};
ghost use Rattle.modbus_fleet.specs.declared.conversation.Stand.TheVariants.{Away, Idle};

use crate::conversation::{Conversation, Stand};
use modbus_client::Protocol;
use modbus_frame::{Error, Request, Response, Slave};
use modbus_link::PolledLink;
use std::alloc::Global;
use std::marker::Model;
use std::mem;

/// A device behind a link of its own, which is asked one request after another.
///
/// It has no clock: times are numbers of milliseconds since some moment, which the caller hands in.
#[derive(Drop)]
pub struct Device<'a, P: Protocol, L> {
    stand: Stand<Conversation<'a, P>, L>,
    ids: P::Ids,
    slave: Slave,
    turns: u64,
    timeout: u64,
}

/// A contract sees how it stands, the identifiers of its next request, and its settings.
impl<'a, P: Protocol, L> Model for Device<'a, P, L> {
    ghost use Rattle.modbus_fleet.specs.Device.{DeviceState};

    ghost Value = { DeviceState P.Ids L };

    ghost view = { λ it. record {
      stand = it.stand;
      ids = it.ids;
      slave = it.slave.0;
      turns = it.turns;
      timeout = it.timeout;
    } };
}

impl<'a, P: Protocol, L: PolledLink + Drop> Device<'a, P, L> {
    /// A device that has no link: requests go to this slave, or unit identifier, with at most `turns` reads that give bytes, and a call is
    /// given up after `timeout` milliseconds.
    pub fn new(slave: Slave, turns: u64, timeout: u64) -> Device<'a, P, L>
        ensures { result ≡ new_device P.heading slave.0 turns timeout }
    {
        Device {
            stand: Stand::Away,
            ids: P::first_ids(),
            slave,
            turns,
            timeout,
        }
    }

    /// Whether it has no link.
    pub fn is_away(&self) -> bool
        ensures { result ≡ is_away self.now.stand }
    {
        matches!(self.stand, Stand::Away)
    }

    /// Whether it has a link, and no call is under way.
    pub fn is_idle(&self) -> bool
        ensures { result ≡ is_idle self.now.stand }
    {
        matches!(self.stand, Stand::Idle(_))
    }

    /// Has its next requests go to this slave or unit, as several share a link. A call that is under way goes on as it is.
    pub fn set_slave(&mut self, slave: Slave)
        ensures { self.new ≡ record self.old { slave = slave.0 } }
    {
        self.slave = slave;
    }

    /// Gives it a new link, on which nothing was sent. A link that it had is dropped, with its call.
    pub fn connect(&mut self, link: L)
        ensures { self.new ≡ record self.old { stand = Idle link } }
    {
        self.stand = Stand::Idle(link);
    }

    /// Begins a call on a link that is idle: it draws the next header, and nothing is sent yet. `None` where the link is not idle; then
    /// nothing is done.
    ///
    /// # Errors
    /// Those of a call that is opened: the link stays idle.
    pub fn begin(
        &mut self,
        alloc: Global,
        request: Request<'a>,
        now: u64,
    ) -> Option<Result<(), Error>>
        ensures { Begins P.protocol P.heading (meaning request.entry) now self.old result self.new }
    {
        match mem::replace(&mut self.stand, Stand::Away) {
            Stand::Idle(link) => {
                let header = P::draw(&mut self.ids, self.slave);
                let deadline = now.saturating_add(self.timeout);
                match Conversation::open(alloc, header, request, self.turns, deadline) {
                    Ok(conversation) => {
                        self.stand = Stand::Calling(link, conversation);
                        Some(Ok(()))
                    }
                    Err(error) => {
                        self.stand = Stand::Idle(link);
                        Some(Err(error))
                    }
                }
            }
            Stand::Away => None,
            Stand::Calling(link, conversation) => {
                self.stand = Stand::Calling(link, conversation);
                None
            }
        }
    }

    /// Goes on with the call that is under way, as far as its link is ready; its answer, where it has one. `None` too where no call is under
    /// way; then nothing is done.
    ///
    /// After an answer that leaves a reply owed the link is dropped.
    pub fn poll(&mut self) -> Option<modbus_frame::Result<Response>>
        ensures { Polls (fleet_by P.protocol (meaning_of L.input L.output L.line) L.not_ready)
            self.old result self.new }
    {
        match mem::replace(&mut self.stand, Stand::Away) {
            Stand::Calling(link, conversation) => {
                let (stand, answer) = conversation.go_on(link);
                self.stand = stand;
                answer
            }
            Stand::Away => None,
            Stand::Idle(link) => {
                self.stand = Stand::Idle(link);
                None
            }
        }
    }

    /// Gives the call up that is under way, where its time is over at `now`; whether it was. Its reply may still come, so the link is
    /// dropped.
    pub fn expire(&mut self, now: u64) -> bool
        ensures due { IsTrue result ↔ IsDue now self.old.stand }
        ensures gives_up { self.new ≡ (if result then record self.old { stand = Away } else self.old) }
    {
        let is_due = match &self.stand {
            Stand::Calling(_, conversation) => conversation.is_due(now),
            _ => false,
        };
        if is_due {
            self.stand = Stand::Away;
        }
        is_due
    }
}
