//! A look at a link that gives back what is written.
ghost use Rattle.std.specs.Prelude.{[], ◌≡◌, ◌<◌, ◌≤◌, length};
ghost use Rattle.std.specs.Io.{ReadsAtMost};
ghost use Rattle.modbus_link.specs.Outside.{Advances, untold_input};
ghost use Rattle.modbus_link.specs.Polled.{at_once};
ghost use Rattle.modbus_field.specs.BurstLink.{output_over};
ghost use Rattle.modbus_adapter.specs.Echo.{GivesBehindEcho, LooksBehindEcho};

use super::{EchoedLink, Heard, no_collision, read_behind};
use crate::owed::Owed;
use modbus_field::burst::CountedLink;
use modbus_link::{Failed, Polled};
use modbus_reconnect::IdleLink;

/// Looks at a link on which no echo is owed.
fn look_clear<L: IdleLink>(link: &mut L, owed: &Owed, room: &mut [u8]) -> Heard
    requires room { 0 < length room.old }
    requires none { owed.now ≡ [] }
    ensures bound { ReadsAtMost (at_once result.told) room.new }
    ensures gives { GivesBehindEcho (L.input link.old) (L.input link.new) owed.now owed.now room.new
        result.told result.collision.items }
    ensures sink { L.output link.new ≡ L.output link.old }
    ensures line { L.line link.new ≡ L.line link.old }
{
    no_collision(link.look(room))
}

impl<L: CountedLink + IdleLink> EchoedLink<L> {
    /// Looks at the link where no echo is owed, and else reads.
    fn look_behind(&mut self, room: &mut [u8]) -> Heard
        requires { 0 < length room.old }
        ensures bound { ReadsAtMost (at_once result.told) room.new }
        ensures gives { GivesBehindEcho (L.input self.old.link) (L.input self.new.link)
            self.old.owed self.new.owed room.new result.told result.collision.items }
        ensures sink { L.output self.new.link ≡ L.output self.old.link }
        ensures line { L.line self.new.link ≡ L.line self.old.link }
        ensures rest { self.new ≡ record self.old { link = self.new.link; owed = self.new.owed } }
    {
        if self.owed.is_empty() {
            return look_clear(&mut self.link, &self.owed, room);
        }
        read_behind(&mut self.link, &mut self.owed, room)
    }
}

impl<L: CountedLink + IdleLink> IdleLink for EchoedLink<L> {
    ghost looks = { λ it. it.looks };

    /// Gives what a read would. Where no echo is owed it waits for nothing, as the link does at a look; else as long as a read does.
    ///
    /// # Errors
    /// Those of a read.
    fn look(&mut self, room: &mut [u8]) -> Result<Polled<usize>, Failed>
        requires { 0 < length room.old }
        ensures bound { ReadsAtMost (at_once result) room.new }
        ensures source { Advances (untold_input self.old.read_faults)
            (untold_input self.new.read_faults) }
        ensures later { self.old.looks ≤ self.new.looks }
        ensures sink { output_over (L.output self.new.link) self.new.write_faults
            ≡ output_over (L.output self.old.link) self.old.write_faults }
        ensures line { L.line self.new.link ≡ L.line self.old.link }

        ensures looks { LooksBehindEcho L.input self.old self.new room.new result }
    {
        let heard = self.look_behind(room);
        self.collision = heard.collision;
        match heard.told {
            Ok(Polled::Ready(_)) => {}
            Ok(Polled::Pending) => self.looks = self.looks.saturating_add(1),
            Err(Failed) => self.read_faults = self.read_faults.saturating_add(1),
        }
        heard.told
    }
}
