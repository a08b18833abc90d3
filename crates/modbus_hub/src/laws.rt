//! Laws on the definitions alone.
ghost use Rattle.std.specs.Prelude.{List, ◌++◌};
ghost use Rattle.modbus_link.specs.Line.{meaning_of};
ghost use Rattle.slab.specs.Slab.{Slab};
ghost use Rattle.modbus_hub.specs.declared.turn.TurnLimits.{TurnLimits};
ghost use Rattle.modbus_hub.specs.Events.{Event, Place};
ghost use Rattle.modbus_hub.specs.Seats.{AllStand, AreSeated, AsksNone, polled_by};

use modbus_link::PolledLink;
use modbus_server::{Answerer, Framing};

/// What comes and goes between turns leaves the service as it is: beside every service, the one run of it that brought connections so far
/// is still one over all that happened.
pub fn peers_ask_nothing<I: Framing, L: PolledLink, V: Answerer>()
    ensures { (start service : V) (limits : TurnLimits) (history more : List (Event L))
        (old new : Slab (Place L))
        → AreSeated I.framing V.answering (polled_by (meaning_of L.input L.output L.line)
        L.not_ready limits) start history old service
        → AsksNone history more
        → AllStand I.framing (meaning_of L.input L.output L.line) (history ++ more) new
        → AreSeated I.framing V.answering (polled_by (meaning_of L.input L.output L.line)
        L.not_ready limits) start (history ++ more) new service }
{}
