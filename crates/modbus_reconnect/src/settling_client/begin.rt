//! A client of a line that is told where a call begins.
ghost use Rattle.std.specs.Prelude.{◌≡◌};
ghost use Rattle.modbus_link.specs.Line.{meaning_of};
ghost use Rattle.modbus_reconnect.specs.SettleState.{line_by};
ghost use Rattle.modbus_reconnect.specs.OnLine.{IsStanding};

use super::SettlingClient;
use crate::call_line::CallLine;
use modbus_client::LineProtocol;

impl<P: LineProtocol, L: CallLine> SettlingClient<P, L> {
    /// Tells the line that a call begins. Nothing is read or written, so a line on which nothing is owed is still one.
    pub fn begin(&mut self)
        ensures begins { L.begins self.old.link self.new.link }
        ensures rest { self.new ≡ record self.old { link = self.new.link } }
        ensures stands { IsStanding
            (line_by P.protocol P.silent P.heading (meaning_of L.input L.output L.line) L.not_ready L.looks)
            self.old → IsStanding
            (line_by P.protocol P.silent P.heading (meaning_of L.input L.output L.line) L.not_ready L.looks)
            self.new }
    {
        self.link.begin();
    }
}
