//! Lines that are told where a call begins.
ghost use Rattle.std.specs.Prelude.{◌≡◌};

use modbus_client::IdleLink;
use modbus_link::TimedLink;

/// A line that is told where a call begins, as one with a deadline for each call.
///
/// A call of a client of a line reads before it writes, so that no read or write tells it.
pub trait CallLine: TimedLink + IdleLink {
    // what becomes of the line
    ghost begins: { Self → Self → Type 0 };

    /// Takes note that a call begins. Nothing is read or written.
    fn begin(&mut self)
        ensures begins { begins self.old self.new }
        ensures source { Self.input self.new ≡ Self.input self.old }
        ensures sink { Self.output self.new ≡ Self.output self.old }
        ensures line { Self.line self.new ≡ Self.line self.old }
        ensures silences { Self.not_ready self.new ≡ Self.not_ready self.old }
        ensures looks { Self.looks self.new ≡ Self.looks self.old };
}
