//! Who is told of what is lost.
use crate::losses::Losses;

/// Who is told how many connections were lost. Nothing that is told changes what is served.
pub trait Watcher {
    ghost use Rattle.modbus_hub.specs.declared.losses.Losses.{Losses};

    // what telling losses may lead to
    ghost tells: { Self → Losses → Self → Type 0 };

    /// Is told behind a round how many were lost in it, also where none was.
    fn tell(&mut self, losses: Losses)
        ensures { tells self.old losses self.new };
}

/// Nobody is told.
#[derive(Clone, Copy, Debug, PartialEq, Eq, Drop)]
pub struct Unwatched;

impl Watcher for Unwatched {
    ghost tells = { λ old losses new. Unit {0} };

    fn tell(&mut self, _losses: Losses) {}
}
