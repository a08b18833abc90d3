//! Who is told of what changes on a line.
ghost use Rattle.std.specs.Prelude.{◌≡◌};
ghost use Rattle.modbus_gateway.specs.Told.{slave_change, line_change, TellsIf};

use modbus_frame::SlaveId;

/// What changes on a line.
#[derive(Clone, Copy, Debug, PartialEq, Eq)]
pub enum LineChange {
    /// This slave is dead: so many exchanges with it in a row ended with 0B as make it dead.
    SlaveDead(SlaveId),
    /// This slave was dead, and answered.
    SlaveAlive(SlaveId),
    /// The line broke, and is given up.
    LineLost,
    /// The line is open, which was not.
    LineBack,
}

/// Who is told of what changes. Nothing that is told changes what is asked or answered.
pub trait Watcher {
    ghost use Rattle.modbus_gateway.specs.declared.watcher.LineChange.{LineChange};

    // what telling a change may lead to
    ghost tells: { Self → LineChange → Self → Type 0 };

    /// Is told a change, as it happens.
    fn tell(&mut self, change: LineChange)
        ensures { tells self.old change self.new };
}

/// What of a slave is told, by whether it was dead before an exchange and after it.
pub(crate) fn slave_change(unit: SlaveId, was_dead: bool, is_dead: bool) -> Option<LineChange>
    ensures { result ≡ slave_change unit was_dead is_dead }
{
    match (was_dead, is_dead) {
        (false, true) => Some(LineChange::SlaveDead(unit)),
        (true, false) => Some(LineChange::SlaveAlive(unit)),
        (false, false) | (true, true) => None,
    }
}

/// What of a line is told, by whether it was open before and after.
pub(crate) fn line_change(was_open: bool, is_open: bool) -> Option<LineChange>
    ensures { result ≡ line_change was_open is_open }
{
    match (was_open, is_open) {
        (true, false) => Some(LineChange::LineLost),
        (false, true) => Some(LineChange::LineBack),
        (false, false) | (true, true) => None,
    }
}

/// Tells a change, where there is one.
pub(crate) fn tell_if<W: Watcher>(watcher: &mut W, change: Option<LineChange>)
    ensures { TellsIf W.tells change watcher.old watcher.new }
{
    if let Some(change) = change {
        watcher.tell(change);
    }
}
