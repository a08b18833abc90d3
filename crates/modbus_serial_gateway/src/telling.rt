//! What changes on the line of a gateway, told on standard error.

use crate::PROGRAM;
use modbus_gateway::{LineChange, LineOpener, Watcher};
use modbus_port::Ending;

/// Tells which slaves do not answer any more, and which answer again.
#[derive(Drop)]
pub struct SlaveNotes<'r> {
    rt: &'r HostRuntime,
    // for how many seconds a dead slave is not asked
    seconds: u32,
}

impl<'r> SlaveNotes<'r> {
    /// One for slaves that are asked again after so many seconds.
    pub fn new(rt: &'r HostRuntime, seconds: u32) -> SlaveNotes<'r> {
        SlaveNotes { rt, seconds }
    }
}

impl<'r> Watcher for SlaveNotes<'r> {
    // Nothing is said of standard error.
    ghost tells = { λ _ _ _. Unit {0} };

    fn tell(&mut self, change: LineChange) {
        let seconds = self.seconds;
        match change {
            LineChange::SlaveDead(unit) => {
                let _ = eprintln!(self.rt;
                    "{PROGRAM}: slave {unit} does not answer; asked again each {seconds} s"
                );
            }
            LineChange::SlaveAlive(unit) => {
                let _ = eprintln!(self.rt; "{PROGRAM}: slave {unit} answers again");
            }
            LineChange::LineLost | LineChange::LineBack => {}
        }
    }
}

/// Tells that a serial port is lost, and that it is open again.
#[derive(Drop)]
pub struct PortNotes<'r> {
    rt: &'r HostRuntime,
    path: &'r str,
}

impl<'r> PortNotes<'r> {
    /// One for the port at this path.
    pub fn new(rt: &'r HostRuntime, path: &'r str) -> PortNotes<'r> {
        PortNotes { rt, path }
    }
}

impl<'r> Watcher for PortNotes<'r> {
    // Nothing is said of standard error.
    ghost tells = { λ _ _ _. Unit {0} };

    fn tell(&mut self, change: LineChange) {
        let path = self.path;
        match change {
            LineChange::LineLost => {
                let _ = eprintln!(self.rt; "{PROGRAM}: {path} is lost");
            }
            LineChange::LineBack => {
                let _ = eprintln!(self.rt; "{PROGRAM}: {path} is open again");
            }
            LineChange::SlaveDead(_) | LineChange::SlaveAlive(_) => {}
        }
    }
}

/// Tells that the line of the standard streams has ended, and ends the program's listener: nothing can open such a line anew.
#[derive(Drop)]
pub struct StreamEnd<'r> {
    rt: &'r HostRuntime,
    ending: &'r Ending,
}

impl<'r> StreamEnd<'r> {
    /// One for a program whose listener this ends.
    pub fn new(rt: &'r HostRuntime, ending: &'r Ending) -> StreamEnd<'r> {
        StreamEnd { rt, ending }
    }
}

impl<'r> Watcher for StreamEnd<'r> {
    // Nothing is said of standard error, nor of a listener.
    ghost tells = { λ _ _ _. Unit {0} };

    fn tell(&mut self, change: LineChange) {
        match change {
            LineChange::LineLost => {
                let _ = eprintln!(self.rt;
                    "{PROGRAM}: the line has ended, and so does the gateway"
                );
                self.ending.end();
            }
            LineChange::LineBack | LineChange::SlaveDead(_) | LineChange::SlaveAlive(_) => {}
        }
    }
}

/// What can't open a line that has ended, as that of the standard streams.
#[derive(Drop)]
pub struct NoOpener;

impl<C> LineOpener<C> for NoOpener {
    ghost use Rattle.std.specs.Prelude.{◌≡◌, None};

    ghost opens = { λ _ line _. line ≡ None };

    fn open(&mut self) -> Option<C> {
        None
    }
}
