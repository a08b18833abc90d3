//! Who is told of what the server lost, and tells it on standard error.

use modbus_hub::{Losses, Watcher};
use modbus_notes::Notes;
use std::time::Instant;

/// Tells that connections were closed, by the cause: each once, and again after a minute at most.
#[derive(Drop)]
pub struct Teller<'r> {
    rt: &'r HostRuntime,
    crowded_out: Notes,
    late: Notes,
    gave_way: Notes,
}

impl<'r> Teller<'r> {
    /// One that has told nothing.
    pub fn new(rt: &'r HostRuntime) -> Teller<'r> {
        Teller {
            rt,
            crowded_out: Notes::new(),
            late: Notes::new(),
            gave_way: Notes::new(),
        }
    }

    // Whether there is something that was not told yet.
    fn has_untold(&self) -> bool {
        self.crowded_out.has_untold() || self.late.has_untold() || self.gave_way.has_untold()
    }
}

// Takes notice of so many more that were closed for this, and tells how many there were since it was told last, where it is time to.
fn note(rt: &HostRuntime, notes: &mut Notes, more: u64, now: Option<Instant>, cause: &str) {
    if let Some(count) = notes.take(more, now) {
        let _ = eprintln!(rt; "modbus_loop: closed as {cause}: {count}");
    }
}

impl<'r> Watcher for Teller<'r> {
    ghost tells = { λ old losses new. Unit {0} };

    fn tell(&mut self, losses: Losses) {
        if losses == Losses::none() && !self.has_untold() {
            return;
        }
        let now = Instant::now(self.rt).ok();
        let cause = "their address has as many connections as it may";
        note(self.rt, &mut self.crowded_out, losses.share, now, cause);
        let cause = "they completed no message in time";
        note(self.rt, &mut self.late, losses.late, now, cause);
        let cause = "they were idle for longest where no place was left";
        note(self.rt, &mut self.gave_way, losses.gave_way, now, cause);
    }
}
