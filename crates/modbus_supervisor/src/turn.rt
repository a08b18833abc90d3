//! When a device is polled. Times are milliseconds since the program began.
ghost use Rattle.std.specs.Prelude.{◌≡◌, ◌≢◌, ◌↔◌, ◌<◌, ◌≤◌, ◌+◌, ◌*◌, ◌-◌, ◌^◌, Some, None, true, false, IsTrue, max};
ghost use Rattle.modbus_supervisor.specs.Turns.{IsNextAfter, IsOver, first_due, wake_of};

/// Over how many milliseconds at most the first polls of all devices are spread.
const LONGEST_SPREAD: u32 = 10_000;

/// For how many milliseconds at most a device is left that holds up others by its silence, unless its interval is longer.
const LONGEST_REST: u32 = 30_000;

/// After how many intervals of so many milliseconds a device is polled again that holds up others, and was away so many polls in a row.
pub fn rest_of(misses: u32, every: u32) -> u8 {
    let most = u8::try_from(LONGEST_REST / every.max(1)).unwrap_or(u8::MAX);
    let wanted: u8 = match misses {
        0 | 1 => 1,
        2 => 2,
        3 => 4,
        _ => 8,
    };
    wanted.min(most).max(1)
}

/// When the device at a place among so many has its first poll: the place-th part of its interval after the beginning, where that is no longer
/// than `LONGEST_SPREAD`.
fn first_due(every: u32, place: u32, devices: u32) -> u64
    ensures { result ≡ first_due every place devices }
{
    let spread = u64::from(every.min(LONGEST_SPREAD));
    spread * u64::from(place) / u64::from(devices.max(1))
}

/// When the polls of a device begin, and when its call is given up.
#[derive(Clone, Copy, Debug)]
pub struct Turn {
    // how many polls are left
    left: u64,
    // how many milliseconds pass from the beginning of a poll to that of the next
    every: u32,
    // when the next one begins
    due: u64,
    // when the call that is under way is given up
    deadline: Option<u64>,
    // whether a poll is due, and waits for those of other devices
    is_waiting: bool,
}

/// The first time after now that lies a whole number of intervals after a poll's beginning, which is no later than now.
fn next_due(began: u64, every: u64, now: u64) -> u64
    requires interval { 0 < every }
    requires began { began ≤ now }
    requires fits { now + every < 2 ^ 64 }
    ensures { IsNextAfter began every now result }
{
    now + (every - (now - began) % every)
}

impl Turn {
    /// A turn of so many polls, so often, of the device at a place among so many. The first polls of all are spread over their intervals.
    pub fn new(count: u64, every: u32, place: u32, devices: u32) -> Turn
        ensures count { result.left ≡ count }
        ensures every { result.every ≡ max every 1 }
        ensures due { result.due ≡ first_due every place devices }
        ensures rest { (result.deadline ≡ None) × (result.is_waiting ≡ false) }
    {
        Turn {
            left: count,
            every: every.max(1),
            due: first_due(every, place, devices),
            deadline: None,
            is_waiting: false,
        }
    }

    /// Whether a poll is to begin.
    pub fn is_due(&self, now: u64) -> bool
        ensures { IsTrue result ↔ (self.now.deadline ≡ None) × (self.now.is_waiting ≡ false)
            × (0 < self.now.left) × (self.now.due ≤ now) }
    {
        self.deadline.is_none() && !self.is_waiting && self.left > 0 && self.due <= now
    }

    /// How many milliseconds pass from the beginning of a poll to that of the next.
    pub fn every(&self) -> u32
        ensures { result ≡ self.now.every }
    {
        self.every
    }

    /// The poll that is due waits for those of other devices, until it is called up.
    pub fn wait(&mut self)
        ensures { self.new ≡ record self.old { is_waiting = true } }
    {
        self.is_waiting = true;
    }

    /// The poll that waited begins.
    pub fn call_up(&mut self)
        ensures { self.new ≡ record self.old { is_waiting = false } }
    {
        self.is_waiting = false;
    }

    /// Whether the call is to be given up that is under way.
    pub fn is_late(&self, now: u64) -> bool
        ensures { IsTrue result ↔ IsOver now self.now.deadline }
    {
        match self.deadline {
            Some(deadline) => deadline <= now,
            None => false,
        }
    }

    /// When something is to be done next; `None` where nothing is any more, or it waits to be called up.
    pub fn wake(&self) -> Option<u64>
        ensures { result ≡ wake_of self.now }
    {
        match self.deadline {
            Some(deadline) => Some(deadline),
            None if self.left > 0 && !self.is_waiting => Some(self.due),
            None => None,
        }
    }

    /// A call is under way, which is given up at this time.
    pub fn ask(&mut self, deadline: u64)
        ensures { self.new ≡ record self.old { deadline = Some deadline } }
    {
        self.deadline = Some(deadline);
    }

    /// The poll is over. The next one begins a whole number of times so many intervals later; those that were missed are left out.
    pub fn end(&mut self, now: u64, intervals: u8)
        requires { now < 2 ^ 63 }
        ensures left { self.new.left ≡ self.old.left - 1 }
        ensures rest { (self.new.deadline ≡ None) × (self.new.every ≡ self.old.every) }
        ensures next { 0 < self.old.every → 0 < intervals → self.old.due ≤ now
            → IsNextAfter self.old.due (self.old.every * intervals) now self.new.due }
        ensures stays { now < self.old.due → self.new.due ≡ self.old.due }
    {
        self.deadline = None;
        self.left = self.left.saturating_sub(1);
        if self.due <= now {
            let step = u64::from(self.every.max(1)) * u64::from(intervals.max(1));
            self.due = next_due(self.due, step, now);
        }
    }
}
