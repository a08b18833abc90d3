//! A link that keeps a pause between what is read and what is written behind it.
//!
//! Frames on a serial line are told apart by a silence of 3.5 characters (MODBUS over Serial Line V1.02, section 2.5.1.1). A request that
//! follows a reply at once is taken for the rest of it by the other devices.
ghost use Rattle.std.specs.Prelude.{◌≡◌, ◌*◌, ◌<◌, ◌≤◌, length, IsTrue, IfOk, OnErr};
ghost use Rattle.std.specs.Duration.{as_nanos};
ghost use Rattle.std.specs.Io.{ReadsAtMost, WritesAtMost};
ghost use Rattle.modbus_link.specs.Outside.{Rose, Advances, Extends, ReadIsTold, bytes_appended, front_of};
ghost use Rattle.modbus_link.specs.Polled.{at_once, Waited};
ghost use Rattle.modbus_field.specs.BurstLink.{CountsSilence};
ghost use Rattle.modbus_adapter.specs.Paced.{pause_micros, pause_left, paced_at_start, PacedReads, PacedWrites};

use crate::moment::{Moment, Watch};
use crate::nap::Nap;
use modbus_field::burst::CountedLink;
use modbus_link::{Ends, Failed, Polled, PolledLink, TimedLink};
use modbus_reconnect::IdleLink;
use std::marker::Model;
use std::time::{Clock, Duration};

/// How many microseconds a pause takes where no speed is known.
const UNKNOWN: u32 = 4_000;

/// How many microseconds it takes above `FAST` bits a second.
const SHORTEST: u32 = 1_750;

/// Up to how many bits a second a pause takes as long as 3.5 characters.
const FAST: u32 = 19_200;

/// How many microseconds 3.5 characters of 11 bits take at one bit a second.
const CHARACTERS: u32 = 38_500_000;

/// The pause at so many bits a second: 3.5 characters of 11 bits, rounded up to a microsecond; 1.75 milliseconds above 19,200. It is 4
/// milliseconds for 0, where no speed is known.
pub fn pause_of(baud: u32) -> Duration
    ensures { as_nanos result ≡ pause_micros baud * 1_000 }
{
    let micros = if baud == 0 {
        UNKNOWN
    } else if baud > FAST {
        SHORTEST
    } else {
        (CHARACTERS + (baud - 1)) / baud
    };
    Duration::from_micros(u64::from(micros))
}

/// What is left of a pause since then, at this moment: nothing where no bytes were read, and all of it where the clock could not be read.
pub(crate) fn left_of(pause: Duration, since: &Option<Moment>, moment: &Moment) -> Duration
    ensures { as_nanos result ≡ pause_left (as_nanos pause) since.now moment.now }
{
    match since {
        None => Duration::ZERO,
        Some(since) => match moment.since(since) {
            Some(took) => pause.saturating_sub(took),
            None => pause,
        },
    }
}

/// A link over another one, of which the first write behind a read first sleeps what is left of a pause since bytes were read.
#[derive(Drop)]
pub struct PacedLink<'r, R, L> {
    watch: Watch<'r, R>,
    link: L,
    pause: Duration,
    since: Option<Moment>,
    wrote: Moment,
    slept: Nap,
}

/// A contract sees the link, the pause, when bytes were read, and what was slept.
impl<'r, R, L> Model for PacedLink<'r, R, L> {
    ghost use Rattle.modbus_adapter.specs.Paced.{PacedState};

    ghost Value = { PacedState L };

    ghost view = { λ it. record { link = it.link; pause = it.pause; since = it.since; wrote = it.wrote; readings = it.watch; slept = it.slept } };
}

impl<'r, R: Clock, L> PacedLink<'r, R, L> {
    /// A link over this one, with this pause by this clock.
    pub fn new(clock: &'r R, link: L, pause: Duration) -> PacedLink<'r, R, L>
        ensures { result ≡ paced_at_start link pause }
    {
        PacedLink {
            watch: Watch::new(clock),
            link,
            pause,
            since: None,
            wrote: Moment::none(),
            slept: Nap::none(),
        }
    }

    /// The link.
    pub fn link(&self) -> &L
        ensures { result.now ≡ self.now.link }
    {
        &self.link
    }

    /// Keeps when bytes were read.
    fn note(&mut self, told: &Result<Polled<usize>, Failed>)
        ensures same { self.new.link ≡ self.old.link }
        ensures since { PacedReads self.old self.new told.now }
    {
        match told {
            Ok(Polled::Ready(0)) => {}
            Ok(Polled::Ready(_)) => self.since = Some(self.watch.read()),
            Ok(Polled::Pending) => {}
            Err(_) => {}
        }
    }

    /// Sleeps what is left of the pause.
    fn keep_pause(&mut self)
        ensures same { self.new.link ≡ self.old.link }
        ensures paced { PacedWrites self.old self.new }
    {
        self.wrote = self.watch.read();
        let left = left_of(self.pause, &self.since, &self.wrote);
        self.slept = Nap::take(self.watch.clock(), left);
        self.since = None;
    }
}

impl<'r, R: Clock, L: Ends> Ends for PacedLink<'r, R, L> {
    ghost input = { λ it. L.input it.link };

    ghost output = { λ it. L.output it.link };

    ghost line = { λ it. L.line it.link };
}

impl<'r, R: Clock, L: PolledLink> PolledLink for PacedLink<'r, R, L> {
    ghost not_ready = { λ it. L.not_ready it.link };

    /// Reads as the link does.
    ///
    /// # Errors
    /// `Failed` where the link failed.
    fn poll_read(&mut self, room: &mut [u8]) -> Result<Polled<usize>, Failed>
        requires { 0 < length room.old }
        ensures bound { ReadsAtMost (at_once result) room.new }
        ensures source { Advances (L.input self.old.link) (L.input self.new.link) }
        ensures told { IsTrue (L.input self.old.link).told
            → ReadIsTold (L.input self.old.link) (L.input self.new.link) room.old room.new
            (at_once result) }
        ensures cause { OnErr result (Rose (L.input self.old.link).faults
            (L.input self.new.link).faults) }
        ensures waited { Waited result (L.not_ready self.old.link) (L.not_ready self.new.link) }
        ensures later { L.not_ready self.old.link ≤ L.not_ready self.new.link }
        ensures sink { L.output self.new.link ≡ L.output self.old.link }
        ensures line { L.line self.new.link ≡ L.line self.old.link }

        ensures reads { PacedReads self.old self.new result }
    {
        let told = self.link.poll_read(room);
        self.note(&told);
        told
    }

    /// Writes as the link does, once what is left of the pause was slept.
    ///
    /// # Errors
    /// `Failed` where the link failed.
    fn poll_write(&mut self, piece: &[u8]) -> Result<Polled<usize>, Failed>
        ensures bound { WritesAtMost (at_once result) piece.now }
        ensures some { IfOk (at_once result) (λ count. 0 < length piece.now → 0 < count) }
        ensures sink { Extends (L.output self.old.link) (L.output self.new.link) }
        ensures told { IsTrue (L.output self.old.link).told
            → bytes_appended (L.output self.old.link) (L.output self.new.link)
            ≡ front_of (at_once result) piece.now }
        ensures cause { OnErr result (Rose (L.output self.old.link).faults
            (L.output self.new.link).faults) }
        ensures waited { Waited result (L.not_ready self.old.link) (L.not_ready self.new.link) }
        ensures later { L.not_ready self.old.link ≤ L.not_ready self.new.link }
        ensures source { L.input self.new.link ≡ L.input self.old.link }
        ensures line { L.line self.new.link ≡ L.line self.old.link }

        ensures writes { PacedWrites self.old self.new }
    {
        self.keep_pause();
        self.link.poll_write(piece)
    }
}

impl<'r, R: Clock, L: TimedLink> TimedLink for PacedLink<'r, R, L> {}

impl<'r, R: Clock, L: CountedLink> CountedLink for PacedLink<'r, R, L> {
    fn poll_counted(&mut self, room: &mut [u8]) -> Result<Polled<usize>, Failed> {
        let told = self.link.poll_counted(room);
        self.note(&told);
        told
    }
}

impl<'r, R: Clock, L: IdleLink> IdleLink for PacedLink<'r, R, L> {
    ghost looks = { λ it. L.looks it.link };

    fn look(&mut self, room: &mut [u8]) -> Result<Polled<usize>, Failed> {
        let told = self.link.look(room);
        self.note(&told);
        told
    }
}
