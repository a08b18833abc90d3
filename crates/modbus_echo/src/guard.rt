//! A line of bursts that learns whether its adapter gives back what is sent.
ghost use Rattle.std.specs.Prelude.{[], ◌≡◌, ◌<◌, ◌≤◌, ◌++◌, length, take, drop, true, false, IsTrue, IfOk};
ghost use Rattle.std.specs.Io.{ReadsAtMost, WritesAtMost};
ghost use Rattle.modbus_link.specs.Outside.{Advances, Extends, bytes_appended, front_of, untold_input};
ghost use Rattle.modbus_link.specs.Memory.{faults_after};
ghost use Rattle.modbus_field.specs.BurstLink.{output_over};
ghost use Rattle.modbus_echo.specs.Guard.{guard_at_start, most_kept, IsWatched, outlook, doubted, Learns, GivesBehind, ReadsWatching, ReadsGuarded, kept_of, watched_after};

use crate::bytes::{begins_with, drop_front, holds};
use arrayvec::ArrayVec;
use modbus_field::burst::{BurstLink, CountedLink};
use modbus_link::{Ends, Failed, Sink, Source};
use std::marker::Model;

/// How many bytes a frame of RTU has at most (section 2.5.1); of a reply no more are kept.
pub const FRAME: usize = 256;

/// What is known of an adapter.
#[derive(Clone, Copy, Debug, PartialEq, Eq)]
pub enum Echo {
    /// Nothing yet.
    Unknown,
    /// It gives nothing back.
    Absent,
    /// It gives back what is sent.
    Present,
}

/// A source and a sink over a link that tells silence, as a `BurstLink` is, that learns whether its adapter gives back what is sent.
///
/// Until it is known that there is no echo, a burst that begins with what was written last, before a silence passed, is that come back: these
/// bytes are dropped, and the rest of the burst is read. A silence behind what was written, or other bytes in its place, show that there is
/// no echo; from then on nothing is dropped. What comes back and is not its request's own bytes, which a master may send again at once, shows
/// that there is one for good.
#[derive(Drop)]
pub struct EchoGuard<L> {
    bursts: BurstLink<L>,
    echo: Echo,
    reply: ArrayVec<u8, FRAME>,
    asked: ArrayVec<u8, FRAME>,
    has_come_back: bool,
}

/// A contract sees the line, what is known, what was written since the last read, the front of what that gave, and whether it has come back.
impl<L> Model for EchoGuard<L> {
    ghost use Rattle.modbus_echo.specs.Guard.{GuardState};

    ghost Value = { GuardState L };

    ghost view = { λ it. record {
      bursts = it.bursts;
      echo = it.echo;
      reply = it.reply.items;
      asked = it.asked.items;
      has_come_back = it.has_come_back;
    } };
}

impl<L> EchoGuard<L> {
    /// A line over this link, of whose adapter this is known.
    pub fn new(link: L, echo: Echo) -> EchoGuard<L>
        ensures { result ≡ guard_at_start link echo }
    {
        EchoGuard {
            bursts: BurstLink::new(link),
            echo,
            reply: ArrayVec::new(),
            asked: ArrayVec::new(),
            has_come_back: false,
        }
    }

    /// What is known of the adapter.
    pub fn echo(&self) -> Echo
        ensures { result ≡ self.now.echo }
    {
        self.echo
    }

    /// Whether what was written has come back, and was dropped.
    pub fn has_come_back(&self) -> bool
        ensures { result ≡ self.now.has_come_back }
    {
        self.has_come_back
    }

    /// The link that tells silence.
    pub fn link(&self) -> &L
        ensures { result.now ≡ self.now.bursts.link }
    {
        self.bursts.link()
    }
}

/// What is known after a silence behind a reply, or other bytes in its place.
fn doubted(echo: Echo) -> Echo
    ensures { result ≡ doubted echo }
{
    match echo {
        Echo::Present => Echo::Present,
        _ => Echo::Absent,
    }
}

/// A copy of the front of bytes, as much as a frame has.
fn kept(bytes: &[u8]) -> ArrayVec<u8, FRAME>
    ensures { result.items ≡ take most_kept bytes.now }
{
    match ArrayVec::try_from(&bytes[..bytes.len().min(FRAME)]) {
        Ok(kept) => kept,
        Err(_) => unreachable!(),
    }
}

/// Appends bytes, as far as there is room.
fn keep_more(kept: &mut ArrayVec<u8, FRAME>, piece: &[u8])
    ensures { kept.new.items ≡ take most_kept (kept.old.items ++ piece.now) }
{
    let free = FRAME - kept.len();
    match kept.try_extend_from_slice(&piece[..piece.len().min(free)]) {
        Ok(()) => {}
        Err(_) => unreachable!(),
    }
}

impl<L> EchoGuard<L> {
    /// Whether a reply that comes back is watched for.
    fn is_watching(&self) -> bool
        ensures watches { IsTrue result → IsWatched self.now }
        ensures rests { result ≡ false → IsWatched self.now → ⊥ }
    {
        self.echo != Echo::Absent && !self.reply.is_empty()
    }

    /// A reply came back: whether that tells of an echo.
    fn learn(&mut self)
        ensures learns { Learns self.old.reply self.old.asked self.old.echo self.new.echo }
        ensures rest { self.new ≡ record self.old { echo = self.new.echo; has_come_back = true } }
    {
        self.has_come_back = true;
        if self.asked.len() < FRAME && !holds(self.asked.as_slice(), self.reply.as_slice()) {
            self.echo = Echo::Present;
        }
    }
}

impl<L: CountedLink> EchoGuard<L> {
    /// Reads what stands in the room behind a reply that came back in front of it; where nothing does, the next burst.
    fn read_behind(&mut self, room: &mut [u8], count: usize) -> Result<usize, Failed>
        requires room { 0 < length room.old }
        requires front { length self.old.reply ≤ count }
        requires count { count ≤ length room.old }
        ensures bound { ReadsAtMost result room.new }
        ensures sink { output_over (L.output self.new.bursts.link) self.new.bursts.write_faults
            ≡ output_over (L.output self.old.bursts.link) self.old.bursts.write_faults }
        ensures line { L.line self.new.bursts.link ≡ L.line self.old.bursts.link }
        ensures later { self.old.bursts.read_faults ≤ self.new.bursts.read_faults }
        ensures counts { self.new.bursts ≡ record self.old.bursts {
          link = self.new.bursts.link;
          read_faults = faults_after result self.old.bursts.read_faults;
        } }
        ensures gives { GivesBehind L.input L.not_ready self.old.bursts.link self.new.bursts.link
            (drop (length self.old.reply) (take count room.old)) room.new (length room.old) result }
        ensures learns { Learns self.old.reply self.old.asked self.old.echo self.new.echo }
        ensures back { self.new.has_come_back ≡ true }
        ensures rest { self.new ≡ record self.old {
          bursts = self.new.bursts;
          echo = self.new.echo;
          has_come_back = self.new.has_come_back;
        } }
    {
        self.learn();
        match drop_front(room, self.reply.len(), count) {
            0 => self.bursts.read(room),
            rest => Ok(rest),
        }
    }

    /// Reads where a reply is watched for.
    fn read_watching(&mut self, room: &mut [u8]) -> Result<usize, Failed>
        requires { 0 < length room.old }
        ensures bound { ReadsAtMost result room.new }
        ensures sink { output_over (L.output self.new.bursts.link) self.new.bursts.write_faults
            ≡ output_over (L.output self.old.bursts.link) self.old.bursts.write_faults }
        ensures line { L.line self.new.bursts.link ≡ L.line self.old.bursts.link }
        ensures later { self.old.bursts.read_faults ≤ self.new.bursts.read_faults }
        ensures counts { self.new.bursts ≡ record self.old.bursts {
          link = self.new.bursts.link;
          read_faults = faults_after result self.old.bursts.read_faults;
        } }
        ensures reads { ReadsWatching L.input L.not_ready self.old (outlook self.new)
            (length room.old) room.new result }
        ensures rest { self.new ≡ record self.old {
          bursts = self.new.bursts;
          echo = self.new.echo;
          has_come_back = self.new.has_come_back;
        } }
    {
        match self.bursts.read_at_once(room) {
            Ok(None) => {
                self.echo = doubted(self.echo);
                self.bursts.read(room)
            }
            Ok(Some(count)) => {
                if begins_with(&room[..count], self.reply.as_slice()) {
                    return self.read_behind(room, count);
                }
                self.echo = doubted(self.echo);
                Ok(count)
            }
            Err(Failed) => Err(Failed),
        }
    }

    /// Reads, and drops a reply that came back where one is watched for.
    fn read_guarded(&mut self, room: &mut [u8]) -> Result<usize, Failed>
        requires { 0 < length room.old }
        ensures bound { ReadsAtMost result room.new }
        ensures sink { output_over (L.output self.new.bursts.link) self.new.bursts.write_faults
            ≡ output_over (L.output self.old.bursts.link) self.old.bursts.write_faults }
        ensures line { L.line self.new.bursts.link ≡ L.line self.old.bursts.link }
        ensures later { self.old.bursts.read_faults ≤ self.new.bursts.read_faults }
        ensures counts { self.new.bursts ≡ record self.old.bursts {
          link = self.new.bursts.link;
          read_faults = faults_after result self.old.bursts.read_faults;
        } }
        ensures reads { ReadsGuarded L.input L.not_ready self.old (outlook self.new)
            (length room.old) room.new result }
        ensures rest { self.new ≡ record self.old {
          bursts = self.new.bursts;
          echo = self.new.echo;
          has_come_back = self.new.has_come_back;
        } }
    {
        if self.is_watching() {
            self.read_watching(room)
        } else {
            self.bursts.read(room)
        }
    }
}

/// The front of what a read gave.
fn kept_of(given: Result<usize, Failed>, room: &[u8]) -> ArrayVec<u8, FRAME>
    requires { IfOk given (λ count. count ≤ length room.now) }
    ensures { result.items ≡ kept_of given room.now }
{
    match given {
        Ok(count) => kept(&room[..count]),
        Err(Failed) => ArrayVec::new(),
    }
}

impl<L: CountedLink> Ends for EchoGuard<L> {
    ghost input = { λ it. untold_input it.bursts.read_faults };

    ghost output = { λ it. output_over (L.output it.bursts.link) it.bursts.write_faults };

    ghost line = { λ it. L.line it.bursts.link };
}

impl<L: CountedLink> Source for EchoGuard<L> {
    /// Reads one burst, without a reply that came back in front of it.
    ///
    /// # Errors
    /// Those of `BurstLink`.
    fn read(&mut self, room: &mut [u8]) -> Result<usize, Failed>
        requires { 0 < length room.old }
        ensures bound { ReadsAtMost result room.new }
        ensures source { Advances (untold_input self.old.bursts.read_faults)
            (untold_input self.new.bursts.read_faults) }
        ensures sink { output_over (L.output self.new.bursts.link) self.new.bursts.write_faults
            ≡ output_over (L.output self.old.bursts.link) self.old.bursts.write_faults }
        ensures line { L.line self.new.bursts.link ≡ L.line self.old.bursts.link }

        ensures reads { ReadsGuarded L.input L.not_ready self.old (outlook self.new)
            (length room.old) room.new result }
        ensures later { self.old.bursts.read_faults ≤ self.new.bursts.read_faults }
        ensures counts { self.new.bursts ≡ record self.old.bursts {
          link = self.new.bursts.link;
          read_faults = faults_after result self.old.bursts.read_faults;
        } }
        ensures reply { self.new.reply ≡ [] }
        ensures asked { self.new.asked ≡ kept_of result room.new }
    {
        let given = self.read_guarded(room);
        self.reply.clear();
        self.asked = kept_of(given, room);
        given
    }
}

impl<L: CountedLink> Sink for EchoGuard<L> {
    /// Writes through to the link, and watches for what was written.
    ///
    /// # Errors
    /// Those of `BurstLink`.
    fn write(&mut self, piece: &[u8]) -> Result<usize, Failed>
        ensures bound { WritesAtMost result piece.now }
        ensures some { IfOk result (λ count. 0 < length piece.now → 0 < count) }
        ensures sink { Extends
            (output_over (L.output self.old.bursts.link) self.old.bursts.write_faults)
            (output_over (L.output self.new.bursts.link) self.new.bursts.write_faults) }
        ensures told { IsTrue (L.output self.old.bursts.link).told
            → bytes_appended (L.output self.old.bursts.link) (L.output self.new.bursts.link)
            ≡ front_of result piece.now }
        ensures line { L.line self.new.bursts.link ≡ L.line self.old.bursts.link }

        ensures counts { self.new.bursts ≡ record self.old.bursts {
          link = self.new.bursts.link;
          write_faults = faults_after result self.old.bursts.write_faults;
        } }
        ensures watches { self.new ≡ record self.old {
          bursts = self.new.bursts;
          reply = watched_after result self.old.reply piece.now;
        } }
    {
        match self.bursts.write(piece) {
            Ok(count) => {
                keep_more(&mut self.reply, &piece[..count]);
                Ok(count)
            }
            Err(Failed) => Err(Failed),
        }
    }
}
