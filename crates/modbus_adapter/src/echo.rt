//! A link over an adapter that gives back what is written.
//!
//! The receiver of a two-wire line that stays on while its driver sends hears what is sent (MODBUS over Serial Line V1.02, section 3.3.2).
//! A client takes its own request for the reply then, and a device hears its reply as a request.
ghost use Rattle.std.specs.Prelude.{[], ◌≡◌, ◌+◌, ◌++◌, ◌<◌, ◌≤◌, length, take, IsTrue, IfOk, OnOk, MatchOption};
ghost use Rattle.std.specs.Io.{ReadsAtMost, WritesAtMost};
ghost use Rattle.modbus_link.specs.Outside.{Advances, Extends, bytes_appended, front_of, untold_input};
ghost use Rattle.modbus_link.specs.Polled.{at_once, Waited};
ghost use Rattle.modbus_field.specs.BurstLink.{output_over, CountsSilence};
ghost use Rattle.modbus_adapter.specs.Echo.{echoed_at_start, collision_room, echo_room, echo_of, IsFull, IsWritable, OwesEcho, GivesBehindEcho, ReadsBehindEcho, WritesWithEcho};
ghost use Rattle.modbus_adapter.specs.Taking.{silences_by, came_by, BringsEcho, TakesEchoOff};

mod looking;

use crate::owed::Owed;
use arrayvec::ArrayVec;
use modbus_field::burst::CountedLink;
use modbus_link::{Ends, Failed, Polled, PolledLink, TimedLink};
use std::marker::Model;

/// How many bytes of a collision are kept.
pub const COLLISION_ROOM: usize = 16;

/// A link over one that tells silence and gives back what is written to it, without that echo.
///
/// While the echo is on, each byte that was written is expected back before anything else. What comes back as it was written is dropped,
/// and no read gives it. Other bytes in its place are a collision: the read fails, `collision` tells these bytes, and no echo is owed any
/// more. A silence is told as it is, and the echo stays owed.
///
/// What of the link's bytes is an echo is known by what was written, so a contract knows no content of the input, and each read says what
/// it gave of the link's.
#[derive(Drop)]
pub struct EchoedLink<L> {
    link: L,
    is_on: bool,
    owed: Owed,
    collision: ArrayVec<u8, COLLISION_ROOM>,
    read_faults: u64,
    write_faults: u64,
    looks: u64,
}

/// A contract sees the link, the echo that is owed, what came in its place at the last read, how often it failed, and how many looks found
/// nothing.
impl<L> Model for EchoedLink<L> {
    ghost use Rattle.modbus_adapter.specs.Echo.{EchoedState};

    ghost Value = { EchoedState L };

    ghost view = { λ it. record {
      link = it.link;
      is_on = it.is_on;
      owed = it.owed;
      collision = it.collision.items;
      read_faults = it.read_faults;
      write_faults = it.write_faults;
      looks = it.looks;
    } };
}

impl<L> EchoedLink<L> {
    /// A link over this one, whose echo is off.
    pub fn new(link: L) -> EchoedLink<L>
        ensures { result ≡ echoed_at_start link }
    {
        EchoedLink {
            link,
            is_on: false,
            owed: Owed::new(),
            collision: ArrayVec::new(),
            read_faults: 0,
            write_faults: 0,
            looks: 0,
        }
    }

    /// Whether the link gives back what is written from then on. What it owes by then is forgotten.
    pub fn set_echo(&mut self, is_on: bool)
        ensures { self.new ≡ record self.old { is_on = is_on; owed = [] } }
    {
        self.is_on = is_on;
        self.owed = Owed::new();
    }

    /// The bytes that came in place of the echo at the last read, at most `COLLISION_ROOM` of them; none where it was no collision.
    pub fn collision(&self) -> &[u8]
        ensures { result.now ≡ self.now.collision }
    {
        self.collision.as_slice()
    }

    /// The link that gives back what is written.
    pub fn link(&self) -> &L
        ensures { result.now ≡ self.now.link }
    {
        &self.link
    }
}

/// Why an echo was not taken off.
#[derive(Clone, Copy)]
enum NoEcho {
    /// Nothing came for a while.
    Silence,
    /// The input has ended.
    End,
    /// The link failed.
    Fault,
    /// So many bytes came that are none of the echo.
    Collision(usize),
}

/// The front of what is owed, as long as the room and as what is owed.
fn cut(room: usize, owed: usize) -> usize
    ensures room { result ≤ room }
    ensures owed { result ≤ owed }
    ensures some { 0 < room → 0 < owed → 0 < result }
{
    room.min(owed)
}

/// Reads some of an echo that is owed, and takes it off.
///
/// # Errors
/// Why none was taken off. Where other bytes came, they stand at the front of the room, and no echo is owed any more.
fn next_echo<L: CountedLink>(link: &mut L, owed: &mut Owed, room: &mut [u8]) -> Result<(), NoEcho>
    requires some { 0 < length owed.old }
    requires room { 0 < length room.old }
    ensures length { length room.new ≡ length room.old }
    ensures brings { BringsEcho (L.input link.old) (L.input link.new) owed.old owed.new room.new
        result }
    ensures less { OnOk result (length owed.new < length owed.old) }
    ensures counted { CountsSilence (silences_by result) (L.not_ready link.old)
        (L.not_ready link.new) }
    ensures later { L.not_ready link.old ≤ L.not_ready link.new }
    ensures sink { L.output link.new ≡ L.output link.old }
    ensures line { L.line link.new ≡ L.line link.old }
{
    let end = cut(room.len(), owed.len());
    match link.poll_counted(&mut room[..end]) {
        Ok(Polled::Ready(0)) => Err(NoEcho::End),
        Ok(Polled::Ready(count)) => {
            if owed.take_off(&room[..count]) {
                Ok(())
            } else {
                Err(NoEcho::Collision(count))
            }
        }
        Ok(Polled::Pending) => Err(NoEcho::Silence),
        Err(Failed) => Err(NoEcho::Fault),
    }
}

/// Takes an echo off.
///
/// # Errors
/// Why not all of it was taken off. Where other bytes came, they stand at the front of the room, and no echo is owed any more.
fn take_off<L: CountedLink>(link: &mut L, owed: &mut Owed, room: &mut [u8]) -> Result<(), NoEcho>
    requires { 0 < length room.old }
    ensures length { length room.new ≡ length room.old }
    ensures takes { TakesEchoOff (L.input link.old) (L.input link.new) owed.old owed.new room.new
        result }
    ensures counted { CountsSilence (silences_by result) (L.not_ready link.old)
        (L.not_ready link.new) }
    ensures later { L.not_ready link.old ≤ L.not_ready link.new }
    ensures sink { L.output link.new ≡ L.output link.old }
    ensures line { L.line link.new ≡ L.line link.old }
{
    'echo: while !owed.is_empty() {
        next_echo(link, owed, room)?;
    }
    Ok(())
}

/// The bytes of a collision that are kept.
fn kept(came: &[u8]) -> ArrayVec<u8, COLLISION_ROOM>
    ensures { result.items ≡ take collision_room came.now }
{
    match ArrayVec::try_from(&came[..came.len().min(COLLISION_ROOM)]) {
        Ok(kept) => kept,
        Err(_) => unreachable!(),
    }
}

/// What one read told, and the bytes of a collision.
#[derive(Drop)]
struct Heard {
    told: Result<Polled<usize>, Failed>,
    collision: ArrayVec<u8, COLLISION_ROOM>,
}

/// What is told where there was no collision.
fn no_collision(told: Result<Polled<usize>, Failed>) -> Heard
    ensures told { result.told ≡ told }
    ensures none { result.collision.items ≡ [] }
{
    Heard {
        told,
        collision: ArrayVec::new(),
    }
}

/// Reads what comes behind an echo that is owed.
fn read_behind<L: CountedLink>(link: &mut L, owed: &mut Owed, room: &mut [u8]) -> Heard
    requires { 0 < length room.old }
    ensures bound { ReadsAtMost (at_once result.told) room.new }
    ensures gives { GivesBehindEcho (L.input link.old) (L.input link.new) owed.old owed.new room.new
        result.told result.collision.items }
    ensures counted { CountsSilence result.told (L.not_ready link.old) (L.not_ready link.new) }
    ensures later { L.not_ready link.old ≤ L.not_ready link.new }
    ensures sink { L.output link.new ≡ L.output link.old }
    ensures line { L.line link.new ≡ L.line link.old }
{
    match take_off(link, owed, room) {
        Ok(()) => no_collision(link.poll_counted(room)),
        Err(NoEcho::Silence) => no_collision(Ok(Polled::Pending)),
        Err(NoEcho::End) => no_collision(Ok(Polled::Ready(0))),
        Err(NoEcho::Fault) => no_collision(Err(Failed)),
        Err(NoEcho::Collision(count)) => Heard {
            told: Err(Failed),
            collision: kept(&room[..count]),
        },
    }
}

impl<L: CountedLink> EchoedLink<L> {
    /// How many bytes of a piece of this length may be written; `None` where it has some and none may.
    fn most(&self, size: usize) -> Option<usize>
        ensures { MatchOption result (IsFull self.now × (0 < size)) (IsWritable self.now size) }
    {
        if !self.is_on {
            return Some(size);
        }
        let most = size.min(self.owed.free());
        if most == 0 && size > 0 {
            return None;
        }
        Some(most)
    }

    /// Expects back what was written.
    fn expect(&mut self, piece: &[u8])
        requires { IsTrue self.old.is_on → length self.old.owed + length piece.now ≤ echo_room }
        ensures { self.new ≡ record self.old {
          owed = self.old.owed
              ++ echo_of self.old.is_on piece.now;
        } }
    {
        if self.is_on {
            self.owed.add(piece);
        }
    }

    /// Writes a front of the bytes, and expects back what was taken.
    fn write_owing(&mut self, piece: &[u8]) -> Result<Polled<usize>, Failed>
        ensures bound { WritesAtMost (at_once result) piece.now }
        ensures some { IfOk (at_once result) (λ count. 0 < length piece.now → 0 < count) }
        ensures sink { Extends (L.output self.old.link) (L.output self.new.link) }
        ensures told { IsTrue (L.output self.old.link).told
            → bytes_appended (L.output self.old.link) (L.output self.new.link)
            ≡ front_of (at_once result) piece.now }
        ensures waited { Waited result (L.not_ready self.old.link) (L.not_ready self.new.link) }
        ensures later { L.not_ready self.old.link ≤ L.not_ready self.new.link }
        ensures line { L.line self.new.link ≡ L.line self.old.link }
        ensures owes { OwesEcho self.old self.new.link self.new.owed piece.now
            (L.output self.old.link).faults (L.output self.new.link).faults result }
        ensures rest { self.new ≡ record self.old { link = self.new.link; owed = self.new.owed } }
    {
        let Some(most) = self.most(piece.len()) else {
            self.owed = Owed::new();
            return Err(Failed);
        };
        match self.link.poll_write(&piece[..most]) {
            Ok(Polled::Ready(count)) => {
                self.expect(&piece[..count]);
                Ok(Polled::Ready(count))
            }
            Ok(Polled::Pending) => Ok(Polled::Pending),
            Err(Failed) => Err(Failed),
        }
    }
}

impl<L: CountedLink> Ends for EchoedLink<L> {
    ghost input = { λ it. untold_input it.read_faults };

    ghost output = { λ it. output_over (L.output it.link) it.write_faults };

    ghost line = { λ it. L.line it.link };
}

impl<L: CountedLink> PolledLink for EchoedLink<L> {
    ghost not_ready = { λ it. L.not_ready it.link };

    /// Reads what comes behind the echo that is owed, which is dropped.
    ///
    /// # Errors
    /// `Failed` where the link failed, or where other bytes came in place of the echo. `collision` tells them then, and no echo is owed any
    /// more.
    fn poll_read(&mut self, room: &mut [u8]) -> Result<Polled<usize>, Failed>
        requires { 0 < length room.old }
        ensures bound { ReadsAtMost (at_once result) room.new }
        ensures source { Advances (untold_input self.old.read_faults)
            (untold_input self.new.read_faults) }
        ensures later { L.not_ready self.old.link ≤ L.not_ready self.new.link }
        ensures sink { output_over (L.output self.new.link) self.new.write_faults
            ≡ output_over (L.output self.old.link) self.old.write_faults }
        ensures line { L.line self.new.link ≡ L.line self.old.link }

        ensures reads { ReadsBehindEcho L.input self.old self.new room.new result }
        ensures counted { CountsSilence result (L.not_ready self.old.link)
            (L.not_ready self.new.link) }
    {
        let heard = read_behind(&mut self.link, &mut self.owed, room);
        self.collision = heard.collision;
        if heard.told.is_err() {
            self.read_faults = self.read_faults.saturating_add(1);
        }
        heard.told
    }

    /// Writes a front of `piece`, and expects back what was taken of it.
    ///
    /// # Errors
    /// `Failed` where the link failed, or where as many bytes of an echo are owed as are kept, `ECHO_ROOM`; these are forgotten then.
    fn poll_write(&mut self, piece: &[u8]) -> Result<Polled<usize>, Failed>
        ensures bound { WritesAtMost (at_once result) piece.now }
        ensures some { IfOk (at_once result) (λ count. 0 < length piece.now → 0 < count) }
        ensures sink { Extends (output_over (L.output self.old.link) self.old.write_faults)
            (output_over (L.output self.new.link) self.new.write_faults) }
        ensures told { IsTrue (L.output self.old.link).told
            → bytes_appended (L.output self.old.link) (L.output self.new.link)
            ≡ front_of (at_once result) piece.now }
        ensures waited { Waited result (L.not_ready self.old.link) (L.not_ready self.new.link) }
        ensures later { L.not_ready self.old.link ≤ L.not_ready self.new.link }
        ensures source { untold_input self.new.read_faults ≡ untold_input self.old.read_faults }
        ensures line { L.line self.new.link ≡ L.line self.old.link }

        ensures writes { WritesWithEcho self.old self.new piece.now
            (L.output self.old.link).faults (L.output self.new.link).faults result }
    {
        match self.write_owing(piece) {
            Err(Failed) => {
                self.write_faults = self.write_faults.saturating_add(1);
                Err(Failed)
            }
            told => told,
        }
    }
}

impl<L: CountedLink> TimedLink for EchoedLink<L> {}

impl<L: CountedLink> CountedLink for EchoedLink<L> {
    fn poll_counted(&mut self, room: &mut [u8]) -> Result<Polled<usize>, Failed> {
        self.poll_read(room)
    }
}
