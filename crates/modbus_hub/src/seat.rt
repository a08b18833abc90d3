//! One connection: its link and its server.
ghost use Rattle.std.specs.Prelude.{◌≡◌, [], ◌-◌, nat_lt, ◌||◌, if◌then◌else◌, false, IsTrue, IfOk};
ghost use Rattle.modbus_link.specs.Line.{meaning_of};
ghost use Rattle.modbus_link.specs.Outside.{Rose};
ghost use Rattle.modbus_hub.specs.declared.progress.Progress.TheVariants.{Resting};
ghost use Rattle.modbus_hub.specs.declared.turn.Turn.TheVariants.{Waiting};
ghost use Rattle.modbus_hub.specs.Counted.{counted};
ghost use Rattle.modbus_hub.specs.Progress.{Marks, is_late, later};
ghost use Rattle.modbus_hub.specs.Turn.{is_going_on, is_spent, TakesFew, TakesTurn};
ghost use Rattle.modbus_hub.specs.Seats.{turns};

use crate::counted::Counted;
use crate::progress::Progress;
use crate::turn::{Turn, TurnLimits, take_turn};
use modbus_link::PolledLink;
use modbus_ready::PeerAddress;
use modbus_server::{Answerer, Framing, PolledProcess};
use std::alloc::{AllocError, Global};
use std::marker::Model;

/// A link and what serves it.
#[derive(Drop)]
pub struct Seat<I: Framing, L> {
    link: L,
    process: PolledProcess<I>,
    is_fresh: bool,
    is_spent: bool,
    progress: Progress,
    last: u64,
    peer: PeerAddress,
}

/// A contract sees the link, what its server keeps, whether it was served of late, whether its last turn was cut off by its limits, how far
/// it is with its next message, the number of the last turn in which it moved, and the address of its peer.
impl<I: Framing, L> Model for Seat<I, L> {
    ghost use Rattle.modbus_hub.specs.Events.{Place};

    ghost Value = { Place L };

    ghost view = { λ it. record {
      seat = record { link = it.link; process = it.process };
      is_fresh = it.is_fresh;
      is_spent = it.is_spent;
      progress = it.progress;
      last = it.last;
      peer = it.peer;
    } };
}

impl<I: Framing, L: PolledLink + Drop> Seat<I, L> {
    /// A connection to a peer of this address that begins, as if a turn of this number were its last. It lets as many reads give bytes as a `u64` counts.
    ///
    /// # Errors
    /// `AllocError` where memory is refused; the link is dropped.
    pub fn open(
        alloc: Global,
        link: L,
        peer: PeerAddress,
        number: u64,
    ) -> Result<Seat<I, L>, AllocError>
        ensures link { IfOk result (λ place. place.seat.link ≡ link) }
        ensures held { IfOk result (λ place. place.seat.process.connection.held ≡ []) }
        ensures waiting { IfOk result (λ place. place.seat.process.connection.waiting ≡ []) }
        ensures open { IfOk result (λ place. IsTrue place.seat.process.connection.is_open) }
        ensures left { IfOk result (λ place. place.seat.process.left ≡ turns) }
        ensures fresh { IfOk result (λ place. IsTrue place.is_fresh) }
        ensures spent { IfOk result (λ place. place.is_spent ≡ false) }
        ensures progress { IfOk result (λ place. place.progress ≡ Resting) }
        ensures last { IfOk result (λ place. place.last ≡ number) }
        ensures peer { IfOk result (λ place. place.peer ≡ peer) }
        ensures stands { I.framing.StandsFor [] [] [] [] }
    {
        Ok(Seat {
            link,
            process: PolledProcess::open(alloc, u64::MAX)?,
            is_fresh: true,
            is_spent: false,
            progress: Progress::Resting,
            last: number,
            peer,
        })
    }

    /// Whether it goes on: no turn of it was over.
    pub fn is_open(&self) -> bool
        ensures { result ≡ self.now.seat.process.connection.is_open }
    {
        self.process.is_open()
    }

    /// Whether its last turn was cut off by its limits.
    pub fn is_spent(&self) -> bool
        ensures { result ≡ self.now.is_spent }
    {
        self.is_spent
    }

    /// Takes its turn, which has this number: serves the link as far as it is ready, as `take_turn` does.
    ///
    /// It moves in a turn in which bytes came, or a message was completed: then it is fresh, and that turn is its last.
    pub fn serve<V: Answerer>(
        &mut self,
        service: &mut Counted<V>,
        limits: TurnLimits,
        number: u64,
    ) -> Turn
        requires { IsTrue self.old.seat.process.connection.is_open }
        ensures open { self.new.seat.process.connection.is_open ≡ is_going_on result }
        ensures turn { TakesTurn I.framing (counted V.answering)
            (meaning_of L.input L.output L.line) limits
            self.old.seat self.new.seat service.old service.new result }
        ensures waited { result ≡ Waiting
            → Rose (L.not_ready self.old.seat.link) (L.not_ready self.new.seat.link) }
        ensures bounded { TakesFew (meaning_of L.input L.output L.line) limits.reads
            self.old.seat.link self.new.seat.link }
        ensures marks { Marks (meaning_of L.input L.output L.line) number
            (nat_lt service.old.asked service.new.asked) self.old self.new }
        ensures spent { self.new.is_spent ≡ is_spent result }
        ensures peer { self.new.peer ≡ self.old.peer }
    {
        let asked = service.asked();
        let taken = take_turn(&mut self.process, &mut self.link, service, limits);
        let completed = asked < service.asked();
        let moved = is_either(completed, taken.has_bytes);
        self.is_fresh = is_either(self.is_fresh, moved);
        self.is_spent = matches!(taken.turn, Turn::Spent);
        self.progress = self.progress.after(completed, taken.has_bytes);
        self.last = last_of(moved, number, self.last);
        taken.turn
    }

    /// Whether a message that was begun before this was last asked is not completed. One that is begun now counts for the next time.
    pub fn take_late(&mut self) -> bool
        ensures was { result ≡ is_late self.old.progress }
        ensures now { self.new ≡ record self.old { progress = later self.old.progress } }
    {
        let was_late = self.progress.is_late();
        self.progress = self.progress.later();
        was_late
    }

    /// The address of its peer.
    pub fn peer(&self) -> PeerAddress
        ensures { result ≡ self.now.peer }
    {
        self.peer
    }

    /// The number of the last turn in which it moved.
    pub fn last(&self) -> u64
        ensures { result ≡ self.now.last }
    {
        self.last
    }

    /// Whether it moved in a turn since this was last asked, or it is new.
    pub fn take_fresh(&mut self) -> bool
        ensures was { result ≡ self.old.is_fresh }
        ensures now { self.new ≡ record self.old { is_fresh = false } }
    {
        let was_fresh = self.is_fresh;
        self.is_fresh = false;
        was_fresh
    }
}

// Whether either is so.
fn is_either(one: bool, other: bool) -> bool
    ensures { result ≡ (one || other) }
{
    one || other
}

// The number of the last turn in which a connection moved, after one with this number.
fn last_of(moved: bool, number: u64, last: u64) -> u64
    ensures { result ≡ (if moved then number else last) }
{
    if moved { number } else { last }
}
