//! Accepting connections and serving those that are ready.
ghost use Rattle.std.specs.Prelude.{◌≡◌, ◌==◌, ◌<◌, ◌≤◌, ◌⊎◌, ℕ, ◌∷◌, [], Ok, OnOk, OnErr, IsTrue, false, length, take, get_or};
ghost use Rattle.std.specs.Option.{option_map};
ghost use Rattle.std.specs.Duration.{as_nanos};
ghost use Rattle.modbus_ready.specs.declared.readiness.Ready.TheVariants.{Peer};
ghost use Rattle.modbus_link.specs.Line.{meaning_of};
ghost use Rattle.modbus_link.specs.Memory.{next_count};
ghost use Rattle.modbus_link.specs.Outside.{Rose};
ghost use Rattle.slab.specs.Slab.{get, slab_len};
ghost use Rattle.modbus_hub.specs.Counted.{counted};
ghost use Rattle.modbus_hub.specs.Seats.{SeatsGoOn, SeatsStay, polled_by, IsDrop, IsFound, IsOneLeft, NoMore, OneMore, KeepsFew, KeepsLimit, KeepsMarks, MarksLeft, SameLeft, kept, on_time};
ghost use Rattle.modbus_hub.specs.Losses.{SameRefused, TellsRoundOf, TellsUntil, more_late, no_losses};
ghost use Rattle.modbus_hub.specs.Shares.{ComesUnder, NoNewPeers, OneJoins};
ghost use Rattle.modbus_hub.specs.Sweeps.{stays_if};
ghost use Rattle.modbus_hub.specs.Turns.{GivesWay, LateGo, LeavesOne, Swept, AcceptsNext, AcceptsAsked, AcceptsUpTo, Brings, BringsPeer, IsPeerFound, ServesFound, ServesLeft, ServesNext, TakesRound, TellsRound, TellsRounds, Went, can_accept, is_full, patience_of, wants_room};

use crate::counted::Counted;
use crate::losses::{Losses, gone_more};
use crate::seats::{Limits, Places, Seats, is_told};
use crate::sweeps::{Deadlines, Due, Sweeps, shorter};
use crate::watcher::Watcher;
use modbus_frame::Terminated;
use modbus_link::{Failed, Polled, PolledLink, Stop};
use modbus_ready::{PeerAddress, Peered, PolledAcceptor, Readiness, Ready};
use modbus_server::{Answerer, Framing};
use std::alloc::{AllocError, Global};
use std::marker::Model;
use std::sync::Wait;
use std::time::{Clock, Duration};

/// How many peers are accepted in a round at most.
const ACCEPTS: u64 = 64;

/// How many milliseconds a peer that could not be accepted waits for the next try, where nothing else happens.
const RETRY: u64 = 50;

/// How many milliseconds pass at most between two looks at a signal to stop.
const LOOK: u64 = 100;

/// A server of many connections on one thread, over an acceptor and a source of readiness.
#[derive(Drop)]
pub struct EventServer<I: Framing, A: PolledAcceptor, S> {
    acceptor: A,
    readiness: S,
    seats: Seats<I, A::Link>,
    // whether a peer may wait to be accepted
    is_asked: bool,
    // whether as many peers were accepted in the last round as are accepted in a round
    is_crowded: bool,
    losses: Losses,
}

/// A contract sees the acceptor, the source of readiness, the connections, how many links were dropped at once, whether a peer
/// may wait, and whether as many peers were accepted in the last round as may be.
impl<I: Framing, A: PolledAcceptor, S> Model for EventServer<I, A, S> {
    ghost use Rattle.modbus_hub.specs.Turns.{ServerState};

    ghost Value = { ServerState A S A.Link };

    ghost view = { λ it. record {
      acceptor = it.acceptor;
      readiness = it.readiness;
      seats = it.seats;
      losses = it.losses;
      is_asked = it.is_asked;
      is_crowded = it.is_crowded;
    } };
}

impl<I, A, S> EventServer<I, A, S>
where
    I: Framing,
    A: PolledAcceptor,
    A::Link: PolledLink + Peered + Drop,
    S: Readiness<A::Link>,
{
    /// A server within these limits. It has a place more than there are connections at a time, for a peer that comes: by `serve_until` another
    /// gives way to it.
    pub fn new(alloc: Global, acceptor: A, readiness: S, limits: Limits) -> EventServer<I, A, S>
        requires reads { 0 < limits.turn.reads }
        requires messages { 0 < limits.turn.messages }
        ensures acceptor { result.acceptor ≡ acceptor }
        ensures readiness { result.readiness ≡ readiness }
        ensures empty { result.seats.seats.slots ≡ [] }
        ensures turn { result.seats.limits ≡ limits.turn }
        ensures places { result.seats.places ≡ record limits.places {
          connections = next_count limits.places.connections;
        } }
        ensures losses { result.losses ≡ no_losses }
        ensures marks { MarksLeft result.seats }
        ensures asked { IsTrue result.is_asked }
        ensures crowded { result.is_crowded ≡ false }
    {
        let places = Places {
            connections: limits.places.connections.saturating_add(1),
            per_peer: limits.places.per_peer,
        };
        let limits = Limits {
            places,
            turn: limits.turn,
        };
        EventServer {
            acceptor,
            readiness,
            seats: Seats::new(alloc, limits),
            is_asked: true,
            is_crowded: false,
            losses: Losses::none(),
        }
    }

    /// How many connections there are.
    pub fn len(&self) -> usize
        ensures { result ≡ slab_len self.now.seats.seats }
    {
        self.seats.len()
    }

    /// Whether there is none.
    pub fn is_empty(&self) -> bool
        ensures { result ≡ (slab_len self.now.seats.seats == 0) }
    {
        self.seats.is_empty()
    }

    /// How many links were dropped at once, and how many connections were let go since they were late, or gave way to another.
    pub fn losses(&self) -> Losses
        ensures { result ≡ self.now.losses }
    {
        self.losses
    }

    // Takes a link to a peer of this address under the next key. One that can't be watched, or for which memory is refused, is dropped and
    // counted.
    fn seat(&mut self, mut link: A::Link, peer: PeerAddress)
        ensures acceptor { self.new.acceptor ≡ self.old.acceptor }
        ensures found { S.found self.new.readiness ≡ S.found self.old.readiness }
        ensures later { S.faults self.old.readiness ≤ S.faults self.new.readiness }
        ensures one { OneMore self.old.seats self.new.seats }
        ensures joins { OneJoins peer self.old.seats.seats self.new.seats.seats }
        ensures left { SameLeft self.old.seats self.new.seats }
        ensures asked { self.new.is_asked ≡ self.old.is_asked }
        ensures share { self.new.losses.share ≡ self.old.losses.share }
        ensures watched { ComesUnder (S.watched self.new.readiness) self.old.seats.seats
            self.new.seats.seats }
        ensures stays { SeatsStay I.framing (meaning_of A.Link.input A.Link.output A.Link.line)
            (Brings S.faults link self.old self.new) self.old.seats.seats self.new.seats.seats }
    {
        let key = self.seats.next_key();
        match self.readiness.watch(&mut link, key) {
            Err(Failed) => {}
            Ok(()) => match self.seats.admit(link, peer) {
                Ok(_key) => {}
                Err(AllocError) => {
                    self.losses.memory = self.losses.memory.saturating_add(1);
                }
            },
        }
    }

    // Takes a link, unless the address of its peer has its share: then it is dropped and counted.
    fn admit(&mut self, link: A::Link)
        ensures acceptor { self.new.acceptor ≡ self.old.acceptor }
        ensures found { S.found self.new.readiness ≡ S.found self.old.readiness }
        ensures later { S.faults self.old.readiness ≤ S.faults self.new.readiness }
        ensures one { OneMore self.old.seats self.new.seats }
        ensures few { KeepsFew self.old.seats self.new.seats }
        ensures left { SameLeft self.old.seats self.new.seats }
        ensures asked { self.new.is_asked ≡ self.old.is_asked }
        ensures watched { ComesUnder (S.watched self.new.readiness) self.old.seats.seats
            self.new.seats.seats }
        ensures stays { SeatsStay I.framing (meaning_of A.Link.input A.Link.output A.Link.line)
            (BringsPeer S.faults (A.Link.peer link) link self.old self.new) self.old.seats.seats
            self.new.seats.seats }
    {
        let peer = link.peer_address();
        if self.seats.has_share(peer) {
            self.losses.share = self.losses.share.saturating_add(1);
        } else {
            self.seat(link, peer);
        }
    }

    // Accepts the next peer that waits, where there is room; whether another may wait then. After a fault the others wait for the next try.
    fn accept_one(&mut self) -> bool
        ensures found { S.found self.new.readiness ≡ S.found self.old.readiness }
        ensures later { S.faults self.old.readiness ≤ S.faults self.new.readiness }
        ensures limit { KeepsLimit self.old.seats self.new.seats }
        ensures few { KeepsFew self.old.seats self.new.seats }
        ensures left { SameLeft self.old.seats self.new.seats }
        ensures watched { ComesUnder (S.watched self.new.readiness) self.old.seats.seats
            self.new.seats.seats }
        ensures stays { SeatsStay I.framing (meaning_of A.Link.input A.Link.output A.Link.line)
            (AcceptsNext A.accepts S.faults result self.old self.new) self.old.seats.seats
            self.new.seats.seats }
    {
        if self.seats.is_full() {
            return false;
        }
        match self.acceptor.poll_accept() {
            Ok(Polled::Ready(link)) => {
                self.admit(link);
                true
            }
            Ok(Polled::Pending) => {
                self.is_asked = false;
                false
            }
            Err(Failed) => false,
        }
    }

    // Accepts the peers that wait, up to the limit, and no more than a round accepts; whether it was as many.
    fn accept_all(&mut self) -> bool
        ensures found { S.found self.new.readiness ≡ S.found self.old.readiness }
        ensures later { S.faults self.old.readiness ≤ S.faults self.new.readiness }
        ensures limit { KeepsLimit self.old.seats self.new.seats }
        ensures few { KeepsFew self.old.seats self.new.seats }
        ensures left { SameLeft self.old.seats self.new.seats }
        ensures stays { SeatsStay I.framing (meaning_of A.Link.input A.Link.output A.Link.line)
            (AcceptsUpTo A.accepts S.faults result self.old self.new) self.old.seats.seats
            self.new.seats.seats }
    {
        'peers: for _ in 0..ACCEPTS {
            if !self.accept_one() {
                return false;
            }
        }
        true
    }

    // Does what is to be done where this may be ready.
    fn take<V: Answerer>(&mut self, ready: Ready, service: &mut Counted<V>)
        ensures acceptor { self.new.acceptor ≡ self.old.acceptor }
        ensures readiness { self.new.readiness ≡ self.old.readiness }
        ensures losses { self.new.losses ≡ self.old.losses }
        ensures no_more { NoMore self.old.seats self.new.seats }
        ensures peers { NoNewPeers self.old.seats.seats self.new.seats.seats }
        ensures marks { KeepsMarks self.old.seats self.new.seats }
        ensures stays { IsTrue self.old.seats.has_spent → IsTrue self.new.seats.has_spent }
        ensures others { (key : ℕ) → IsFound key (ready ∷ [])
            ⊎ (get self.new.seats.seats key ≡ get self.old.seats.seats key) }
        ensures waits { IsTrue self.old.is_asked → IsTrue self.new.is_asked }
        ensures asked { ready ≡ Peer → IsTrue self.new.is_asked }
        ensures goes_on { SeatsGoOn I.framing (counted V.answering)
            (polled_by (meaning_of A.Link.input A.Link.output A.Link.line) A.Link.not_ready
            self.old.seats.limits)
            (ServesFound (ready ∷ []))
            self.old.seats.seats self.new.seats.seats service.old service.new }
    {
        match ready {
            Ready::Link(key) => {
                let _ = self.seats.serve(key, service);
            }
            Ready::Peer => {
                self.is_asked = true;
            }
        }
    }

    // Does what is to be done where the last wait found this, unless it tells of a link of which it told before.
    fn take_at<V: Answerer>(&mut self, index: usize, service: &mut Counted<V>)
        requires { index < length (S.found self.old.readiness) }
        ensures acceptor { self.new.acceptor ≡ self.old.acceptor }
        ensures readiness { self.new.readiness ≡ self.old.readiness }
        ensures losses { self.new.losses ≡ self.old.losses }
        ensures no_more { NoMore self.old.seats self.new.seats }
        ensures peers { NoNewPeers self.old.seats.seats self.new.seats.seats }
        ensures marks { KeepsMarks self.old.seats self.new.seats }
        ensures stays { IsTrue self.old.seats.has_spent → IsTrue self.new.seats.has_spent }
        ensures others { (key : ℕ)
            → IsFound key (get_or (S.found self.old.readiness) index Peer ∷ [])
            ⊎ (get self.new.seats.seats key ≡ get self.old.seats.seats key) }
        ensures waits { IsTrue self.old.is_asked → IsTrue self.new.is_asked }
        ensures asked { get_or (S.found self.old.readiness) index Peer ≡ Peer
            → IsTrue self.new.is_asked }
        ensures goes_on { SeatsGoOn I.framing (counted V.answering)
            (polled_by (meaning_of A.Link.input A.Link.output A.Link.line) A.Link.not_ready
            self.old.seats.limits)
            (ServesNext (take index (S.found self.old.readiness))
            (get_or (S.found self.old.readiness) index Peer))
            self.old.seats.seats self.new.seats.seats service.old service.new }
    {
        let found = self.readiness.ready();
        if is_told(found, index) {
            return;
        }
        let ready = found[index];
        self.take(ready, service);
    }

    // Gives each connection one turn that the last wait found ready.
    fn serve_ready<V: Answerer>(&mut self, service: &mut Counted<V>)
        ensures acceptor { self.new.acceptor ≡ self.old.acceptor }
        ensures readiness { self.new.readiness ≡ self.old.readiness }
        ensures losses { self.new.losses ≡ self.old.losses }
        ensures no_more { NoMore self.old.seats self.new.seats }
        ensures peers { NoNewPeers self.old.seats.seats self.new.seats.seats }
        ensures marks { KeepsMarks self.old.seats self.new.seats }
        ensures stays { IsTrue self.old.seats.has_spent → IsTrue self.new.seats.has_spent }
        ensures others { (key : ℕ) → IsFound key (S.found self.old.readiness)
            ⊎ (get self.new.seats.seats key ≡ get self.old.seats.seats key) }
        ensures waits { IsTrue self.old.is_asked → IsTrue self.new.is_asked }
        ensures asked { IsPeerFound (S.found self.old.readiness) → IsTrue self.new.is_asked }
        ensures goes_on { SeatsGoOn I.framing (counted V.answering)
            (polled_by (meaning_of A.Link.input A.Link.output A.Link.line) A.Link.not_ready
            self.old.seats.limits)
            (ServesFound (S.found self.old.readiness)) self.old.seats.seats self.new.seats.seats
            service.old service.new }
    {
        'ready: for index in 0..self.readiness.ready().len() {
            self.take_at(index, service);
        }
    }

    // Gives each connection another turn whose last turn was cut off, but those that the last wait found ready, which had theirs.
    fn serve_left<V: Answerer>(&mut self, service: &mut Counted<V>)
        ensures acceptor { self.new.acceptor ≡ self.old.acceptor }
        ensures readiness { self.new.readiness ≡ self.old.readiness }
        ensures losses { self.new.losses ≡ self.old.losses }
        ensures no_more { NoMore self.old.seats self.new.seats }
        ensures peers { NoNewPeers self.old.seats.seats self.new.seats.seats }
        ensures marks { KeepsMarks self.old.seats self.new.seats }
        ensures asked { self.new.is_asked ≡ self.old.is_asked }
        ensures one_left { IsOneLeft self.new.seats }
        ensures goes_on { SeatsGoOn I.framing (counted V.answering)
            (polled_by (meaning_of A.Link.input A.Link.output A.Link.line) A.Link.not_ready
            self.old.seats.limits)
            (ServesLeft (S.found self.old.readiness) self.old.seats)
            self.old.seats.seats self.new.seats.seats service.old service.new }
    {
        if self.seats.has_spent() {
            self.seats.serve_spent(self.readiness.ready(), service);
        }
    }

    // Accepts the peers that wait, where one may, and no more than a round accepts.
    fn accept_asked(&mut self)
        ensures found { S.found self.new.readiness ≡ S.found self.old.readiness }
        ensures later { S.faults self.old.readiness ≤ S.faults self.new.readiness }
        ensures limit { KeepsLimit self.old.seats self.new.seats }
        ensures few { KeepsFew self.old.seats self.new.seats }
        ensures left { SameLeft self.old.seats self.new.seats }
        ensures stays { SeatsStay I.framing (meaning_of A.Link.input A.Link.output A.Link.line)
            (AcceptsAsked A.accepts S.faults self.old self.new) self.old.seats.seats
            self.new.seats.seats }
    {
        if self.is_asked {
            self.is_crowded = self.accept_all();
        } else {
            self.is_crowded = false;
        }
    }

    // Whether a peer that may wait can be accepted.
    fn can_accept(&self) -> bool
        ensures { result ≡ can_accept self.now }
    {
        self.is_asked && !self.seats.is_full()
    }

    // How long the next wait may take: no time where a connection is left, or as many peers came as a round accepts and there is room, and
    // no longer than until the next try, where an accept failed.
    fn patience(&self, timeout: Option<Duration>) -> Option<Duration>
        ensures { option_map as_nanos result ≡ patience_of self.now (option_map as_nanos timeout) }
    {
        let can_accept = self.can_accept();
        if self.seats.has_spent() || (can_accept && self.is_crowded) {
            return Some(Duration::ZERO);
        }
        if can_accept {
            return Some(shorter(timeout, Duration::from_millis(RETRY)));
        }
        timeout
    }

    /// Waits until something may be ready, or the time is up. Then it gives each connection one turn that is ready, or whose last turn was
    /// cut off by its limits, drops those that are over, and accepts peers that wait, up to the limit and 64 at most. A connection that
    /// fails ends alone.
    ///
    /// # Errors
    /// `Failed`, only where the count of faults of the source of readiness rose; then nothing was done.
    pub fn turn<V: Answerer>(
        &mut self,
        service: &mut Counted<V>,
        timeout: Option<Duration>,
    ) -> Result<(), Failed>
        ensures later { S.faults self.old.readiness ≤ S.faults self.new.readiness }
        ensures cause { OnErr result (Rose (S.faults self.old.readiness)
            (S.faults self.new.readiness)) }
        ensures limit { KeepsLimit self.old.seats self.new.seats }
        ensures few { KeepsFew self.old.seats self.new.seats }
        ensures marks { KeepsMarks self.old.seats self.new.seats }
        ensures goes_on { SeatsGoOn I.framing (counted V.answering)
            (polled_by (meaning_of A.Link.input A.Link.output A.Link.line) A.Link.not_ready
            self.old.seats.limits)
            (TakesRound A.accepts S.faults S.found self.old self.new result) self.old.seats.seats
            self.new.seats.seats service.old service.new }
    {
        let patience = self.patience(timeout);
        match self.readiness.wait(patience) {
            Err(failed) => Err(failed),
            Ok(()) => {
                self.serve_ready(service);
                self.serve_left(service);
                self.accept_asked();
                Ok(())
            }
        }
    }

    /// Lets each connection go that did not move in a turn since the last call of this, and came before it.
    pub fn drop_idle(&mut self)
        ensures acceptor { self.new.acceptor ≡ self.old.acceptor }
        ensures readiness { self.new.readiness ≡ self.old.readiness }
        ensures asked { self.new.is_asked ≡ self.old.is_asked }
        ensures crowded { self.new.is_crowded ≡ self.old.is_crowded }
        ensures losses { self.new.losses ≡ self.old.losses }
        ensures no_more { NoMore self.old.seats self.new.seats }
        ensures peers { NoNewPeers self.old.seats.seats self.new.seats.seats }
        ensures marks { KeepsMarks self.old.seats self.new.seats }
        ensures stays { SeatsStay I.framing (meaning_of A.Link.input A.Link.output A.Link.line)
            IsDrop self.old.seats.seats self.new.seats.seats }
        ensures lets_go { (key : ℕ) → get self.new.seats.seats key
            ≡ kept (get self.old.seats.seats key) }
    {
        self.seats.drop_idle();
    }

    /// Lets each connection go that began a message before the last call of this, and completed none since.
    pub fn drop_late(&mut self)
        ensures acceptor { self.new.acceptor ≡ self.old.acceptor }
        ensures readiness { self.new.readiness ≡ self.old.readiness }
        ensures asked { self.new.is_asked ≡ self.old.is_asked }
        ensures crowded { self.new.is_crowded ≡ self.old.is_crowded }
        ensures losses { self.new.losses ≡ more_late (slab_len self.old.seats.seats)
            (slab_len self.new.seats.seats) self.old.losses }
        ensures no_more { NoMore self.old.seats self.new.seats }
        ensures peers { NoNewPeers self.old.seats.seats self.new.seats.seats }
        ensures marks { KeepsMarks self.old.seats self.new.seats }
        ensures stays { SeatsStay I.framing (meaning_of A.Link.input A.Link.output A.Link.line)
            IsDrop self.old.seats.seats self.new.seats.seats }
        ensures lets_go { (key : ℕ) → get self.new.seats.seats key
            ≡ on_time (get self.old.seats.seats key) }
    {
        let before = self.seats.len();
        self.seats.drop_late();
        self.losses.late = gone_more(self.losses.late, before, self.seats.len());
    }

    // Lets idle connections go, where that is due.
    fn sweep_idle(&mut self, is_due: bool)
        ensures acceptor { self.new.acceptor ≡ self.old.acceptor }
        ensures readiness { self.new.readiness ≡ self.old.readiness }
        ensures asked { self.new.is_asked ≡ self.old.is_asked }
        ensures crowded { self.new.is_crowded ≡ self.old.is_crowded }
        ensures losses { self.new.losses ≡ self.old.losses }
        ensures no_more { NoMore self.old.seats self.new.seats }
        ensures peers { NoNewPeers self.old.seats.seats self.new.seats.seats }
        ensures marks { KeepsMarks self.old.seats self.new.seats }
        ensures stays { SeatsStay I.framing (meaning_of A.Link.input A.Link.output A.Link.line)
            IsDrop self.old.seats.seats self.new.seats.seats }
        ensures lets_go { (key : ℕ) → get self.new.seats.seats key
            ≡ stays_if is_due kept (get self.old.seats.seats key) }
    {
        if is_due {
            self.drop_idle();
        }
    }

    // Lets late connections go, where that is due.
    fn sweep_late(&mut self, is_due: bool)
        ensures acceptor { self.new.acceptor ≡ self.old.acceptor }
        ensures readiness { self.new.readiness ≡ self.old.readiness }
        ensures asked { self.new.is_asked ≡ self.old.is_asked }
        ensures crowded { self.new.is_crowded ≡ self.old.is_crowded }
        ensures losses { SameRefused self.old.losses self.new.losses }
        ensures no_more { NoMore self.old.seats self.new.seats }
        ensures peers { NoNewPeers self.old.seats.seats self.new.seats.seats }
        ensures marks { KeepsMarks self.old.seats self.new.seats }
        ensures stays { SeatsStay I.framing (meaning_of A.Link.input A.Link.output A.Link.line)
            IsDrop self.old.seats.seats self.new.seats.seats }
        ensures lets_go { LateGo is_due self.old self.new }
    {
        if is_due {
            self.drop_late();
        }
    }

    // Lets idle connections go and then late ones, each where that is due.
    fn sweep(&mut self, due: Due)
        ensures acceptor { self.new.acceptor ≡ self.old.acceptor }
        ensures readiness { self.new.readiness ≡ self.old.readiness }
        ensures asked { self.new.is_asked ≡ self.old.is_asked }
        ensures crowded { self.new.is_crowded ≡ self.old.is_crowded }
        ensures losses { SameRefused self.old.losses self.new.losses }
        ensures no_more { NoMore self.old.seats self.new.seats }
        ensures peers { NoNewPeers self.old.seats.seats self.new.seats.seats }
        ensures marks { KeepsMarks self.old.seats self.new.seats }
        ensures stays { SeatsStay I.framing (meaning_of A.Link.input A.Link.output A.Link.line)
            IsDrop self.old.seats.seats self.new.seats.seats }
        ensures lets_go { Swept due.idle due.late self.old self.new }
    {
        self.sweep_idle(due.idle);
        self.sweep_late(due.late);
    }

    /// Lets the connection go that has not moved in a turn for longest.
    pub fn drop_idlest(&mut self)
        ensures acceptor { self.new.acceptor ≡ self.old.acceptor }
        ensures readiness { self.new.readiness ≡ self.old.readiness }
        ensures asked { self.new.is_asked ≡ self.old.is_asked }
        ensures crowded { self.new.is_crowded ≡ self.old.is_crowded }
        ensures losses { SameRefused self.old.losses self.new.losses }
        ensures no_more { NoMore self.old.seats self.new.seats }
        ensures peers { NoNewPeers self.old.seats.seats self.new.seats.seats }
        ensures marks { KeepsMarks self.old.seats self.new.seats }
        ensures stays { SeatsStay I.framing (meaning_of A.Link.input A.Link.output A.Link.line)
            IsDrop self.old.seats.seats self.new.seats.seats }
        ensures gives_way { LeavesOne self.old self.new }
    {
        let before = self.seats.len();
        self.seats.drop_idlest();
        self.losses.gave_way = gone_more(self.losses.gave_way, before, self.seats.len());
    }

    // Whether no place is left for a peer that comes.
    fn is_full(&self) -> bool
        ensures { result ≡ is_full self.now.seats.places.connections self.now.seats.seats }
    {
        self.seats.is_full()
    }

    // Whether no place or no file is left for a peer that comes.
    fn wants_room(&self) -> bool
        ensures { result ≡ wants_room A.lacks_files self.now }
    {
        self.is_full() || self.acceptor.lacks_files()
    }

    // Lets the connection go that has not moved for longest, where no place or no file is left for a peer that comes.
    fn give_way(&mut self)
        ensures acceptor { self.new.acceptor ≡ self.old.acceptor }
        ensures readiness { self.new.readiness ≡ self.old.readiness }
        ensures asked { self.new.is_asked ≡ self.old.is_asked }
        ensures crowded { self.new.is_crowded ≡ self.old.is_crowded }
        ensures losses { SameRefused self.old.losses self.new.losses }
        ensures no_more { NoMore self.old.seats self.new.seats }
        ensures peers { NoNewPeers self.old.seats.seats self.new.seats.seats }
        ensures marks { KeepsMarks self.old.seats self.new.seats }
        ensures stays { SeatsStay I.framing (meaning_of A.Link.input A.Link.output A.Link.line)
            IsDrop self.old.seats.seats self.new.seats.seats }
        ensures gives_way { GivesWay A.lacks_files self.old self.new }
    {
        if self.wants_room() {
            self.drop_idlest();
        }
    }

    // Lets connections go: idle ones and late ones, each where that is due, and then one where no place or no file is left.
    fn let_go(&mut self, due: Due)
        ensures acceptor { self.new.acceptor ≡ self.old.acceptor }
        ensures readiness { self.new.readiness ≡ self.old.readiness }
        ensures asked { self.new.is_asked ≡ self.old.is_asked }
        ensures crowded { self.new.is_crowded ≡ self.old.is_crowded }
        ensures losses { SameRefused self.old.losses self.new.losses }
        ensures no_more { NoMore self.old.seats self.new.seats }
        ensures peers { NoNewPeers self.old.seats.seats self.new.seats.seats }
        ensures marks { KeepsMarks self.old.seats self.new.seats }
        ensures stays { SeatsStay I.framing (meaning_of A.Link.input A.Link.output A.Link.line)
            IsDrop self.old.seats.seats self.new.seats.seats }
        ensures went { Went A.lacks_files due.idle due.late self.old self.new }
    {
        self.sweep(due);
        self.give_way();
    }

    // A round, and then lets those go who are to be by the next reading of the clock, and one where no place or no file is left. Tells how many were lost
    // in it.
    fn round<R: Clock, V: Answerer, W: Watcher>(
        &mut self,
        rt: &R,
        service: &mut Counted<V>,
        sweeps: &mut Sweeps,
        watcher: &mut W,
    ) -> Result<(), Failed>
        ensures told { TellsRoundOf W.tells result self.old.losses self.new.losses
            watcher.old watcher.new }
        ensures later { S.faults self.old.readiness ≤ S.faults self.new.readiness }
        ensures cause { OnErr result (Rose (S.faults self.old.readiness)
            (S.faults self.new.readiness)) }
        ensures limit { KeepsLimit self.old.seats self.new.seats }
        ensures few { KeepsFew self.old.seats self.new.seats }
        ensures marks { KeepsMarks self.old.seats self.new.seats }
        ensures goes_on { SeatsGoOn I.framing (counted V.answering)
            (polled_by (meaning_of A.Link.input A.Link.output A.Link.line) A.Link.not_ready
            self.old.seats.limits)
            (TellsRound A.accepts S.faults S.found A.lacks_files sweeps.old sweeps.new self.old
            self.new result)
            self.old.seats.seats self.new.seats.seats service.old service.new }
    {
        let before = self.losses();
        let timeout = sweeps.within(Duration::from_millis(LOOK));
        match self.turn(service, Some(timeout)) {
            Err(failed) => Err(failed),
            Ok(()) => {
                let due = sweeps.look(rt);
                self.let_go(due);
                watcher.tell(self.losses().since(before));
                Ok(())
            }
        }
    }

    /// Serves round by round until the signal is set, which is `Aborted`; it never answers `Finished`. It looks at the signal before each
    /// round, and at least ten times a second. A connection that passes one of these deadlines is let go, at the latest after twice its time:
    /// one that does not move, and one that begins a message and completes none.
    ///
    /// Where one more connection came than there are at a time, the one that has not moved for longest gives way, so one a round at most (MODBUS
    /// Messaging on TCP/IP Implementation Guide V1.0b, section 4.2.1). So it is too where an accept fails since the process has as many files open
    /// as it may; the next round accepts again.
    ///
    /// Behind each round the watcher is told how many links were dropped in it, how many connections were late, and how many gave way, and so
    /// of each once.
    ///
    /// It goes by rounds, each of which is a `turn`, behind which such connections are let go, exactly where that is due by a reading of the
    /// clock. Whatever the readiness that it is told of:
    /// there is one run of the service over what all connections were told, in the order of their turns; the links that came are those that
    /// the acceptor gave; and each connection has, from the link as it came, the contract of `process`.
    ///
    /// # Errors
    /// `Failed`, only where the count of faults of the source of readiness rose.
    pub fn serve_until<R: Wait + Clock, V: Answerer, W: Watcher, X: Stop>(
        &mut self,
        rt: &R,
        service: &mut Counted<V>,
        deadlines: Deadlines,
        watcher: &mut W,
        abort_signal: &mut X,
    ) -> Result<Terminated, Failed>
        ensures told { TellsUntil W.tells result self.old.losses self.new.losses
            watcher.old watcher.new }
        ensures aborted { OnOk result ((result ≡ Ok Terminated.Aborted)
            × Rose (X.stops abort_signal.old) (X.stops abort_signal.new)) }
        ensures cause { OnErr result (Rose (S.faults self.old.readiness)
            (S.faults self.new.readiness)) }
        ensures limit { KeepsLimit self.old.seats self.new.seats }
        ensures few { KeepsFew self.old.seats self.new.seats }
        ensures marks { KeepsMarks self.old.seats self.new.seats }
        ensures goes_on { SeatsGoOn I.framing (counted V.answering)
            (polled_by (meaning_of A.Link.input A.Link.output A.Link.line) A.Link.not_ready
            self.old.seats.limits)
            (TellsRounds A.accepts S.faults S.found A.lacks_files deadlines self.old self.new
            result)
            self.old.seats.seats self.new.seats.seats service.old service.new }
    {
        let mut sweeps = Sweeps::begin(rt, deadlines);
        'rounds: for _ in rt.forever() {
            if abort_signal.is_set() {
                return Ok(Terminated::Aborted);
            }
            match self.round(rt, service, &mut sweeps, watcher) {
                Ok(()) => {}
                Err(failed) => return Err(failed),
            }
        }
        unreachable!()
    }
}
