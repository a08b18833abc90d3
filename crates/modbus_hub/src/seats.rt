//! The connections of one thread.
ghost use Rattle.std.specs.Prelude.{◌≡◌, ◌≢◌, ◌↔◌, ℕ, ◌+◌, ◌==◌, ◌<◌, ◌≤◌, ◌⊎◌, [], nat_lt, false, if◌then◌else◌, Some, IsTrue, IfOk, length, take, get_or};
ghost use Rattle.modbus_ready.specs.declared.readiness.Ready.TheVariants.{Peer, Link};
ghost use Rattle.modbus_link.specs.Line.{meaning_of};
ghost use Rattle.modbus_link.specs.Memory.{next_count};
ghost use Rattle.modbus_hub.specs.Counted.{counted};
ghost use Rattle.modbus_hub.specs.declared.turn.Turn.TheVariants.{Spent};
ghost use Rattle.slab.specs.Slab.{Updates, get, slab_len};
ghost use Rattle.modbus_hub.specs.Idlest.{IsIdlest, IsIdlestBelow, LeavesIdlest};
ghost use Rattle.modbus_hub.specs.Shares.{ComesUnder, HasShare, IsShare, LacksShare, NoNewPeers, OneJoins, is_of};
ghost use Rattle.modbus_hub.specs.Seats.{SeatsGoOn, SeatsStay, polled_by, IsFound, IsTold, IsTurnOf, Admits, TurnsIfLeft, ServesSpent, IsDrop, IsOneLeft, KeepsMarks, MarksLeft, SameLeft, MarksAt, TakesFewAt, NoMore, OneMore, is_spent_at, kept, last_at, on_time};

use crate::counted::Counted;
use crate::seat::Seat;
use crate::turn::{Turn, TurnLimits};
use modbus_link::PolledLink;
use modbus_ready::{PeerAddress, Ready};
use modbus_server::{Answerer, Framing};
use slab::Slab;
use std::alloc::{AllocError, Global};
use std::marker::Model;

/// How many connections there are at a time.
#[derive(Clone, Copy, Debug, PartialEq, Eq, Drop)]
pub struct Places {
    /// In all. Between two rounds an `EventServer` has no more; in a round one more may come.
    pub connections: usize,
    /// Of one address of a peer. One of IPv4 and that of IPv6 which it is mapped to are one.
    pub per_peer: usize,
}

/// What connections of one thread may take.
#[derive(Clone, Copy, Debug, PartialEq, Eq, Drop)]
pub struct Limits {
    /// How many there are at a time.
    pub places: Places,
    /// What one turn of a connection may take.
    pub turn: TurnLimits,
}

/// Connections, each under a key, up to a limit.
#[derive(Drop)]
pub struct Seats<I: Framing, L> {
    seats: Slab<Seat<I, L>>,
    limits: Limits,
    has_spent: bool,
    // how many turns there were, with the connections that came
    count: u64,
    alloc: Global,
}

/// A contract sees the connections, whether one may be left whose last turn was cut off, the limits, and how many turns there were,
/// with the connections that came.
impl<I: Framing, L> Model for Seats<I, L> {
    ghost use Rattle.modbus_hub.specs.Seats.{SeatsState};

    ghost Value = { SeatsState L };

    ghost view = { λ it. record {
      seats = it.seats;
      has_spent = it.has_spent;
      limits = it.limits.turn;
      places = it.limits.places;
      count = it.count;
    } };
}

impl<I: Framing, L: PolledLink + Drop> Seats<I, L> {
    /// No connection yet. It keeps the allocator, and takes no memory yet.
    pub fn new(alloc: Global, limits: Limits) -> Seats<I, L>
        requires reads { 0 < limits.turn.reads }
        requires messages { 0 < limits.turn.messages }
        ensures empty { result.seats.slots ≡ [] }
        ensures turn { result.limits ≡ limits.turn }
        ensures places { result.places ≡ limits.places }
    {
        Seats {
            seats: Slab::new(alloc),
            limits,
            has_spent: false,
            count: 0,
            alloc,
        }
    }

    /// How many connections there are.
    pub fn len(&self) -> usize
        ensures { result ≡ slab_len self.now.seats }
    {
        self.seats.len()
    }

    /// Whether there is none.
    pub fn is_empty(&self) -> bool
        ensures { result ≡ (slab_len self.now.seats == 0) }
    {
        self.seats.is_empty()
    }

    /// Whether there are as many as there may be.
    pub fn is_full(&self) -> bool
        ensures { IsTrue result ↔ (self.now.places.connections ≤ slab_len self.now.seats) }
    {
        self.seats.len() >= self.limits.places.connections
    }

    /// Whether one may be left whose last turn was cut off, which is to have another turn though its link is not told of again.
    pub fn has_spent(&self) -> bool
        ensures { result ≡ self.now.has_spent }
    {
        self.has_spent
    }

    /// The key of the next connection.
    pub fn next_key(&self) -> usize
        ensures { result ≡ self.now.seats.vacant_key }
    {
        self.seats.vacant_key()
    }

    // Whether there is a connection under this key, to a peer of this address.
    fn is_of(&self, key: usize, peer: PeerAddress) -> bool
        ensures { result ≡ is_of peer (get self.now.seats key) }
    {
        match self.seats.get(key) {
            Some(seat) => seat.peer().bits == peer.bits,
            None => false,
        }
    }

    // How many connections are under this key, to a peer of this address.
    fn count_of(&self, key: usize, peer: PeerAddress) -> usize
        ensures count { result ≡ (if is_of peer (get self.now.seats key) then 1 else 0) }
        ensures most { result ≤ 1 }
    {
        if self.is_of(key, peer) { 1 } else { 0 }
    }

    // How many connections are of this address. It looks at each.
    fn share(&self, peer: PeerAddress) -> usize
        ensures { IsShare peer self.now.seats result }
    {
        let mut share: usize = 0;
        'keys: for key in 0..self.seats.capacity() {
            share += self.count_of(key, peer);
        }
        share
    }

    /// Whether as many connections are of this address as may be of one. It looks at each connection.
    pub fn has_share(&self, peer: PeerAddress) -> bool
        ensures has { IsTrue result → HasShare self.now.places.per_peer peer self.now.seats }
        ensures lacks { result ≡ false
            → LacksShare self.now.places.per_peer peer self.now.seats }
    {
        self.share(peer) >= self.limits.places.per_peer
    }

    /// Takes a link to a peer of this address as a new connection, and answers its key, which was `next_key`.
    ///
    /// # Errors
    /// `AllocError` where memory is refused; the link is dropped.
    pub fn admit(&mut self, link: L, peer: PeerAddress) -> Result<usize, AllocError>
        ensures left { SameLeft self.old self.new }
        ensures one { OneMore self.old self.new }
        ensures joins { OneJoins peer self.old.seats self.new.seats }
        ensures key { IfOk result (λ key. key ≡ self.old.seats.vacant_key) }
        ensures under { ComesUnder (Some self.old.seats.vacant_key) self.old.seats
            self.new.seats }
        ensures count { self.new.count ≡ next_count self.old.count }
        ensures last { IfOk result (λ key. last_at (get self.new.seats key) ≡ self.new.count) }
        ensures stays { SeatsStay I.framing (meaning_of L.input L.output L.line)
            (Admits link result) self.old.seats self.new.seats }
    {
        self.count = self.count.saturating_add(1);
        if self.seats.reserve(1).is_err() {
            return Err(AllocError);
        }
        match Seat::open(self.alloc, link, peer, self.count) {
            Ok(seat) => Ok(self.seats.insert_reserved(seat)),
            Err(error) => Err(error),
        }
    }

    /// Gives the connection under a key its turn, and drops it where it is over; `None` where there is no connection that goes on.
    ///
    /// Only this connection is told something, by the service's own run; what it is told and how its turn ends is the turn that
    /// `take_turn` gives it.
    pub fn serve<V: Answerer>(&mut self, key: usize, service: &mut Counted<V>) -> Option<Turn>
        ensures goes_on { SeatsGoOn I.framing (counted V.answering)
            (polled_by (meaning_of L.input L.output L.line) L.not_ready self.old.limits)
            (IsTurnOf key result) self.old.seats self.new.seats service.old
            service.new }
        ensures others { (other : _) → other ≢ key
            → get self.new.seats other ≡ get self.old.seats other }
        ensures bounded { TakesFewAt (meaning_of L.input L.output L.line) self.old.limits.reads
            (get self.old.seats key) (get self.new.seats key) }
        ensures left { result ≡ Some Spent → IsTrue self.new.has_spent }
        ensures stays { IsTrue self.old.has_spent → IsTrue self.new.has_spent }
        ensures marks { IsTrue (is_spent_at (get self.new.seats key))
            → IsTrue self.new.has_spent }
        ensures one_left { IsTrue self.new.has_spent
            → IsTrue self.old.has_spent ⊎ IsTrue (is_spent_at (get self.new.seats key)) }
        ensures no_more { NoMore self.old self.new }
        ensures peers { NoNewPeers self.old.seats self.new.seats }
        ensures count { self.new.count ≡ next_count self.old.count }
        ensures marked { MarksAt (meaning_of L.input L.output L.line)
            (next_count self.old.count) (nat_lt service.old.asked service.new.asked)
            (get self.old.seats key) (get self.new.seats key) }
    {
        self.count = self.count.saturating_add(1);
        let Some(seat) = self.seats.get_mut(key) else {
            return None;
        };
        if !seat.is_open() {
            // a connection that is over does not stay
            let _ = self.seats.try_remove(key);
            return None;
        }
        match seat.serve(service, self.limits.turn, self.count) {
            Turn::Waiting => Some(Turn::Waiting),
            Turn::Spent => {
                self.has_spent = true;
                Some(Turn::Spent)
            }
            Turn::Over(answer) => {
                let _ = self.seats.try_remove(key);
                Some(Turn::Over(answer))
            }
        }
    }

    // Whether there is a connection under this key whose last turn was cut off by its limits.
    fn is_spent(&self, key: usize) -> bool
        ensures { result ≡ is_spent_at (get self.now.seats key) }
    {
        match self.seats.get(key) {
            Some(seat) => seat.is_spent(),
            None => false,
        }
    }

    // Gives the connection under a key another turn, where its last turn was cut off by its limits, unless its link is among these: then
    // it is left.
    fn serve_if_left<V: Answerer>(&mut self, key: usize, found: &[Ready], service: &mut Counted<V>)
        ensures goes_on { SeatsGoOn I.framing (counted V.answering)
            (polled_by (meaning_of L.input L.output L.line) L.not_ready self.old.limits)
            (TurnsIfLeft found.now key (get self.old.seats key)) self.old.seats self.new.seats
            service.old service.new }
        ensures others { (other : ℕ) → other ≢ key
            → get self.new.seats other ≡ get self.old.seats other }
        ensures stays { IsTrue self.old.has_spent → IsTrue self.new.has_spent }
        ensures marks { IsTrue (is_spent_at (get self.new.seats key))
            → IsTrue self.new.has_spent }
        ensures one_left { IsTrue self.new.has_spent
            → IsTrue self.old.has_spent ⊎ IsTrue (is_spent_at (get self.new.seats key)) }
        ensures no_more { NoMore self.old self.new }
        ensures peers { NoNewPeers self.old.seats self.new.seats }
    {
        if !self.is_spent(key) {
            return;
        }
        if is_found(found, key) {
            self.has_spent = true;
        } else {
            let _ = self.serve(key, service);
        }
    }

    /// Gives each connection another turn whose last turn was cut off by its limits, but those whose links are among these. Whether the last
    /// turn of a connection was cut off is known then.
    pub fn serve_spent<V: Answerer>(&mut self, found: &[Ready], service: &mut Counted<V>)
        ensures goes_on { SeatsGoOn I.framing (counted V.answering)
            (polled_by (meaning_of L.input L.output L.line) L.not_ready self.old.limits)
            (ServesSpent found.now self.old.seats) self.old.seats self.new.seats service.old
            service.new }
        ensures marks { MarksLeft self.new }
        ensures one_left { IsOneLeft self.new }
        ensures no_more { NoMore self.old self.new }
        ensures peers { NoNewPeers self.old.seats self.new.seats }
    {
        self.has_spent = false;
        'keys: for key in 0..self.seats.capacity() {
            self.serve_if_left(key, found, service);
        }
    }

    // Lets the connection under a key go, unless it moved since this was last asked, or is new.
    fn drop_if_idle(&mut self, key: usize)
        ensures stays { SeatsStay I.framing (meaning_of L.input L.output L.line) IsDrop
            self.old.seats self.new.seats }
        ensures lets_go { Updates self.old.seats self.new.seats key
            (kept (get self.old.seats key)) }
        ensures spent { self.new.has_spent ≡ self.old.has_spent }
        ensures no_more { NoMore self.old self.new }
        ensures peers { NoNewPeers self.old.seats self.new.seats }
    {
        let Some(idle) = self.seats.get_mut(key) else {
            return;
        };
        if idle.take_fresh() {
            return;
        }
        let _ = self.seats.try_remove(key);
    }

    /// Lets each connection go that did not move in a turn since the last call of this, and came before it. The others stay as they are.
    pub fn drop_idle(&mut self)
        ensures stays { SeatsStay I.framing (meaning_of L.input L.output L.line) IsDrop
            self.old.seats self.new.seats }
        ensures lets_go { (key : ℕ) → get self.new.seats key ≡ kept (get self.old.seats key) }
        ensures spent { self.new.has_spent ≡ self.old.has_spent }
        ensures marks { KeepsMarks self.old self.new }
        ensures no_more { NoMore self.old self.new }
        ensures peers { NoNewPeers self.old.seats self.new.seats }
    {
        'keys: for key in 0..self.seats.capacity() {
            self.drop_if_idle(key);
        }
    }

    // Lets the connection under a key go whose message was begun before this was last asked, and is not completed.
    fn drop_if_late(&mut self, key: usize)
        ensures stays { SeatsStay I.framing (meaning_of L.input L.output L.line) IsDrop
            self.old.seats self.new.seats }
        ensures lets_go { Updates self.old.seats self.new.seats key
            (on_time (get self.old.seats key)) }
        ensures spent { self.new.has_spent ≡ self.old.has_spent }
        ensures no_more { NoMore self.old self.new }
        ensures peers { NoNewPeers self.old.seats self.new.seats }
    {
        let Some(late) = self.seats.get_mut(key) else {
            return;
        };
        if !late.take_late() {
            return;
        }
        let _ = self.seats.try_remove(key);
    }

    /// Lets each connection go that began a message before the last call of this, and completed none since. The others stay as they are.
    pub fn drop_late(&mut self)
        ensures stays { SeatsStay I.framing (meaning_of L.input L.output L.line) IsDrop
            self.old.seats self.new.seats }
        ensures lets_go { (key : ℕ) → get self.new.seats key ≡ on_time (get self.old.seats key) }
        ensures spent { self.new.has_spent ≡ self.old.has_spent }
        ensures marks { KeepsMarks self.old self.new }
        ensures no_more { NoMore self.old self.new }
        ensures peers { NoNewPeers self.old.seats self.new.seats }
    {
        'keys: for key in 0..self.seats.capacity() {
            self.drop_if_late(key);
        }
    }

    // Of the connection that was found so far and the one under this key the one that has not moved for longer; the one found, where both
    // moved in turns of the same number.
    fn idler(&self, found: Option<Idle>, key: usize) -> Option<Idle>
        ensures { IsIdlestBelow key self.now.seats found
            → IsIdlestBelow (key + 1) self.now.seats result }
    {
        let Some(seat) = self.seats.get(key) else {
            return found;
        };
        let last = seat.last();
        match found {
            Some(idle) if idle.last <= last => Some(idle),
            _ => Some(Idle { key, last }),
        }
    }

    // The connection that has not moved for longest; `None` where there is none.
    fn idlest(&self) -> Option<Idle>
        ensures { IsIdlest self.now.seats result }
    {
        let mut found = None;
        'keys: for key in 0..self.seats.capacity() {
            found = self.idler(found, key);
        }
        found
    }

    /// Lets the connection go that has not moved in a turn for longest: in no other was the last such turn an earlier one. The others stay as
    /// they are.
    pub fn drop_idlest(&mut self)
        ensures stays { SeatsStay I.framing (meaning_of L.input L.output L.line) IsDrop
            self.old.seats self.new.seats }
        ensures gives_way { LeavesIdlest self.old.seats self.new.seats }
        ensures spent { self.new.has_spent ≡ self.old.has_spent }
        ensures marks { KeepsMarks self.old self.new }
        ensures no_more { NoMore self.old self.new }
        ensures peers { NoNewPeers self.old.seats self.new.seats }
    {
        let Some(idle) = self.idlest() else {
            return;
        };
        let _ = self.seats.try_remove(idle.key);
    }
}

/// A connection, as its key and the number of the last turn in which it moved.
#[derive(Clone, Copy, Debug, PartialEq, Eq, Drop)]
pub struct Idle {
    /// Its key.
    pub key: usize,
    /// The number of that turn.
    pub last: u64,
}

/// Whether the link under this key is among those that were found ready.
pub(crate) fn is_found(found: &[Ready], key: usize) -> bool
    ensures { IsTrue result ↔ IsFound key found.now }
{
    'found: for index in 0..found.len() {
        if is_link(found[index], key) {
            return true;
        }
    }
    false
}

// Whether this tells of the link under this key.
fn is_link(ready: Ready, key: usize) -> bool
    ensures { IsTrue result ↔ (ready ≡ Link key) }
{
    match ready {
        Ready::Link(other) => other == key,
        Ready::Peer => false,
    }
}

/// Whether this place tells of a link that is told of before it.
pub(crate) fn is_told(found: &[Ready], index: usize) -> bool
    requires { index < length found.now }
    ensures { IsTrue result ↔ IsTold (take index found.now) (get_or found.now index Peer) }
{
    match found[index] {
        Ready::Link(key) => is_found(&found[..index], key),
        Ready::Peer => false,
    }
}
