//! An acceptor that turns away the peers that may not come.
ghost use Rattle.std.specs.Prelude.{◌≡◌, IsTrue, IsErr};
ghost use Rattle.modbus_link.specs.Listens.{tally_at_start};
ghost use Rattle.modbus_peers.specs.Peers.{may_come_by};
ghost use Rattle.modbus_admission.specs.Admits.{Admits, PollsFor};

use modbus_link::{Failed, Polled, Sink, write_all};
use modbus_peers::Peers;
use modbus_ready::{PeerAddress, Peered, PolledAcceptor};
use std::marker::Model;

/// How many peers are turned away in a row before the program has a turn at its other work.
const ROW: u64 = 64;

/// Which peers may come, and who is told of the first that may not.
#[derive(Drop)]
struct Door<'n, N> {
    peers: Peers<'n>,
    notes: N,
    line: &'n str,
    has_told: bool,
}

/// A contract sees which peers may come.
impl<'n, N> Model for Door<'n, N> {
    ghost use Rattle.modbus_peers.specs.Peers.{PeersState};

    ghost Value = { PeersState };

    ghost view = { λ it. it.peers };
}

// Writes a line as far as that can be done.
fn report<N: Sink>(notes: &mut N, line: &str) {
    let _ = write_all(notes, line.as_bytes());
}

impl<'n, N: Sink> Door<'n, N> {
    // Tells that a peer is turned away, the first time.
    fn tell(&mut self)
        ensures { self.new ≡ self.old }
    {
        if !self.has_told {
            report(&mut self.notes, self.line);
            self.has_told = true;
        }
    }

    // Whether a peer of this address may come; the first that may not is told.
    fn admits(&mut self, peer: PeerAddress) -> bool
        ensures admits { result ≡ may_come_by self.old peer.bits }
        ensures stays { self.new ≡ self.old }
    {
        let may_come = self.peers.has_bits(peer.bits);
        if !may_come {
            self.tell();
        }
        may_come
    }
}

// Polls until there is a link whose peer may come, or none; each other link is dropped, which turns its peer away.
fn poll_admitted<A, N>(acceptor: &mut A, door: &mut Door<'_, N>) -> Result<Polled<A::Link>, Failed>
where
    A: PolledAcceptor,
    A::Link: Peered + Drop,
    N: Sink,
    ensures polls { PollsFor A.accepts A.Link.peer door.old acceptor.old result acceptor.new }
    ensures stays { door.new ≡ door.old }
    ensures lacks { IsTrue (A.lacks_files acceptor.new) → IsErr result }
{
    'polls: for count in 0..ROW {
        match acceptor.poll_accept() {
            Ok(Polled::Ready(link)) => {
                if door.admits(link.peer_address()) {
                    return Ok(Polled::Ready(link));
                }
            }
            Ok(Polled::Pending) => return Ok(Polled::Pending),
            Err(failed) => return Err(failed),
        }
    }
    Err(Failed)
}

/// An acceptor over another, for peers of some addresses alone. Any other peer is turned away: its link is dropped at once.
///
/// After 64 that were turned away in a row a poll fails, so that others have their turns in between; the next peer still waits.
#[derive(Drop)]
pub struct AdmittingAcceptor<'n, A, N> {
    acceptor: A,
    door: Door<'n, N>,
    given: u64,
    faults: u64,
}

/// What a contract knows of it is the acceptor, which peers may come, and the counts.
impl<'n, A, N> Model for AdmittingAcceptor<'n, A, N> {
    ghost use Rattle.modbus_admission.specs.Admits.{AdmittingState};

    ghost Value = { AdmittingState A };

    ghost view = { λ it. record {
      acceptor = it.acceptor;
      peers = it.door;
      tally = record { given = it.given; faults = it.faults };
    } };
}

impl<'n, A, N> AdmittingAcceptor<'n, A, N> {
    /// An acceptor over this one, for these peers, which has given nothing. As the first peer is turned away, it writes `line` to `notes`.
    pub fn new(
        acceptor: A,
        peers: Peers<'n>,
        notes: N,
        line: &'n str,
    ) -> AdmittingAcceptor<'n, A, N>
        ensures { result
            ≡ record { acceptor = acceptor; peers = peers.entry; tally = tally_at_start } }
    {
        let door = Door {
            peers,
            notes,
            line,
            has_told: false,
        };
        AdmittingAcceptor {
            acceptor,
            door,
            given: 0,
            faults: 0,
        }
    }
}

impl<'n, A, N> PolledAcceptor for AdmittingAcceptor<'n, A, N>
where
    A: PolledAcceptor,
    A::Link: Peered + Drop,
    N: Sink,
{
    type Link = A::Link;

    ghost faults = { λ it. it.tally.faults };

    ghost given = { λ it. it.tally.given };

    ghost lacks_files = { λ it. A.lacks_files it.acceptor };

    ghost accepts = { Admits A.accepts A.Link.peer };

    /// The link of the next peer that may come.
    ///
    /// # Errors
    /// `Failed` where the acceptor below failed, or 64 peers were turned away in a row.
    fn poll_accept(&mut self) -> Result<Polled<A::Link>, Failed> {
        match poll_admitted(&mut self.acceptor, &mut self.door) {
            Ok(Polled::Ready(link)) => {
                self.given = self.given.saturating_add(1);
                Ok(Polled::Ready(link))
            }
            Ok(Polled::Pending) => Ok(Polled::Pending),
            Err(failed) => {
                self.faults = self.faults.saturating_add(1);
                Err(failed)
            }
        }
    }

    fn lacks_files(&self) -> bool {
        self.acceptor.lacks_files()
    }
}
