//! What gives the links of peers that connect.
ghost use Rattle.std.specs.Prelude.{◌≡◌, ℕ, ◌≤◌, Result, OnErr};
ghost use Rattle.std.specs.Vec.Iter.{into_iter_items};
ghost use Rattle.std.specs.declared.net.SocketAddr.{SocketAddr};
ghost use Rattle.modbus_link.specs.declared.outside.Failed.{Failed};
ghost use Rattle.modbus_link.specs.Outside.{Rose};
ghost use Rattle.modbus_link.specs.Listens.{given_after, tally_at_start, AcceptsInOrder};

use crate::outside::Failed;
use std::marker::Model;
use std::net::SocketAddr;
use std::vec::IntoIter;

/// What gives the links of peers that connect, one after another.
pub trait Acceptor {
    /// What it gives.
    type Link;

    // how often it failed
    ghost faults: { Self → ℕ };

    // how many links it gave
    ghost given: { Self → ℕ };

    // what an accept may lead to, by the state before, the answer and the state after; an implementation says it, and by default nothing
    // is said
    ghost accepts: { Self → Result (Self.Link × SocketAddr) Failed → Self → Type 0 } = { λ _ _ _. Unit {0} };

    /// Waits for the next peer, and gives its link and its address. Each link that it gives is counted.
    ///
    /// # Errors
    /// `Failed`, only where the acceptor's count of faults rose; then it gave no link.
    fn accept(&mut self) -> Result<(Self::Link, SocketAddr), Failed>
        ensures later { faults self.old ≤ faults self.new }
        ensures grows { given self.old ≤ given self.new }
        ensures counts { given self.new ≡ given_after result (given self.old) }
        ensures accepts { accepts self.old result self.new }
        ensures cause { OnErr result (Rose (faults self.old) (faults self.new)) };
}

impl<T: Acceptor> Acceptor for &mut T {
    type Link = T::Link;

    ghost faults = { λ it. T.faults it.now };

    ghost given = { λ it. T.given it.now };

    ghost accepts = { λ old result new. T.accepts old.now result new.now };

    fn accept(&mut self) -> Result<(T::Link, SocketAddr), Failed> {
        (**self).accept()
    }
}

/// An acceptor that was handed the links that it gives, for tests and for programs over links that they hold.
#[derive(Drop)]
pub struct MemoryAcceptor<L> {
    links: IntoIter<(L, SocketAddr)>,
    given: u64,
    faults: u64,
}

impl<L> Model for MemoryAcceptor<L> {
    ghost use Rattle.std.specs.Vec.Iter.{into_iter_items};
    ghost use Rattle.modbus_link.specs.Listens.{AcceptorState};

    ghost Value = { AcceptorState L };

    ghost view = { λ acceptor. record {
      links = into_iter_items acceptor.links;
      tally = record { given = acceptor.given; faults = acceptor.faults };
    } };
}

impl<L> MemoryAcceptor<L> {
    /// An acceptor that gives these links in their order, each with its address, and then fails.
    pub fn new(links: Vec<(L, SocketAddr)>) -> MemoryAcceptor<L>
        ensures { result ≡ record { links = links.items; tally = tally_at_start } }
    {
        MemoryAcceptor {
            links: links.into_iter(),
            given: 0,
            faults: 0,
        }
    }
}

impl<L> Acceptor for MemoryAcceptor<L> {
    type Link = L;

    ghost faults = { λ acceptor. acceptor.tally.faults };

    ghost given = { λ acceptor. acceptor.tally.given };

    ghost accepts = { AcceptsInOrder };

    /// Gives the next of its links.
    ///
    /// # Errors
    /// `Failed`, exactly where none is left.
    fn accept(&mut self) -> Result<(L, SocketAddr), Failed> {
        match self.links.next() {
            Some(link) => {
                self.given = self.given.saturating_add(1);
                Ok(link)
            }
            None => {
                self.faults = self.faults.saturating_add(1);
                Err(Failed)
            }
        }
    }
}
