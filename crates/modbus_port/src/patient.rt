//! An acceptor that goes on where a fault may pass, and turns away the peers that are not admitted.
ghost use Rattle.std.specs.Prelude.{◌≡◌, Bool, Result};
ghost use Rattle.std.specs.declared.net.SocketAddr.{SocketAddr};
ghost use Rattle.modbus_link.specs.Listens.{tally_at_start};
ghost use Rattle.modbus_port.specs.Patient.{PatientState, AcceptsPatiently, IsPatient};

use modbus_link::{Acceptor, Failed};
use std::marker::Model;
use std::net::SocketAddr;

/// What keeps an acceptor going.
pub trait Keeper {
    // what a question for a peer may lead to: the answer, and the keeper after it; by default nothing is said
    ghost admits: { Self → SocketAddr → Bool → Self → Type 0 } = { λ _ _ _ _. Unit {0} };

    // what a wait may lead to; by default nothing is said
    ghost waits: { Self → Self → Type 0 } = { λ _ _. Unit {0} };

    /// Whether the peer of the link that was just given is admitted: it may come, and there is room for one more link beside it.
    fn admit(&mut self, peer: SocketAddr) -> bool
        ensures { admits self.old peer result self.new };

    /// Waits a little after a fault.
    fn wait(&mut self)
        ensures { waits self.old self.new };
}

/// Accepts until there is a link whose peer is admitted, or a fault stays.
fn accept_patiently<A: Acceptor, G: Keeper>(
    acceptor: &mut A,
    keeper: &mut G,
    retries: u32,
) -> Result<(A::Link, SocketAddr), Failed>
where
    A::Link: Drop,
    ensures { AcceptsPatiently (record { accepts = A.accepts; admits = G.admits; waits = G.waits })
        retries (record { acceptor = acceptor.old; keeper = keeper.old }) result
        (record { acceptor = acceptor.new; keeper = keeper.new }) }
{
    let mut left = retries;
    'accepts: for count in 0..u64::MAX {
        match acceptor.accept() {
            Ok(accepted) => {
                if keeper.admit(accepted.1) {
                    return Ok(accepted);
                }
                left = retries;
            }
            Err(failed) => {
                if left == 0 {
                    return Err(failed);
                }
                left -= 1;
                keeper.wait();
            }
        }
    }
    Err(Failed)
}

/// An acceptor over another. A peer that is not admitted is turned away: its link is dropped. After a fault it waits and tries again,
/// so many times in a row.
#[derive(Drop)]
pub struct PatientAcceptor<A, G> {
    acceptor: A,
    keeper: G,
    retries: u32,
    given: u64,
    faults: u64,
}

/// What a contract knows of it is the acceptor, the keeper, the retries and the counts.
impl<A, G> Model for PatientAcceptor<A, G> {
    ghost use Rattle.modbus_port.specs.Patient.{PatientState};

    ghost Value = { PatientState A G };

    ghost view = { λ it. record {
      pair = record { acceptor = it.acceptor; keeper = it.keeper };
      retries = it.retries;
      tally = record { given = it.given; faults = it.faults };
    } };
}

impl<A, G> PatientAcceptor<A, G> {
    /// An acceptor over this one, which has given nothing.
    pub fn new(acceptor: A, keeper: G, retries: u32) -> PatientAcceptor<A, G>
        ensures { result ≡ record {
          pair = record { acceptor = acceptor; keeper = keeper };
          retries = retries;
          tally = tally_at_start;
        } }
    {
        PatientAcceptor {
            acceptor,
            keeper,
            retries,
            given: 0,
            faults: 0,
        }
    }
}

impl<A: Acceptor, G: Keeper> Acceptor for PatientAcceptor<A, G>
where
    A::Link: Drop,
{
    type Link = A::Link;

    ghost faults = { λ it. it.tally.faults };

    ghost given = { λ it. it.tally.given };

    ghost accepts = { IsPatient (record { accepts = A.accepts; admits = G.admits; waits = G.waits }) };

    /// Gives the next link whose peer is admitted.
    ///
    /// # Errors
    /// `Failed` where the acceptor below failed once more than there are retries, with no link between.
    fn accept(&mut self) -> Result<(A::Link, SocketAddr), Failed> {
        let result = accept_patiently(&mut self.acceptor, &mut self.keeper, self.retries);
        match result {
            Ok(accepted) => {
                self.given = self.given.saturating_add(1);
                Ok(accepted)
            }
            Err(failed) => {
                self.faults = self.faults.saturating_add(1);
                Err(failed)
            }
        }
    }
}
