//! What gives the links of peers that connect, and never waits.
ghost use Rattle.std.specs.Prelude.{◌≡◌, ℕ, ◌≤◌, Bool, false, IsTrue, IsErr, Result, OnErr};
ghost use Rattle.modbus_link.specs.declared.outside.Failed.{Failed};
ghost use Rattle.modbus_link.specs.declared.polled.Polled.{Polled};
ghost use Rattle.modbus_link.specs.Outside.{Rose};
ghost use Rattle.modbus_ready.specs.Accepts.{given_by, schedule_at_start, AcceptsBySchedule};

use modbus_link::{Failed, Polled};
use std::marker::Model;
use std::vec::IntoIter;

/// What gives the links of peers that connect, where one waits.
pub trait PolledAcceptor {
    /// What it gives.
    type Link;

    // how often it failed
    ghost faults: { Self → ℕ };

    // how many links it gave
    ghost given: { Self → ℕ };

    // whether its last poll failed since the process has as many files open as it may
    ghost lacks_files: { Self → Bool };

    // what a poll may lead to, by the state before, the answer and the state after; an implementation says it, and by default nothing
    // is said
    ghost accepts: { Self → Result (Polled Self.Link) Failed → Self → Type 0 } = { λ _ _ _. Unit {0} };

    /// The link of the next peer; or none waits. Each link that it gives is counted.
    ///
    /// # Errors
    /// `Failed`, only where the acceptor's count of faults rose. The peer still waits, and another try may be well, as where no file
    /// descriptor was left.
    fn poll_accept(&mut self) -> Result<Polled<Self::Link>, Failed>
        ensures later { faults self.old ≤ faults self.new }
        ensures counts { given self.new ≡ given_by result (given self.old) }
        ensures accepts { accepts self.old result self.new }
        ensures lacks { IsTrue (lacks_files self.new) → IsErr result }
        ensures cause { OnErr result (Rose (faults self.old) (faults self.new)) };

    /// Whether the last poll failed since the process has as many files open as it may: another is well once one is closed.
    fn lacks_files(&self) -> bool
        ensures { result ≡ lacks_files self.now };
}

/// An acceptor that was handed the answers of its polls, for tests. After the last one nobody waits.
#[derive(Drop)]
pub struct ScheduledAcceptor<L> {
    answers: IntoIter<Result<Polled<L>, Failed>>,
    given: u64,
    faults: u64,
}

impl<L> Model for ScheduledAcceptor<L> {
    ghost use Rattle.std.specs.Vec.Iter.{into_iter_items};
    ghost use Rattle.modbus_ready.specs.Accepts.{ScheduleState};

    ghost Value = { ScheduleState L };

    ghost view = { λ acceptor. record {
      answers = into_iter_items acceptor.answers;
      tally = record { given = acceptor.given; faults = acceptor.faults };
    } };
}

impl<L> ScheduledAcceptor<L> {
    /// An acceptor whose polls have these answers.
    pub fn new(answers: Vec<Result<Polled<L>, Failed>>) -> ScheduledAcceptor<L>
        ensures { result ≡ schedule_at_start answers.items }
    {
        ScheduledAcceptor {
            answers: answers.into_iter(),
            given: 0,
            faults: 0,
        }
    }
}

impl<L> PolledAcceptor for ScheduledAcceptor<L> {
    type Link = L;

    ghost faults = { λ acceptor. acceptor.tally.faults };

    ghost given = { λ acceptor. acceptor.tally.given };

    ghost lacks_files = { λ acceptor. false };

    ghost accepts = { AcceptsBySchedule };

    fn poll_accept(&mut self) -> Result<Polled<L>, Failed> {
        match self.answers.next() {
            Some(Ok(Polled::Ready(link))) => {
                self.given = self.given.saturating_add(1);
                Ok(Polled::Ready(link))
            }
            Some(Ok(Polled::Pending)) => Ok(Polled::Pending),
            Some(Err(Failed)) => {
                self.faults = self.faults.saturating_add(1);
                Err(Failed)
            }
            None => Ok(Polled::Pending),
        }
    }

    fn lacks_files(&self) -> bool {
        false
    }
}
