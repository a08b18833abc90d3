//! Which links over TCP may be ready, by epoll.
ghost use Rattle.std.specs.Prelude.{◌≡◌, ◌≤◌, [], false, IfOk, OnErr};
ghost use Rattle.modbus_link.specs.Outside.{Rose};
ghost use Rattle.modbus_ready.specs.Found.{nothing_found};

use crate::readiness::{Readiness, Ready};
use crate::setback::{Setback, setback_of};
use crate::tcp_acceptor::PolledTcpAcceptor;
use crate::tcp_link::PolledTcpLink;
use crate::token::{take_events, token_of};
use mio::{Events, Poll};
use modbus_link::Failed;
use std::alloc::{AllocGlobal, Global};
use std::io;
use std::marker::Model;
use std::net::Net;
use std::time::Duration;

/// How many events one wait takes at most.
const EVENTS: usize = 1024;

/// A source of readiness over epoll, which tells each change once (edge-triggered).
///
/// It counts its faults, and tells what its last wait found: what the system reports is trusted no further than that something may be ready.
#[derive(Drop)]
pub struct MioReadiness {
    poll: Poll,
    events: Events,
    ready: Vec<Ready>,
    watched: Option<usize>,
    patience: Option<Duration>,
    faults: u64,
}

/// What a contract knows of it is how often it failed, what its last wait found, which link it was told to watch last, and how long it was to
/// wait.
impl Model for MioReadiness {
    ghost use Rattle.std.specs.Option.{option_map};
    ghost use Rattle.std.specs.Duration.{as_nanos};
    ghost use Rattle.modbus_ready.specs.Found.{ReadinessState};

    ghost Value = { ReadinessState };

    ghost view = { λ it. record {
      faults = it.faults;
      found = it.ready.items;
      watched = it.watched;
      patience = option_map as_nanos it.patience;
    } };
}

impl MioReadiness {
    /// One that watches nothing yet.
    ///
    /// # Errors
    /// Where the system or memory is refused.
    pub fn new<R: Net + AllocGlobal>(rt: &R) -> io::Result<MioReadiness>
        ensures { IfOk result (λ it. it ≡ nothing_found) }
    {
        let alloc: Global = rt.alloc();
        Ok(MioReadiness {
            poll: Poll::new(rt)?,
            events: Events::with_capacity(alloc, EVENTS)?,
            ready: Vec::with_capacity(alloc, EVENTS)?,
            watched: None,
            patience: None,
            faults: 0,
        })
    }

    fn count_fault(&mut self) -> Failed
        ensures found { self.new.found ≡ self.old.found }
        ensures watched { self.new.watched ≡ self.old.watched }
        ensures patience { self.new.patience ≡ self.old.patience }
        ensures later { self.old.faults ≤ self.new.faults }
        ensures rose { Rose self.old.faults self.new.faults }
    {
        self.faults = self.faults.saturating_add(1);
        Failed
    }

    /// Watches an acceptor too, and does nothing else to it.
    ///
    /// # Errors
    /// `Failed`, only where the count of faults rose: the system refuses.
    pub fn watch_acceptor(&mut self, acceptor: &mut PolledTcpAcceptor) -> Result<(), Failed>
        ensures acceptor { acceptor.new ≡ acceptor.old }
        ensures found { self.new.found ≡ self.old.found }
        ensures later { self.old.faults ≤ self.new.faults }
        ensures cause { OnErr result (Rose self.old.faults self.new.faults) }
    {
        match acceptor.register(self.poll.registry(), token_of(Ready::Peer)) {
            Ok(()) => Ok(()),
            Err(_) => Err(self.count_fault()),
        }
    }
}

impl Readiness<PolledTcpLink> for MioReadiness {
    ghost faults = { λ it. it.faults };

    ghost found = { λ it. it.found };

    ghost watched = { λ it. it.watched };

    ghost patience = { λ it. it.patience };

    fn watch(&mut self, link: &mut PolledTcpLink, key: usize) -> Result<(), Failed> {
        self.watched = Some(key);
        match link.register(self.poll.registry(), token_of(Ready::Link(key))) {
            Ok(()) => Ok(()),
            Err(_) => Err(self.count_fault()),
        }
    }

    /// Waits until something may be ready, or the time is up. A wait that a signal interrupts found nothing.
    ///
    /// # Errors
    /// `Failed` where the system refuses, or memory.
    fn wait(&mut self, timeout: Option<Duration>) -> Result<(), Failed> {
        self.ready.clear();
        self.patience = timeout;
        match self.poll.poll(&mut self.events, self.patience) {
            Ok(()) => match take_events(&self.events, &mut self.ready) {
                Ok(()) => Ok(()),
                Err(_) => Err(self.count_fault()),
            },
            Err(error) => match setback_of(error.kind()) {
                Setback::Again => Ok(()),
                _ => Err(self.count_fault()),
            },
        }
    }

    fn ready(&self) -> &[Ready] {
        &self.ready
    }
}
