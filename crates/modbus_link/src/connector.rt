//! What makes links to addresses.
ghost use Rattle.std.specs.Prelude.{◌≡◌, ℕ, ◌≤◌, Option, Result, OnErr};
ghost use Rattle.std.specs.declared.net.SocketAddr.{SocketAddr};
ghost use Rattle.std.specs.declared.time.Duration.{Duration};
ghost use Rattle.modbus_link.specs.declared.outside.Failed.{Failed};
ghost use Rattle.modbus_link.specs.Outside.{Rose};
ghost use Rattle.modbus_link.specs.Connects.{ConnectsOnce};

use crate::outside::Failed;
use std::marker::Model;
use std::net::SocketAddr;
use std::time::Duration;

/// What makes a link to an address.
pub trait Connector {
    /// What it makes.
    type Link;

    // how often it failed
    ghost faults: { Self → ℕ };

    // what a connection may lead to, by the state before, what was asked, the answer and the state after; an implementation says it,
    // and by default nothing is said
    ghost connects: { Self → SocketAddr → Option Duration → Result Self.Link Failed → Self → Type 0 } = { λ _ _ _ _ _. Unit {0} };

    /// Makes a link to an address, within `timeout`; `None` for any time.
    ///
    /// # Errors
    /// `Failed`, only where the connector's count of faults rose.
    fn connect(&mut self, addr: SocketAddr, timeout: Option<Duration>) -> Result<Self::Link, Failed>
        ensures later { faults self.old ≤ faults self.new }
        ensures connects { connects self.old addr timeout result self.new }
        ensures cause { OnErr result (Rose (faults self.old) (faults self.new)) };
}

impl<T: Connector> Connector for &mut T {
    type Link = T::Link;

    ghost faults = { λ it. T.faults it.now };

    ghost connects = { λ old addr timeout result new. T.connects old.now addr timeout result new.now };

    fn connect(&mut self, addr: SocketAddr, timeout: Option<Duration>) -> Result<T::Link, Failed> {
        (**self).connect(addr, timeout)
    }
}

/// A connector that was handed the link that it gives, for tests and for programs over links that they hold.
#[derive(Drop)]
pub struct MemoryConnector<L> {
    link: Option<L>,
    faults: u64,
}

impl<L> Model for MemoryConnector<L> {
    ghost use Rattle.modbus_link.specs.Connects.{ConnectorState};

    ghost Value = { ConnectorState L };

    ghost view = { λ connector. record { link = connector.link; faults = connector.faults } };
}

impl<L> MemoryConnector<L> {
    /// A connector that gives `link` once, and fails from then on.
    pub fn new(link: Option<L>) -> MemoryConnector<L>
        ensures { result ≡ record { link = link; faults = 0 } }
    {
        MemoryConnector { link, faults: 0 }
    }
}

impl<L> Connector for MemoryConnector<L> {
    type Link = L;

    ghost faults = { λ connector. connector.faults };

    ghost connects = { λ old addr timeout result new. ConnectsOnce old result new };

    /// Gives its link, to whatever address and with whatever timeout.
    ///
    /// # Errors
    /// `Failed`, exactly where it has no link, or has none left.
    fn connect(&mut self, _addr: SocketAddr, _timeout: Option<Duration>) -> Result<L, Failed> {
        if let Some(link) = self.link.take() {
            return Ok(link);
        }
        self.faults = self.faults.saturating_add(1);
        Err(Failed)
    }
}
