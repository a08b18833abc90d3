//! A connector that keeps a pause after a connection that failed.
//!
//! A client that may try again does so at once. A device that refuses connections, or that starts anew, is asked as fast as the network
//! goes then.
ghost use Rattle.std.specs.Prelude.{◌≡◌};
ghost use Rattle.std.specs.Duration.{as_nanos};
ghost use Rattle.modbus_adapter.specs.Moments.{ReadsClock};
ghost use Rattle.modbus_adapter.specs.Paced.{pause_left};
ghost use Rattle.modbus_adapter.specs.Paused.{paused_at_start, KeepsFailure, ConnectsPaused};

use crate::moment::{Moment, Watch};
use crate::nap::Nap;
use crate::paced::left_of;
use modbus_link::{Connector, Failed};
use std::marker::Model;
use std::net::SocketAddr;
use std::time::{Clock, Duration};

/// A connector over another one. A connection that follows a failed one first sleeps what is left of a pause since that failed.
///
/// What is left is told by the clock, and all of it where that can't be read.
#[derive(Drop)]
pub struct PausedConnector<'c, C, K> {
    watch: Watch<'c, C>,
    connector: K,
    pause: Duration,
    failed: Option<Moment>,
    asked: Moment,
    slept: Nap,
}

/// A contract sees the connector that it stands on, the pause, when the last connection failed, and what was slept.
impl<'c, C, K> Model for PausedConnector<'c, C, K> {
    ghost use Rattle.modbus_adapter.specs.Paused.{PausedState};

    ghost Value = { PausedState K };

    ghost view = { λ it. record { connector = it.connector; pause = it.pause; failed = it.failed; asked = it.asked; readings = it.watch; slept = it.slept } };
}

/// When a connection failed, if it did.
fn when_failed<C: Clock, L>(watch: &mut Watch<'_, C>, given: &Result<L, Failed>) -> Option<Moment>
    ensures { KeepsFailure given.now watch.old watch.new result }
{
    match given {
        Ok(_) => None,
        Err(_) => Some(watch.read()),
    }
}

impl<'c, C: Clock, K> PausedConnector<'c, C, K> {
    /// A connector over this one, with this pause by this clock.
    pub fn new(clock: &'c C, connector: K, pause: Duration) -> PausedConnector<'c, C, K>
        ensures { result ≡ paused_at_start connector pause }
    {
        PausedConnector {
            watch: Watch::new(clock),
            connector,
            pause,
            failed: None,
            asked: Moment::none(),
            slept: Nap::none(),
        }
    }

    /// The connector that it stands on.
    pub fn connector(&self) -> &K
        ensures { result.now ≡ self.now.connector }
    {
        &self.connector
    }

    /// Sleeps what is left of the pause.
    fn keep_pause(&mut self)
        ensures slept { self.new.slept ≡ pause_left (as_nanos self.old.pause) self.old.failed
            self.new.asked }
        ensures reads_clock { ReadsClock self.old.readings self.new.readings self.new.asked }
        ensures rest { self.new ≡ record self.old {
          asked = self.new.asked;
          readings = self.new.readings;
          slept = self.new.slept;
        } }
    {
        self.asked = self.watch.read();
        let left = left_of(self.pause, &self.failed, &self.asked);
        self.slept = Nap::take(self.watch.clock(), left);
    }
}

impl<'c, C: Clock, K: Connector> Connector for PausedConnector<'c, C, K> {
    type Link = K::Link;

    ghost faults = { λ it. K.faults it.connector };

    ghost connects = { ConnectsPaused K.connects };

    /// Connects as the connector does that it stands on, once what is left of the pause was slept. `timeout` does not bound the sleep.
    ///
    /// # Errors
    /// `Failed` where that failed.
    fn connect(&mut self, addr: SocketAddr, timeout: Option<Duration>) -> Result<K::Link, Failed> {
        self.keep_pause();
        let given = self.connector.connect(addr, timeout);
        self.failed = when_failed(&mut self.watch, &given);
        given
    }
}
