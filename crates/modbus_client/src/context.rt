//! A client behind a box, for programs that choose its type as they run.
ghost use Rattle.std.specs.Prelude.{◌≡◌};
ghost use Rattle.modbus_client.specs.Boxed.{box_of, Becomes};

use crate::client::Client;
use modbus_frame::{Request, Response, Result, ShutdownFault, Slave, SlaveContext};
use std::time::Duration;

/// A client of any type, in a box. Each of its calls is that of the client in the box.
#[derive(Drop)]
pub struct Context {
    client: Box<dyn Client>,
}

impl Context {
    /// Lets each read and write take any time from then on: `set_timeout` with `None`.
    pub fn reset_timeout(&mut self)
        ensures keeps { ⟦<Context as Client>⟧.time_limit self.new ≡ None }
        ensures limits { ⟦<Context as Client>⟧.limits self.old None self.new }
    {
        self.set_timeout(None);
    }
}

impl From<Box<dyn Client>> for Context {
    ghost from_gives = { λ client context. box_of context ≡ client };

    fn from(client: Box<dyn Client>) -> Context {
        Context { client }
    }
}

impl From<Context> for Box<dyn Client> {
    ghost from_gives = { λ context client. client ≡ box_of context };

    fn from(context: Context) -> Box<dyn Client> {
        context.client
    }
}

impl SlaveContext for Context {
    ghost selected = { λ context. (Client-box (box_of context)).SlaveContext.selected (box_of context).value };

    ghost set_slave_gives = { λ old slave new. Becomes old (λ state. (Client-box (box_of old)).SlaveContext.set_slave_gives (box_of old).value slave state) new };

    fn set_slave(&mut self, slave: Slave) {
        self.client.as_mut().set_slave(slave);
    }
}

impl Client for Context {
    ghost answers = { λ old asked answer new. Becomes old (λ state. (Client-box (box_of old)).Client.answers (box_of old).value asked answer state) new };

    ghost disconnects = { λ old result new. Becomes old (λ state. (Client-box (box_of old)).Client.disconnects (box_of old).value result state) new };

    ghost time_limit = { λ context. (Client-box (box_of context)).Client.time_limit (box_of context).value };

    ghost limits = { λ old duration new. Becomes old (λ state. (Client-box (box_of old)).Client.limits (box_of old).value duration state) new };

    fn call(&mut self, request: Request<'_>) -> Result<Response> {
        self.client.as_mut().call(request)
    }

    fn disconnect(&mut self) -> std::result::Result<(), ShutdownFault> {
        self.client.as_mut().disconnect()
    }

    fn timeout(&self) -> Option<Duration> {
        self.client.as_ref().timeout()
    }

    fn set_timeout(&mut self, duration: Option<Duration>) {
        self.client.as_mut().set_timeout(duration);
    }
}
