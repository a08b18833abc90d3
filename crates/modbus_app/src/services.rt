//! The services of many connections over one shared store.
ghost use Rattle.std.specs.Prelude.{◌≡◌};
ghost use Rattle.modbus_store.specs.Passes.{Pass, IsPassOf};
ghost use Rattle.modbus_app.specs.Listen.{OpensPass, own_pass};
ghost use Rattle.modbus_app.specs.Status.{listener_status_of, listener_line_of};

use crate::status::{PROGRAM, listener_line, listener_status};
use modbus_port::Services;
use modbus_server::ServeError;
use modbus_store::{PassesOut, SharedStore, StorePass, StoreTable};
use std::marker::Model;
use std::sync::Wait;

/// The services over a shared store: its table, a pass of it, and the handle that calls wait under.
#[derive(Drop)]
pub struct StoreServices<'t, R> {
    rt: &'t R,
    table: &'t StoreTable,
    pass: StorePass,
}

/// A contract sees the pass.
impl<'t, R> Model for StoreServices<'t, R> {
    ghost use Rattle.modbus_store.specs.Passes.{Pass, IsPassOf};

    ghost Value = { Pass };

    ghost view = { λ s. s.pass };

    ghost invariant = { λ s. IsPassOf s.table.now s.pass };
}

impl<'t, R> StoreServices<'t, R> {
    /// The services over this shared store, by a pass of it.
    pub fn new(rt: &'t R, table: &'t StoreTable, pass: StorePass) -> StoreServices<'t, R>
        requires { IsPassOf table.now pass }
        ensures { result ≡ pass }
    {
        StoreServices { rt, table, pass }
    }

    /// The pass, which others were split off.
    pub fn into_pass(self) -> StorePass
        ensures { result ≡ self.entry }
    {
        self.pass
    }
}

/// They end with the statuses of the program.
impl<'t, R: Wait> Services for StoreServices<'t, R> {
    type Service = SharedStore<'t, R>;

    type Refusal = PassesOut;

    ghost opens = { OpensPass own_pass };

    ghost status_of = { listener_status_of };

    ghost line_of = { listener_line_of };

    /// A service for one more connection. Its pass has seen what this one has seen.
    ///
    /// # Errors
    /// `PassesOut` exactly where all 2^32 numbers of passes were drawn, as this pass then knows.
    fn open(&mut self) -> Result<SharedStore<'t, R>, PassesOut> {
        let own = self.table.split(self.rt, &mut self.pass)?;
        Ok(SharedStore::new(self.rt, self.table, own))
    }

    fn ending(error: ServeError<PassesOut>) -> (u8, &'static str)
        ensures status { result.0 ≡ listener_status_of error }
        ensures line { result.1.now ≡ listener_line_of error }
    {
        (listener_status(error), listener_line(error))
    }

    fn program() -> &'static str {
        PROGRAM
    }
}
