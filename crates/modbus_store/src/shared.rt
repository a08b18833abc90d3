//! One caller's service over a shared store.
ghost use Rattle.std.specs.Prelude.{◌≡◌, length};
ghost use Rattle.modbus_store.specs.Passes.{IsPassOf};

use crate::pass::StorePass;
use crate::table::StoreTable;
use modbus_frame::{Response, SlaveRequest};
use modbus_service::{Service, ServiceError};
use std::alloc::Global;
use std::marker::Model;
use std::sync::Wait;

/// A service that answers by calls of a shared store, with the handle and the pass that it keeps. It may be sent to another thread.
#[derive(Drop)]
pub struct SharedStore<'t, R> {
    rt: &'t R,
    table: &'t StoreTable,
    pass: StorePass,
}

/// A contract sees the pass.
impl<'t, R> Model for SharedStore<'t, R> {
    ghost use Rattle.modbus_store.specs.Passes.{Pass, IsPassOf};

    ghost Value = { Pass };

    ghost view = { λ s. s.pass };

    ghost invariant = { λ s. IsPassOf s.table.now s.pass };
}

impl<'t, R> SharedStore<'t, R> {
    /// A service that calls the shared store with this pass.
    pub fn new(rt: &'t R, table: &'t StoreTable, pass: StorePass) -> SharedStore<'t, R>
        requires { IsPassOf table.now pass }
        ensures { result ≡ pass }
    {
        SharedStore { rt, table, pass }
    }

    /// The pass, with all that it has seen.
    pub fn into_pass(self) -> StorePass
        ensures { result ≡ self.entry }
    {
        self.pass
    }

    /// How many calls its pass has seen.
    pub fn seen(&self) -> u64
        ensures { result ≡ length self.now.seen }
    {
        self.pass.seen()
    }
}

impl<'t, R: Wait> Service for SharedStore<'t, R> {
    ghost use Rattle.modbus_store.specs.Passes.{CallsAsPass, MayWant};

    ghost answers = { CallsAsPass };

    ghost takes_memory = { MayWant };

    fn call(
        &mut self,
        alloc: Global,
        request: SlaveRequest<'_>,
    ) -> Result<Option<Response>, ServiceError> {
        self.table.call(self.rt, alloc, &mut self.pass, request)
    }
}
