//! A service that counts how often it was asked.
ghost use Rattle.std.specs.Prelude.{◌≡◌};
ghost use Rattle.modbus_hub.specs.Counted.{counted};

use modbus_frame::{Response, SlaveRequest};
use modbus_service::{Answerer, ServiceError};
use std::alloc::Global;
use std::marker::Model;

/// A service that many connections share, with a count of how often it was asked. By that count a turn tells whether it completed a message:
/// each message that a connection takes is asked once.
#[derive(Drop)]
pub struct Counted<V> {
    /// What answers.
    pub service: V,
    asked: u64,
}

/// A contract sees the service, and how often it was asked.
impl<V> Model for Counted<V> {
    ghost use Rattle.modbus_hub.specs.Counted.{CountedState};

    ghost Value = { CountedState V };

    ghost view = { λ it. record { service = it.service; asked = it.asked } };
}

impl<V> Counted<V> {
    /// A service that was not asked yet.
    pub fn new(service: V) -> Counted<V>
        ensures service { result.service ≡ service }
        ensures asked { result.asked ≡ 0 }
    {
        Counted { service, asked: 0 }
    }

    /// How often it was asked. The count stands still at the end of its type.
    pub fn asked(&self) -> u64
        ensures { result ≡ self.now.asked }
    {
        self.asked
    }
}

impl<V: Answerer> Answerer for Counted<V> {
    ghost answering = { counted V.answering };

    #[inline(always)]
    fn ask(
        &mut self,
        alloc: Global,
        request: SlaveRequest<'_>,
    ) -> Result<Option<Response>, ServiceError> {
        self.asked = self.asked.saturating_add(1);
        self.service.ask(alloc, request)
    }
}
