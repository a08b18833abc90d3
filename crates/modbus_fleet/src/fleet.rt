//! Many devices, and what is ready of them.
ghost use Rattle.std.specs.Prelude.{◌≡◌, ◌↔◌, ◌≤◌, [], Some, None, IsTrue, IfOk, OnOk, OnErr, if◌then◌else◌, ◌==◌, option_copied};
ghost use Rattle.std.specs.Option.{option_map};
ghost use Rattle.std.specs.Duration.{as_nanos};
ghost use Rattle.modbus_frame.specs.Meaning.{meaning};
ghost use Rattle.modbus_link.specs.Line.{meaning_of};
ghost use Rattle.modbus_link.specs.Outside.{Rose};
ghost use Rattle.slab.specs.Slab.{get, slab_len, Updates, SameValues};
ghost use Rattle.modbus_fleet.specs.Device.{fleet_by};
ghost use Rattle.modbus_fleet.specs.Fleet.{EachGoes, PollsAt, BeginsAt, OthersStay, TakesReady, TakesInTurn, waiting, with_link, of_slave, IsDueAt, given_up, ExpiresOne};

use crate::device::Device;
use modbus_client::Protocol;
use modbus_frame::{Error, Request, Response, Slave};
use modbus_link::{Failed, PolledLink};
use modbus_ready::{Readiness, Ready};
use slab::Slab;
use std::alloc::{AllocError, Global};
use std::marker::Model;
use std::time::Duration;

/// The answer of a device's call, with the key of the device.
#[derive(Debug, PartialEq, Eq, Drop)]
pub struct Told {
    pub key: usize,
    pub answer: modbus_frame::Result<Response>,
}

/// Devices, each under a key, and a source of readiness that watches their links.
#[derive(Drop)]
pub struct Fleet<'a, P: Protocol, L, S> {
    devices: Slab<Device<'a, P, L>>,
    readiness: S,
    // how many of those were taken that the last wait found ready
    taken: usize,
    alloc: Global,
}

/// A contract sees the devices, the source of readiness, and how many were taken that it found.
impl<'a, P: Protocol, L, S> Model for Fleet<'a, P, L, S> {
    ghost use Rattle.modbus_fleet.specs.Fleet.{FleetState};

    ghost Value = { FleetState P.Ids L S };

    ghost view = { λ it. record { devices = it.devices; readiness = it.readiness; taken = it.taken } };
}

impl<'a, P: Protocol, L: PolledLink + Drop, S: Readiness<L>> Fleet<'a, P, L, S> {
    /// A fleet of no device. It keeps the allocator, and takes no memory yet.
    pub fn new(alloc: Global, readiness: S) -> Fleet<'a, P, L, S>
        ensures empty { result.devices.slots ≡ [] }
        ensures readiness { result.readiness ≡ readiness }
        ensures waiting { waiting S.found result ≡ S.found readiness }
    {
        Fleet {
            devices: Slab::new(alloc),
            readiness,
            taken: 0,
            alloc,
        }
    }

    /// How many devices there are.
    pub fn len(&self) -> usize
        ensures { result ≡ slab_len self.now.devices }
    {
        self.devices.len()
    }

    /// Whether there is none.
    pub fn is_empty(&self) -> bool
        ensures { result ≡ (slab_len self.now.devices == 0) }
    {
        self.devices.is_empty()
    }

    /// The device under a key, where there is one.
    pub fn device(&self, key: usize) -> Option<&Device<'a, P, L>>
        ensures { option_copied result ≡ get self.now.devices key }
    {
        self.devices.get(key)
    }

    /// Takes a device, and answers its key.
    ///
    /// # Errors
    /// `AllocError` where memory is refused; the device is dropped.
    pub fn add(&mut self, device: Device<'a, P, L>) -> Result<usize, AllocError>
        ensures vacant { IfOk result (λ key. get self.old.devices key ≡ None) }
        ensures added { IfOk result (λ key.
            Updates self.old.devices self.new.devices key (Some device.entry)) }
        ensures stays { OnErr result (SameValues self.old.devices self.new.devices) }
        ensures rest { self.new ≡ record self.old { devices = self.new.devices } }
    {
        if self.devices.reserve(1).is_err() {
            return Err(AllocError);
        }
        Ok(self.devices.insert_reserved(device))
    }

    /// Takes the device under a key out, with its link and its call; `None` where there is none. The key is free from then on.
    pub fn remove(&mut self, key: usize) -> Option<Device<'a, P, L>>
        ensures device { result ≡ get self.old.devices key }
        ensures removed { Updates self.old.devices self.new.devices key None }
        ensures rest { self.new ≡ record self.old { devices = self.new.devices } }
    {
        self.devices.try_remove(key)
    }

    /// Has the next requests of the device under a key go to this slave or unit, as several share its link; nothing where there is no device.
    pub fn set_slave(&mut self, key: usize, slave: Slave)
        ensures device { get self.new.devices key ≡ of_slave slave.0 (get self.old.devices key) }
        ensures others { OthersStay key self.old.devices self.new.devices }
        ensures rest { self.new ≡ record self.old { devices = self.new.devices } }
    {
        if let Some(device) = self.devices.get_mut(key) {
            device.set_slave(slave);
        }
    }

    /// Gives the device under a key a new link, which is watched under that key from then on. A link that it had is dropped, with its call.
    /// Where no device is, the link is dropped.
    ///
    /// # Errors
    /// `Failed`, only where the count of faults of the source of readiness rose: the link can't be watched, and is dropped.
    pub fn connect(&mut self, key: usize, mut link: L) -> Result<(), Failed>
        ensures connects { OnOk result (get self.new.devices key
            ≡ with_link link (get self.old.devices key)) }
        ensures others { OthersStay key self.old.devices self.new.devices }
        ensures stays { OnErr result (SameValues self.old.devices self.new.devices) }
        ensures waiting { waiting S.found self.new ≡ waiting S.found self.old }
        ensures watched { OnOk result (S.watched self.new.readiness ≡ Some key) }
        ensures later { S.faults self.old.readiness ≤ S.faults self.new.readiness }
        ensures cause { OnErr result (Rose (S.faults self.old.readiness)
            (S.faults self.new.readiness)) }
    {
        match self.readiness.watch(&mut link, key) {
            Err(failed) => Err(failed),
            Ok(()) => {
                if let Some(device) = self.devices.get_mut(key) {
                    device.connect(link);
                }
                Ok(())
            }
        }
    }

    /// Begins a call of the device under a key, as `Device::begin` does; nothing is sent yet, which the next `poll` of it does. `None` where
    /// there is no device, or its link is not idle.
    ///
    /// # Errors
    /// Those of a call that is opened: the link stays idle.
    pub fn ask(&mut self, key: usize, request: Request<'a>, now: u64) -> Option<Result<(), Error>>
        ensures begins { BeginsAt P.protocol P.heading (meaning request.entry) now
            (get self.old.devices key) result (get self.new.devices key) }
        ensures others { OthersStay key self.old.devices self.new.devices }
        ensures rest { self.new ≡ record self.old { devices = self.new.devices } }
    {
        match self.devices.get_mut(key) {
            Some(device) => device.begin(self.alloc, request, now),
            None => None,
        }
    }

    /// Begins a call of the device under a key to this slave or unit, as several share its link; the calls behind it go there too. `None` where
    /// there is no device, or its link is not idle.
    ///
    /// # Errors
    /// Those of a call that is opened: the link stays idle.
    pub fn ask_of(
        &mut self,
        key: usize,
        slave: Slave,
        request: Request<'a>,
        now: u64,
    ) -> Option<Result<(), Error>>
        ensures begins { BeginsAt P.protocol P.heading (meaning request.entry) now
            (of_slave slave.0 (get self.old.devices key)) result (get self.new.devices key) }
        ensures others { OthersStay key self.old.devices self.new.devices }
        ensures rest { self.new ≡ record self.old { devices = self.new.devices } }
    {
        self.set_slave(key, slave);
        self.ask(key, request, now)
    }

    /// Polls the device under a key, as `Device::poll` does; its answer, where it has one.
    pub fn poll(&mut self, key: usize) -> Option<modbus_frame::Result<Response>>
        ensures polls { PollsAt
            (fleet_by P.protocol (meaning_of L.input L.output L.line) L.not_ready)
            (get self.old.devices key) result (get self.new.devices key) }
        ensures others { OthersStay key self.old.devices self.new.devices }
        ensures rest { self.new ≡ record self.old { devices = self.new.devices } }
    {
        let Some(device) = self.devices.get_mut(key) else {
            return None;
        };
        device.poll()
    }

    /// Waits until something may be ready, or the time is up; `None` for any time.
    ///
    /// # Errors
    /// `Failed`, only where the count of faults of the source of readiness rose; then nothing was found.
    pub fn wait(&mut self, timeout: Option<Duration>) -> Result<(), Failed>
        ensures devices { self.new.devices ≡ self.old.devices }
        ensures found { waiting S.found self.new ≡ S.found self.new.readiness }
        ensures nothing { OnErr result (waiting S.found self.new ≡ []) }
        ensures patience { S.patience self.new.readiness ≡ option_map as_nanos timeout }
        ensures later { S.faults self.old.readiness ≤ S.faults self.new.readiness }
        ensures cause { OnErr result (Rose (S.faults self.old.readiness)
            (S.faults self.new.readiness)) }
    {
        self.taken = 0;
        self.readiness.wait(timeout)
    }

    // Polls the device that this tells of, where it tells of one.
    fn take_ready(&mut self, ready: Ready) -> Option<Told>
        ensures takes { TakesReady
            (fleet_by P.protocol (meaning_of L.input L.output L.line) L.not_ready)
            ready self.old.devices result self.new.devices }
        ensures each { EachGoes
            (fleet_by P.protocol (meaning_of L.input L.output L.line) L.not_ready)
            self.old.devices result self.new.devices }
        ensures rest { self.new ≡ record self.old { devices = self.new.devices } }
    {
        match ready {
            Ready::Link(key) => match self.poll(key) {
                Some(answer) => Some(Told { key, answer }),
                None => None,
            },
            Ready::Peer => None,
        }
    }

    /// Polls the devices that the last wait found ready, in the order in which it tells of them, until one answers, which is told with its
    /// key; the next call goes on from there. `None` once each was polled.
    ///
    /// Whatever the source of readiness tells: each device goes on by polls of its own call over its own link, and what is told with its
    /// key is what that call answered.
    pub fn next_answer(&mut self) -> Option<Told>
        ensures takes { TakesInTurn
            (fleet_by P.protocol (meaning_of L.input L.output L.line) L.not_ready)
            self.old.devices (waiting S.found self.old) result (waiting S.found self.new)
            self.new.devices }
        ensures each { EachGoes
            (fleet_by P.protocol (meaning_of L.input L.output L.line) L.not_ready)
            self.old.devices result self.new.devices }
        ensures readiness { self.new.readiness ≡ self.old.readiness }
    {
        'ready: for index in self.taken..self.readiness.ready().len() {
            self.taken = index.saturating_add(1);
            let ready = self.readiness.ready()[index];
            match self.take_ready(ready) {
                Some(told) => return Some(told),
                None => {}
            }
        }
        None
    }

    /// Gives up the call of the device under a key, where its time is over at `now`, with its link; whether it was.
    pub fn expire_at(&mut self, key: usize, now: u64) -> bool
        ensures due { IsTrue result ↔ IsDueAt now (get self.old.devices key) }
        ensures gives_up { get self.new.devices key
            ≡ (if result then given_up (get self.old.devices key) else get self.old.devices key) }
        ensures others { OthersStay key self.old.devices self.new.devices }
        ensures rest { self.new ≡ record self.old { devices = self.new.devices } }
    {
        match self.devices.get_mut(key) {
            Some(device) => device.expire(now),
            None => false,
        }
    }

    /// Gives up the call of one device whose time is over at `now`, which is told by its key; its link is dropped. `None` where no device has
    /// such a call.
    pub fn expire(&mut self, now: u64) -> Option<usize>
        ensures expires { ExpiresOne now self.old.devices result self.new.devices }
        ensures rest { self.new ≡ record self.old { devices = self.new.devices } }
    {
        'keys: for key in 0..self.devices.capacity() {
            if self.expire_at(key, now) {
                return Some(key);
            }
        }
        None
    }
}
