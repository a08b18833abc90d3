//! Serving a port on one thread.

use crate::teller::Teller;
use crate::words::{Mode, Task};
use mio::net::TcpListener;
use modbus_field::standard::StandardAnswers;
use modbus_field::stream::StreamBuffer;
use modbus_hub::{Counted, Deadlines, EventServer, Limits, Places, TurnLimits};
use modbus_link::FlagStop;
use modbus_ready::{MioReadiness, PolledTcpAcceptor};
use modbus_rtu::Inbox;
use modbus_server::{Answerer, Framing};
use modbus_store::{RegisterStore, Sizes, StoreError};
use std::alloc::{AllocGlobal, Global};
use std::net::Net;
use std::sync::Wait;
use std::time::{Clock, Duration};

/// How many entries each table has.
const ENTRIES: u32 = 1024;

/// What a connection may take before another has its turn. One read may give a score of messages.
const TURN: TurnLimits = TurnLimits {
    reads: 16,
    messages: 16,
};

/// The device that all connections share.
fn open_store(alloc: Global, broadcast: bool) -> Result<RegisterStore, StoreError> {
    let sizes = Sizes {
        coils: ENTRIES,
        discrete_inputs: ENTRIES,
        holding_registers: ENTRIES,
        input_registers: ENTRIES,
    };
    RegisterStore::new(alloc, sizes, broadcast)
}

/// Serves a listener by a device as the task wants until the system refuses something, and says what.
fn serve_listener<I: Framing, V: Answerer + Drop, R: Net + AllocGlobal + Wait + Clock>(
    rt: &R,
    listener: TcpListener,
    task: Task,
    device: V,
    teller: &mut Teller<'_>,
) -> &'static str {
    let Ok(mut signal) = FlagStop::new(rt.alloc()) else {
        return "no memory";
    };
    let Ok(mut readiness) = MioReadiness::new(rt) else {
        return "epoll fault";
    };
    let mut acceptor = PolledTcpAcceptor::new(listener);
    if readiness.watch_acceptor(&mut acceptor).is_err() {
        return "epoll fault";
    }
    let places = Places {
        connections: task.connections,
        per_peer: task.per_peer,
    };
    let limits = Limits { places, turn: TURN };
    let mut server: EventServer<I, _, _> = EventServer::new(
        rt.alloc(),
        acceptor,
        readiness,
        limits,
    );
    let deadlines = Deadlines {
        idle: Some(Duration::from_secs(task.idle)),
        message: Some(Duration::from_secs(task.message)),
    };
    let mut device = Counted::new(device);
    match server.serve_until(rt, &mut device, deadlines, teller, &mut signal) {
        Ok(_) => "stopped",
        Err(_) => "epoll fault",
    }
}

/// Serves a listener as the task wants until the system refuses something, and says what.
pub fn serve<R: Net + AllocGlobal + Wait + Clock>(
    rt: &R,
    task: Task,
    listener: TcpListener,
    teller: &mut Teller<'_>,
) -> &'static str {
    let Ok(store) = open_store(rt.alloc(), task.mode == Mode::Rtu) else {
        return "no memory";
    };
    match task.mode {
        Mode::Tcp => {
            let device = StandardAnswers { service: store };
            serve_listener::<StreamBuffer, _, R>(rt, listener, task, device, teller)
        }
        Mode::Rtu => serve_listener::<Inbox, _, R>(rt, listener, task, store, teller),
    }
}
