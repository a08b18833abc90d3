//! Listeners and the workers of connections, over memory and over TCP, on the caller and in threads of a scope.
//!
//! A function that calls much is lent what it works on: the check of one that owns it takes far longer.

use crate::check::check;
use crate::links::{ONE, Pair, READ_ADU, READ_ONE, REPLY_ADU, accepting, link_of, pair_of};
use modbus_frame::{ExceptionCode, Response, SlaveRequest, Words};
use modbus_link::{
    Acceptor, Failed, MemoryAcceptor, MemoryLink, MemoryStop, Spawner, TcpAcceptor, TcpLink, Worker,
};
use modbus_server::{
    ProcessError, ServeError, Service, ServiceError, Terminated, rtu_over_tcp, serve_in_scope, tcp,
};
use std::alloc::{AllocError, Global};
use std::io::{Read, Result as IoResult, Write};
use std::net::{Net, SocketAddr, TcpListener, TcpStream};
use std::sync::Wait;
use std::sync::atomic::{AtomicU64, Ordering};
use std::test::Fail;
use std::thread::{self, Scope, Threads};
use std::time::Duration;

/// A header that tells a length of 0.
const NO_LENGTH: [u8; 7] = [0x00, 0x01, 0x00, 0x00, 0x00, 0x00, 0xFF];

fn zero_in_reply(alloc: Global) -> Result<Option<Response>, ServiceError> {
    match Vec::from_slice(alloc, &[0]) {
        Err(_) => Err(ServiceError::NoMemory),
        Ok(words) => Ok(Some(Response::ReadHoldingRegisters(Words::new(words)))),
    }
}

/// Answers each request with one register that is 0.
#[derive(Clone, Copy)]
struct Zero;

impl Service for Zero {
    ghost answers = { λ old slave request outcome new. Unit {0} };

    ghost takes_memory = { λ it slave request. Unit {0} };

    fn call(
        &mut self,
        alloc: Global,
        _request: SlaveRequest<'_>,
    ) -> Result<Option<Response>, ServiceError> {
        zero_in_reply(alloc)
    }
}

/// Takes a connection from anywhere.
fn take<L>(link: L, _address: SocketAddr) -> Result<Option<(Zero, L)>, u8> {
    Ok(Some((Zero, link)))
}

/// Tells nobody of the error of a connection.
fn ignore(_error: ProcessError) {}

/// How often a worker that is run tells its hook this error; another one counts a hundred times.
fn count_told(alloc: Global, link: &mut MemoryLink, error: ProcessError) -> u64 {
    let told = AtomicU64::new(0);
    let count = &told;
    let hook = |found: ProcessError| {
        count.fetch_add(if found == error { 1 } else { 100 }, Ordering::SeqCst);
    };
    tcp::ConnectionWorker::new(alloc, link, Zero, hook, MemoryStop::new(u64::MAX)).run();
    told.load(Ordering::SeqCst)
}

/// That count, and what was written to the link.
fn told(
    alloc: Global,
    input: &[u8],
    failing_reads: &[u64],
    error: ProcessError,
) -> Result<(u64, usize), AllocError> {
    let mut link = link_of(alloc, input, failing_reads)?;
    let count = count_told(alloc, &mut link, error);
    Ok((count, link.sink().bytes().len()))
}

/// A worker that is run serves its link once, and tells its hook the very error of that, once.
#[test]
fn a_worker_tells_its_error_once(rt: HostRuntime) -> Result<(), Fail> {
    let alloc = rt.alloc();
    check(
        &rt,
        told(alloc, &READ_ADU, &[0], ProcessError::ReadFault)?,
        (1, 0),
    );
    check(
        &rt,
        told(alloc, &NO_LENGTH, &[], ProcessError::InvalidLength)?,
        (1, 0),
    );
    Ok(())
}

/// A spawner that keeps its workers to be run later, and has room for so many.
#[derive(Drop)]
struct Later<W> {
    workers: Vec<W>,
    room: usize,
    started: u64,
    faults: u64,
}

impl<W: Worker + Drop> Spawner<W> for Later<W> {
    ghost faults = { λ it. it.faults };

    ghost started = { λ it. it.started };

    fn start(&mut self, worker: W) -> Result<(), Failed> {
        if self.workers.len() < self.room {
            if let Ok(()) = self.workers.push(worker) {
                self.started = self.started.saturating_add(1);
                return Ok(());
            }
        }
        self.faults = self.faults.saturating_add(1);
        Err(Failed)
    }
}

impl<W: Worker + Drop> Later<W> {
    fn new(alloc: Global, room: usize) -> Later<W> {
        Later {
            workers: Vec::new(alloc),
            room,
            started: 0,
            faults: 0,
        }
    }
}

/// How a listener ended whose workers run after it.
fn serve_late<R: Wait>(
    rt: &R,
    alloc: Global,
    acceptor: MemoryAcceptor<&mut MemoryLink>,
    room: usize,
    looks: u64,
) -> Result<Terminated, ServeError<u8>> {
    let mut later = Later::new(alloc, room);
    let answer = rtu_over_tcp::Server::new(acceptor).serve_until(
        rt,
        alloc,
        &mut take,
        ignore,
        &mut later,
        &mut MemoryStop::new(looks),
    );
    for worker in later.workers {
        worker.run();
    }
    answer
}

/// How a listener over two links ended whose workers run after it, and what these read then.
fn served_late<R: Wait>(
    rt: &R,
    alloc: Global,
    links: &mut Pair,
    room: usize,
    looks: u64,
) -> Result<(Result<Terminated, ServeError<u8>>, usize, usize), AllocError> {
    let acceptor = accepting(alloc, &mut *links)?;
    let answer = serve_late(rt, alloc, acceptor, room, looks);
    Ok((
        answer,
        links.near.source().given(),
        links.far.source().given(),
    ))
}

/// The same over links of its own.
fn ended_late<R: Wait>(
    rt: &R,
    alloc: Global,
    room: usize,
    looks: u64,
) -> Result<(Result<Terminated, ServeError<u8>>, usize, usize), AllocError> {
    served_late(
        rt,
        alloc,
        &mut pair_of(alloc, &READ_ONE, &READ_ONE)?,
        room,
        looks,
    )
}

/// A listener raises the flag of its workers however it ends: one that runs after it serves nothing.
#[test]
fn a_worker_that_runs_late_finds_its_flag_raised(rt: HostRuntime) -> Result<(), Fail> {
    let alloc = rt.alloc();
    check(
        &rt,
        ended_late(&rt, alloc, 1, 9)?,
        (Err(ServeError::SpawnFault), 0, 0),
    );
    check(
        &rt,
        ended_late(&rt, alloc, 2, 9)?,
        (Err(ServeError::AcceptFault), 0, 0),
    );
    check(
        &rt,
        ended_late(&rt, alloc, 2, 1)?,
        (Ok(Terminated::Aborted), 0, 0),
    );
    Ok(())
}

/// How often a wait looks before it gives up.
const LOOKS: u64 = 200_000_000;

/// Whether both connections have asked, within so many looks.
fn is_met(asked: &AtomicU64) -> bool {
    for _ in 0..LOOKS {
        if asked.load(Ordering::SeqCst) == 2 {
            return true;
        }
    }
    false
}

/// Answers a request with one register that is 0, once both connections have asked.
#[derive(Clone, Copy)]
struct Meeting<'c> {
    asked: &'c AtomicU64,
}

impl<'c> Service for Meeting<'c> {
    ghost answers = { λ old slave request outcome new. Unit {0} };

    ghost takes_memory = { λ it slave request. Unit {0} };

    fn call(
        &mut self,
        alloc: Global,
        _request: SlaveRequest<'_>,
    ) -> Result<Option<Response>, ServiceError> {
        self.asked.fetch_add(1, Ordering::SeqCst);
        if !is_met(self.asked) {
            return Err(ServiceError::Exception(ExceptionCode::ServerDeviceFailure));
        }
        zero_in_reply(alloc)
    }
}

/// An acceptor that fails only once both connections have asked, or were waited for long. What was asked is answered, also after that.
#[derive(Drop)]
struct Patient<'c, A> {
    acceptor: A,
    asked: &'c AtomicU64,
}

impl<'c, A: Acceptor> Acceptor for Patient<'c, A> {
    type Link = A::Link;

    ghost faults = { λ it. A.faults it.acceptor };

    ghost given = { λ it. A.given it.acceptor };

    fn accept(&mut self) -> Result<(A::Link, SocketAddr), Failed> {
        let accepted = self.acceptor.accept();
        if accepted.is_err() {
            let _ = is_met(self.asked);
        }
        accepted
    }
}

/// A patient acceptor of two links.
fn accepting_patiently<'l>(
    alloc: Global,
    links: &'l mut Pair,
    asked: &'l AtomicU64,
) -> Result<Patient<'l, MemoryAcceptor<&'l mut MemoryLink>>, AllocError> {
    let acceptor = accepting(alloc, links)?;
    Ok(Patient { acceptor, asked })
}

/// The answer of a listener over two links, each with a thread, of which each waits for the other one's request.
fn served_at_once<R: Threads + Wait>(
    rt: &R,
    alloc: Global,
    links: &mut Pair,
) -> Result<Result<(), ServeError<u8>>, AllocError> {
    let count = AtomicU64::new(0);
    let asked = &count;
    let acceptor = accepting_patiently(alloc, links, asked)?;
    Ok(thread::scope(
        thread::scope_env(),
        rt,
        move |scope| -> Result<(), ServeError<u8>> {
            serve_in_scope(
                rt,
                alloc,
                &mut rtu_over_tcp::Server::new(acceptor),
                &mut |link, _address| -> Result<Option<(Meeting<'_>, _)>, u8> {
                    Ok(Some((Meeting { asked }, link)))
                },
                ignore,
                scope,
            )
        },
    ))
}

/// Whether a link was sent the register.
fn is_sent(link: &MemoryLink) -> bool {
    link.sink().bytes() == ONE.as_slice()
}

/// That answer, and whether each link was sent the register.
fn served_both<R: Threads + Wait>(
    rt: &R,
    alloc: Global,
    links: &mut Pair,
) -> Result<(Result<(), ServeError<u8>>, bool, bool), AllocError> {
    let answer = served_at_once(rt, alloc, &mut *links)?;
    Ok((answer, is_sent(&links.near), is_sent(&links.far)))
}

/// The same over links of its own.
fn served_both_at_once<R: Threads + Wait>(
    rt: &R,
    alloc: Global,
) -> Result<(Result<(), ServeError<u8>>, bool, bool), AllocError> {
    served_both(rt, alloc, &mut pair_of(alloc, &READ_ONE, &READ_ONE)?)
}

#[test]
fn two_connections_at_once(rt: HostRuntime) -> Result<(), Fail> {
    check(
        &rt,
        served_both_at_once(&rt, rt.alloc())?,
        (Err(ServeError::AcceptFault), true, true),
    );
    Ok(())
}

/// Asks for one register over this connection, and gives the reply.
fn exchange(stream: &mut TcpStream) -> IoResult<[u8; 11]> {
    stream.set_read_timeout(Some(Duration::from_secs(9)))?;
    stream.write_all(&READ_ADU)?;
    let mut reply = [0u8; 11];
    stream.read_exact(&mut reply)?;
    Ok(reply)
}

/// Asks over a connection of its own. A second connection ends the server.
fn ask<R: Net<Stream = TcpStream>>(rt: &R, address: SocketAddr) -> IoResult<[u8; 11]> {
    let mut stream = TcpStream::connect(rt, address)?;
    let reply = exchange(&mut stream);
    let _end = TcpStream::connect(rt, address)?;
    reply
}

/// Serves the first connection in a thread of the scope, until there is a second one.
fn serve_first<'s, R: Wait, Env>(
    rt: &R,
    alloc: Global,
    listener: TcpListener,
    scope: &Scope<'s, Env>,
) {
    let mut is_served = false;
    let _answer = serve_in_scope(
        rt,
        alloc,
        &mut tcp::Server::new(TcpAcceptor::new(listener)),
        &mut |link, _address| -> Result<Option<(Zero, TcpLink)>, u8> {
            if is_served {
                return Err(7);
            }
            is_served = true;
            Ok(Some((Zero, link)))
        },
        ignore,
        scope,
    );
}

#[test]
fn a_connection_over_tcp_has_a_thread(rt: HostRuntime) -> Result<(), Fail> {
    let alloc = rt.alloc();
    let listener = TcpListener::bind(&rt, "127.0.0.1:0")?;
    let address = listener.local_addr()?;
    let handle = &rt;
    let reply = thread::scope(
        thread::scope_env(),
        handle,
        move |scope| -> IoResult<[u8; 11]> {
            let client = scope.spawn(move || ask(handle, address))?;
            serve_first(handle, alloc, listener, scope);
            client.join(handle)
        },
    )?;
    check(&rt, reply, REPLY_ADU);
    Ok(())
}
