//! Eight passes that call a shared store at one time, each on a thread: what each is answered, and where its calls stand in the history.
ghost use Rattle.modbus_store.specs.Passes.{IsPassOf};

use crate::check::check;
use modbus_frame::{Request, Response, SlaveRequest};
use modbus_service::Service;
use modbus_store::{
    ClosedStore, Entry, History, Outcome, RegisterStore, SharedStore, Sizes, StorePass, StoreTable,
};
use std::alloc::Global;
use std::sync::Wait;
use std::sync::atomic::{AtomicU32, Ordering};
use std::thread;
use std::thread::{JoinHandle, Scope, Threads, sleep};
use std::time::{Clock, Duration};

const SIZES: Sizes = Sizes {
    coils: 1,
    discrete_inputs: 1,
    holding_registers: 9,
    input_registers: 1,
};

/// How many passes call.
const PASSES: u32 = 8;

/// How many calls each makes.
const CALLS: u16 = 50;

/// How many calls a pass has made when it waits until each of the others has made as many.
const MEETING: u16 = 10;

/// How often it looks, once a millisecond.
const LOOKS: u32 = 10_000;

/// What a pass asks by its n-th call: it writes a register of its own, and then reads it.
fn asked(register: u16, n: u16) -> Request<'static> {
    if n % 2 == 0 {
        Request::WriteSingleRegister(register, n / 2)
    } else {
        Request::ReadHoldingRegisters(register, 1)
    }
}

/// Whether that is what it is answered, where no other pass writes that register.
fn is_answer(response: &Response, register: u16, n: u16) -> bool {
    match response {
        Response::WriteSingleRegister(address, word) => {
            n % 2 == 0 && *address == register && *word == n / 2
        }
        Response::ReadHoldingRegisters(words) => n % 2 == 1
            && words.as_slice() == [n / 2].as_slice(),
        _ => false,
    }
}

#[derive(Drop)]
struct Job<'t, R> {
    service: SharedStore<'t, R>,
    register: u16,
    met: &'t AtomicU32,
}

/// Raises the count, and waits until all others have. Whether they did, within so many looks.
fn meet<R: Clock>(rt: &R, met: &AtomicU32) -> bool {
    met.fetch_add(1, Ordering::SeqCst);
    for _ in 0..LOOKS {
        if met.load(Ordering::SeqCst) >= PASSES {
            return true;
        }
        sleep(rt, Duration::from_millis(1));
    }
    false
}

/// Makes a call. Whether it was answered so.
fn is_answered<R: Wait>(
    alloc: Global,
    service: &mut SharedStore<'_, R>,
    register: u16,
    n: u16,
) -> bool {
    let request = SlaveRequest {
        slave: 1,
        request: asked(register, n),
    };
    match service.call(alloc, request) {
        Ok(Some(response)) => is_answer(&response, register, n),
        _ => false,
    }
}

/// Makes all calls of a pass, and meets the others among them. Whether each was answered so.
fn are_answered<R: Wait + Clock>(
    rt: &R,
    alloc: Global,
    service: &mut SharedStore<'_, R>,
    register: u16,
    met: &AtomicU32,
) -> bool {
    for n in 0..CALLS {
        if n == MEETING && !meet(rt, met) {
            return false;
        }
        if !is_answered(alloc, service, register, n) {
            return false;
        }
    }
    true
}

/// Makes the calls of a job. The pass comes back where each was answered so.
fn work<R: Wait + Clock>(rt: &R, alloc: Global, job: Job<'_, R>) -> Option<StorePass> {
    let Job {
        mut service,
        register,
        met,
    } = job;
    if !are_answered(rt, alloc, &mut service, register, met) {
        return None;
    }
    Some(service.into_pass())
}

/// Whether an entry is the n-th call of this pass.
fn is_call(entry: &Entry, register: u16, n: u16) -> bool {
    let is_right = match &entry.outcome {
        Outcome::Response(response) => is_answer(response, register, n),
        _ => false,
    };
    is_right && entry.slave == 1 && entry.request == asked(register, n)
}

/// How many calls of a pass stand in the history, which are its calls in their order; none where one is another.
fn calls_in_order(history: &History, number: u16) -> Option<u16> {
    let mut made = 0u16;
    for place in 0..history.len() {
        let entry = history.entry(place)?;
        if entry.seat == u32::from(number) {
            if made >= CALLS || !is_call(entry, number, made) {
                return None;
            }
            made += 1;
        }
    }
    Some(made)
}

/// Makes the calls of each job on a thread of its own. None where a thread or memory was refused.
fn start_all<'s, Env, R: Wait + Clock + Sync>(
    rt: &'s R,
    alloc: Global,
    jobs: Vec<Job<'s, R>>,
    scope: &Scope<'s, Env>,
) -> Option<Vec<JoinHandle<Option<StorePass>>>> {
    let mut threads = Vec::new(alloc);
    for job in jobs {
        let thread = scope.spawn(move || work(rt, alloc, job)).ok()?;
        threads.push(thread).ok()?;
    }
    Some(threads)
}

/// How many calls the pass has seen that has seen the most, once each thread is done; none where a call was not answered so.
fn join_all<R: Threads + Wait>(rt: &R, threads: Vec<JoinHandle<Option<StorePass>>>) -> Option<u64> {
    let mut seen = 0;
    for thread in threads {
        seen = seen.max(thread.join(rt)?.seen());
    }
    Some(seen)
}

/// The same of the calls of these jobs.
fn work_at_once<R: Threads + Wait + Clock + Sync>(
    rt: &R,
    alloc: Global,
    jobs: Vec<Job<'_, R>>,
) -> Option<u64> {
    thread::scope(thread::scope_env(), rt, move |scope| -> Option<u64> {
        join_all(rt, start_all(rt, alloc, jobs, scope)?)
    })
}

/// A job for a new pass.
fn next_job<'t, R: Wait>(
    rt: &'t R,
    table: &'t StoreTable,
    first: &mut StorePass,
    met: &'t AtomicU32,
) -> Option<Job<'t, R>>
    requires { IsPassOf table.now first.old }
    ensures { IsPassOf table.now first.new }
{
    let own = table.split(rt, first).ok()?;
    Some(Job {
        register: u16::try_from(own.number()).ok()?,
        service: SharedStore::new(rt, table, own),
        met,
    })
}

/// A job for each pass.
fn open_jobs<'t, R: Wait>(
    rt: &'t R,
    alloc: Global,
    table: &'t StoreTable,
    first: &mut StorePass,
    met: &'t AtomicU32,
) -> Option<Vec<Job<'t, R>>>
    requires { IsPassOf table.now first.old }
    ensures { IsPassOf table.now first.new }
{
    let mut jobs = Vec::new(alloc);
    for _ in 0..PASSES {
        jobs.push(next_job(rt, table, first, met)?).ok()?;
    }
    Some(jobs)
}

/// How many calls the pass has seen that has seen the most of those that are made at one time.
fn seen_by_all<R: Threads + Wait + Clock + Sync>(
    rt: &R,
    alloc: Global,
    table: &StoreTable,
    first: &mut StorePass,
) -> Option<u64>
    requires { IsPassOf table.now first.old }
    ensures { IsPassOf table.now first.new }
{
    let met = AtomicU32::new(0);
    let jobs = open_jobs(rt, alloc, table, first, &met)?;
    work_at_once(rt, alloc, jobs)
}

/// The same over a table of its own, and the history.
fn calls_of_all<R: Threads + Wait + Clock + Sync>(rt: &R, alloc: Global) -> Option<(u64, History)> {
    let store = RegisterStore::new(alloc, SIZES, false).ok()?;
    let (table, mut first) = StoreTable::open(alloc, store).ok()?;
    let seen = seen_by_all(rt, alloc, &table, &mut first);
    let ClosedStore {
        store: _,
        history,
        last: _,
    } = table.close(rt, first);
    Some((seen?, history?))
}

/// Whether the history is each call of each pass, in its order.
fn is_whole(history: &History) -> bool {
    for number in 1..9 {
        if calls_in_order(history, number) != Some(CALLS) {
            return false;
        }
    }
    history.len() == 400
}

/// How many calls the pass has seen that has seen the most, and whether the history is whole; none where a call was not answered.
fn seen_and_whole<R: Threads + Wait + Clock + Sync>(rt: &R, alloc: Global) -> Option<(u64, bool)> {
    let (seen, history) = calls_of_all(rt, alloc)?;
    Some((seen, is_whole(&history)))
}

#[test]
fn eight_passes_call_at_one_time(rt: HostRuntime) {
    check(&rt, seen_and_whole(&rt, rt.alloc()), Some((400, true)));
}
