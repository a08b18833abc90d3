//! Calls of a shared store that keeps no record, by threads with a pass each: half write a register, half read it. All begin at once.
ghost use Rattle.modbus_store.specs.Passes.{IsPassOf};

use crate::job::{Job, Limit, run};
use modbus_store::{RegisterStore, SharedStore, Sizes, StorePass, StoreTable};
use std::alloc::Global;
use std::process::ExitCode;
use std::sync::{Barrier, Wait};
use std::thread::{Threads, map_vec};
use std::time::Clock;

const SIZES: Sizes = Sizes {
    coils: 1,
    discrete_inputs: 1,
    holding_registers: 2,
    input_registers: 1,
};

/// A job for a new pass.
fn next_job<'t, R: Wait>(
    rt: &'t R,
    table: &'t StoreTable,
    first: &mut StorePass,
    together: &'t Barrier,
    limit: Limit,
) -> Option<Job<'t, R>>
    requires { IsPassOf table.now first.old }
    ensures { IsPassOf table.now first.new }
{
    let own = table.split(rt, first).ok()?;
    Some(Job {
        service: SharedStore::new(rt, table, own),
        together,
        limit,
    })
}

/// A job for each thread.
fn open_jobs<'t, R: Wait>(
    rt: &'t R,
    alloc: Global,
    table: &'t StoreTable,
    first: &mut StorePass,
    together: &'t Barrier,
    threads: usize,
    limit: Limit,
) -> Option<Vec<Job<'t, R>>>
    requires { IsPassOf table.now first.old }
{
    let mut jobs = Vec::new(alloc);
    for _ in 0..threads {
        jobs.push(next_job(rt, table, first, together, limit)?)
            .ok()?;
    }
    Some(jobs)
}

/// The calls of each job, which has a thread.
fn calls_of<R: Threads + Wait + Clock + Sync>(
    rt: &R,
    alloc: Global,
    jobs: Vec<Job<'_, R>>,
) -> Option<Vec<u64>> {
    map_vec(rt, jobs, &|job: Job<'_, R>| run(rt, alloc, job)).ok()
}

/// The same over a table.
fn calls_over<R: Threads + Wait + Clock + Sync>(
    rt: &R,
    alloc: Global,
    table: &StoreTable,
    first: &mut StorePass,
    threads: usize,
    limit: Limit,
) -> Option<Vec<u64>>
    requires { IsPassOf table.now first.old }
{
    let together = Barrier::new(threads);
    let jobs = open_jobs(rt, alloc, table, first, &together, threads, limit)?;
    calls_of(rt, alloc, jobs)
}

/// The calls of each of so many threads, up to a limit; none where memory or a thread was refused.
pub fn calls<R: Threads + Wait + Clock + Sync>(
    rt: &R,
    alloc: Global,
    threads: usize,
    limit: Limit,
) -> Option<Vec<u64>> {
    let store = RegisterStore::new(alloc, SIZES, false).ok()?;
    let (table, mut first) = StoreTable::open_unrecorded(alloc, store).ok()?;
    calls_over(rt, alloc, &table, &mut first, threads, limit)
}

/// Prints the calls of the slowest thread, of the fastest, and of all. False where a thread made none, since something was refused.
fn is_told(rt: &HostRuntime, made: &[u64]) -> bool {
    let slowest = made.iter().copied().min().unwrap_or(0);
    let fastest = made.iter().copied().max().unwrap_or(0);
    let all = made
        .iter()
        .fold(0u64, |sum, calls| sum.saturating_add(*calls));
    slowest > 0 && println!(rt; "slowest {slowest}, fastest {fastest}, all {all}").is_ok()
}

/// Tells the calls that the threads made; the status.
pub fn tell(rt: &HostRuntime, made: Option<Vec<u64>>) -> ExitCode {
    if made.is_some_and(|made| is_told(rt, made.as_slice())) {
        return ExitCode::SUCCESS;
    }
    let _ = eprintln!(rt; "modbus_bench: a call, memory, a thread or the clock was refused");
    ExitCode::from(1)
}
