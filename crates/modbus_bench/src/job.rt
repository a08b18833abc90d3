//! What one thread does.

use modbus_frame::{Request, SlaveRequest};
use modbus_service::Service;
use modbus_store::SharedStore;
use std::alloc::Global;
use std::sync::{Barrier, Wait};
use std::time::{Clock, Duration, Instant};

/// When a thread ends.
#[derive(Clone, Copy)]
pub enum Limit {
    /// So many milliseconds after all threads have begun.
    Millis(u64),
    /// After so many calls.
    Calls(u64),
}

/// A thread's own service over the shared store, and what all threads meet at before they begin.
#[derive(Drop)]
pub struct Job<'t, R> {
    pub service: SharedStore<'t, R>,
    pub together: &'t Barrier,
    pub limit: Limit,
}

/// Between two looks at the clock.
const ROUND: u64 = 16;

/// The register that all write and read.
const REGISTER: u16 = 1;

fn request(n: u64) -> Request<'static> {
    if n % 2 == 0 {
        Request::WriteSingleRegister(REGISTER, (n % 0x10000) as u16)
    } else {
        Request::ReadHoldingRegisters(REGISTER, 1)
    }
}

/// Makes a call. Whether it was answered.
fn is_answered<R: Wait>(alloc: Global, service: &mut SharedStore<'_, R>, n: u64) -> bool {
    let asked = SlaveRequest {
        slave: 1,
        request: request(n),
    };
    service.call(alloc, asked).is_ok()
}

/// Makes one round of calls. Whether each was answered.
fn round<R: Wait>(alloc: Global, service: &mut SharedStore<'_, R>) -> bool {
    for n in 0..ROUND {
        if !is_answered(alloc, service, n) {
            return false;
        }
    }
    true
}

/// Makes at most so many rounds, in so much time, and gives the calls that were made; 0 where one was refused, or the clock was.
fn make<R: Wait + Clock>(
    rt: &R,
    alloc: Global,
    service: &mut SharedStore<'_, R>,
    most: u64,
    end: Duration,
) -> u64 {
    let Ok(start) = Instant::now(rt) else {
        return 0;
    };
    let mut made = 0u64;
    for _ in 0..most {
        if !round(alloc, service) {
            return 0;
        }
        made = made.saturating_add(ROUND);
        match start.elapsed(rt) {
            Ok(gone) if gone < end => {}
            _ => break,
        }
    }
    made
}

/// Makes calls up to the limit, in rounds, and gives how many; 0 where one was refused, or the clock was.
pub fn run<R: Wait + Clock>(rt: &R, alloc: Global, job: Job<'_, R>) -> u64 {
    let Job {
        mut service,
        together,
        limit,
    } = job;
    together.wait(rt);
    let (most, end) = match limit {
        Limit::Millis(millis) => (u64::MAX, Duration::from_millis(millis)),
        Limit::Calls(calls) => (calls.div_ceil(ROUND), Duration::MAX),
    };
    make(rt, alloc, &mut service, most, end)
}
