//! A source and a sink in memory, for tests and for programs over bytes that they hold.
ghost use Rattle.std.specs.Prelude.{◌≡◌, ◌+◌, ◌<◌, ◌≤◌, length, All, Contains, IsTrue, IfOk, vec_len, vec_capacity};
ghost use Rattle.std.specs.Io.{ReadsAtMost, WritesAtMost};
ghost use Rattle.modbus_link.specs.Outside.{Advances, Extends, bytes_appended, ReadIsTold, front_of};
ghost use Rattle.modbus_link.specs.Memory.{SourceState, SinkState, source_input, sink_output, source_at_start, sink_at_start, MemoryReads, MemoryWrites};

use crate::outside::{Cut, Ends, Failed, Sink, Source};
use std::alloc::{AllocError, Global};
use std::marker::Model;

/// The end of a read that may go up to `end`: the first stop above `given`, or `end`.
fn next_end(stops: &[usize], given: usize, end: usize) -> usize
    requires { given < end }
    ensures above { given < result }
    ensures at_most { result ≤ end }
    ensures passes_none { All (λ stop. given < stop → result ≤ stop) stops.now }
    ensures most { result < end → Contains stops.now result }
{
    let mut first = end;
    for stop in stops {
        if given < *stop && *stop < first {
            first = *stop;
        }
    }
    first
}

/// A source over bytes in memory, which tells all of its content.
///
/// No read passes one of the given totals, and the reads of the given numbers (counted from 0) fail; otherwise a read gives as
/// much as fits.
#[derive(Drop)]
pub struct MemorySource {
    input: Vec<u8>,
    stops: Vec<usize>,
    fails: Vec<u64>,
    // there is space for one cut a byte
    cuts: Vec<Cut>,
    given: usize,
    calls: u64,
    faults: u64,
}

impl Model for MemorySource {
    ghost use Rattle.std.specs.Prelude.{◌≤◌, vec_len, vec_capacity};
    ghost use Rattle.modbus_link.specs.Memory.{SourceState};

    ghost Value = { SourceState };

    ghost view = { λ s. record { bytes = s.input.items; stops = s.stops.items; fails = s.fails.items; cuts = s.cuts.items; given = s.given; calls = s.calls; faults = s.faults } };

    ghost invariant = { λ s. record {
      within : s.given ≤ vec_len s.input;
      made : vec_len s.cuts ≤ s.given;
      space : vec_len s.input ≤ vec_capacity s.cuts;
    } };
}

impl MemorySource {
    /// A source that gives `input`. No read of it passes a total in `stops`. Of its reads, counted from 0, just those in `fails` fail.
    ///
    /// # Errors
    /// `AllocError` where memory is refused.
    pub fn new(
        alloc: Global,
        input: &[u8],
        stops: &[usize],
        fails: &[u64],
    ) -> Result<MemorySource, AllocError>
        ensures { IfOk result (λ source. source ≡ source_at_start input.now stops.now fails.now) }
    {
        Ok(MemorySource {
            input: Vec::from_slice(alloc, input)?,
            stops: Vec::from_slice(alloc, stops)?,
            fails: Vec::from_slice(alloc, fails)?,
            cuts: Vec::with_capacity(alloc, input.len())?,
            given: 0,
            calls: 0,
            faults: 0,
        })
    }

    /// How many bytes were given.
    pub fn given(&self) -> usize
        ensures { result ≡ self.now.given }
    {
        self.given
    }
}

impl Ends for MemorySource {
    ghost input = { source_input };
}

impl Source for MemorySource {
    fn read(&mut self, room: &mut [u8]) -> Result<usize, Failed>
        requires { 0 < length room.old }
        ensures bound { ReadsAtMost result room.new }
        ensures source { Advances (source_input self.old) (source_input self.new) }
        ensures told { IsTrue (source_input self.old).told
            → ReadIsTold (source_input self.old) (source_input self.new) room.old room.new result }

        ensures reads { MemoryReads self.old self.new (length room.old) result }
    {
        let call = self.calls;
        self.calls = call.saturating_add(1);
        if self.fails.contains(&call) {
            self.faults = self.faults.saturating_add(1);
            return Err(Failed);
        }
        let left = self.input.len() - self.given;
        if left == 0 {
            return Ok(0);
        }
        let size = room.len();
        let end = self.given + size.min(left);
        let end = next_end(&self.stops, self.given, end);
        let count = end - self.given;
        room[..count].copy_from_slice(&self.input[self.given..end]);
        self.cuts.push_reserved(Cut {
            total: end,
            room: size,
        });
        self.given = end;
        Ok(count)
    }
}

/// A sink into memory of a fixed capacity, which tells all that was appended.
///
/// A write takes at most a given number of bytes and what is free. The writes of the given numbers (counted from 0) fail, and
/// so does a write of some bytes into a full sink.
#[derive(Drop)]
pub struct MemorySink {
    bytes: Vec<u8>,
    capacity: usize,
    most: usize,
    fails: Vec<u64>,
    calls: u64,
    faults: u64,
}

impl Model for MemorySink {
    ghost use Rattle.std.specs.Prelude.{◌<◌, ◌≤◌, vec_len, vec_capacity};
    ghost use Rattle.modbus_link.specs.Memory.{SinkState};

    ghost Value = { SinkState };

    ghost view = { λ s. record { bytes = s.bytes.items; capacity = s.capacity; most = s.most; fails = s.fails.items; calls = s.calls; faults = s.faults } };

    ghost invariant = { λ s. record {
      some : 0 < s.most;
      within : vec_len s.bytes ≤ s.capacity;
      reserved : s.capacity ≤ vec_capacity s.bytes;
    } };
}

impl MemorySink {
    /// A sink that holds at most `capacity` bytes and takes at most `most` at a write; a write fails exactly where its number,
    /// from 0, is in `fails`, or the sink is full and there is something to write.
    ///
    /// # Errors
    /// `AllocError` where memory is refused.
    pub fn new(
        alloc: Global,
        capacity: usize,
        most: usize,
        fails: &[u64],
    ) -> Result<MemorySink, AllocError>
        requires { 0 < most }
        ensures { IfOk result (λ sink. sink ≡ sink_at_start capacity most fails.now) }
    {
        Ok(MemorySink {
            bytes: Vec::with_capacity(alloc, capacity)?,
            capacity,
            most,
            fails: Vec::from_slice(alloc, fails)?,
            calls: 0,
            faults: 0,
        })
    }

    /// What was appended.
    pub fn bytes(&self) -> &[u8]
        ensures { result.now ≡ self.now.bytes }
    {
        self.bytes.as_slice()
    }
}

impl Ends for MemorySink {
    ghost output = { sink_output };
}

impl Sink for MemorySink {
    fn write(&mut self, piece: &[u8]) -> Result<usize, Failed>
        ensures bound { WritesAtMost result piece.now }
        ensures some { IfOk result (λ count. 0 < length piece.now → 0 < count) }
        ensures sink { Extends (sink_output self.old) (sink_output self.new) }
        ensures told { IsTrue (sink_output self.old).told
            → bytes_appended (sink_output self.old) (sink_output self.new)
            ≡ front_of result piece.now }

        ensures writes { MemoryWrites self.old self.new (length piece.now) result }
    {
        let call = self.calls;
        self.calls = call.saturating_add(1);
        let free = self.capacity - self.bytes.len();
        if self.fails.contains(&call) || (free == 0 && !piece.is_empty()) {
            self.faults = self.faults.saturating_add(1);
            return Err(Failed);
        }
        let count = piece.len().min(self.most.min(free));
        match self.bytes.extend_from_slice(&piece[..count]) {
            Ok(()) => Ok(count),
            Err(_) => unreachable!(),
        }
    }
}
