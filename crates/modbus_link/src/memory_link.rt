//! A link in memory, for tests and for programs over bytes that they hold.
ghost use Rattle.std.specs.Prelude.{◌≡◌, ◌↔◌, ◌<◌, length, IsTrue, IfOk, IsErr};
ghost use Rattle.std.specs.Io.{ReadsAtMost, WritesAtMost};
ghost use Rattle.modbus_link.specs.Outside.{Advances, Extends, bytes_appended, ReadIsTold, front_of};
ghost use Rattle.modbus_link.specs.Memory.{source_input, sink_output, MemoryReads, MemoryWrites};
ghost use Rattle.modbus_link.specs.Line.{line_at_start, shut, Shuts};

use crate::link::Link;
use crate::memory::{MemorySink, MemorySource};
use crate::outside::{Ends, Failed, Sink, Source};
use std::marker::Model;
use std::time::Duration;

/// A source and a sink in memory as one link, whose shutdown fails where that is asked for. It tells all of its content.
#[derive(Drop)]
pub struct MemoryLink {
    source: MemorySource,
    sink: MemorySink,
    shutdown_fails: bool,
    faults: u64,
    is_down: bool,
    timeout: Option<Duration>,
}

impl Model for MemoryLink {
    ghost use Rattle.modbus_link.specs.Line.{LinkState};

    ghost Value = { LinkState };

    ghost view = { λ link. record {
      source = link.source;
      sink = link.sink;
      shutdown_fails = link.shutdown_fails;
      line = record { faults = link.faults; is_down = link.is_down; timeout = link.timeout };
    } };
}

impl MemoryLink {
    /// A link of these ends. A shutdown fails exactly where `shutdown_fails`.
    pub fn new(source: MemorySource, sink: MemorySink, shutdown_fails: bool) -> MemoryLink
        ensures { result ≡ record {
          source = source;
          sink = sink;
          shutdown_fails = shutdown_fails;
          line = line_at_start;
        } }
    {
        MemoryLink {
            source,
            sink,
            shutdown_fails,
            faults: 0,
            is_down: false,
            timeout: None,
        }
    }

    /// The source.
    pub fn source(&self) -> &MemorySource
        ensures { result.now ≡ self.now.source }
    {
        &self.source
    }

    /// The sink.
    pub fn sink(&self) -> &MemorySink
        ensures { result.now ≡ self.now.sink }
    {
        &self.sink
    }

    /// The timeout that was set last; `None` at first.
    pub fn timeout(&self) -> Option<Duration>
        ensures { result ≡ self.now.line.timeout }
    {
        self.timeout
    }
}

impl Ends for MemoryLink {
    ghost input = { λ link. source_input link.source };

    ghost output = { λ link. sink_output link.sink };

    ghost line = { λ link. link.line };
}

impl Source for MemoryLink {
    fn read(&mut self, room: &mut [u8]) -> Result<usize, Failed>
        requires { 0 < length room.old }
        ensures bound { ReadsAtMost result room.new }
        ensures source { Advances (source_input self.old.source) (source_input self.new.source) }
        ensures told { IsTrue (source_input self.old.source).told
            → ReadIsTold (source_input self.old.source) (source_input self.new.source) room.old
            room.new result }

        ensures reads { MemoryReads self.old.source self.new.source (length room.old) result }
        ensures others { self.new ≡ record self.old { source = self.new.source } }
    {
        self.source.read(room)
    }
}

impl Sink for MemoryLink {
    fn write(&mut self, piece: &[u8]) -> Result<usize, Failed>
        ensures bound { WritesAtMost result piece.now }
        ensures some { IfOk result (λ count. 0 < length piece.now → 0 < count) }
        ensures sink { Extends (sink_output self.old.sink) (sink_output self.new.sink) }
        ensures told { IsTrue (sink_output self.old.sink).told
            → bytes_appended (sink_output self.old.sink) (sink_output self.new.sink)
            ≡ front_of result piece.now }

        ensures writes { MemoryWrites self.old.sink self.new.sink (length piece.now) result }
        ensures others { self.new ≡ record self.old { sink = self.new.sink } }
    {
        self.sink.write(piece)
    }
}

impl Link for MemoryLink {
    fn shutdown(&mut self) -> Result<(), Failed>
        ensures fails { IsErr result ↔ IsTrue self.old.shutdown_fails }
        ensures shut { self.new ≡ record self.old { line = shut result self.old.line } }
        ensures line { Shuts self.old.line result self.new.line }
    {
        if self.shutdown_fails {
            self.faults = self.faults.saturating_add(1);
            return Err(Failed);
        }
        self.is_down = true;
        Ok(())
    }

    fn set_timeout(&mut self, duration: Option<Duration>)
        ensures set { self.new ≡ record self.old {
          line = record self.old.line { timeout = duration };
        } }
    {
        self.timeout = duration;
    }
}
