//! A server of the framing of this crate.
ghost use Rattle.std.specs.Prelude.{◌≡◌, [], ◌-◌, ◌^◌, IsTrue, Ok};
ghost use Rattle.modbus_server.specs.Complete.{Completes};
ghost use Rattle.modbus_server.specs.Step.{Ran};
ghost use Rattle.modbus_example.specs.Counter.{counting};
ghost use Rattle.modbus_example.specs.Single.{singles};
ghost use Rattle.modbus_server.specs.Moment.{moment};

use crate::counter::Counter;
use crate::single::Singles;
use modbus_link::{Sink, Source};
use modbus_server::{ProcessError, serve};
use std::alloc::Global;

/// Serves a source and a sink until the input ends, byte by byte.
///
/// # Errors
/// Those of `serve`; `InvalidLength` tells a byte 0.
pub fn serve_singles<S: Source, K: Sink>(
    alloc: Global,
    source: &mut S,
    sink: &mut K,
    counter: &mut Counter,
) -> Result<(), ProcessError>
    // Each promise of a server, as one record.
    ensures ran { Ran singles counting (2 ^ 64 - 1)
        (moment counter.old (S.input source.old) (K.output sink.old))
        (moment counter.new (S.input source.new) (K.output sink.new)) result }

    // Bytes that are not 0 are served to their end.
    ensures complete { Completes singles counting (2 ^ 64 - 1)
        (moment counter.old (S.input source.old) (K.output sink.old))
        (moment counter.new (S.input source.new) (K.output sink.new)) result }

    // What a caller reads off it: after Ok the input ended, and what was appended is exactly the replies to all its bytes.
    ensures ended { result ≡ Ok tt → IsTrue (S.input source.old).told
        → (S.input source.new).left ≡ [] }
{
    serve::<Singles, S, K, Counter>(alloc, source, sink, counter, u64::MAX)
}
