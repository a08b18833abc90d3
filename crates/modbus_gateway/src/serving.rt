//! Serving the TCP side of a gateway.
ghost use Rattle.modbus_link.specs.Line.{meaning_of};
ghost use Rattle.modbus_gateway.specs.Forwarded.{Forwarded, IsForwarded};
ghost use Rattle.modbus_link.specs.Outside.{outside};
ghost use Rattle.modbus_server.specs.Moment.{moment};

use crate::gateway::Gateway;
use modbus_client::rtu;
use modbus_link::{Link, Sink, Source};
use modbus_server::{ProcessError, tcp};
use std::alloc::Global;

/// Forwards the requests of one TCP connection to a serial line until the input ends, with at most `turns` reads that give bytes, each
/// with a room of 268 bytes.
///
/// Each request is asked once on the line, in order, as the frame for the slave that its unit identifier names; a call that waits for its
/// reply makes at most as many reads that give bytes as the client was told. The response of the slave, or its exception, goes back under
/// the transaction and the unit of the request. A request for unit 0 is sent to all slaves and is not answered.
///
/// A fault of the line ends no connection: it is told as an exception (Modbus Application Protocol V1.1b3, section 7). 0A (gateway path
/// unavailable) tells that the client is not connected, as after a write that failed; 03 (illegal data value) that the request is too long
/// for a frame; 0B (gateway target device failed to respond) each other fault, as no reply, one of another slave, or one that can't be
/// read. Afterwards the client has the turns and the timeout that it had, and the slave of the last request.
///
/// # Errors
/// Those of `modbus_server::tcp::process`, of the TCP side alone, with the same causes; but `TooManyRetries` and `ResponseTooLong` never
/// come. `NoMemory` also where memory was wanting for an exchange on the line, which may have written a front of its frame by then, or
/// all of it.
pub fn process<S: Source, K: Sink, L: Link + Send + Drop>(
    alloc: Global,
    source: &mut S,
    sink: &mut K,
    line: &mut rtu::Client<L>,
    turns: u64,
) -> Result<(), ProcessError>
    ensures forwarded { Forwarded (meaning_of L.input L.output L.line) turns
        (moment line.old (S.input source.old) (K.output sink.old))
        (moment line.new (S.input source.new) (K.output sink.new)) result }
    ensures complete { IsForwarded (outside (S.input source.old) (K.output sink.old))
        (outside (S.input source.new) (K.output sink.new)) turns result }
{
    tcp::process(alloc, source, sink, &mut Gateway(line), turns)
}
