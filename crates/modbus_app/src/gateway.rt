//! The form `gateway`: the devices of a line of RTU frames, for the master of one Modbus TCP connection.
ghost use Rattle.std.specs.Prelude.{◌≡◌, ◌⊎◌, ◌-◌, ◌^◌, ◌<◌, IsTrue, length};
ghost use Rattle.modbus_link.specs.Line.{meaning_of};
ghost use Rattle.modbus_link.specs.Outside.{outside, Rose};
ghost use Rattle.modbus_server.specs.Complete.{IsCleanLine};
ghost use Rattle.modbus_server.specs.Tcp.{tcp};
ghost use Rattle.modbus_gateway.specs.Forwarded.{Forwarded};
ghost use Rattle.modbus_client.specs.Connects.{connector_of};
ghost use Rattle.modbus_app.specs.Ends.{EndsBy};
ghost use Rattle.modbus_app.specs.Gateway.{ForwardsTo, ForwardsLent};
ghost use Rattle.modbus_server.specs.Moment.{moment};

use crate::status::{CONNECT_FAULT, CONNECT_LINE, report_fault, status};
use modbus_client::rtu;
use modbus_gateway::process;
use modbus_link::{Connector, Failed, Link, Sink, Source};
use modbus_port::report;
use std::alloc::Global;
use std::net::SocketAddr;

/// Forwards the requests of one Modbus TCP connection by this client of a line, and answers the status of how that ended, which it tells.
///
/// | Status | When |
/// |---|---|
/// | 0 | the input ended, with no ADU begun, and all were forwarded |
/// | 3, 4 | the source, the sink failed |
/// | 6 | the input ended within an ADU |
/// | 7 | the PDU of an ADU is no request |
/// | 8 | as many reads gave bytes as a `u64` counts |
/// | 9 | the header of an ADU tells a length of 0 |
/// | 10 | an ADU is of another protocol than Modbus |
/// | 11 | memory was refused |
///
/// A fault of the line has no status: it is told to the master by an exception.
pub fn forward_client<S: Source, K: Sink, L: Link + Send + Drop, E: Sink>(
    alloc: Global,
    source: &mut S,
    sink: &mut K,
    line: &mut rtu::Client<L>,
    errors: &mut E,
) -> u8
    ensures ends { EndsBy (Forwarded (meaning_of L.input L.output L.line) (2 ^ 64 - 1)
        (moment line.old (S.input source.old) (K.output sink.old))
        (moment line.new (S.input source.new) (K.output sink.new)))
        (E.output errors.old) (E.output errors.new) result }
    ensures complete { IsTrue (S.input source.old).told
        → IsCleanLine tcp (S.input source.old).left → length (S.input source.old).left < 2 ^ 64 - 1
        → (Rose (S.input source.old).faults (S.input source.new).faults → ⊥)
        → (Rose (K.output sink.old).faults (K.output sink.new).faults → ⊥)
        → (result ≡ 0) ⊎ (result ≡ 11) }
{
    match process(alloc, source, sink, line, u64::MAX) {
        Ok(()) => 0,
        Err(error) => {
            report_fault(errors, error);
            status(error)
        }
    }
}

/// Attaches a client to the link of a line, which is lent, and forwards by it as `forward_client` does. The client waits for each reply for
/// as long as the link takes, in `modbus_client::TURNS` reads that give bytes at most. The link is not shut down.
pub fn run_gateway<S: Source, K: Sink, L: Link + Send, E: Sink>(
    alloc: Global,
    source: &mut S,
    sink: &mut K,
    link: &mut L,
    errors: &mut E,
) -> u8
    ensures ends { ForwardsLent (meaning_of L.input L.output L.line) link.old
        (outside (S.input source.old) (K.output sink.old))
        (outside (S.input source.new) (K.output sink.new))
        (E.output errors.old, E.output errors.new) result }
    ensures complete { IsTrue (S.input source.old).told
        → IsCleanLine tcp (S.input source.old).left → length (S.input source.old).left < 2 ^ 64 - 1
        → (Rose (S.input source.old).faults (S.input source.new).faults → ⊥)
        → (Rose (K.output sink.old).faults (K.output sink.new).faults → ⊥)
        → (result ≡ 0) ⊎ (result ≡ 11) }
{
    let mut line = rtu::attach(alloc, link);
    forward_client(alloc, source, sink, &mut line, errors)
}

/// Makes a link to the line at this address, and forwards to it as `forward_client` does, by a client that waits for each reply for as long
/// as it takes.
///
/// It answers 16 where the connector failed; then nothing was read or written, but for the line that tells it.
pub(crate) fn forward_to<C: Connector, S: Source, K: Sink, E: Sink>(
    alloc: Global,
    connector: &mut C,
    line: SocketAddr,
    source: &mut S,
    sink: &mut K,
    errors: &mut E,
) -> u8
where
    C::Link: Link + Send + Drop,
    ensures { ForwardsTo (connector_of C.connects C.faults)
        (meaning_of C.Link.input C.Link.output C.Link.line) (connector.old, connector.new) line
        (outside (S.input source.old) (K.output sink.old))
        (outside (S.input source.new) (K.output sink.new))
        (E.output errors.old, E.output errors.new) result }
{
    match connector.connect(line, None) {
        Ok(link) => {
            let mut client = rtu::attach(alloc, link);
            forward_client(alloc, source, sink, &mut client, errors)
        }
        Err(Failed) => {
            report(errors, CONNECT_LINE);
            CONNECT_FAULT
        }
    }
}
