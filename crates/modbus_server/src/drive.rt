//! The driver of a connection over a link that may not be ready. A link that blocks is always ready, so the blocking step stands on it.
ghost use Rattle.std.specs.Prelude.{◌≡◌, ◌≤◌, [], IsTrue, Err};
ghost use Rattle.modbus_link.specs.Outside.{Rose};
ghost use Rattle.modbus_link.specs.Passes.{Sends};
ghost use Rattle.modbus_link.specs.Polled.{Waited};
ghost use Rattle.modbus_server.specs.Next.{told_next, IsToldWell};
ghost use Rattle.modbus_server.specs.Step.{Stepped};
ghost use Rattle.modbus_server.specs.Polled.{PollWrites, PollReads, PollSteps};
ghost use Rattle.modbus_server.specs.Moment.{moment};

use crate::connection::Connection;
use crate::error::{Next, NextError, ProcessError, Step};
use crate::framing::Framing;
use modbus_link::{Both, Failed, Polled, PolledLink, Sink, Source};
use modbus_service::Answerer;
use std::alloc::Global;

/// How a server tells why there is no next reply.
// A connection ends with it, so it is kept out of the steps that answer.
#[cold]
#[inline(never)]
pub(crate) fn tell_next<I: Framing>(error: NextError<I::Fault>) -> ProcessError
    ensures told { result ≡ told_next I.told error }
    ensures own { IsToldWell I.told error }
{
    match error {
        NextError::Broken(fault) => I::tell(fault),
        NextError::Refused(reason) => ProcessError::InvalidRequest(reason),
        NextError::TooLong(size) => ProcessError::ResponseTooLong(size),
        NextError::NoMemory => ProcessError::NoMemory,
    }
}

/// Writes what waits of the last reply, as far as the link is ready.
pub(crate) fn send<I: Framing, L: PolledLink>(
    connection: &mut Connection<I>,
    link: &mut L,
) -> Result<Polled<Step>, ProcessError>
    ensures source { L.input link.new ≡ L.input link.old }
    ensures sends { Sends (L.output link.old) (L.output link.new) connection.old.waiting
        connection.new.waiting }
    ensures writes { PollWrites connection.old connection.new result }
    ensures cause { result ≡ Err ProcessError.WriteFault
        → Rose (L.output link.old).faults (L.output link.new).faults }
    ensures waited { Waited result (L.not_ready link.old) (L.not_ready link.new) }
    ensures later { L.not_ready link.old ≤ L.not_ready link.new }
{
    match connection.flush(link) {
        Ok(Polled::Ready(())) => Ok(Polled::Ready(Step::Answered)),
        Ok(Polled::Pending) => Ok(Polled::Pending),
        Err(Failed) => {
            connection.close();
            Err(ProcessError::WriteFault)
        }
    }
}

/// Reads once, where the link is ready, and feeds what the read gave.
fn read_more<I: Framing, L: PolledLink>(
    connection: &mut Connection<I>,
    alloc: Global,
    link: &mut L,
) -> Result<Polled<Step>, ProcessError>
    requires { I.framing.Waits connection.old.held }
    ensures sink { L.output link.new ≡ L.output link.old }
    ensures reads { PollReads I.framing (L.input link.old) (L.input link.new) connection.old
        connection.new result }
    ensures waited { Waited result (L.not_ready link.old) (L.not_ready link.new) }
    ensures later { L.not_ready link.old ≤ L.not_ready link.new }
{
    if connection.make_room(alloc).is_err() {
        connection.close();
        return Err(ProcessError::NoMemory);
    }
    match connection.fill(link) {
        Ok(Polled::Pending) => Ok(Polled::Pending),
        Err(Failed) => {
            connection.close();
            Err(ProcessError::ReadFault)
        }
        Ok(Polled::Ready(count)) => {
            if count > 0 {
                Ok(Polled::Ready(Step::MoreRead))
            } else if connection.end() {
                Ok(Polled::Ready(Step::Ended))
            } else {
                Err(ProcessError::BytesRemaining)
            }
        }
    }
}

/// Takes one step where nothing waits, as far as the link is ready: asks the service about the next message and writes the reply; where
/// there is no message, reads once if `may_read`.
pub(crate) fn poll_step<I: Framing, L: PolledLink, V: Answerer>(
    connection: &mut Connection<I>,
    alloc: Global,
    link: &mut L,
    service: &mut V,
    may_read: bool,
) -> Result<Polled<Step>, ProcessError>
    requires open { IsTrue connection.old.is_open }
    requires written { connection.old.waiting ≡ [] }
    ensures steps { PollSteps I.framing V.answering connection.old connection.new
        (moment service.old (L.input link.old) (L.output link.old))
        (moment service.new (L.input link.new) (L.output link.new)) may_read result }
    ensures waited { Waited result (L.not_ready link.old) (L.not_ready link.new) }
    ensures later { L.not_ready link.old ≤ L.not_ready link.new }
{
    match connection.next(alloc, service) {
        Err(error) => Err(tell_next::<I>(error)),
        Ok(Next::Silent) => Ok(Polled::Ready(Step::Silent)),
        Ok(Next::Reply) => send(connection, link),
        Ok(Next::Waiting) => {
            if may_read {
                read_more(connection, alloc, link)
            } else {
                Ok(Polled::Ready(Step::Hungry))
            }
        }
    }
}

impl<I: Framing> Connection<I> {
    /// Takes one step with one object as source and sink: asks the service about the next message and writes the reply; where there is
    /// no message, reads once if `may_read`. A caller of `next` writes what waits of a reply before it takes a step.
    ///
    /// # Errors
    /// The fault that stands at this step, right after the messages that were answered before it: a step that tells an error answers none,
    /// but for `WriteFault`, where a reply was not written whole.
    pub fn step_link<L: Source + Sink, V: Answerer>(
        &mut self,
        alloc: Global,
        link: &mut L,
        service: &mut V,
        may_read: bool,
    ) -> Result<Step, ProcessError>
        requires open { IsTrue self.old.is_open }
        requires written { self.old.waiting ≡ [] }
        ensures { Stepped I.framing V.answering self.old self.new
            (moment service.old (L.input link.old) (L.output link.old))
            (moment service.new (L.input link.new) (L.output link.new)) may_read result }
    {
        match poll_step(self, alloc, link, service, may_read) {
            Ok(Polled::Ready(step)) => Ok(step),
            Ok(Polled::Pending) => unreachable!(),
            Err(error) => Err(error),
        }
    }

    /// Takes one step with a source and a sink; its contract is that of `step_link`.
    ///
    /// # Errors
    /// Those of `step_link`.
    pub fn step<S: Source, K: Sink, V: Answerer>(
        &mut self,
        alloc: Global,
        source: &mut S,
        sink: &mut K,
        service: &mut V,
        may_read: bool,
    ) -> Result<Step, ProcessError>
        requires open { IsTrue self.old.is_open }
        requires written { self.old.waiting ≡ [] }
        ensures { Stepped I.framing V.answering self.old self.new
            (moment service.old (S.input source.old) (K.output sink.old))
            (moment service.new (S.input source.new) (K.output sink.new)) may_read result }
    {
        self.step_link(alloc, &mut Both::new(source, sink), service, may_read)
    }
}
