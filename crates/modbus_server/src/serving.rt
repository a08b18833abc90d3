//! Steps one after another until the input of a connection ends or a signal says to stop, whatever frames its messages.
ghost use Rattle.std.specs.Prelude.{◌≡◌, [], IsTrue};
ghost use Rattle.modbus_server.specs.Complete.{Completes};
ghost use Rattle.modbus_server.specs.Step.{Ran};
ghost use Rattle.modbus_server.specs.Signal.{RanUntil, never_set, to_the_end};
ghost use Rattle.modbus_server.specs.Moment.{moment, watched, signalled};

use crate::connection::Connection;
use crate::error::{ProcessError, Step};
use crate::framing::Framing;
use crate::laws::clean_lines_are_served;
use modbus_frame::Terminated;
use modbus_link::{Both, Sink, Source, Stop};
use modbus_service::Answerer;
use std::alloc::Global;
use std::marker::Model;

/// A signal that is never set.
#[derive(Drop)]
pub(crate) struct Never;

/// A contract sees that it has no state.
impl Model for Never {
    ghost Value = { Unit {0} };

    ghost view = { λ it. tt };
}

impl Stop for Never {
    ghost stops = { λ it. 0 };

    ghost looks = { never_set };

    fn is_set(&mut self) -> bool {
        false
    }
}

/// Takes one step after another of a connection that was just opened, and looks at a signal before each.
fn run<I: Framing, L: Source + Sink, V: Answerer, X: Stop>(
    connection: &mut Connection<I>,
    alloc: Global,
    link: &mut L,
    service: &mut V,
    abort_signal: &mut X,
    turns: u64,
) -> Result<Terminated, ProcessError>
    requires empty { connection.old.held ≡ [] }
    requires written { connection.old.waiting ≡ [] }
    requires ready { IsTrue connection.old.is_open }
    requires stands { I.framing.StandsFor [] [] [] [] }
    ensures { RanUntil I.framing V.answering (signalled X.stops X.looks) turns
        (watched service.old (L.input link.old) (L.output link.old) abort_signal.old)
        (watched service.new (L.input link.new) (L.output link.new) abort_signal.new) result }
{
    let mut left = turns;
    'steps: loop {
        if abort_signal.is_set() {
            return Ok(Terminated::Aborted);
        }
        match connection.step_link(alloc, link, service, left > 0) {
            Err(error) => return Err(error),
            Ok(Step::Hungry) => return Err(ProcessError::TurnLimit),
            Ok(Step::Ended) => return Ok(Terminated::Finished),
            Ok(Step::MoreRead) => left -= 1,
            Ok(Step::Answered) => {}
            Ok(Step::Silent) => {}
        }
    }
}

/// Serves one object as source and sink until its input ends or a signal is set, with at most `turns` reads that give bytes.
///
/// It looks at the signal before each step: before each request that it answers, and before each read. A step that has begun is
/// finished, so no reply is cut short by a stop; held bytes that are no whole message are lost with it.
///
/// # Errors
/// Those of a step, and `TurnLimit`.
pub fn serve_until<I: Framing, L: Source + Sink, V: Answerer, X: Stop>(
    alloc: Global,
    link: &mut L,
    service: &mut V,
    abort_signal: &mut X,
    turns: u64,
) -> Result<Terminated, ProcessError>
    ensures ran { RanUntil I.framing V.answering (signalled X.stops X.looks) turns
        (watched service.old (L.input link.old) (L.output link.old) abort_signal.old)
        (watched service.new (L.input link.new) (L.output link.new) abort_signal.new) result }
    ensures complete { Completes I.framing V.answering turns
        (moment service.old (L.input link.old) (L.output link.old))
        (moment service.new (L.input link.new) (L.output link.new)) (to_the_end result) }
{
    clean_lines_are_served::<I, V>();
    match Connection::<I>::open(alloc) {
        Err(_) => Err(ProcessError::NoMemory),
        Ok(mut connection) => run(&mut connection, alloc, link, service, abort_signal, turns),
    }
}

/// Serves one object as source and sink until its input ends, with at most `turns` reads that give bytes.
///
/// # Errors
/// Those of a step, and `TurnLimit`.
pub fn serve_link<I: Framing, L: Source + Sink, V: Answerer>(
    alloc: Global,
    link: &mut L,
    service: &mut V,
    turns: u64,
) -> Result<(), ProcessError>
    ensures ran { Ran I.framing V.answering turns
        (moment service.old (L.input link.old) (L.output link.old))
        (moment service.new (L.input link.new) (L.output link.new)) result }
    ensures complete { Completes I.framing V.answering turns
        (moment service.old (L.input link.old) (L.output link.old))
        (moment service.new (L.input link.new) (L.output link.new)) result }
{
    match serve_until::<I, L, V, Never>(alloc, link, service, &mut Never, turns) {
        Ok(Terminated::Finished) => Ok(()),
        Ok(Terminated::Aborted) => unreachable!(),
        Err(error) => Err(error),
    }
}

/// Serves a source and a sink until the input ends; its contract is that of `serve_link`.
///
/// # Errors
/// Those of `serve_link`.
pub fn serve<I: Framing, S: Source, K: Sink, V: Answerer>(
    alloc: Global,
    source: &mut S,
    sink: &mut K,
    service: &mut V,
    turns: u64,
) -> Result<(), ProcessError>
    ensures ran { Ran I.framing V.answering turns
        (moment service.old (S.input source.old) (K.output sink.old))
        (moment service.new (S.input source.new) (K.output sink.new)) result }
    ensures complete { Completes I.framing V.answering turns
        (moment service.old (S.input source.old) (K.output sink.old))
        (moment service.new (S.input source.new) (K.output sink.new)) result }
{
    clean_lines_are_served::<I, V>();
    serve_link::<I, Both<'_, '_, S, K>, V>(alloc, &mut Both::new(source, sink), service, turns)
}
