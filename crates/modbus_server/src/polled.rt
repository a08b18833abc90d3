//! A server over a link that may not be ready, which goes on where it stopped.
ghost use Rattle.std.specs.Prelude.{◌≡◌, ◌≢◌, [], false, IfOk, IsTrue, Some};
ghost use Rattle.modbus_server.specs.Polled.{polled, poll_of, AllowsMore, PollWaits, PolledTo, RunsWhole, TurnsTo, TurnWaits, one_fewer};
ghost use Rattle.modbus_server.specs.Moment.{moment};

use crate::connection::Connection;
use crate::drive::{poll_step, send};
use crate::error::{PolledTurn, ProcessError, Step};
use crate::framing::Framing;
use crate::laws::clean_lines_are_served;
use modbus_link::{Polled, PolledLink};
use modbus_service::Answerer;
use std::alloc::{AllocError, Global};
use std::marker::Model;

// Whether there is a limit, and no message is left.
fn are_used_up(messages: Option<u64>) -> bool
    ensures none { IsTrue result → messages ≡ Some 0 }
    ensures more { result ≡ false → AllowsMore messages }
{
    matches!(messages, Some(0))
}

// One message fewer, where there is a limit that allows one.
fn take_one(messages: Option<u64>) -> Option<u64>
    requires { AllowsMore messages }
    ensures { result ≡ one_fewer messages }
{
    match messages {
        Some(left) => Some(left - 1),
        None => None,
    }
}

/// Writes what waits, and then takes one step after another, as far as the link is ready, and up to the limit of messages.
fn poll_connection<I: Framing, L: PolledLink, V: Answerer>(
    connection: &mut Connection<I>,
    left: &mut u64,
    mut messages: Option<u64>,
    alloc: Global,
    link: &mut L,
    service: &mut V,
) -> PolledTurn
    requires { IsTrue connection.old.is_open }
    ensures { TurnsTo I.framing V.answering messages (polled connection.old left.old)
        (polled connection.new left.new) (moment service.old (L.input link.old) (L.output link.old))
        (moment service.new (L.input link.new) (L.output link.new)) result
        × TurnWaits (L.not_ready link.old) (L.not_ready link.new) result }
{
    match send(connection, link) {
        Err(error) => return PolledTurn::Over(Err(error)),
        Ok(Polled::Pending) => return PolledTurn::Waiting,
        Ok(Polled::Ready(_)) => {}
    }
    'steps: loop {
        if are_used_up(messages) {
            return PolledTurn::Spent;
        }
        match poll_step(connection, alloc, link, service, *left > 0) {
            Err(error) => return PolledTurn::Over(Err(error)),
            Ok(Polled::Pending) => return PolledTurn::Waiting,
            Ok(Polled::Ready(Step::Hungry)) => {
                connection.close();
                return PolledTurn::Over(Err(ProcessError::TurnLimit));
            }
            Ok(Polled::Ready(Step::Ended)) => return PolledTurn::Over(Ok(())),
            Ok(Polled::Ready(Step::MoreRead)) => *left -= 1,
            Ok(Polled::Ready(Step::Answered)) => messages = take_one(messages),
            Ok(Polled::Ready(Step::Silent)) => messages = take_one(messages),
        }
    }
}

// How a turn without a limit ends.
fn without_limit(turn: PolledTurn) -> Polled<Result<(), ProcessError>>
    requires { turn ≢ PolledTurn.Spent }
    ensures { result ≡ poll_of turn }
{
    match turn {
        PolledTurn::Waiting => Polled::Pending,
        PolledTurn::Spent => unreachable!(),
        PolledTurn::Over(answer) => Polled::Ready(answer),
    }
}

/// A server of one connection over a link that may not be ready. It keeps what it needs between two polls: the bytes that were read and
/// not used, those of the last reply that were not written, and how many reads may still give bytes.
#[derive(Drop)]
pub struct PolledProcess<I: Framing> {
    connection: Connection<I>,
    left: u64,
    alloc: Global,
}

impl<I: Framing> Model for PolledProcess<I> {
    ghost use Rattle.modbus_server.specs.Polled.{PolledProcessState};

    ghost Value = { PolledProcessState };

    ghost view = { λ polled. record { connection = polled.connection; left = polled.left } };
}

impl<I: Framing> PolledProcess<I> {
    /// A server of a connection that begins, with at most `turns` reads that give bytes. It keeps the allocator.
    ///
    /// # Errors
    /// `AllocError` where memory is refused.
    pub fn open(alloc: Global, turns: u64) -> Result<PolledProcess<I>, AllocError>
        ensures held { IfOk result (λ polled. polled.connection.held ≡ []) }
        ensures waiting { IfOk result (λ polled. polled.connection.waiting ≡ []) }
        ensures open { IfOk result (λ polled. IsTrue polled.connection.is_open) }
        ensures left { IfOk result (λ polled. polled.left ≡ turns) }
        ensures stands { I.framing.StandsFor [] [] [] [] }
    {
        Ok(PolledProcess {
            connection: Connection::open(alloc)?,
            left: turns,
            alloc,
        })
    }

    /// Whether it goes on: no poll answered `Ready`.
    pub fn is_open(&self) -> bool
        ensures { result ≡ self.now.connection.is_open }
    {
        self.connection.is_open()
    }

    /// Serves the link as far as it is ready. It writes a reply whole before it reads on or asks about the next request.
    ///
    /// `Pending` comes only where the link was not ready, and then the next poll goes on from there. `Ready` is the answer that serving
    /// the whole input gives, as by `serve_link`, with the same causes over all polls; a clean line is served to its end.
    ///
    /// # Errors
    /// Those of `serve_link`; `ReadFault` and `WriteFault` only where the link's count rose in this poll.
    pub fn poll<L: PolledLink, V: Answerer>(
        &mut self,
        link: &mut L,
        service: &mut V,
    ) -> Polled<Result<(), ProcessError>>
        requires { IsTrue self.old.connection.is_open }
        ensures polled { PolledTo I.framing V.answering self.old self.new
            (moment service.old (L.input link.old) (L.output link.old))
            (moment service.new (L.input link.new) (L.output link.new)) result }
        ensures waits { PollWaits (L.not_ready link.old) (L.not_ready link.new) result }
        ensures ran { RunsWhole I.framing V.answering self.old
            (moment service.old (L.input link.old) (L.output link.old))
            (moment service.new (L.input link.new) (L.output link.new)) result }
    {
        clean_lines_are_served::<I, V>();
        let turn = poll_connection(
            &mut self.connection,
            &mut self.left,
            None,
            self.alloc,
            link,
            service,
        );
        without_limit(turn)
    }

    /// Serves the link as `poll` does, but for no more messages than these: those that were answered, with those that nobody answers, as a
    /// broadcast. So a peer that sends many at once does not keep others waiting.
    ///
    /// The reply to the last of them is written before it ends for their count, and `Waiting` comes only where the link was not ready. All
    /// turns together, and polls between them, serve the input as one call of `serve_link` does.
    ///
    /// # Errors
    /// Those of `poll`, in `Over`.
    pub fn poll_turn<L: PolledLink, V: Answerer>(
        &mut self,
        link: &mut L,
        service: &mut V,
        messages: u64,
    ) -> PolledTurn
        requires { IsTrue self.old.connection.is_open }
        ensures turn { TurnsTo I.framing V.answering (Some messages) self.old self.new
            (moment service.old (L.input link.old) (L.output link.old))
            (moment service.new (L.input link.new) (L.output link.new)) result }
        ensures waits { TurnWaits (L.not_ready link.old) (L.not_ready link.new) result }
        ensures ran { RunsWhole I.framing V.answering self.old
            (moment service.old (L.input link.old) (L.output link.old))
            (moment service.new (L.input link.new) (L.output link.new)) (poll_of result) }
    {
        clean_lines_are_served::<I, V>();
        poll_connection(
            &mut self.connection,
            &mut self.left,
            Some(messages),
            self.alloc,
            link,
            service,
        )
    }
}
