//! One turn of a connection.
ghost use Rattle.std.specs.Prelude.{◌≡◌, ◌≤◌, length, IsTrue};
ghost use Rattle.modbus_link.specs.Line.{meaning_of};
ghost use Rattle.modbus_link.specs.Outside.{Rose, cuts_made};
ghost use Rattle.modbus_hub.specs.Turn.{is_going_on, GaveIfTold, TakesTurn};

use crate::rationed::Rationed;
use modbus_link::PolledLink;
use modbus_server::laws::polled_lines_are_served;
use modbus_server::{Answerer, Framing, PolledProcess, PolledTurn, ProcessError};

/// What a turn came to.
#[derive(Clone, Copy, Debug, PartialEq, Eq, Drop)]
pub enum Turn {
    /// The link was not ready: the connection goes on once it may be.
    Waiting,
    /// The turn was cut off by its limits: the connection goes on, and its link may be ready.
    Spent,
    /// The connection was over, with this answer.
    Over(Result<(), ProcessError>),
}

/// A turn that was taken.
#[derive(Clone, Copy, Debug, PartialEq, Eq, Drop)]
pub struct Taken {
    /// What it came to.
    pub turn: Turn,
    /// Whether its link gave bytes.
    pub has_bytes: bool,
}

/// What one turn of a connection may take. With none of either, no connection is ever served.
#[derive(Clone, Copy, Debug, PartialEq, Eq, Drop)]
pub struct TurnLimits {
    /// How many reads may give bytes. It bounds what is no message, as noise or a part of one.
    pub reads: u64,
    /// How many messages may be taken: those that are answered, with those that nobody answers. One read may give many.
    pub messages: u64,
}

/// Serves a connection as far as its link is ready, within the limits of a turn, at its turn at the service.
///
/// Whatever other connections did before and do after, the connection is served as `process` serves one that is alone: what it has written
/// is the replies to its own messages, in order, each once, and once it is over the answer is the one that `process` gives, with its
/// cause. The turn says by which exchanges the service went on, so one run of it goes over what all connections asked, in the order of their
/// turns. A turn that is not over leaves no message unanswered, but where a reply waits to be written, or its messages are used up. It tells
/// whether its link gave bytes.
///
/// # Errors
/// Those of `PolledProcess::poll_turn` are in `Over`.
pub fn take_turn<I: Framing, L: PolledLink, V: Answerer>(
    process: &mut PolledProcess<I>,
    link: &mut L,
    service: &mut V,
    limits: TurnLimits,
) -> Taken
    requires { IsTrue process.old.connection.is_open }
    ensures open { process.new.connection.is_open ≡ is_going_on result.turn }
    ensures turn { TakesTurn I.framing V.answering (meaning_of L.input L.output L.line) limits
        (record { link = link.old; process = process.old })
        (record { link = link.new; process = process.new }) service.old service.new result.turn }
    ensures waited { result.turn ≡ Turn.Waiting
        → Rose (L.not_ready link.old) (L.not_ready link.new) }
    ensures came { GaveIfTold (meaning_of L.input L.output L.line) link.old link.new
        result.has_bytes }
    ensures bounded { IsTrue (L.input link.old).told
        → length (cuts_made (L.input link.old) (L.input link.new)) ≤ limits.reads }
{
    polled_lines_are_served::<I, V>();
    let mut rationed = Rationed::new(link, limits.reads);
    let answer = process.poll_turn(&mut rationed, service, limits.messages);
    let has_bytes = rationed.left < limits.reads;
    match answer {
        PolledTurn::Over(result) => Taken {
            turn: Turn::Over(result),
            has_bytes,
        },
        PolledTurn::Spent => Taken {
            turn: Turn::Spent,
            has_bytes,
        },
        PolledTurn::Waiting if rationed.refused > 0 => Taken {
            turn: Turn::Spent,
            has_bytes,
        },
        PolledTurn::Waiting => Taken {
            turn: Turn::Waiting,
            has_bytes,
        },
    }
}
