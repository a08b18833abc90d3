//! The devices of a line that is opened anew where it broke.
ghost use Rattle.std.specs.Prelude.{◌≡◌, Bool, Option};
ghost use Rattle.modbus_frame.specs.Meaning.{meaning};
ghost use Rattle.modbus_service.specs.Answering.{Keeps};
ghost use Rattle.std.specs.Option.{is_some};
ghost use Rattle.modbus_gateway.specs.Told.{line_change, TellsIf};
ghost use Rattle.modbus_gateway.specs.Reopened.{is_broken_line, OpensIfNone, if_open, left_of, reopened};

use crate::gateway::Forwarder;
use crate::serial::SerialLine;
use crate::watcher::{Watcher, line_change, tell_if};
use modbus_frame::{ExceptionCode, Response, SlaveRequest};
use modbus_reconnect::Unsettled;
use modbus_service::ServiceError;
use std::marker::Model;

/// A line that may break, so that it has to be opened anew.
pub trait MayBreak {
    // whether it broke
    ghost broken: { Self → Bool };

    /// Whether it broke, so that nothing can be sent on it any more.
    fn is_broken(&self) -> bool
        ensures { result ≡ broken self.now };
}

/// A line is broken where a write to it failed, or where its last call found that it had ended or can't be read.
impl<L> MayBreak for SerialLine<L> {
    ghost broken = { is_broken_line };

    fn is_broken(&self) -> bool {
        if self.client().link().is_none() {
            return true;
        }
        match self.client().unsettled() {
            Some(Unsettled::ReadFault | Unsettled::Ended) => true,
            Some(Unsettled::StillSending) | None => false,
        }
    }
}

/// What opens a line.
pub trait LineOpener<C> {
    // what an opening may lead to
    ghost opens: { Self → Option C → Self → Type 0 };

    /// The line; `None` where it can't be opened now.
    fn open(&mut self) -> Option<C>
        ensures { opens self.old result self.new };
}

/// What reaches the devices of a line that is opened anew where it broke, by the next request. Where it can't be opened a request is answered
/// by exception 0A (gateway path unavailable), and nothing is sent.
///
/// Its watcher is told once that the line is lost, as it is given up, and once that it is back, as it is open again.
#[derive(Drop)]
pub struct Reopened<O, W, C> {
    opener: O,
    watcher: W,
    line: Option<C>,
}

/// A contract sees what opens the line, who is told, and the line where it is open.
impl<O, W, C> Model for Reopened<O, W, C> {
    ghost use Rattle.modbus_gateway.specs.Reopened.{ReopenedState};

    ghost Value = { ReopenedState O W C };

    ghost view = { λ it. record { opener = it.opener; watcher = it.watcher; line = it.line } };
}

impl<O, W, C> Reopened<O, W, C> {
    /// What reaches the devices of this line, which `opener` opens anew where it broke, and tells `watcher` of both.
    pub fn new(opener: O, watcher: W, line: Option<C>) -> Reopened<O, W, C>
        ensures { result ≡ record { opener = opener; watcher = watcher; line = line } }
    {
        Reopened {
            opener,
            watcher,
            line,
        }
    }
}

/// Opens a line where there is none.
fn open_if_none<O: LineOpener<C>, C: Drop>(opener: &mut O, line: &mut Option<C>)
    ensures { OpensIfNone O.opens opener.old line.old opener.new line.new }
{
    if line.is_none() {
        *line = opener.open();
    }
}

/// Forwards a request on a line, where there is one.
fn forward_if_open<C: Forwarder>(
    line: &mut Option<C>,
    request: SlaveRequest<'_>,
) -> Result<Option<Response>, ServiceError>
    ensures { Keeps (if_open C.forwarding) line.old request.entry.slave
        (meaning request.entry.request) result line.new }
{
    match line {
        Some(line) => line.forward(request),
        None => Err(ServiceError::Exception(ExceptionCode::GatewayPathUnavailable)),
    }
}

/// Gives a line up that broke.
fn give_up_broken<C: MayBreak + Drop>(line: &mut Option<C>)
    ensures { line.new ≡ left_of C.broken line.old }
{
    let is_broken = match line {
        Some(line) => line.is_broken(),
        None => false,
    };
    if is_broken {
        *line = None;
    }
}

/// Opens a line where there is none, and tells that it is back.
fn open_and_tell<O: LineOpener<C>, W: Watcher, C: Drop>(
    opener: &mut O,
    watcher: &mut W,
    line: &mut Option<C>,
)
    ensures opens { OpensIfNone O.opens opener.old line.old opener.new line.new }
    ensures tells { TellsIf W.tells (line_change (is_some line.old) (is_some line.new))
        watcher.old watcher.new }
{
    let was_open = line.is_some();
    open_if_none(opener, line);
    tell_if(watcher, line_change(was_open, line.is_some()));
}

/// Gives a line up that broke, and tells that it is lost.
fn give_up_and_tell<W: Watcher, C: MayBreak + Drop>(watcher: &mut W, line: &mut Option<C>)
    ensures left { line.new ≡ left_of C.broken line.old }
    ensures tells { TellsIf W.tells (line_change (is_some line.old) (is_some line.new))
        watcher.old watcher.new }
{
    let was_open = line.is_some();
    give_up_broken(line);
    tell_if(watcher, line_change(was_open, line.is_some()));
}

impl<O, W, C> Forwarder for Reopened<O, W, C>
where
    O: LineOpener<C> + Drop,
    W: Watcher + Drop,
    C: Forwarder + MayBreak + Drop,
{
    ghost forwarding = { reopened (record { opens = O.opens; broken = C.broken; tells = W.tells })
        C.forwarding };

    #[tactic(auto, using(crate::proofs::Reopening::keeps_reopened))]
    fn forward(&mut self, request: SlaveRequest<'_>) -> Result<Option<Response>, ServiceError> {
        open_and_tell(&mut self.opener, &mut self.watcher, &mut self.line);
        let answer = forward_if_open(&mut self.line, request);
        give_up_and_tell(&mut self.watcher, &mut self.line);
        answer
    }
}
