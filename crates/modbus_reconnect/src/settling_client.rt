//! A client of a line, which is no connection that can be made anew.
ghost use Rattle.std.specs.Prelude.{◌≡◌, ◌↔◌, ℕ, List, length, not, false, Ok, Some, IsNone, IfSome};
ghost use Rattle.modbus_link.specs.Line.{meaning_of};
ghost use Rattle.modbus_frame.specs.Meaning.{meaning, Custom};
ghost use Rattle.modbus_reconnect.specs.SettleState.{line_by, unsettled_client};
ghost use Rattle.modbus_reconnect.specs.Looks.{ClearsLine};
ghost use Rattle.modbus_reconnect.specs.Owes.{leaves_nothing};
ghost use Rattle.modbus_reconnect.specs.Replies.{fitted};
ghost use Rattle.modbus_reconnect.specs.OnLine.{quiet_time, quiet_silences, ClearsIf, AsksOn, CallsStanding, CallsRaw, read_raw};
ghost use Rattle.modbus_reconnect.specs.Tells.{SendsStanding};

mod begin;

use crate::looking::look_at;
use crate::owing::leaves_nothing;
use crate::reply::fitted;
use crate::settling::{Unsettled, settle};
use crate::silences::{silences_for, time_or};
use crate::telling::{is_sent, told_of};
use crate::waiting::ask;
use modbus_client::{AsItCame, Client, IdleLink, LineProtocol, Protocol, RawLineProtocol, TURNS};
use modbus_frame::{
    Error, Request, Response, Result, ShutdownFault, Slave, SlaveContext, TransportError,
};
use modbus_link::TimedLink;
use std::alloc::Global;
use std::borrow::CowSlice;
use std::marker::Model;
use std::time::Duration;

/// How many bytes of a line may be dropped until it is silent, until a client is told otherwise.
const LIMIT: usize = 4096;

/// A client of the slaves of one line, as a serial line, which tells silence.
///
/// A late reply can't be told from the next one there, so each call begins on a line on which nothing is owed. After an answer that is no
/// reply to the request, and after a reply with bytes behind it, the line is in doubt. The next call then reads and drops what still comes,
/// until the line was silent for a while, before it sends its request. A line that is not in doubt is looked at before a request is sent:
/// what came there since the last call was not asked for, so it is dropped, and the line settled as one in doubt.
///
/// While a call waits for its reply, a silence ends the frames that came: the reply is looked for in them, and what is none is noise and is
/// dropped. The call waits on until as many silences came as its timeout has. A reply with a silence inside is none.
#[derive(Drop)]
pub struct SettlingClient<P: LineProtocol, L> {
    link: L,
    is_connected: bool,
    in_doubt: bool,
    is_turning: bool,
    unsettled: Option<Unsettled>,
    dropped: usize,
    slave: Slave,
    turns: u64,
    timeout: Option<Duration>,
    silence: Duration,
    quiet: Duration,
    limit: usize,
    turnaround: Option<Duration>,
    ids: P::Ids,
    alloc: Global,
}

/// A contract sees the link, whether it is used, whether it is in doubt and why it stayed so, how many bytes were dropped before the last
/// request, the settings, and what the protocol keeps between calls.
impl<P: LineProtocol, L> Model for SettlingClient<P, L> {
    ghost use Rattle.modbus_reconnect.specs.SettleState.{SettlingState};

    ghost Value = { SettlingState P.Ids L };

    ghost view = { λ it. record {
      link = it.link;
      is_connected = it.is_connected;
      in_doubt = it.in_doubt;
      is_turning = it.is_turning;
      unsettled = it.unsettled;
      dropped = it.dropped;
      settings = record { slave = it.slave.0; turns = it.turns; timeout = it.timeout; silence = it.silence; quiet = it.quiet; limit = it.limit; turnaround = it.turnaround };
      ids = it.ids;
    } };
}

impl<P: LineProtocol, L> SettlingClient<P, L> {
    /// A client of a slave over a line that tells silences of this length. It takes no memory yet.
    ///
    /// What lies on the line is not known, so it is in doubt at first. A line is settled by one silence, and no more than 4096 bytes of it
    /// are dropped, until the client is told otherwise.
    pub fn new(alloc: Global, link: L, slave: Slave, silence: Duration) -> SettlingClient<P, L>
        ensures { result ≡ unsettled_client P.heading link slave.0 silence }
    {
        SettlingClient {
            link,
            is_connected: true,
            in_doubt: true,
            is_turning: false,
            unsettled: None,
            dropped: 0,
            slave,
            turns: TURNS,
            timeout: None,
            silence,
            quiet: silence,
            limit: LIMIT,
            turnaround: None,
            ids: P::first_ids(),
            alloc,
        }
    }

    /// How many reads of a call may give bytes from then on; `TURNS` at first.
    pub fn set_turns(&mut self, turns: u64)
        ensures { self.new ≡ record self.old {
          settings = record self.old.settings { turns = turns };
        } }
    {
        self.turns = turns;
    }

    /// For how long a line in doubt has to be silent from then on before a request is sent, and how many bytes may come until then.
    ///
    /// A late reply is dropped where it comes within that time after the timeout of its call. So the two together are to be longer than the
    /// longest time that a device takes.
    pub fn set_quiet(&mut self, quiet: Duration, limit: usize)
        ensures { self.new ≡ record self.old {
          settings = record self.old.settings { quiet = quiet; limit = limit };
        } }
    {
        self.quiet = quiet;
        self.limit = limit;
    }

    /// For how long the line has to be silent from then on after a `send` before the next request; as `set_quiet` says until then.
    ///
    /// It is the turnaround delay, in which the slaves do what was asked, typically of 100 to 200 milliseconds (MODBUS over Serial Line V1.02,
    /// section 2.4.1). After a fault the line has to be silent for as long as `set_quiet` says.
    pub fn set_turnaround(&mut self, turnaround: Duration)
        ensures { self.new ≡ record self.old {
          settings = record self.old.settings { turnaround = Some turnaround };
        } }
    {
        self.turnaround = Some(turnaround);
    }

    /// For how long the line has to be silent before the next request, where it is settled.
    fn quiet_time(&self) -> Duration
        ensures { result ≡ quiet_time self.now }
    {
        if self.is_turning {
            time_or(self.turnaround, self.quiet)
        } else {
            self.quiet
        }
    }

    /// Whether a reply may still come that was not taken, so that the next call settles the line first.
    pub fn is_in_doubt(&self) -> bool
        ensures { result ≡ self.now.in_doubt }
    {
        self.in_doubt
    }

    /// Why the last call found the line unsettled and sent nothing; none where it did not.
    pub fn unsettled(&self) -> Option<Unsettled>
        ensures { result ≡ self.now.unsettled }
    {
        self.unsettled
    }

    /// How many bytes the last call or `send` found on the line and dropped before it sent its request; 0 where it sent nothing.
    pub fn dropped(&self) -> usize
        ensures { result ≡ self.now.dropped }
    {
        self.dropped
    }

    /// The link; `None` exactly where the client is disconnected.
    pub fn link(&self) -> Option<&L>
        ensures none { IsNone result ↔ (self.now.is_connected ≡ false) }
        ensures some { IfSome result (λ link. link.now ≡ self.now.link) }
    {
        if self.is_connected {
            Some(&self.link)
        } else {
            None
        }
    }
}

impl<P: LineProtocol, L> SettlingClient<P, L> {
    /// Takes note of what a call found, and of how many bytes it read and did not use, and tells it.
    fn conclude(
        &mut self,
        request: &Request<'_>,
        answer: Result<Response>,
        held: usize,
    ) -> Result<Response>
        ensures told { result ≡ fitted (meaning request.now) answer }
        ensures doubt { (bytes : List ℕ) → length bytes ≡ held
            → self.new ≡ record self.old {
              in_doubt = not (leaves_nothing (meaning request.now) answer bytes);
              is_turning = false;
            } }
    {
        self.in_doubt = !leaves_nothing(request, &answer, held);
        self.is_turning = false;
        fitted(request, answer)
    }
}

impl<P: LineProtocol, L: TimedLink + IdleLink> SettlingClient<P, L> {
    /// Drops what came on the line and was not read, and answers how many bytes that were. A line in doubt is settled; any other is looked
    /// at, and settled where something came.
    ///
    /// # Errors
    /// Those of `settle`.
    fn clear_line(&mut self) -> std::result::Result<usize, Unsettled>
        ensures clears { ClearsLine
            (line_by P.protocol P.silent P.heading (meaning_of L.input L.output L.line) L.not_ready L.looks)
            (quiet_silences self.old) self.old.settings.limit self.old.in_doubt
            self.old.link self.new.link result }
        ensures rest { self.new ≡ record self.old { link = self.new.link } }
    {
        let silences = silences_for(Some(self.quiet_time()), self.silence);
        if self.in_doubt {
            return settle(&mut self.link, silences, self.limit);
        }
        match look_at(&mut self.link) {
            Ok(0) => Ok(0),
            Ok(found) => {
                match settle(&mut self.link, silences, self.limit.saturating_sub(found)) {
                    Ok(more) => Ok(found + more),
                    Err(reason) => Err(reason),
                }
            }
            Err(reason) => Err(reason),
        }
    }

    /// Clears the line. Whether nothing is owed on it then.
    fn clear(&mut self) -> bool
        ensures { ClearsIf result
            (line_by P.protocol P.silent P.heading (meaning_of L.input L.output L.line) L.not_ready L.looks)
            self.old self.new }
    {
        match self.clear_line() {
            Ok(dropped) => {
                self.in_doubt = false;
                self.is_turning = false;
                self.unsettled = None;
                self.dropped = dropped;
                true
            }
            Err(reason) => {
                self.in_doubt = true;
                self.is_turning = false;
                self.unsettled = Some(reason);
                self.dropped = 0;
                false
            }
        }
    }

    /// Sends a request, and waits for its reply, with at most `turns` reads that give bytes.
    fn ask(&mut self, request: &Request<'_>, turns: u64) -> Result<Response>
        ensures { AsksOn
            (line_by P.protocol P.silent P.heading (meaning_of L.input L.output L.line) L.not_ready L.looks)
            self.old (meaning request.now) turns result self.new }
    {
        let header = P::draw(&mut self.ids, self.slave);
        let silences = silences_for(self.timeout, self.silence);
        let (answer, held) = ask::<P, L>(
            self.alloc,
            &mut self.link,
            header,
            request,
            turns,
            silences,
        );
        self.conclude(request, answer, held)
    }

    /// Sends a request to which no slave replies, as a broadcast (MODBUS over Serial Line V1.02, section 2.1), and reads nothing of a
    /// reply. The line is cleared first, as it is for a call.
    ///
    /// After it the line is in doubt, so that the next request waits until the line was silent, for as long as `set_turnaround` says: the
    /// slaves have that time to do what was asked (section 2.4.1), and a slave that replies nevertheless is not heard.
    ///
    /// # Errors
    /// `NotConnected` where the client is disconnected, and where the line did not settle; then nothing is sent. `RequestTooLong` with
    /// the size of the PDU in bytes, exactly where that is above 253; nothing is sent of it. `WriteFault` only where the link's count of
    /// write faults rose. `ReadFault` where the link took no more for as long as a reply is waited for. `NoMemory` where memory is refused.
    pub fn send(&mut self, request: Request<'_>) -> std::result::Result<(), Error>
        ensures { SendsStanding
            (line_by P.protocol P.silent P.heading (meaning_of L.input L.output L.line) L.not_ready L.looks)
            self.old (meaning request.entry) result self.new }
    {
        if !self.is_connected || !self.clear() {
            return Err(Error::Transport(TransportError::NotConnected));
        }
        let answer = self.ask(&request, 0);
        let told = told_of(answer);
        self.is_turning = is_sent(&told);
        told
    }
}

impl<P: RawLineProtocol, L: TimedLink + IdleLink> SettlingClient<P, L> {
    /// Sends a request, and waits for its reply, whose bytes are given as they came.
    fn ask_raw(&mut self, request: &Request<'_>) -> Result<Response>
        ensures { AsksOn
            (read_raw (line_by P.protocol P.silent P.heading (meaning_of L.input L.output L.line) L.not_ready L.looks))
            self.old (meaning request.now) self.old.settings.turns result self.new }
    {
        let header = P::draw(&mut self.ids, self.slave);
        let silences = silences_for(self.timeout, self.silence);
        let (answer, held) = ask::<AsItCame<P>, L>(
            self.alloc,
            &mut self.link,
            header,
            request,
            self.turns,
            silences,
        );
        self.conclude(request, answer, held)
    }

    /// Asks for a function by its code, with the bytes that follow it in the PDU, and gives those of the reply as they came: a `Custom`
    /// response of that code, or the exception. So it reads also what no kind of response has room for, and functions of a maker's own.
    ///
    /// # Errors
    /// Those of `call`; `InvalidResponse` only where a reply has no function code or no exception code. An answer of another function is
    /// `FunctionCodeMismatch`.
    pub fn call_raw(&mut self, function: u8, data: &[u8]) -> Result<Response>
        ensures { CallsRaw
            (line_by P.protocol P.silent P.heading (meaning_of L.input L.output L.line) L.not_ready L.looks)
            self.old (Custom function data.now) result self.new }
    {
        if !self.is_connected || !self.clear() {
            return Err(Error::Transport(TransportError::NotConnected));
        }
        self.ask_raw(&Request::Custom(function, CowSlice::Borrowed(data)))
    }
}

impl<P: LineProtocol, L> SlaveContext for SettlingClient<P, L> {
    ghost selected = { λ client. client.settings.slave };

    ghost set_slave_gives = { λ old slave new.
        new ≡ record old { settings = record old.settings { slave = slave } } };

    fn set_slave(&mut self, slave: Slave) {
        self.slave = slave;
    }
}

impl<P: LineProtocol, L: TimedLink + IdleLink + Send + Drop> Client for SettlingClient<P, L>
where
    P::Ids: Send,
{
    ghost answers = { CallsStanding
        (line_by P.protocol P.silent P.heading (meaning_of L.input L.output L.line) L.not_ready L.looks) };

    // Nothing is done with the line.
    ghost disconnects = { λ old result new. (result ≡ Ok tt) × (new ≡ record old { is_connected = false }) };

    ghost time_limit = { λ client. client.settings.timeout };

    ghost limits = { λ old duration new.
        new ≡ record old { settings = record old.settings { timeout = duration } } };

    fn call(&mut self, request: Request<'_>) -> Result<Response> {
        if !self.is_connected || !self.clear() {
            return Err(Error::Transport(TransportError::NotConnected));
        }
        let turns = self.turns;
        self.ask(&request, turns)
    }

    fn disconnect(&mut self) -> std::result::Result<(), ShutdownFault> {
        self.is_connected = false;
        Ok(())
    }

    fn timeout(&self) -> Option<Duration> {
        self.timeout
    }

    fn set_timeout(&mut self, duration: Option<Duration>) {
        self.timeout = duration;
    }
}
