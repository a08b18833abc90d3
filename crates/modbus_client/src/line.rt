//! The frames of a serial line as its client reads them (MODBUS over Serial Line V1.02, sections 2.4.1 and 2.5.1.1): noise is passed byte
//! by byte, a frame of another slave is passed whole, and the first frame of the slave that was asked is the reply.
ghost use Rattle.std.specs.Prelude.{◌≡◌, ◌≢◌, ℕ, ◌+◌, ◌<◌, ◌≤◌, List, length, drop, slice_index};
ghost use Rattle.modbus_rtu.specs.Limits.{overhead};
ghost use Rattle.modbus_rtu.specs.declared.verdict.Verdict.{Verdict};
ghost use Rattle.modbus_rtu.specs.declared.verdict.Verdict.TheVariants.{Open, Good};
ghost use Rattle.modbus_client.specs.LineReading.{line_verdict, silent_verdict, closed, StepsAs, DropsFront, LooksBy, TakesReply, line_protocol, silent_protocol};
ghost use Rattle.modbus_client.specs.Call.{IsOwn};
ghost use Rattle.modbus_client.specs.Rtu.{rtu_heading};

use crate::line_length::{LineRule, OVERHEAD, SilentRule};
use crate::protocol::{LineProtocol, LookError, Protocol, Reply};
use crate::raw::{RawLineProtocol, RawProtocol};
use crate::reading::{AsBytes, AsResponse, Reading};
use crate::rtu::Frames;
use bytes::BytesMut;
use modbus_frame::rtu::Header;
use modbus_frame::{EncodeError, HeaderSeen, PduError, Request, Slave};
use modbus_rtu::{Verdict, judge_by};
use std::alloc::Global;
use std::marker::Model;

/// How the front of bytes is judged.
pub(crate) trait Judge {
    // what stands at the front of bytes, for the slave that was asked
    ghost verdict: { ℕ → List ℕ → Verdict };

    /// Judges the front of bytes, which begins with a slave address if there is a frame.
    fn judge(asked: u8, adu: &[u8]) -> Verdict
        ensures exact { result ≡ verdict asked adu.now }
        ensures whole { (n : ℕ) → result ≡ Good n → n + overhead ≤ length adu.now };
}

/// While bytes come.
pub(crate) struct Coming;

impl Judge for Coming {
    ghost verdict = { λ asked. line_verdict };

    #[tactic(auto, unfolding(crate::specs::LineReading::line_verdict))]
    fn judge(_asked: u8, adu: &[u8]) -> Verdict {
        judge_by(&LineRule, adu)
    }
}

/// At a silence, where nothing is waited for.
pub(crate) struct Silent;

impl Judge for Silent {
    ghost verdict = { λ asked. silent_verdict };

    #[tactic(auto, unfolding(crate::specs::LineReading::silent_verdict))]
    fn judge(_asked: u8, adu: &[u8]) -> Verdict {
        match judge_by(&SilentRule, adu) {
            Verdict::Open => Verdict::Bad,
            verdict => verdict,
        }
    }
}

/// What stands at the front of bytes, and where the reading goes on.
#[derive(Clone, Copy, Debug, PartialEq, Eq)]
pub(crate) enum Step {
    /// More bytes are waited for.
    Waits,
    /// The frame of the slave that was asked, with the length in bytes of its PDU.
    Own(usize),
    /// Noise, or so many frames of other slaves, up to an end.
    Past { end: usize, others: u64 },
}

/// What stands at the front of bytes for the client of this slave.
fn step_at<J: Judge>(asked: u8, adu: &[u8]) -> Step
    ensures { StepsAs (J.verdict asked) asked adu.now result }
{
    if adu.is_empty() {
        return Step::Waits;
    }
    match J::judge(asked, adu) {
        Verdict::Open => Step::Waits,
        Verdict::Bad => Step::Past { end: 1, others: 0 },
        Verdict::Good(pdu_len) => {
            if adu[0] == asked {
                Step::Own(pdu_len)
            } else {
                Step::Past {
                    end: pdu_len + OVERHEAD,
                    others: 1,
                }
            }
        }
    }
}

/// Drops noise and the frames of other slaves from the front of the held bytes, and tells how many frames, and the length of the PDU of the
/// reply, if it stands there then.
fn drop_front<J: Judge>(asked: u8, held: &mut BytesMut) -> (u64, Option<usize>)
    ensures { DropsFront (J.verdict asked) asked held.old.items held.new.items result.0 result.1 }
{
    let mut dropped = 0u64;
    'front: loop {
        match step_at::<J>(asked, held.as_slice()) {
            Step::Waits => return (dropped, None),
            Step::Own(pdu_len) => return (dropped, Some(pdu_len)),
            Step::Past { end, others } => {
                held.advance(end);
                dropped = dropped.saturating_add(others);
            }
        }
    }
}

/// Takes off the frame at the front of the held bytes, whose PDU has so many bytes.
///
/// # Errors
/// `Refused` where the PDU stands for nothing; the frame is gone. `NoMemory` where memory is refused for a PDU that carries a list or bytes.
fn take_reply<R: Reading>(
    alloc: Global,
    asked: u8,
    pdu_len: usize,
    held: &mut BytesMut,
) -> std::result::Result<Reply, LookError>
    requires { pdu_len + overhead ≤ length held.old.items }
    ensures { TakesReply R.means asked pdu_len held.old.items held.new.items result }
{
    let _len = held.len();
    let end = pdu_len + OVERHEAD;
    match R::read(alloc, &held.as_slice()[1..pdu_len + 1]) {
        Ok(pdu) => {
            held.advance(end);
            Ok(Reply {
                header: Frames::seen(Header { slave_id: asked }),
                result: pdu.0,
            })
        }
        Err(PduError::Refused(reason)) => {
            held.advance(end);
            Err(LookError::Refused(reason))
        }
        Err(PduError::NoMemory) => Err(LookError::NoMemory),
    }
}

/// Looks for the reply, as the front of bytes is judged, and counts the frames of other slaves that it drops.
///
/// # Errors
/// Those of `take_reply`.
pub(crate) fn look_by<J: Judge, R: Reading>(
    others: &mut u64,
    alloc: Global,
    asked: HeaderSeen,
    held: &mut BytesMut,
) -> std::result::Result<Option<Reply>, LookError>
    ensures own { IsOwn result }
    ensures looks { LooksBy J.verdict R.means asked held.old.items held.new.items others.old
        others.new result }
{
    let (dropped, found) = drop_front::<J>(asked.slave_id, held);
    *others = others.saturating_add(dropped);
    let Some(pdu_len) = found else {
        return Ok(None);
    };
    match take_reply::<R>(alloc, asked.slave_id, pdu_len, held) {
        Ok(reply) => return Ok(Some(reply)),
        Err(error) => return Err(error),
    }
}

/// The frames of a serial line, of which the first of the slave that was asked is the reply. Noise and the frames of other slaves before it
/// are dropped. A frame has at most 256 bytes.
///
/// While bytes come, a frame ends where its length says: that of a function that tells no length waits for the line's silence.
#[derive(Drop)]
pub struct LineFrames {
    others: u64,
}

/// A contract sees how many frames of other slaves were dropped.
impl Model for LineFrames {
    ghost Value = { ℕ };

    ghost view = { λ frames. frames.others };
}

impl Protocol for LineFrames {
    type Header = Header;

    type Ids = ();

    ghost protocol = { line_protocol };

    ghost heading = { rtu_heading };

    ghost dropped_by = { λ dropped. dropped };

    fn new() -> LineFrames {
        LineFrames { others: 0 }
    }

    fn first_ids() {}

    fn draw(_ids: &mut (), slave: Slave) -> Header {
        Header { slave_id: slave.0 }
    }

    fn seen(header: Header) -> HeaderSeen {
        Frames::seen(header)
    }

    fn encode(
        alloc: Global,
        header: Header,
        request: &Request<'_>,
        buf: &mut BytesMut,
    ) -> std::result::Result<(), EncodeError> {
        Frames::encode(alloc, header, request, buf)
    }

    fn look(
        &mut self,
        alloc: Global,
        asked: HeaderSeen,
        held: &mut BytesMut,
    ) -> std::result::Result<Option<Reply>, LookError> {
        look_by::<Coming, AsResponse>(&mut self.others, alloc, asked, held)
    }

    fn dropped(&self) -> u64 {
        self.others
    }

    fn laws() {}
}

impl LineProtocol for LineFrames {
    ghost silent = { silent_protocol };

    fn look_silent(
        &mut self,
        alloc: Global,
        asked: HeaderSeen,
        held: &mut BytesMut,
    ) -> std::result::Result<Option<Reply>, LookError> {
        look_by::<Silent, AsResponse>(&mut self.others, alloc, asked, held)
    }
}

/// The PDU of a reply is read no further than its function code.
impl RawProtocol for LineFrames {
    fn look_raw(
        &mut self,
        alloc: Global,
        asked: HeaderSeen,
        held: &mut BytesMut,
    ) -> std::result::Result<Option<Reply>, LookError> {
        look_by::<Coming, AsBytes>(&mut self.others, alloc, asked, held)
    }
}

impl RawLineProtocol for LineFrames {
    fn look_silent_raw(
        &mut self,
        alloc: Global,
        asked: HeaderSeen,
        held: &mut BytesMut,
    ) -> std::result::Result<Option<Reply>, LookError> {
        look_by::<Silent, AsBytes>(&mut self.others, alloc, asked, held)
    }
}
