//! One call over a link that may not be ready, which goes on where it stopped.
ghost use Rattle.std.specs.Prelude.{◌≡◌, length, IsTrue, not, is_some};
ghost use Rattle.modbus_link.specs.Polled.{is_pending};
ghost use Rattle.modbus_frame.specs.Meaning.{meaning};
ghost use Rattle.modbus_client.specs.Polled.{CallPolled, AsksWhole, OpensPolled};
ghost use Rattle.modbus_client.specs.Silenced.{CallSilenced};
ghost use Rattle.modbus_link.specs.Outside.{outside};

use crate::call::Call;
use crate::drive::{open, poll};
use crate::protocol::{LineProtocol, Protocol};
use bytes::BytesMut;
use modbus_frame::{Error, Request, Response, Result};
use modbus_link::{Polled, PolledLink};
use std::alloc::Global;
use std::marker::Model;

/// A call of one protocol over a link that may not be ready. It keeps what it needs between two polls: the bytes of the request that were
/// not written, those that were read and not used, and how many reads gave bytes.
#[derive(Drop)]
pub struct PolledCall<P: Protocol> {
    call: Call<P>,
    held: BytesMut,
    is_open: bool,
    alloc: Global,
}

impl<P: Protocol> Model for PolledCall<P> {
    ghost use Rattle.modbus_client.specs.Call.{holding};
    ghost use Rattle.modbus_client.specs.Polled.{PolledCallState};

    ghost Value = { PolledCallState };

    ghost view = { λ polled. record { call = holding polled.call polled.held; is_open = polled.is_open } };
}

impl<P: Protocol> PolledCall<P> {
    /// A call of this request under this header, with at most `turns` reads that give bytes.
    ///
    /// # Errors
    /// Those of a call that is opened.
    pub fn open(
        alloc: Global,
        header: P::Header,
        request: &Request<'_>,
        turns: u64,
    ) -> std::result::Result<PolledCall<P>, Error>
        ensures { OpensPolled P.protocol header (meaning request.now) turns result }
    {
        let mut held = BytesMut::new(alloc);
        match open::<P>(alloc, header, request, turns, &mut held) {
            Err(error) => Err(error),
            Ok(call) => Ok(PolledCall {
                call,
                held,
                is_open: true,
                alloc,
            }),
        }
    }

    /// Whether it goes on: no poll answered `Ready`.
    pub fn is_open(&self) -> bool
        ensures { result ≡ self.now.is_open }
    {
        self.is_open
    }

    /// How many bytes are held that were read and not used.
    pub fn held(&self) -> usize
        ensures { result ≡ length self.now.call.held }
    {
        self.held.len()
    }

    /// How many messages of other requests all polls dropped: ADUs of another transaction or unit, for a call that drops them, and else 0.
    /// The count stands still at the end of its type.
    pub fn dropped(&self) -> u64
        ensures { result ≡ self.now.call.dropped }
    {
        self.call.dropped()
    }

    /// Writes the request and waits for the reply, as far as the link is ready. It reads only once the request is written whole, and each
    /// read has room for `ROOM` bytes.
    ///
    /// `Pending` comes only where the link was not ready, and then the next poll goes on from there. `Ready` is the answer of a connected
    /// client's `call`, with the same causes over all polls.
    ///
    /// # Errors
    /// Those of `call` but `NotConnected` and `RequestTooLong`; `ReadFault` and `WriteFault` only where the link's count rose in this poll.
    pub fn poll<L: PolledLink>(&mut self, link: &mut L) -> Polled<Result<Response>>
        requires { IsTrue self.old.is_open }
        ensures polled { CallPolled P.protocol (outside (L.input link.old) (L.output link.old))
            (outside (L.input link.new) (L.output link.new)) (L.not_ready link.old)
            (L.not_ready link.new) self.old.call self.new.call result }
        ensures asked { AsksWhole P.protocol (outside (L.input link.old) (L.output link.old))
            (outside (L.input link.new) (L.output link.new)) self.old.call self.new.call result }
        ensures line { L.line link.new ≡ L.line link.old }
        ensures open { self.new.is_open ≡ is_pending result }
    {
        let answer = poll(&mut self.call, &mut self.held, self.alloc, link);
        self.is_open = answer.is_pending();
        answer
    }
}

impl<P: LineProtocol> PolledCall<P> {
    /// Takes note that the line is silent, which ends every frame, and looks for the reply in what is held. `None` where there is none: what
    /// is held is noise then and is dropped, and the call waits on, with the reads that are left of those that may give bytes. Messages
    /// that were dropped are counted anew from then on.
    ///
    /// # Errors
    /// Those of `call` that the bytes of a reply give.
    pub fn fall_silent(&mut self) -> Option<Result<Response>>
        requires { IsTrue self.old.is_open }
        ensures silent { CallSilenced P.protocol P.silent self.old.call self.new.call result }
        ensures open { self.new.is_open ≡ not (is_some result) }
    {
        let answer = self.call.fall_silent(self.alloc, &mut self.held);
        self.is_open = answer.is_none();
        answer
    }
}
