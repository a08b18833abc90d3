//! The answer to one message: its PDU is decoded, the service is asked, and the reply is framed.
ghost use Rattle.std.specs.Prelude.{◌+◌, ◌<◌, ◌≤◌, ◌≡◌, [], length};
ghost use Rattle.std.specs.Result.{ForErr};
ghost use Rattle.modbus_frame.specs.Codes.{function_number};
ghost use Rattle.modbus_pdu.specs.Message.{message};
ghost use Rattle.modbus_server.specs.Answer.{FramesAs, AnswersAs};

use crate::error::{Next, NextError};
use crate::framing::Framing;
use bytes::BytesMut;
use modbus_frame::{EncodeError, ExceptionResponse, PduError, Response, SlaveRequest};
use modbus_service::{Answerer, ServiceError};
use std::alloc::Global;

/// Frames what a service answered into an empty buffer that has room for it.
#[inline(always)]
fn frame<I: Framing>(
    alloc: Global,
    header: I::Header,
    answer: &Result<Response, ExceptionResponse>,
    reply: &mut BytesMut,
) -> Result<Next, NextError<I::Fault>>
    requires function { ForErr answer.now (λ refusal. function_number refusal.function < 0x80) }
    requires empty { reply.old.items ≡ [] }
    requires space { I.framing.reply_room ≤ reply.old.spare }
    ensures frames { FramesAs I.framing (I.header_of header) answer.now result reply.new.items }
    ensures space { I.framing.reply_room ≤ length reply.new.items + reply.new.spare }
{
    match I::encode_answer(alloc, header, answer, reply) {
        Ok(()) => Ok(Next::Reply),
        Err(EncodeError::TooLong(size)) => Err(NextError::TooLong(size)),
        Err(EncodeError::NoMemory) => unreachable!(),
    }
}

/// Frames an exception into an empty buffer that has room for it.
// One for each service, though it asks none: so it has one caller, and LLVM takes it in.
fn refuse<I: Framing, V: Answerer>(
    alloc: Global,
    header: I::Header,
    refusal: ExceptionResponse,
    reply: &mut BytesMut,
) -> Result<Next, NextError<I::Fault>>
    requires function { function_number refusal.function < 0x80 }
    requires empty { reply.old.items ≡ [] }
    requires space { I.framing.reply_room ≤ reply.old.spare }
    ensures frames { FramesAs I.framing (I.header_of header) (Err refusal) result reply.new.items }
    ensures space { I.framing.reply_room ≤ length reply.new.items + reply.new.spare }
{
    frame::<I>(alloc, header, &Err(refusal), reply)
}

/// Asks the service what a message asks, and frames the reply into an empty buffer that has room for it.
// What the service answers is framed where it is told, so that no answer is moved.
#[inline(always)]
pub(crate) fn answer<I: Framing, V: Answerer>(
    alloc: Global,
    service: &mut V,
    header: I::Header,
    pdu: &[u8],
    reply: &mut BytesMut,
) -> Result<Next, NextError<I::Fault>>
    requires empty { reply.old.items ≡ [] }
    requires space { I.framing.reply_room ≤ reply.old.spare }
    ensures answers { AnswersAs I.framing V.answering (message (I.header_of header) pdu.now)
        service.old result service.new reply.new.items }
    ensures space { I.framing.reply_room ≤ length reply.new.items + reply.new.spare }
{
    let request = match I::decode(alloc, pdu) {
        Ok(request) => request,
        Err(PduError::Refused(reason)) => return Err(NextError::Refused(reason)),
        Err(PduError::NoMemory) => return Err(NextError::NoMemory),
    };
    let slave = I::slave(header);
    let function = request.function_code();
    match service.ask(alloc, SlaveRequest { slave, request }) {
        Ok(None) => Ok(Next::Silent),
        Ok(Some(response)) => frame::<I>(alloc, header, &Ok(response), reply),
        Err(ServiceError::Exception(exception)) => {
            let refusal = ExceptionResponse {
                function,
                exception,
            };
            refuse::<I, V>(alloc, header, refusal, reply)
        }
        Err(ServiceError::NoMemory) => Err(NextError::NoMemory),
    }
}
