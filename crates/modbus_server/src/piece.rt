//! The driver of a connection over memory: the input is one piece of bytes, and ends behind it.
ghost use Rattle.std.specs.Prelude.{◌≡◌, ◌<◌, ◌≤◌, ◌++◌, [], length, IsTrue, OnOk, OnErr};
ghost use Rattle.modbus_server.specs.Piece.{ServedHeld, ServedPiece, CompletesPiece};

use crate::connection::Connection;
use crate::drive::tell_next;
use crate::error::{Next, ProcessError};
use crate::framing::Framing;
use bytes::BytesMut;
use modbus_service::Answerer;
use std::alloc::{AllocError, Global};

/// Appends the reply that waits to others.
fn keep_reply<I: Framing>(
    connection: &mut Connection<I>,
    replies: &mut BytesMut,
) -> Result<(), AllocError>
    ensures kept { OnOk result (replies.new.items ≡ replies.old.items ++ connection.old.waiting) }
    ensures none { OnErr result (replies.new.items ≡ replies.old.items) }
    ensures taken { OnOk result (connection.new ≡ record connection.old { waiting = [] }) }
    ensures stays { OnErr result (connection.new ≡ connection.old) }
{
    let reply = connection.to_write();
    replies.extend_from_slice(reply)?;
    let count = reply.len();
    connection.wrote(count);
    Ok(())
}

/// Answers the messages that are held, one after another, until the held bytes have none; the input has ended then.
fn serve_held<I: Framing, V: Answerer>(
    connection: &mut Connection<I>,
    alloc: Global,
    service: &mut V,
    replies: &mut BytesMut,
) -> Result<(), ProcessError>
    requires open { IsTrue connection.old.is_open }
    requires written { connection.old.waiting ≡ [] }
    ensures { ServedHeld I.framing V.answering connection.old.held service.old service.new
        replies.old.items replies.new.items result }
{
    'messages: loop {
        match connection.next(alloc, service) {
            Err(error) => return Err(tell_next::<I>(error)),
            Ok(Next::Silent) => {}
            Ok(Next::Reply) => {
                if keep_reply(connection, replies).is_err() {
                    return Err(ProcessError::WriteFault);
                }
            }
            Ok(Next::Waiting) => {
                if connection.end() {
                    return Ok(());
                }
                return Err(ProcessError::BytesRemaining);
            }
        }
    }
}

/// Serves one piece of bytes as the whole input, and appends the replies to `replies`.
///
/// It answers what `serve` answers over a source that gives these bytes in one read and then ends, and appends the same bytes. A clean
/// line is served to its end.
///
/// # Errors
/// Those of `serve`, without `ReadFault` and `TurnLimit`; `WriteFault` where memory for a reply is refused.
pub fn serve_piece<I: Framing, V: Answerer>(
    alloc: Global,
    piece: &[u8],
    service: &mut V,
    replies: &mut BytesMut,
) -> Result<(), ProcessError>
    requires some { 0 < length piece.now }
    requires waits { I.framing.Waits [] }
    requires fits { length piece.now ≤ I.framing.room [] }
    ensures served { ServedPiece I.framing V.answering piece.now service.old service.new
        replies.old.items replies.new.items result }
    ensures complete { CompletesPiece I.framing V.answering service.old piece.now result }
{
    I::laws();
    let Ok(mut connection) = Connection::<I>::open(alloc) else {
        return Err(ProcessError::NoMemory);
    };
    if connection.make_room(alloc).is_err() {
        return Err(ProcessError::NoMemory);
    }
    connection.feed(piece);
    serve_held(&mut connection, alloc, service, replies)
}
