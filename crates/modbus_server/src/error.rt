//! How a step of a connection ends, and why a server ends early.

use modbus_frame::Reason;

/// Why a server ends before its input does.
#[derive(Clone, Copy, Debug, PartialEq, Eq, thiserror::Error)]
pub enum ProcessError {
    /// The source failed.
    #[error("read fault")]
    ReadFault,
    /// The sink failed; a front of a reply may have been written.
    #[error("write fault")]
    WriteFault,
    /// Over RTU: twenty offsets in a row, which came with one read, have no frame.
    #[error("too many retries")]
    TooManyRetries,
    /// The input ended within a frame or ADU.
    #[error("bytes remaining")]
    BytesRemaining,
    /// The PDU of a frame or ADU is no request, for this reason.
    #[error("invalid request: {0}")]
    InvalidRequest(Reason),
    /// The service answered a response whose PDU would have so many bytes, more than 253.
    #[error("response too long: {0}")]
    ResponseTooLong(usize),
    /// As many reads gave bytes as were allowed.
    #[error("turn limit")]
    TurnLimit,
    /// Over TCP: the header of an ADU tells a length of 0.
    #[error("invalid length")]
    InvalidLength,
    /// Over TCP: a whole ADU is of another protocol than Modbus, which has this number.
    #[error("invalid protocol {0}")]
    InvalidProtocol(u16),
    /// Memory was refused.
    #[error("no memory")]
    NoMemory,
}

/// Why a connection has no next reply.
#[derive(Clone, Copy, Debug, PartialEq, Eq)]
pub enum NextError<F> {
    /// The fault of the framing that comes next.
    Broken(F),
    /// The next message is no request, for this reason.
    Refused(Reason),
    /// The PDU of the next answer would have so many bytes, more than 253.
    TooLong(usize),
    /// Memory was refused.
    NoMemory,
}

/// What a connection did with the bytes that it holds.
#[derive(Clone, Copy, Debug, PartialEq, Eq)]
pub enum Next {
    /// It asked the service about a message, and keeps the bytes of the reply.
    Reply,
    /// It asked the service about a message, and there is no reply.
    Silent,
    /// There is no whole message.
    Waiting,
}

/// What one step of a driver did.
#[derive(Clone, Copy, Debug, PartialEq, Eq)]
pub enum Step {
    /// It asked the service about a request and wrote the reply.
    Answered,
    /// It asked the service about a request, and there is no reply.
    Silent,
    /// There was no whole frame or ADU, and a read gave bytes.
    MoreRead,
    /// There is no whole frame or ADU, and it may not read.
    Hungry,
    /// The input ended with nothing held.
    Ended,
}

/// How a turn of a polled connection ends.
#[derive(Clone, Copy, Debug, PartialEq, Eq)]
pub enum PolledTurn {
    /// The link was not ready: the connection goes on once it may be.
    Waiting,
    /// As many messages were taken as the turn may take: the connection goes on, and its link may be ready.
    Spent,
    /// The connection was over, with this answer.
    Over(Result<(), ProcessError>),
}

/// Why a listener does not go on.
#[derive(Clone, Copy, Debug, PartialEq, Eq, Drop)]
pub enum ServeError<E> {
    /// The acceptor failed.
    AcceptFault,
    /// The hook answered this error to a connection.
    Connect(E),
    /// The spawner failed.
    SpawnFault,
    /// Memory was refused.
    NoMemory,
}
