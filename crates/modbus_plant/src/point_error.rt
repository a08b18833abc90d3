//! Why a point was not written, or does not hold what was written.
use modbus_frame::{Error, ExceptionCode};
use modbus_map::{PointValue, WriteError};
use thiserror::Error as Failure;

/// Why a point was not written.
#[derive(Debug, PartialEq, Eq, Drop, Failure)]
pub enum PointWriteError {
    /// The text is not to be written at the point. Nothing was sent.
    #[error("{0}")]
    Refused(WriteError),
    /// The call failed: where its answer is late, nobody can tell whether the device did it.
    #[error("{0}")]
    Call(Error),
    /// The device answered with an exception (section 7).
    #[error("{0}")]
    Exception(ExceptionCode),
}

/// Why a point is not known to hold what it should.
#[derive(Debug, PartialEq, Eq, Drop, Failure)]
pub enum ReadBackError {
    /// The call of the read failed.
    #[error("{0}")]
    Call(Error),
    /// The read was answered with an exception (section 7).
    #[error("{0}")]
    Exception(ExceptionCode),
    /// The point has another value.
    #[error("another value is read back")]
    Differs(PointValue),
    /// Memory was refused.
    #[error("memory was refused")]
    NoMemory,
}

/// Why a point was not written, or is not known to hold what was written.
#[derive(Debug, PartialEq, Eq, Drop, Failure)]
pub enum VerifiedWriteError {
    /// It was not written, and not read.
    #[error("{0}")]
    Write(PointWriteError),
    /// It was written, and then not read back so.
    #[error("{0}")]
    ReadBack(ReadBackError),
}
