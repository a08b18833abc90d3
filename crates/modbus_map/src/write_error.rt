//! Why a value is not written.
use thiserror::Error;

/// Why a value cannot be written at a point. Nothing was sent.
#[derive(Clone, Copy, Debug, PartialEq, Eq, Error)]
pub enum WriteError {
    /// The point may not be written, or lies in a table that is read only.
    #[error("the point may not be written")]
    NotWritable,
    /// A bit of a register cannot be written alone.
    #[error("a bit of a register cannot be written alone")]
    BitOfRegister,
    /// The value, or the text, is none of the point's kind.
    #[error("no value of the point's kind")]
    NotOfKind,
    /// No integer is worth the value: it lies between two steps of the factor.
    #[error("between two steps of the factor")]
    OffGrid,
    /// The integer that is worth the value passes the range of the kind.
    #[error("out of the range of the kind")]
    OutOfRange,
    /// The text has more bytes than the registers.
    #[error("a text of more bytes than the registers have")]
    TooLong,
    /// Memory was refused.
    #[error("memory was refused")]
    NoMemory,
}
