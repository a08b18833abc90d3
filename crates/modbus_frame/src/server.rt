//! How a server ends.

/// Why a server that can be stopped no longer serves.
#[derive(Clone, Copy, Debug, PartialEq, Eq)]
pub enum Terminated {
    /// The input ended.
    Finished,
    /// The server was told to stop.
    Aborted,
}
