//! The room of a read.

/// How many bytes a read of a server, of a client, or of what drops a line's noise has room for. The standard has no such number: reads of a
/// stream always had this room, which is more than the longest frame and the longest ADU.
pub const READ_ROOM: usize = 268;
