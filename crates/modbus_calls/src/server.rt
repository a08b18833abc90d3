//! What a device says of itself (Modbus Application Protocol V1.1b3, section 6.13).

use modbus_frame::Data;

/// What a device answers to Report Server ID (section 6.13).
#[derive(Debug, PartialEq, Eq, Drop)]
pub struct ServerId {
    /// Its identifier, whose meaning its maker says. One of more bytes goes on in `data`.
    pub id: u8,
    /// Whether it runs.
    pub is_running: bool,
    /// Further bytes, whose meaning its maker says.
    pub data: Data,
}
