//! The names that a program over Modbus clients uses most, under those of the crate tokio-modbus. `use modbus_client::prelude::*;`
//! brings them in.

pub use crate::client::{Client, Client as SyncClient};
pub use crate::reader::{Reader, Reader as SyncReader};
pub use crate::writer::{Writer, Writer as SyncWriter};
pub use crate::{rtu, tcp};
pub use modbus_frame::{
    ConformityLevel, DeviceIdObject, DeviceIdObjects, ExceptionCode, MoreFollows, NextObjectId,
    ObjectId, ProtocolError, ReadCode, ReadDeviceIdentificationResponse, Request, Response, Slave,
    SlaveContext, SlaveId, SlaveRequest,
};

/// Clients, their traits, and the client behind a box.
pub mod client {
    pub use crate::client::Client;
    pub use crate::context::Context;
    pub use crate::reader::Reader;
    pub use crate::writer::Writer;
    pub use crate::{rtu, tcp};
}

/// The same: calls block here.
pub use self::client as sync;
