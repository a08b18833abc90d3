//! What a device says of itself: Report Server ID (Modbus Application Protocol V1.1b3, section 6.13), and Read Device Identification, its
//! objects by category or one by one (section 6.21).

mod identified;
pub mod laws;
mod objects;
mod stream;

pub use crate::identity::identified::Identified;
pub use crate::identity::objects::{Identity, IdentityError, LONGEST_EXTRA, LONGEST_OBJECT};
