//! What a device says of itself: the response to Read Device Identification, a MEI type of the Encapsulated Interface
//! Transport (Application Protocol V1.1b3, section 6.21).
ghost use Rattle.std.specs.Prelude.{◌≡◌, IfOk, IfSome, IsSome, ◌↔◌, IsUtf8};

use crate::code::{ConformityLevel, ReadCode};
use crate::list::Items;
use bytes::Bytes;
use std::alloc::{AllocError, Global};

/// The number of an object of a device identification.
pub type ObjectId = u8;

/// Whether objects are left that did not fit the response.
pub type MoreFollows = bool;

/// The object to ask for next where more follows, else 0.
pub type NextObjectId = u8;

/// One object of a device identification.
#[derive(Debug, PartialEq, Eq, Drop)]
pub struct DeviceIdObject {
    /// Which object it is: 0 is the vendor's name, 1 the product code, 2 the revision.
    pub id: u8,
    /// The bytes of the object, mostly text.
    pub value: Bytes,
}

impl DeviceIdObject {
    /// An equal object. Memory from `alloc` may be wanted; its lack is the one error.
    pub fn try_clone(&self, _alloc: Global) -> Result<Self, AllocError>
        ensures { IfOk result (λ copy. copy ≡ self.now) }
    {
        Ok(DeviceIdObject {
            id: self.id,
            value: self.value.clone()?,
        })
    }

    /// The value as text, or `None` where it is not UTF-8.
    pub fn value_as_str(&self) -> Option<&str>
        ensures some { IsSome result ↔ IsUtf8 self.now.value }
        ensures text { IfSome result (λ text. text.now ≡ self.now.value) }
    {
        std::str::from_utf8(self.value.as_slice()).ok()
    }
}

/// The objects of a device identification, in the order of the response.
pub type DeviceIdObjects = Items<DeviceIdObject>;

impl Items<DeviceIdObject> {
    /// An equal list, with memory from `alloc`. Refused memory is the one error.
    pub(crate) fn try_clone(&self, alloc: Global) -> Result<Self, AllocError>
        ensures { IfOk result (λ copy. copy ≡ self.now) }
    {
        let objects = self.as_slice();
        let mut items = Vec::with_capacity(alloc, objects.len())?;
        for object in objects {
            items.push(object.try_clone(alloc)?)?;
        }
        Ok(Items::new(items))
    }
}

/// What a device answers to a device identification request.
#[derive(Debug, PartialEq, Eq, Drop)]
pub struct ReadDeviceIdentificationResponse {
    /// The read code of the request.
    pub read_code: ReadCode,
    /// What the device has, and how it can be read.
    pub conformity_level: ConformityLevel,
    /// Whether objects are left that did not fit this response.
    pub more_follows: MoreFollows,
    /// The object to ask for next where more follows, else 0.
    pub next_object_id: NextObjectId,
    /// The objects of this response.
    pub device_id_objects: DeviceIdObjects,
}

impl ReadDeviceIdentificationResponse {
    /// An equal response, with memory from `alloc`. Refused memory is the one error.
    pub fn try_clone(&self, alloc: Global) -> Result<Self, AllocError>
        ensures { IfOk result (λ copy. copy ≡ self.now) }
    {
        Ok(ReadDeviceIdentificationResponse {
            read_code: self.read_code,
            conformity_level: self.conformity_level,
            more_follows: self.more_follows,
            next_object_id: self.next_object_id,
            device_id_objects: self.device_id_objects.try_clone(alloc)?,
        })
    }
}
