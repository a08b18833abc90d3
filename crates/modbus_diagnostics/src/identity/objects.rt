//! The identity of a device.
ghost use Rattle.std.specs.Prelude.{◌≡◌, ◌↔◌, ◌<◌, ◌≤◌, true, All, Any, IfOk, IsTrue, IsFalse};
ghost use Rattle.modbus_frame.specs.declared.response.Response.TheVariants as response;
ghost use Rattle.modbus_diagnostics.specs.declared.identity.objects.IdentityError.TheVariants as errors;
ghost use Rattle.modbus_diagnostics.specs.IdentityAnswers.{AnswersObjects};
ghost use Rattle.modbus_diagnostics.specs.Identity.{IsReserved, object_of, basic_objects, MakesIdentity, GainsObject};

use crate::identity::stream::shown;
use bytes::Bytes;
use modbus_frame::{Data, DeviceIdObject, ObjectId, ReadCode, Response};
use modbus_service::ServiceError;
use std::alloc::{AllocError, AllocFailed, Global};
use std::marker::Model;

/// The most bytes of an object, which fits a response alone (V1.1b3, section 6.21).
pub const LONGEST_OBJECT: usize = 244;

/// The most bytes after the run indicator of a Report Server ID response (section 6.13).
pub const LONGEST_EXTRA: usize = 249;

/// The last of the basic objects, and of the regular ones.
pub(crate) const LAST_BASIC: ObjectId = 0x02;

pub(crate) const LAST_REGULAR: ObjectId = 0x06;

/// The first of the objects that a device may define itself.
const FIRST_EXTENDED: ObjectId = 0x80;

/// Why something is no part of an identity.
#[derive(Clone, Copy, Debug, PartialEq, Eq)]
pub enum IdentityError {
    /// The standard reserves the objects 7 to 127.
    Reserved,
    /// An object of this number, or of a higher one, is there.
    OutOfOrder,
    /// It has more bytes than fit a response.
    TooLong,
    /// Memory was refused.
    NoMemory,
}

/// What a device says of itself.
///
/// Its basic objects, the name of its vendor, its product code and its revision, are always there, as the standard wants.
#[derive(Drop)]
pub struct Identity {
    server_id: u8,
    extra: Vec<u8>,
    objects: Vec<DeviceIdObject>,
}

/// A contract sees the number and the further bytes of Report Server ID, and the objects in the order of their numbers. Each fits a response.
impl Model for Identity {
    ghost use Rattle.modbus_diagnostics.specs.Identity.{IdentityState, IsIdentity};

    ghost Value = { IdentityState };

    ghost view = { λ it. record {
      server_id = it.server_id;
      extra = it.extra.items;
      objects = it.objects.items;
    } };

    ghost invariant = { λ it. IsIdentity (record {
      server_id = it.server_id;
      extra = it.extra.items;
      objects = it.objects.items;
    }) };
}

impl From<AllocError> for IdentityError {
    ghost from_gives = { λ _ error. error ≡ errors.NoMemory };

    fn from(_error: AllocError) -> IdentityError {
        IdentityError::NoMemory
    }
}

impl<T: Drop> From<AllocFailed<T>> for IdentityError {
    ghost from_gives = { λ _ error. error ≡ errors.NoMemory };

    fn from(_error: AllocFailed<T>) -> IdentityError {
        IdentityError::NoMemory
    }
}

/// Whether the standard reserves this number.
fn is_reserved(id: ObjectId) -> bool
    ensures { IsTrue result ↔ IsReserved id }
{
    id > LAST_REGULAR && id < FIRST_EXTENDED
}

/// Whether one of the objects has this number or a higher one.
fn is_reached(objects: &[DeviceIdObject], id: ObjectId) -> bool
    ensures some { IsTrue result → Any (λ o. id ≤ o.id) objects.now }
    ensures none { IsFalse result → All (λ o. o.id < id) objects.now }
{
    for it in objects {
        if it.id >= id {
            return true;
        }
    }
    false
}

/// An object with a copy of these bytes. Refused memory is the one error.
fn object(alloc: Global, id: ObjectId, value: &[u8]) -> Result<DeviceIdObject, AllocError>
    ensures { IfOk result (λ it. it ≡ object_of id value.now) }
{
    Ok(DeviceIdObject {
        id,
        value: Bytes::copy_from_slice(alloc, value)?,
    })
}

impl Identity {
    /// The identity of a device: the number and the further bytes that Report Server ID tells, and the basic objects, which are the name of its vendor,
    /// its product code and its revision, mostly text.
    ///
    /// # Errors
    /// `TooLong`: the further bytes are more than `LONGEST_EXTRA`, or one of the others more than `LONGEST_OBJECT`; `NoMemory`: memory was
    /// refused.
    pub fn new(
        alloc: Global,
        server_id: u8,
        extra: &[u8],
        vendor: &[u8],
        product: &[u8],
        revision: &[u8],
    ) -> Result<Identity, IdentityError>
        ensures { MakesIdentity server_id extra.now (basic_objects vendor.now product.now revision.now)
            result }
    {
        let is_long = extra.len() > LONGEST_EXTRA
            || vendor.len() > LONGEST_OBJECT
            || product.len() > LONGEST_OBJECT
            || revision.len() > LONGEST_OBJECT;
        if is_long {
            return Err(IdentityError::TooLong);
        }
        let mut objects = Vec::with_capacity(alloc, 3)?;
        objects.push(object(alloc, 0, vendor)?)?;
        objects.push(object(alloc, 1, product)?)?;
        objects.push(object(alloc, 2, revision)?)?;
        Ok(Identity {
            server_id,
            extra: Vec::from_slice(alloc, extra)?,
            objects,
        })
    }

    /// Adds a regular object (3 to 6: the vendor's address in the net, the product's name, the model, the application) or one of the
    /// device's own (128 to 255), in the order of their numbers.
    ///
    /// # Errors
    /// `Reserved`: the number is 7 to 127; `OutOfOrder`: an object of that number or a higher one is there; `TooLong`: more than
    /// `LONGEST_OBJECT` bytes; `NoMemory`: memory was refused. Nothing was added then.
    pub fn add(&mut self, alloc: Global, id: ObjectId, value: &[u8]) -> Result<(), IdentityError>
        ensures { GainsObject self.old id value.now result self.new }
    {
        if is_reserved(id) {
            return Err(IdentityError::Reserved);
        }
        if is_reached(self.objects.as_slice(), id) {
            return Err(IdentityError::OutOfOrder);
        }
        if value.len() > LONGEST_OBJECT {
            return Err(IdentityError::TooLong);
        }
        self.objects.reserve(1)?;
        let it = object(alloc, id, value)?;
        self.objects.push(it)?;
        Ok(())
    }

    /// What is answered to Report Server ID: the number, that the device runs, and the further bytes.
    ///
    /// # Errors
    /// Refused memory.
    pub(crate) fn report(&self, alloc: Global) -> Result<Response, AllocError>
        ensures { IfOk result (λ told.
            told ≡ response.ReportServerId self.now.server_id true self.now.extra) }
    {
        let data = Vec::from_slice(alloc, self.extra.as_slice())?;
        Ok(Response::ReportServerId(self.server_id, true, Data::new(data)))
    }

    /// What is answered to Read Device Identification.
    ///
    /// # Errors
    /// Exception 02 for one object that is not there, or refused memory.
    pub(crate) fn find(
        &self,
        alloc: Global,
        code: ReadCode,
        id: ObjectId,
    ) -> Result<Option<Response>, ServiceError>
        ensures { AnswersObjects self.now.objects code id result }
    {
        shown(alloc, self.objects.as_slice(), code, id)
    }
}
