//! Which objects a response has.
ghost use Rattle.std.specs.Prelude.{◌≡◌, ◌≢◌, ◌<◌, ◌≤◌, ◌∷◌, [], length, take, drop, nat_lt, All, AllPairs, MatchOption, slice_index_or, IfOk};
ghost use Rattle.std.specs.List.{list_any};
ghost use Rattle.modbus_frame.specs.declared.identification.DeviceIdObject.{DeviceIdObject};
ghost use Rattle.modbus_diagnostics.specs.IdentityAnswers.{objects_size, most_objects, NoneFits, last_of_category, conformity_of, objects_response, StreamBegins, StreamsObjects, IsOne, AnswersObjects};
ghost use Rattle.modbus_diagnostics.specs.Identity.{FitsAlone};

use crate::identity::objects::{LAST_BASIC, LAST_REGULAR};
use modbus_frame::{
    ConformityLevel, DeviceIdObject, DeviceIdObjects, ExceptionCode, ObjectId, ReadCode,
    ReadDeviceIdentificationResponse, Response,
};
use modbus_service::ServiceError;
use std::alloc::{AllocError, Global};

/// The most bytes of the objects of a response: a PDU of 253 bytes less 7 before them (V1.1b3, section 6.21).
const MOST_OBJECTS: usize = 246;

/// The last object of a category.
fn last_of(code: ReadCode) -> ObjectId
    ensures { result ≡ last_of_category code }
{
    match code {
        ReadCode::Basic => LAST_BASIC,
        ReadCode::Regular => LAST_REGULAR,
        ReadCode::Extended | ReadCode::Specific => ObjectId::MAX,
    }
}

/// How many of the objects, which rise, are no higher than `last`.
fn count_up_to(objects: &[DeviceIdObject], last: ObjectId) -> usize
    requires { AllPairs (λ a b. a.id < b.id) objects.now }
    ensures within { result ≤ length objects.now }
    ensures low { All (λ o. o.id ≤ last) (take result objects.now) }
    ensures high { All (λ o. last < o.id) (drop result objects.now) }
{
    for (place, it) in objects.iter().enumerate() {
        if it.id > last {
            return place;
        }
    }
    objects.len()
}

/// The place of the object of this number.
fn place_of(objects: &[DeviceIdObject], id: ObjectId) -> Option<usize>
    ensures { MatchOption result (All (λ o. o.id ≢ id) objects.now) (λ place.
        (place < length objects.now)
        × ((d : DeviceIdObject) → (slice_index_or objects.now place d).id ≡ id)) }
{
    for (place, it) in objects.iter().enumerate() {
        if it.id == id {
            return Some(place);
        }
    }
    None
}

/// How many of the objects, from the first on, fit one response.
fn count_fitting(objects: &[DeviceIdObject]) -> usize
    requires { All FitsAlone objects.now }
    ensures within { result ≤ length objects.now }
    ensures fits { objects_size (take result objects.now) ≤ most_objects }
    ensures full { NoneFits (objects_size (take result objects.now)) (drop result objects.now) }
{
    let mut room = MOST_OBJECTS;
    for (place, it) in objects.iter().enumerate() {
        let size = 2 + it.value.len();
        if size > room {
            return place;
        }
        room -= size;
    }
    objects.len()
}

/// Equal objects. Refused memory is the one error.
fn copy_of(alloc: Global, objects: &[DeviceIdObject]) -> Result<DeviceIdObjects, AllocError>
    ensures { IfOk result (λ copy. copy ≡ objects.now) }
{
    let mut copy = Vec::with_capacity(alloc, objects.len())?;
    for it in objects {
        copy.push(it.try_clone(alloc)?)?;
    }
    Ok(DeviceIdObjects::new(copy))
}

/// Whether one of the objects is higher than `last`.
fn is_above(objects: &[DeviceIdObject], last: ObjectId) -> bool
    ensures { result ≡ list_any (λ o. nat_lt last o.id) objects.now }
{
    for it in objects {
        if it.id > last {
            return true;
        }
    }
    false
}

/// The conformity level of these objects.
fn level_of(objects: &[DeviceIdObject]) -> ConformityLevel
    ensures { result ≡ conformity_of objects.now }
{
    if is_above(objects, LAST_REGULAR) {
        ConformityLevel::ExtendedIdentification
    } else if is_above(objects, LAST_BASIC) {
        ConformityLevel::RegularIdentification
    } else {
        ConformityLevel::BasicIdentification
    }
}

/// A response of these objects.
fn response_of(
    code: ReadCode,
    all: &[DeviceIdObject],
    left: &[DeviceIdObject],
    shown: DeviceIdObjects,
) -> ReadDeviceIdentificationResponse
    ensures { result ≡ objects_response code all.now left.now shown }
{
    let next = left.first();
    ReadDeviceIdentificationResponse {
        read_code: code,
        conformity_level: level_of(all),
        more_follows: next.is_some(),
        next_object_id: match next {
            Some(it) => it.id,
            None => 0,
        },
        device_id_objects: shown,
    }
}

/// Where the stream of a category begins: at the object of this number, or at its first one where it has no such object.
fn start_of(category: &[DeviceIdObject], id: ObjectId) -> usize
    ensures within { result ≤ length category.now }
    ensures begins { StreamBegins id (take result category.now) (drop result category.now) }
{
    match place_of(category, id) {
        Some(place) => place,
        None => 0,
    }
}

/// The objects of a category, from this one on, as many as fit. Refused memory is the one error.
fn stream_of(
    alloc: Global,
    objects: &[DeviceIdObject],
    code: ReadCode,
    id: ObjectId,
) -> Result<ReadDeviceIdentificationResponse, AllocError>
    requires rise { AllPairs (λ a b. a.id < b.id) objects.now }
    requires fit { All FitsAlone objects.now }
    ensures { IfOk result (λ found. StreamsObjects objects.now code id found) }
{
    let category = &objects[..count_up_to(objects, last_of(code))];
    let from = &category[start_of(category, id)..];
    let count = count_fitting(from);
    let shown = copy_of(alloc, &from[..count])?;
    Ok(response_of(code, objects, &from[count..], shown))
}

/// One object alone. Refused memory is the one error.
fn alone(alloc: Global, it: &DeviceIdObject) -> Result<DeviceIdObjects, AllocError>
    ensures { IfOk result (λ objects. objects ≡ it.now ∷ []) }
{
    let mut objects = Vec::with_capacity(alloc, 1)?;
    objects.push(it.try_clone(alloc)?)?;
    Ok(DeviceIdObjects::new(objects))
}

/// The one object of this number; none where it is not there. Refused memory is the one error.
fn one_of(
    alloc: Global,
    objects: &[DeviceIdObject],
    id: ObjectId,
) -> Result<Option<ReadDeviceIdentificationResponse>, AllocError>
    ensures { IfOk result (λ told. MatchOption told (All (λ o. o.id ≢ id) objects.now)
        (λ found. IsOne objects.now id found)) }
{
    match place_of(objects, id) {
        Some(place) => {
            let shown = alone(alloc, &objects[place])?;
            Ok(Some(response_of(ReadCode::Specific, objects, &[], shown)))
        }
        None => Ok(None),
    }
}

/// What is answered to Read Device Identification.
///
/// # Errors
/// Exception 02 for one object that is not there, or refused memory.
pub(crate) fn shown(
    alloc: Global,
    objects: &[DeviceIdObject],
    code: ReadCode,
    id: ObjectId,
) -> Result<Option<Response>, ServiceError>
    requires rise { AllPairs (λ a b. a.id < b.id) objects.now }
    requires fit { All FitsAlone objects.now }
    ensures { AnswersObjects objects.now code id result }
{
    let found = match code {
        ReadCode::Specific => match one_of(alloc, objects, id)? {
            Some(found) => found,
            None => return Err(ServiceError::Exception(ExceptionCode::IllegalDataAddress)),
        },
        _ => stream_of(alloc, objects, code, id)?,
    };
    Ok(Some(Response::ReadDeviceIdentification(found)))
}
