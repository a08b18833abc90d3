//! Writes of registers, coils and points. None is ever sent twice: where its answer is late, nobody can tell whether the device did it.

use crate::asking::{DeviceClient, HostOpener, Opener, circumstances};
use crate::fault::{Circumstances, NoAnswer, Refused};
use crate::once::{OnceWriter, PointText};
use crate::telling::tell_device;
use crate::write_wanted::{PointTask, Reached, WriteTask, WriteWanted};
use modbus_frame::{Coil, Error, Result as Answer, Word};
use modbus_map::{PointValue, shown};
use modbus_plant::{PointWriteError, ReadBackError, VerifiedWriteError};
use std::alloc::Global;
use std::io;
use std::time::Instant;

/// A device that was asked to write a text, and what stood when its call ended.
#[derive(Clone, Copy)]
struct Asked<'a> {
    name: &'a str,
    text: &'a str,
    circumstances: Circumstances<'a>,
}

/// Tells why a call has no answer.
fn tell_fault(rt: &HostRuntime, asked: Asked<'_>, error: &Error) {
    let what = NoAnswer {
        error,
        circumstances: asked.circumstances,
    };
    let _ = tell_device(rt, asked.name, &what);
}

/// Tells why nothing is known to be written.
fn tell_unwritten(rt: &HostRuntime, asked: Asked<'_>, error: &PointWriteError) {
    match error {
        PointWriteError::Refused(fault) => {
            let _ = tell_device(rt, asked.name, fault);
        }
        PointWriteError::Call(error) => tell_fault(rt, asked, error),
        PointWriteError::Exception(code) => {
            let _ = tell_device(rt, asked.name, &Refused(*code));
        }
    }
}

/// Tells which other value was read back.
fn tell_other(rt: &HostRuntime, asked: Asked<'_>, value: &PointValue) -> io::Result<()> {
    let Asked { name, text, .. } = asked;
    let found = shown(rt.alloc(), value)?;
    eprintln!(rt; "modbus_poller: {name}: {text} was written, and {found} is read back")
}

/// Tells why a point is not known to hold what was written.
fn tell_unverified(rt: &HostRuntime, asked: Asked<'_>, error: &ReadBackError) {
    match error {
        ReadBackError::Differs(value) => {
            let _ = tell_other(rt, asked, value);
        }
        ReadBackError::Call(error) => tell_fault(rt, asked, error),
        ReadBackError::Exception(code) => {
            let _ = tell_device(rt, asked.name, &Refused(*code));
        }
        ReadBackError::NoMemory => {
            let _ = eprintln!(rt; "modbus_poller: no memory");
        }
    }
}

/// Tells what came of a write; whether it was done.
fn tell(rt: &HostRuntime, asked: Asked<'_>, answer: &Result<(), VerifiedWriteError>) -> bool {
    match answer {
        Ok(()) => true,
        Err(VerifiedWriteError::Write(error)) => {
            tell_unwritten(rt, asked, error);
            false
        }
        Err(VerifiedWriteError::ReadBack(error)) => {
            tell_unverified(rt, asked, error);
            false
        }
    }
}

/// What is written.
#[derive(Clone, Copy)]
enum Written<'t, 'a> {
    Registers(&'t WriteTask<'a, Word>),
    Coils(&'t WriteTask<'a, Coil>),
    Point(&'t PointTask<'a>),
}

/// The text of the value that is written at a point.
fn text_of<'a>(written: Written<'_, 'a>) -> &'a str {
    match written {
        Written::Registers(_) | Written::Coils(_) => "",
        Written::Point(task) => task.value,
    }
}

/// The answer to a write, as that to the write of a point.
fn of_answer(answer: Answer<()>) -> Result<(), PointWriteError> {
    match answer {
        Ok(Ok(())) => Ok(()),
        Ok(Err(code)) => Err(PointWriteError::Exception(code)),
        Err(error) => Err(PointWriteError::Call(error)),
    }
}

/// A write behind which nothing is read.
fn unread(written: Result<(), PointWriteError>) -> Result<(), VerifiedWriteError> {
    match written {
        Ok(()) => Ok(()),
        Err(error) => Err(VerifiedWriteError::Write(error)),
    }
}

/// The value of a task.
fn value_of<'t>(task: &'t PointTask<'_>) -> PointText<'t> {
    PointText {
        point: &task.point,
        text: task.value,
        is_verified: task.is_verified,
    }
}

/// Writes by a client what is to be written.
fn answer_to<C: OnceWriter>(
    alloc: Global,
    client: &mut C,
    written: Written<'_, '_>,
) -> Result<(), VerifiedWriteError> {
    match written {
        Written::Registers(task) => {
            let answer = client.write_registers_once(task.first, task.values.as_slice());
            unread(of_answer(answer))
        }
        Written::Coils(task) => {
            let answer = client.write_coils_once(task.first, task.values.as_slice());
            unread(of_answer(answer))
        }
        Written::Point(task) => client.write_point_once(alloc, value_of(task)),
    }
}

/// Writes by a client, and closes the connection; whether it was done.
fn write_by<'x, C: OnceWriter>(
    rt: &HostRuntime,
    client: &mut C,
    device: &'x Reached<'x>,
    written: Written<'x, 'x>,
) -> io::Result<bool> {
    let began = Instant::now(rt)?;
    let answer = answer_to(rt.alloc(), client, written);
    let asked = Asked {
        name: device.name,
        text: text_of(written),
        circumstances: circumstances(rt, client, &device.link, device.settings, began),
    };
    client.close();
    Ok(tell(rt, asked, &answer))
}

/// Opens the link to a device and writes; whether it was done.
fn write_over<'x, C: OnceWriter, O: Opener<C>>(
    rt: &HostRuntime,
    opener: &O,
    device: &'x Reached<'x>,
    written: Written<'x, 'x>,
) -> io::Result<bool> {
    match opener.open(&device.link, device.settings) {
        Ok(mut client) => write_by(rt, &mut client, device, written),
        Err(error) => {
            let _ = tell_device(rt, device.name, &error);
            Ok(false)
        }
    }
}

/// Writes to a device over a link of this machine; whether it was done.
fn write<'x>(
    rt: &HostRuntime,
    device: &'x Reached<'x>,
    written: Written<'x, 'x>,
) -> io::Result<bool> {
    write_over::<DeviceClient<'_>, HostOpener<'_>>(rt, &HostOpener(rt), device, written)
}

/// Whether it was done, after telling why it was not.
fn told(rt: &HostRuntime, tried: io::Result<bool>) -> bool {
    match tried {
        Ok(is_done) => is_done,
        Err(error) => {
            let _ = eprintln!(rt; "modbus_poller: {error}");
            false
        }
    }
}

/// Writes registers or a point; whether it was done.
pub fn run(rt: &HostRuntime, wanted: &WriteWanted<'_>) -> bool {
    let tried = match wanted {
        WriteWanted::Registers(task) => write(rt, &task.device, Written::Registers(task)),
        WriteWanted::Point(task) => write(rt, &task.device, Written::Point(task)),
    };
    told(rt, tried)
}

/// Writes the coils; whether it was done.
pub fn coils(rt: &HostRuntime, task: &WriteTask<'_, Coil>) -> bool {
    told(rt, write(rt, &task.device, Written::Coils(task)))
}
