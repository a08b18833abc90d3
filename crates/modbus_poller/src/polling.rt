//! Polls, once or again and again.

use crate::asking::{DeviceClient, HostOpener, Opener, PlantClient, circumstances};
use crate::planning::print_plan;
use crate::printing::{print_gap, print_header, print_values};
use crate::target::Target;
use crate::telling::{Asked, tell, tell_device, tell_refused};
use crate::wanted::PollTask;
use modbus_lines::Polled;
use modbus_map::LinkKind;
use modbus_plant::{OpenError, Settings};
use std::alloc::{AllocError, Global};
use std::time::{Duration, Instant};
use std::{io, thread};

/// What came of a poll of a device.
#[derive(Clone, Copy, PartialEq, Eq)]
enum Outcome {
    /// Each read gave values.
    Whole,
    /// A read was refused.
    Refused,
    /// A call failed.
    Failed,
}

/// Prints the values of a poll, and tells of the reads that the device refused.
fn show(
    rt: &HostRuntime,
    wanted: &PollTask,
    asked: Asked<'_>,
    polled: &Polled<'_>,
) -> io::Result<Outcome> {
    let name = asked.target.name.as_str();
    print_values(rt, wanted.style, name, polled.readings.as_slice())?;
    if tell_refused(rt, asked, &polled.given) {
        Ok(Outcome::Whole)
    } else {
        Ok(Outcome::Refused)
    }
}

/// Polls a device by the client of its link, and prints the values, or tells what happened.
fn poll_by<C: PlantClient>(
    rt: &HostRuntime,
    client: &mut C,
    link: &LinkKind,
    wanted: &PollTask,
    asked: Asked<'_>,
    began: Instant,
) -> io::Result<Outcome> {
    let target = asked.target;
    match client.poll_points(
        rt.alloc(),
        target.settings,
        &target.points,
        wanted.style.format(),
    ) {
        Ok(polled) => show(rt, wanted, asked, &polled),
        Err(trouble) => {
            let stood = circumstances(rt, client, link, target.settings, began);
            let _ = tell(rt, asked, &trouble, stood);
            Ok(Outcome::Failed)
        }
    }
}

/// Opens a link that is not open.
fn open<C: PlantClient, O: Opener<C>>(
    opener: &O,
    slot: &mut Option<C>,
    link: &LinkKind,
    settings: Settings,
) -> Result<(), OpenError> {
    if slot.is_none() {
        *slot = Some(opener.open(link, settings)?);
    }
    Ok(())
}

/// Polls a device by the client of its link, which is opened where it is not open.
fn poll_link<C: PlantClient, O: Opener<C>>(
    rt: &HostRuntime,
    opener: &O,
    slot: &mut Option<C>,
    link: &LinkKind,
    wanted: &PollTask,
    asked: Asked<'_>,
) -> io::Result<Outcome> {
    let began = Instant::now(rt)?;
    let settings = wanted.plant.opening_of(asked.target);
    if let Err(error) = open(opener, slot, link, settings) {
        let _ = tell_device(rt, asked.target.name.as_str(), &error);
        return Ok(Outcome::Failed);
    }
    match slot {
        Some(client) => poll_by(rt, client, link, wanted, asked, began),
        None => Ok(Outcome::Failed),
    }
}

/// Polls a device; whether each read gave values. A serial port over which a call failed is opened anew by the next poll.
fn poll_target<C: PlantClient, O: Opener<C>>(
    rt: &HostRuntime,
    opener: &O,
    slots: &mut [Option<C>],
    wanted: &PollTask,
    target: &Target,
) -> io::Result<bool> {
    let asked = Asked {
        target,
        is_named: wanted.style.has_devices,
    };
    let Some(link) = wanted.plant.links.get(target.link) else {
        return Ok(false);
    };
    let Some(slot) = slots.get_mut(target.link) else {
        return Ok(false);
    };
    let outcome = poll_link(rt, opener, slot, link, wanted, asked)?;
    if outcome == Outcome::Failed && matches!(link, LinkKind::Serial(_)) {
        *slot = None;
    }
    Ok(outcome == Outcome::Whole)
}

/// Polls each device once, one after another; whether each read gave values.
fn poll_once<C: PlantClient, O: Opener<C>>(
    rt: &HostRuntime,
    opener: &O,
    slots: &mut [Option<C>],
    wanted: &PollTask,
) -> io::Result<bool> {
    let mut is_good = true;
    for target in &wanted.plant.targets {
        let is_whole = poll_target(rt, opener, slots, wanted, target)?;
        is_good = is_good && is_whole;
    }
    Ok(is_good)
}

/// Waits until the next poll is due.
fn wait(rt: &HostRuntime, began: Instant, every: Duration) -> io::Result<()> {
    let took = began.elapsed(rt)?;
    if took < every {
        thread::sleep(rt, every - took);
    }
    Ok(())
}

/// Polls as often as is wanted; whether the last poll gave all values.
fn poll_all<C: PlantClient, O: Opener<C>>(
    rt: &HostRuntime,
    opener: &O,
    slots: &mut [Option<C>],
    wanted: &PollTask,
) -> io::Result<bool> {
    print_header(rt, wanted.style, wanted.plant.targets.as_slice())?;
    let mut began = Instant::now(rt)?;
    let mut is_good = poll_once(rt, opener, slots, wanted)?;
    for _again in 1..wanted.count {
        if let Some(every) = wanted.every {
            wait(rt, began, every)?;
        }
        print_gap(rt, wanted.style)?;
        began = Instant::now(rt)?;
        is_good = poll_once(rt, opener, slots, wanted)?;
    }
    Ok(is_good)
}

/// As many links as these, none of which is open.
fn closed<C: PlantClient>(alloc: Global, links: &[LinkKind]) -> Result<Vec<Option<C>>, AllocError> {
    let mut slots = Vec::new(alloc);
    for _link in links {
        slots.push(None)?;
    }
    Ok(slots)
}

/// Closes each connection.
fn close<C: PlantClient>(slots: &mut [Option<C>]) {
    for slot in slots {
        if let Some(client) = slot {
            client.close();
        }
    }
}

/// Polls over links that this opener opens, and closes each connection.
fn poll_plant<C: PlantClient, O: Opener<C>>(
    rt: &HostRuntime,
    opener: &O,
    wanted: &PollTask,
) -> io::Result<bool> {
    let mut slots: Vec<Option<C>> = closed(rt.alloc(), wanted.plant.links.as_slice())?;
    let is_good = poll_all(rt, opener, &mut slots, wanted)?;
    close(&mut slots);
    Ok(is_good)
}

/// Polls over links of this machine.
fn poll_here(rt: &HostRuntime, wanted: &PollTask) -> io::Result<bool> {
    poll_plant::<DeviceClient<'_>, HostOpener<'_>>(rt, &HostOpener(rt), wanted)
}

/// Prints the reads that a poll makes.
fn print_plans(rt: &HostRuntime, wanted: &PollTask) -> io::Result<bool> {
    for target in &wanted.plant.targets {
        print_plan(rt, target, wanted.style.has_devices)?;
    }
    Ok(true)
}

/// Does the poll that is wanted; whether the last one gave values, and they were printed.
pub fn run(rt: &HostRuntime, wanted: &PollTask) -> bool {
    let done = if wanted.is_plan {
        print_plans(rt, wanted)
    } else {
        poll_here(rt, wanted)
    };
    match done {
        Ok(is_good) => is_good,
        Err(error) => {
            let _ = eprintln!(rt; "modbus_poller: {error}");
            false
        }
    }
}
