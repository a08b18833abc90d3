//! What the words of a poll ask for.

use crate::command::is_map;
use crate::options::{limits, settings, settings_for, style};
use crate::place::{link_of, points};
use crate::plant::{Choice, chosen, is_chosen, read_plant};
use crate::printing::Style;
use crate::refusal::Refusal;
use crate::target::{Plant, Target};
use clap::ArgMatches;
use modbus_lines::Points;
use modbus_map::{Device, Map, Point};
use modbus_poll::Limits;
use std::alloc::Global;
use std::time::Duration;

/// A poll: once, or every so often, so many times.
#[derive(Drop)]
pub struct PollTask {
    pub plant: Plant,
    pub every: Option<Duration>,
    pub count: u64,
    pub style: Style,
    pub is_plan: bool,
}

/// The items that the words name of a device, and its name.
fn target_of_items<'a>(
    alloc: Global,
    matches: &ArgMatches<'a>,
    word: &'a str,
) -> Result<Target, Refusal<'a>> {
    let points = points(alloc, matches.get_strs("items").unwrap_or(&[]))?;
    let points = Points::new(alloc, limits(matches, Limits::REGISTERS), points)?;
    Ok(Target {
        name: String::from_str(alloc, word)?,
        link: 0,
        settings: settings(matches),
        points,
    })
}

/// The one device that the words name, with its items.
fn plant_of_device<'a>(
    alloc: Global,
    matches: &ArgMatches<'a>,
    word: &'a str,
) -> Result<Plant, Refusal<'a>> {
    let link = link_of(alloc, word, matches.get_flag("rtu"))?;
    let target = target_of_items(alloc, matches, word)?;
    let mut plant = Plant::new(alloc);
    plant.add(link, target)?;
    Ok(plant)
}

/// The points of a device that are chosen, in their order.
fn points_of(
    alloc: Global,
    points: Vec<Point>,
    place: usize,
    choices: &[Choice<'_>],
) -> Result<Vec<Point>, Refusal<'static>> {
    let mut kept = Vec::new(alloc);
    for point in points {
        if is_chosen(choices, place, &point) {
            kept.push(point)?;
        }
    }
    Ok(kept)
}

/// The points of a device that are chosen, and the reads that give them; nothing where none is chosen.
fn chosen_points(
    alloc: Global,
    within: Limits,
    points: Vec<Point>,
    place: usize,
    choices: &[Choice<'_>],
) -> Result<Option<Points>, Refusal<'static>> {
    let points = points_of(alloc, points, place, choices)?;
    if points.is_empty() {
        return Ok(None);
    }
    Ok(Some(Points::new(alloc, within, points)?))
}

/// Adds the device at this place of a map, where a point of it is chosen.
fn add_chosen(
    alloc: Global,
    matches: &ArgMatches<'_>,
    plant: &mut Plant,
    device: Device,
    place: usize,
    choices: &[Choice<'_>],
) -> Result<(), Refusal<'static>> {
    let settings = settings_for(matches, &device);
    let within = limits(matches, device.limits);
    let Device {
        name,
        link,
        points,
        ..
    } = device;
    if let Some(points) = chosen_points(alloc, within, points, place, choices)? {
        let target = Target {
            name,
            link: 0,
            settings,
            points,
        };
        plant.add(link, target)?;
    }
    Ok(())
}

/// What the words name of a map.
fn choices_of<'a>(
    alloc: Global,
    map: &Map,
    words: &[&'a str],
) -> Result<Vec<Choice<'a>>, Refusal<'a>> {
    let mut choices = Vec::new(alloc);
    for word in words {
        choices.push(chosen(map, word)?)?;
    }
    Ok(choices)
}

/// The devices of a map that are chosen.
fn plant_of_choices(
    alloc: Global,
    matches: &ArgMatches<'_>,
    map: Map,
    choices: &[Choice<'_>],
) -> Result<Plant, Refusal<'static>> {
    let mut plant = Plant::new(alloc);
    for (place, device) in map.devices.into_iter().enumerate() {
        add_chosen(alloc, matches, &mut plant, device, place, choices)?;
    }
    Ok(plant)
}

/// The devices of the map of a file that the words name.
fn plant_of_map<'a>(
    rt: &HostRuntime,
    matches: &ArgMatches<'a>,
    path: &'a str,
) -> Result<Plant, Refusal<'a>> {
    let map = read_plant(rt, path)?;
    let words = matches.get_strs("words").unwrap_or(&[]);
    let choices = choices_of(rt.alloc(), &map, words)?;
    plant_of_choices(rt.alloc(), matches, map, choices.as_slice())
}

/// The devices that the words name.
fn plant<'a>(rt: &HostRuntime, matches: &ArgMatches<'a>) -> Result<Plant, Refusal<'a>> {
    let word = matches.get_str("device").unwrap_or("");
    if is_map(word) {
        return plant_of_map(rt, matches, word);
    }
    plant_of_device(rt.alloc(), matches, word)
}

/// The poll that the words ask for.
pub fn poll<'a>(rt: &HostRuntime, matches: &ArgMatches<'a>) -> Result<PollTask, Refusal<'a>> {
    let plant = plant(rt, matches)?;
    let every = matches.get_one("every").map(Duration::from_millis);
    let most = if every.is_some() { u64::MAX } else { 1 };
    Ok(PollTask {
        plant,
        every,
        count: matches.get_one("count").unwrap_or(most),
        style: style(matches, is_map(matches.get_str("device").unwrap_or(""))),
        is_plan: matches.get_flag("plan"),
    })
}
