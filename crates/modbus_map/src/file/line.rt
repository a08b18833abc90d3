//! The line of a text at which a word of a map is refused, as people write maps: a table or a point of a list begins on a line of its own.

use crate::file::fault::{MapError, MapPlace};

/// Whether a character can be part of a word.
fn is_of_word(character: Option<char>) -> bool {
    match character {
        Some(it) => it.is_alphanumeric() || it == '_' || it == '-',
        None => false,
    }
}

/// Whether a line has a word that is not part of a longer one.
fn has_word(line: &str, word: &str) -> bool {
    let mut before: Option<&str> = None;
    for behind in line.split(word) {
        if let Some(front) = before {
            let goes_on = is_of_word(behind.chars().next());
            if !goes_on && !is_of_word(front.chars().next_back()) {
                return true;
            }
        }
        before = Some(behind);
    }
    false
}

/// Lines of a text, counted from 0: from the first one on, before the end.
#[derive(Clone, Copy)]
struct Part {
    first: usize,
    end: usize,
}

/// Whether a value begins with a name in quotes.
fn is_quoted(value: &str, name: &str) -> bool {
    for quote in ["\"", "'"] {
        if let Some(rest) = value.strip_prefix(quote) {
            if let Some(behind) = rest.strip_prefix(name) {
                return behind.starts_with(quote);
            }
        }
    }
    false
}

/// Whether a line gives this name to something.
fn gives_name(line: &str, name: &str) -> bool {
    for behind in line.split("name").skip(1) {
        if let Some(value) = behind.trim_start().strip_prefix('=') {
            if is_quoted(value.trim_start(), name) {
                return true;
            }
        }
    }
    false
}

/// Whether a line begins a table.
fn is_header(line: &str) -> bool {
    line.trim_start().starts_with('[')
}

/// Whether a line begins a device, or a group of points.
fn begins_part(line: &str) -> bool {
    let line = line.trim_start();
    line.starts_with("[[device]]") || line.starts_with("[group")
}

/// Where the part ends in which a line stands: before the next device or group, or behind the last line.
fn end_of_part(text: &str, line: usize) -> usize {
    let mut end = line.saturating_add(1);
    for next in text.lines().skip(end) {
        if begins_part(next) {
            return end;
        }
        end = end.saturating_add(1);
    }
    end
}

/// The part of the device of this name, from the line of its name on.
fn part_of_device(text: &str, name: &str) -> Option<Part> {
    let mut is_of_device = false;
    for (place, line) in text.lines().enumerate() {
        if is_header(line) {
            is_of_device = line.trim_start().starts_with("[[device]]");
        } else if is_of_device && gives_name(line, name) {
            return Some(Part {
                first: place,
                end: end_of_part(text, place),
            });
        }
    }
    None
}

/// The first line of a part that gives this name to something.
fn line_of_name(text: &str, part: Part, name: &str) -> Option<usize> {
    for (place, line) in text.lines().enumerate() {
        if part.first <= place && place < part.end && gives_name(line, name) {
            return Some(place);
        }
    }
    None
}

/// The first line of groups that gives this name to a point.
fn line_in_groups(text: &str, name: &str) -> Option<usize> {
    let mut is_of_group = false;
    for (place, line) in text.lines().enumerate() {
        if begins_part(line) {
            is_of_group = line.trim_start().starts_with("[group");
        }
        if is_of_group && gives_name(line, name) {
            return Some(place);
        }
    }
    None
}

/// The line that gives a device's point this name: behind the line of the device's own name, or in a group.
fn line_of_point(text: &str, device: &str, name: &str) -> Option<usize> {
    let part = part_of_device(text, device)?;
    let points = Part {
        first: part.first.saturating_add(1),
        end: part.end,
    };
    match line_of_name(text, points, name) {
        Some(line) => Some(line),
        None => line_in_groups(text, name),
    }
}

/// The first line of a table that has a word, from this one on; this line, where none has it.
fn line_in_table(text: &str, from: usize, word: &str) -> usize {
    for (place, line) in text.lines().enumerate().skip(from) {
        if place > from && is_header(line) {
            return from;
        }
        if has_word(line, word) {
            return place;
        }
    }
    from
}

/// The same of the table of a point, which may lie in a list, between braces.
fn line_in_point(text: &str, from: usize, word: &str) -> usize {
    for (place, line) in text.lines().enumerate().skip(from) {
        if place > from && is_header(line) {
            return from;
        }
        if has_word(line, word) {
            return place;
        }
        if line.contains('}') {
            return from;
        }
    }
    from
}

/// The line of what stands in no device.
fn line_in_map(text: &str, word: &str) -> Option<usize> {
    text.lines().position(|line| has_word(line, word))
}

/// The line, from 1, of the text of a map that a fault tells of: that of the word that is refused, or of the device or point that it is
/// refused in. `None` where none is found, and where memory was refused.
pub fn line_of(text: &str, fault: &MapError) -> Option<usize> {
    let line = match fault {
        MapError::Toml { line, .. } => return Some(*line),
        MapError::NoMemory => return None,
        MapError::Refused { place, word, .. } => match place {
            MapPlace::Map => line_in_map(text, word.as_str())?,
            MapPlace::Device(device) => {
                let part = part_of_device(text, device.as_str())?;
                line_in_table(text, part.first, word.as_str())
            }
            MapPlace::Point(device, point) => {
                let from = line_of_point(text, device.as_str(), point.as_str())?;
                line_in_point(text, from, word.as_str())
            }
        },
    };
    Some(line.saturating_add(1))
}
