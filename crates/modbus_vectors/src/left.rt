//! What a client leaves.

use crate::text::Text;
use modbus_link::{Link, MemoryLink};

/// Appends what was written to a link.
pub fn push_written(text: &mut Text, link: &MemoryLink) {
    text.push_str("wrote ");
    text.push_hex(link.sink().bytes());
}

/// The same, and how long a call over it waits.
pub fn push_link(text: &mut Text, link: Option<&MemoryLink>) {
    match link {
        Some(link) => {
            push_written(text, link);
            write!(text, " within {:?}", link.timeout());
        }
        None => text.push_str("no link"),
    }
}

/// Appends what was written to a link, and how many bytes a client holds.
pub fn push_left(text: &mut Text, link: Option<&MemoryLink>, held: usize) {
    match link {
        Some(link) => push_written(text, link),
        None => text.push_str("no link"),
    }
    write!(text, " holds {held}");
}
