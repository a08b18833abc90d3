//! RTU frames by silence: a server for a device on a serial line that others share (MODBUS over Serial Line V1.02, section 2.5.1.1).
//!
//! On such a line a device hears the requests to all and the replies of all, frames that are cut, and noise. The standard ends a frame by a
//! silence of 3.5 characters, which quick neighbours and converters leave out. So what lies between two silences, a burst, is read from its
//! start, whatever came before it: all of it where that is a frame, else frames one after another, each as long as a request or a reply. Each
//! is a message, and what is left is noise for the reserved address 255. The service hears them all, and is silent to what is not for it, as a
//! `LineAnswerer` has to be; its answer to the last frame alone is written. Nothing that comes over the line ends the server. `BurstLink` makes
//! each read of a link that tells silence one burst. The framing of the engine in which each read is a burst is private, so that nothing else is
//! served over it.

mod bursts;
mod counted;
mod frame;
pub mod laws;
mod length;
mod line;
mod line_answerer;
mod link;
mod quiet_units;

pub use crate::burst::bursts::MOST_READ;
pub use crate::burst::counted::CountedLink;
pub use crate::burst::frame::{
    FrameHeader, NOISE_ADDRESS, Part, SHORTEST_FRAME, frame_in, message_in,
};
pub use crate::burst::line::{process, process_link};
pub use crate::burst::line_answerer::LineAnswerer;
pub use crate::burst::link::BurstLink;
pub use crate::burst::quiet_units::QuietUnits;
