//! What each program says of itself, and the statuses that all but `modbus` share.
#![tactic(auto)]

mod streams;

ghost use Rattle.std.specs.Prelude.{◌≡◌, ◌⊎◌};
ghost use Rattle.modbus_about.specs.About.{about_named};

pub use crate::streams::{FilledStreams, fill_closed_streams};

/// The version of the programs and of the library for C, that of the Rust crate that is ported, and the toolchain that they are proved with.
pub const VERSION: &str = "0.17.0 (rattle-kit-13f logic dac8208d650f15bf)";

/// The status where the system or memory is refused, or a device.
pub const FAILED: u8 = 1;

/// The status of words that can't be read.
pub const USAGE: u8 = 2;

/// What a program is asked to say of itself.
#[derive(Clone, Copy, Debug, PartialEq, Eq)]
pub enum About {
    /// Its words.
    Help,
    /// Its version.
    Version,
}

/// What a word asks a program to say of itself: `--help` or `-h`, `--version` or `-V`.
pub fn asked(word: &str) -> Option<About>
    ensures { result ≡ about_named word.now }
{
    match word {
        "--help" | "-h" => Some(About::Help),
        "--version" | "-V" => Some(About::Version),
        _ => None,
    }
}

/// Says it on standard output, and gives the status: 0, or 1 where the output takes no more. `help` has the lines on the words.
pub fn tell(rt: &HostRuntime, program: &str, help: &str, about: About) -> u8
    ensures { (result ≡ 0) ⊎ (result ≡ FAILED) }
{
    let told = match about {
        About::Help => print!(rt; "{help}"),
        About::Version => println!(rt; "{program} {VERSION}"),
    };
    if told.is_ok() { 0 } else { FAILED }
}
