//! The words of a command line, and what a program says and tells that can't go on from them.
ghost use Rattle.std.specs.Prelude.{◌≡◌, ◌≢◌, ◌⊎◌, IfErr};
ghost use Rattle.clap.specs.Words.{kind_of};
ghost use Rattle.modbus_about.specs.declared.TheConstants.{FAILED, USAGE};

use clap::error::{Error, ErrorKind};
use modbus_about::{FAILED, USAGE};
use std::{env, io};

/// Tells what clap has to say to the user of this program, and gives the status: 0 where the help or the version was asked for and could be told.
pub fn say(rt: &HostRuntime, program: &str, error: &Error) -> u8
    ensures memory { kind_of error.now ≡ ErrorKind.OutOfMemory → result ≡ FAILED }
    ensures usage { kind_of error.now ≢ ErrorKind.OutOfMemory
        → kind_of error.now ≢ ErrorKind.DisplayHelp
        → kind_of error.now ≢ ErrorKind.DisplayVersion → result ≡ USAGE }
    ensures shown { (kind_of error.now ≡ ErrorKind.DisplayHelp)
        ⊎ (kind_of error.now ≡ ErrorKind.DisplayVersion) → (result ≡ 0) ⊎ (result ≡ FAILED) }
{
    if error.kind() == ErrorKind::OutOfMemory {
        let _ = eprintln!(rt; "{program}: no memory");
        return FAILED;
    }
    let is_said = error.print(rt).is_ok();
    if error.use_stderr() {
        USAGE
    } else if is_said {
        0
    } else {
        FAILED
    }
}

fn collected(rt: &HostRuntime) -> io::Result<Vec<String>> {
    Ok(env::args(rt)?.collect(rt.alloc())?)
}

/// The words of the command line; or the status where they are not in UTF-8 or memory is refused, which is told.
pub fn words_of(rt: &HostRuntime, program: &str) -> Result<Vec<String>, u8>
    ensures err { IfErr result (λ status. (status ≡ USAGE) ⊎ (status ≡ FAILED)) }
{
    match collected(rt) {
        Ok(words) => Ok(words),
        Err(error) if error.kind() == io::ErrorKind::InvalidData => {
            let _ = eprintln!(rt; "{program}: a word that is not in UTF-8");
            Err(USAGE)
        }
        Err(_) => {
            let _ = eprintln!(rt; "{program}: no memory");
            Err(FAILED)
        }
    }
}
