//! What several lines append.
ghost use Rattle.std.specs.Prelude.{◌≡◌, ◌++◌, replicate, OnOk};

use std::alloc::AllocError;

/// Appends so many spaces.
pub(crate) fn push_spaces(text: &mut Vec<u8>, count: usize) -> Result<(), AllocError>
    ensures { OnOk result (text.new.items ≡ text.old.items ++ replicate count 32) }
{
    for _done in 0..count {
        text.push(b' ')?;
    }
    Ok(())
}
