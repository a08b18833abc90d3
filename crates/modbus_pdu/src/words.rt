//! Registers as bytes: two a register, the high byte first (V1.1b3, section 4.2).
ghost use Rattle.std.specs.Prelude.{◌≡◌, ◌*◌, ◌≤◌, length, IfOk};
ghost use Rattle.modbus_pdu.specs.Fields.{words_of};

use modbus_frame::Word;
use std::alloc::{AllocError, Global};

/// The first `count` words of the bytes.
pub(crate) fn decode_words(
    alloc: Global,
    bytes: &[u8],
    count: usize,
) -> Result<Vec<Word>, AllocError>
    requires { 2 * count ≤ length bytes.now }
    ensures { IfOk result (λ words. words.items ≡ words_of bytes.now count) }
{
    let mut words = vec![in alloc; 0; count]?;
    read_words(words.as_mut_slice(), bytes);
    Ok(words)
}

/// Reads as many words as there is room for.
fn read_words(words: &mut [Word], bytes: &[u8])
    requires { 2 * length words.old ≤ length bytes.now }
    ensures { words.new ≡ words_of bytes.now (length words.old) }
{
    for i in 0..words.len() {
        words[i] = u16::from_be_bytes([bytes[2 * i], bytes[2 * i + 1]]);
    }
}
