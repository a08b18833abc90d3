//! Fields appended to a buffer that has room for them.
ghost use Rattle.std.specs.Prelude.{◌≡◌, ◌+◌, ◌*◌, ◌≤◌, ◌++◌, ◌∷◌, [], length};
ghost use Rattle.modbus_pdu.specs.Word.{word, words};

use bytes::BytesMut;
use modbus_frame::Word;

/// Appends a byte.
#[inline]
pub(crate) fn put_byte(buf: &mut BytesMut, byte: u8)
    requires { 1 ≤ buf.old.spare }
    ensures items { buf.new.items ≡ buf.old.items ++ byte ∷ [] }
    ensures spare { buf.new.spare + 1 ≡ buf.old.spare }
{
    buf.extend_reserved(&[byte]);
}

/// Appends a number as two bytes, the high one first (V1.1b3, section 4.2).
#[inline]
pub(crate) fn put_word(buf: &mut BytesMut, number: u16)
    requires { 2 ≤ buf.old.spare }
    ensures items { buf.new.items ≡ buf.old.items ++ word number }
    ensures spare { buf.new.spare + 2 ≡ buf.old.spare }
{
    buf.extend_reserved(&number.to_be_bytes());
}

/// Appends numbers one after another, two bytes each.
pub(crate) fn put_words(buf: &mut BytesMut, numbers: &[Word])
    requires { 2 * length numbers.now ≤ buf.old.spare }
    ensures items { buf.new.items ≡ buf.old.items ++ words numbers.now }
    ensures spare { buf.new.spare + 2 * length numbers.now ≡ buf.old.spare }
{
    let start = buf.len();
    buf.advance_mut(2 * numbers.len());
    write_words(&mut buf.as_mut_slice()[start..], numbers);
}

/// Writes numbers one after another, over as many bytes as they take.
#[tactic(auto, unfolding(crate::specs::Word::words))]
fn write_words(bytes: &mut [u8], numbers: &[Word])
    requires { length bytes.old ≡ 2 * length numbers.now }
    ensures { bytes.new ≡ words numbers.now }
{
    for i in 0..numbers.len() {
        let [high, low] = numbers[i].to_be_bytes();
        bytes[2 * i] = high;
        bytes[2 * i + 1] = low;
    }
}
