//! What is told of the files by a response to Read File Record (section 6.14).
ghost use Rattle.std.specs.Prelude.{◌≡◌, ◌+◌, ◌*◌, ◌/◌, ◌≤◌, ◌++◌, length};
ghost use Rattle.arrayvec.specs.ArrayVec.{array_vec_len};
ghost use Rattle.modbus_pdu.specs.Word.{words as words_as_bytes};
ghost use Rattle.modbus_files.specs.Files.{group_size, most_told, group_of, groups_of, part_of, one_more, told_of, is_read, TellsOn};

use crate::files::{Files, REFERENCE_TYPE};
use crate::group::Group;
use arrayvec::ArrayVec;
use modbus_frame::{ExceptionCode, Word};

/// How many bytes a response has behind its byte count at most, and a request to read.
pub(crate) const MOST: usize = 245;

/// The bytes of a group that names records.
pub(crate) const GROUP: usize = 7;

/// The group that bytes begin with.
pub(crate) fn group_of(bytes: &[u8]) -> Group
    requires { group_size ≤ length bytes.now }
    ensures { result ≡ group_of bytes.now }
{
    Group {
        reference: bytes[0],
        file: u16::from_be_bytes([bytes[1], bytes[2]]),
        first: u16::from_be_bytes([bytes[3], bytes[4]]),
        len: u16::from_be_bytes([bytes[5], bytes[6]]),
    }
}

/// Appends registers, two bytes each.
#[tactic(auto, unfolding(modbus_pdu::specs::Word::words))]
fn put_words(told: &mut ArrayVec<u8, MOST>, words: &[Word])
    requires { array_vec_len told.old + 2 * length words.now ≤ most_told }
    ensures { told.new.items ≡ told.old.items ++ words_as_bytes words.now }
{
    for word in words {
        let [high, low] = word.to_be_bytes();
        told.push(high);
        told.push(low);
    }
}

/// Appends what is told of the records of a group.
fn put_part(told: &mut ArrayVec<u8, MOST>, records: &[Word])
    requires { array_vec_len told.old + 2 + 2 * length records.now ≤ most_told }
    ensures { told.new.items ≡ told.old.items ++ part_of records.now }
{
    told.push(1 + 2 * records.len() as u8);
    told.push(REFERENCE_TYPE);
    put_words(told, records);
}

/// Whether the data of a request to read is a byte count and groups of as many bytes.
pub(crate) fn is_read(data: &[u8]) -> bool
    ensures { result ≡ is_read data.now }
{
    match data {
        [count, groups @ ..] => {
            let size = usize::from(*count);
            size == groups.len() && size >= GROUP && size <= MOST && size % GROUP == 0
        }
        [] => false,
    }
}

impl Files {
    /// Tells of one more group.
    ///
    /// # Errors
    /// `IllegalDataAddress` where it is not there; `IllegalDataValue` where the response would be too long.
    fn tell(&self, group: Group, told: &mut ArrayVec<u8, MOST>) -> Result<(), ExceptionCode>
        ensures { TellsOn (one_more self.now told.old.items group) result told.new.items }
    {
        let Some(records) = self.records(group) else {
            return Err(ExceptionCode::IllegalDataAddress);
        };
        if told.len() + 2 + 2 * records.len() > MOST {
            return Err(ExceptionCode::IllegalDataValue);
        }
        put_part(told, records);
        Ok(())
    }

    /// Tells of groups, in order.
    ///
    /// # Errors
    /// That of the first that can't be told.
    pub(crate) fn tell_all(
        &self,
        groups: &[u8],
        told: &mut ArrayVec<u8, MOST>,
    ) -> Result<(), ExceptionCode>
        ensures { TellsOn (told_of self.now told.old.items
            (groups_of (length groups.now / group_size) groups.now)) result told.new.items }
    {
        for at in 0..groups.len() / GROUP {
            match self.tell(group_of(&groups[GROUP * at..]), told) {
                Ok(()) => {}
                Err(code) => return Err(code),
            }
        }
        Ok(())
    }
}
