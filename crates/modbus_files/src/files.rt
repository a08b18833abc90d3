//! The files of a device, and where a record of them is.
ghost use Rattle.std.specs.Prelude.{◌≡◌, ◌*◌, ◌≤◌, length, true, false, IfOk, MatchOption};
ghost use Rattle.modbus_pdu.specs.Fields.{words_of};
ghost use Rattle.modbus_files.specs.Files.{place_of, is_there, records_of, with_records, files_at_start};

use crate::group::Group;
use modbus_frame::Word;
use std::alloc::{AllocError, Global};
use std::marker::Model;

/// How many records a file has at most: they are numbered from 0 to 9999 (section 6.14).
pub const MAX_RECORDS: u16 = 10_000;

/// The reference type of records of files (section 6.14).
pub(crate) const REFERENCE_TYPE: u8 = 6;

/// Files of as many records each, which are registers. They are numbered from 1 on.
#[derive(Drop)]
pub struct Files {
    records: u16,
    words: Vec<Word>,
}

/// A contract sees how many records each has, and the registers of all of them, file after file.
impl Model for Files {
    ghost use Rattle.modbus_files.specs.Files.{FilesState};

    ghost Value = { FilesState };

    ghost view = { λ it. record { records = it.records; registers = it.words.items } };
}

/// Reads as many registers as there is room for, two bytes each.
fn read_words(words: &mut [Word], bytes: &[u8])
    requires { 2 * length words.old ≤ length bytes.now }
    ensures { words.new ≡ words_of bytes.now (length words.old) }
{
    for i in 0..words.len() {
        words[i] = u16::from_be_bytes([bytes[2 * i], bytes[2 * i + 1]]);
    }
}

impl Files {
    /// So many files of so many records each, which hold 0; of at most `MAX_RECORDS`, else of as many as that.
    ///
    /// # Errors
    /// `AllocError` where memory is refused.
    pub fn new(alloc: Global, files: u16, records: u16) -> Result<Files, AllocError>
        ensures { IfOk result (λ it. it ≡ files_at_start files records) }
    {
        let records = records.min(MAX_RECORDS);
        let words = vec![in alloc; 0; usize::from(files) * usize::from(records)]?;
        Ok(Files { records, words })
    }

    /// Where the records of a group begin among all, where each of them is there: it is of records of files, of a file that is there, and names
    /// at least one record and none behind the last of the file.
    pub(crate) fn place(&self, group: Group) -> Option<usize>
        ensures { MatchOption result (is_there self.now group ≡ false)
            (λ place. (is_there self.now group ≡ true) × (place ≡ place_of self.now group)) }
    {
        if group.reference != REFERENCE_TYPE || group.file == 0 || group.len == 0 {
            return None;
        }
        let last = usize::from(group.first) + usize::from(group.len);
        let place = usize::from(group.file - 1) * usize::from(self.records)
            + usize::from(group.first);
        if last > usize::from(self.records) || place + usize::from(group.len) > self.words.len() {
            return None;
        }
        Some(place)
    }

    /// The records of a group; none where it is not there.
    pub(crate) fn records(&self, group: Group) -> Option<&[Word]>
        ensures { MatchOption result (is_there self.now group ≡ false)
            (λ found. (is_there self.now group ≡ true) × (found.now ≡ records_of self.now group)
            × (length found.now ≡ group.len)) }
    {
        let place = self.place(group)?;
        Some(&self.words.as_slice()[place..place + usize::from(group.len)])
    }

    /// Writes the records of a group that is there.
    pub(crate) fn put(&mut self, group: Group, bytes: &[u8])
        requires there { is_there self.old group ≡ true }
        requires size { 2 * group.len ≤ length bytes.now }
        ensures { self.new ≡ with_records self.old group (words_of bytes.now group.len) }
    {
        match self.place(group) {
            Some(place) => {
                let end = place + usize::from(group.len);
                read_words(&mut self.words.as_mut_slice()[place..end], bytes);
            }
            None => unreachable!(),
        }
    }
}
