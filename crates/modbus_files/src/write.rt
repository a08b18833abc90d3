//! Writes of records by a request to write them (section 6.15).
ghost use Rattle.std.specs.Prelude.{◌≡◌};
ghost use Rattle.modbus_files.specs.Files.{most_groups, one_size, checked, written};

use crate::answer::{GROUP, group_of};
use crate::files::Files;
use modbus_frame::ExceptionCode;

/// How many groups a request has at most: its 251 bytes have nine or more each.
const MOST_GROUPS: usize = 27;

impl Files {
    /// How many bytes the group that bytes begin with has, where it can be written.
    ///
    /// # Errors
    /// `IllegalDataValue` where it is cut short, `IllegalDataAddress` where it is not there.
    fn size_of_one(&self, bytes: &[u8]) -> Result<usize, ExceptionCode>
        ensures { result ≡ one_size self.now bytes.now }
    {
        if bytes.len() < GROUP {
            return Err(ExceptionCode::IllegalDataValue);
        }
        let group = group_of(bytes);
        let size = GROUP + 2 * usize::from(group.len);
        if bytes.len() < size {
            return Err(ExceptionCode::IllegalDataValue);
        }
        match self.place(group) {
            Some(_) => Ok(size),
            None => Err(ExceptionCode::IllegalDataAddress),
        }
    }

    /// Whether bytes are groups that can be written.
    ///
    /// # Errors
    /// That of the first that can't be.
    pub(crate) fn check(&self, bytes: &[u8]) -> Result<(), ExceptionCode>
        ensures { result ≡ checked most_groups self.now bytes.now }
    {
        let mut rest = bytes;
        for at in 0..MOST_GROUPS {
            if rest.is_empty() {
                return Ok(());
            }
            match self.size_of_one(rest) {
                Ok(size) => rest = &rest[size..],
                Err(code) => return Err(code),
            }
        }
        if rest.is_empty() {
            Ok(())
        } else {
            Err(ExceptionCode::IllegalDataValue)
        }
    }

    /// Writes the groups that bytes are, in order.
    pub(crate) fn write_all(&mut self, bytes: &[u8])
        ensures { self.new ≡ written most_groups self.old bytes.now }
    {
        let mut rest = bytes;
        for at in 0..MOST_GROUPS {
            if rest.is_empty() {
                return;
            }
            match self.size_of_one(rest) {
                Ok(size) => {
                    self.put(group_of(rest), &rest[GROUP..]);
                    rest = &rest[size..];
                }
                Err(_) => return,
            }
        }
    }
}
