//! How many files of records a unit has (Modbus Application Protocol V1.1b3, sections 6.14 and 6.15).
ghost use Rattle.std.specs.Prelude.{◌≤◌, IfOk};
ghost use Rattle.modbus_files.specs.Files.{most_records};

use modbus_files::MAX_RECORDS;
use std::str::FromStr;

/// How many files a unit has at most: of 10,000 records each they take 1.3 megabytes. The standard has numbers for 65,535, which would take
/// more than a gigabyte.
const MOST_FILES: u16 = 64;

/// So many files of so many records each, which are registers.
#[derive(Clone, Copy, Debug, PartialEq, Eq)]
pub struct FileSizes {
    /// How many files, 1 to `MOST_FILES`.
    pub files: u16,
    /// How many records each has, 1 to `MAX_RECORDS`.
    pub records: u16,
}

/// A word tells no files.
#[derive(Clone, Copy, Debug, PartialEq, Eq)]
pub struct NoFiles;

/// The number from 1 to this one that a word shows.
fn up_to(most: u16, word: &str) -> Result<u16, NoFiles>
    ensures { IfOk result (λ number. (1 ≤ number) × (number ≤ most)) }
{
    match word.parse::<u16>() {
        Ok(number) if number >= 1 && number <= most => Ok(number),
        _ => Err(NoFiles),
    }
}

/// The files that `2` or `2:100` tells.
fn sizes_of(word: &str) -> Result<FileSizes, NoFiles>
    ensures { IfOk result (λ sizes. (sizes.files ≤ 64) × (sizes.records ≤ most_records)) }
{
    match word.split_once(':') {
        Some((files, records)) => Ok(FileSizes {
            files: up_to(MOST_FILES, files)?,
            records: up_to(MAX_RECORDS, records)?,
        }),
        None => Ok(FileSizes {
            files: up_to(MOST_FILES, word)?,
            records: MAX_RECORDS,
        }),
    }
}

impl FromStr for FileSizes {
    type Err = NoFiles;

    fn from_str(word: &str) -> Result<FileSizes, NoFiles> {
        sizes_of(word)
    }
}
