//! What an input of a unit is at first: a master can't write it.

use modbus_frame::{Coil, SlaveId, Word};
use modbus_store::{OutOfRange, RegisterStore};
use std::str::FromStr;

/// An input and its value.
#[derive(Clone, Copy, Debug, PartialEq, Eq)]
pub enum Input {
    /// The input register at this address.
    Register(u16, Word),
    /// The discrete input at this address.
    Discrete(u16, Coil),
}

/// What one input of a unit is at first.
#[derive(Clone, Copy, Debug, PartialEq, Eq)]
pub struct Setting {
    /// The unit.
    pub unit: SlaveId,
    /// The input and its value.
    pub input: Input,
}

/// A word sets no input.
#[derive(Clone, Copy, Debug, PartialEq, Eq)]
pub struct NoSetting;

/// The number that a word shows.
fn number(word: &str) -> Result<u16, NoSetting> {
    word.parse().map_err(|_| NoSetting)
}

/// The input that `i5=215` or `d5=1` sets, and its value.
fn read_input(word: &str) -> Result<Input, NoSetting> {
    let Some((place, value)) = word.split_once('=') else {
        return Err(NoSetting);
    };
    if let Some(address) = place.strip_prefix('i') {
        return Ok(Input::Register(number(address)?, number(value)?));
    }
    match (place.strip_prefix('d'), value) {
        (Some(address), "0") => Ok(Input::Discrete(number(address)?, false)),
        (Some(address), "1") => Ok(Input::Discrete(number(address)?, true)),
        _ => Err(NoSetting),
    }
}

impl FromStr for Setting {
    type Err = NoSetting;

    fn from_str(word: &str) -> Result<Setting, NoSetting> {
        let Some((unit, rest)) = word.split_once(':') else {
            return Err(NoSetting);
        };
        Ok(Setting {
            unit: unit.parse().map_err(|_| NoSetting)?,
            input: read_input(rest)?,
        })
    }
}

impl Setting {
    /// Sets the input of these tables.
    ///
    /// # Errors
    /// `OutOfRange` where its table has no such address.
    pub fn apply(self, store: &mut RegisterStore) -> Result<(), OutOfRange> {
        match self.input {
            Input::Register(address, word) => store.set_input(address, word),
            Input::Discrete(address, state) => store.set_discrete(address, state),
        }
    }
}
