//! The words that say what masters may do.
ghost use Rattle.std.specs.Prelude.{◌≡◌, ◌≤◌, [], true, false, IfSome, IfOk};
ghost use Rattle.modbus_rule_words.specs.RuleWords.{ends_of, span_named, units_named, writes_named, AddsNamed, contradicts, rules_said};

use modbus_poll::number_within;
use modbus_rules::{Rules, UnitSpan, WriteSpan};
use std::alloc::{AllocError, Global};

/// The texts of a first and a last number: what stands before and behind a hyphen; the whole word is both where it has none.
fn ends_of(word: &str) -> (&str, &str)
    ensures { (result.0.now, result.1.now) ≡ ends_of word.now }
{
    match word.split_once('-') {
        Some(ends) => ends,
        None => (word, word),
    }
}

/// The first and the last number of a word, of one to five digits each, up to `most`; `None` where it is no such word, or the first is above
/// the last.
fn span_of(word: &str, most: u32) -> Option<(u32, u32)>
    ensures exact { result ≡ span_named most word.now }
    ensures most { IfSome result (λ span. (span.0 ≤ most) × (span.1 ≤ most)) }
{
    let (first, last) = ends_of(word);
    let first = number_within(first.as_bytes(), 5, 0, most);
    let last = number_within(last.as_bytes(), 5, 0, most);
    match (first, last) {
        (Some(first), Some(last)) if first <= last => Some((first, last)),
        _ => None,
    }
}

/// The units of a word: `3`, or `1-20`, each from 0 to 255.
fn units_of(word: &str) -> Option<UnitSpan>
    ensures { result ≡ units_named word.now }
{
    match span_of(word, 0xFF) {
        Some((first, last)) if first <= 0xFF && last <= 0xFF => Some(UnitSpan {
            first: first as u8,
            last: last as u8,
        }),
        _ => None,
    }
}

/// What may be written by a word: units, a colon, and addresses, as `3:100-119`.
fn writes_of(word: &str) -> Option<WriteSpan>
    ensures { result ≡ writes_named word.now }
{
    let (units, addresses) = word.split_once(':')?;
    match (units_of(units), span_of(addresses, 0xFFFF)) {
        (Some(units), Some((first, last))) if first <= 0xFFFF && last <= 0xFFFF => {
            Some(WriteSpan {
                units,
                first: first as u16,
                last: last as u16,
            })
        }
        _ => None,
    }
}

/// What the words said so far of what masters may do.
#[derive(Drop)]
pub struct RuleWords {
    units: Vec<UnitSpan>,
    writes: Vec<WriteSpan>,
    is_read_only: bool,
}

impl RuleWords {
    /// Nothing was said.
    pub fn new(alloc: Global) -> RuleWords
        ensures units { result.units.items ≡ [] }
        ensures writes { result.writes.items ≡ [] }
        ensures read_only { result.is_read_only ≡ false }
    {
        RuleWords {
            units: Vec::new(alloc),
            writes: Vec::new(alloc),
            is_read_only: false,
        }
    }

    /// Nothing may be written.
    pub fn allow_no_write(&mut self)
        ensures { self.new ≡ record self.old { is_read_only = true } }
    {
        self.is_read_only = true;
    }

    /// More units that may be asked; whether the word tells some.
    ///
    /// # Errors
    /// `AllocError` where memory is refused.
    pub fn add_units(&mut self, word: &str) -> Result<bool, AllocError>
        ensures added { IfOk result (λ is_named. AddsNamed (units_named word.now)
            self.old.units.items is_named self.new.units.items) }
        ensures rest { self.new ≡ record self.old { units = self.new.units } }
    {
        match units_of(word) {
            Some(span) => {
                self.units.push(span)?;
                Ok(true)
            }
            None => Ok(false),
        }
    }

    /// More that may be written; whether the word tells some.
    ///
    /// # Errors
    /// `AllocError` where memory is refused.
    pub fn add_writes(&mut self, word: &str) -> Result<bool, AllocError>
        ensures added { IfOk result (λ is_named. AddsNamed (writes_named word.now)
            self.old.writes.items is_named self.new.writes.items) }
        ensures rest { self.new ≡ record self.old { writes = self.new.writes } }
    {
        match writes_of(word) {
            Some(span) => {
                self.writes.push(span)?;
                Ok(true)
            }
            None => Ok(false),
        }
    }

    /// Whether nothing and something may be written.
    pub fn contradicts(&self) -> bool
        ensures { result ≡ contradicts self.now.writes.items self.now.is_read_only }
    {
        self.is_read_only && !self.writes.is_empty()
    }

    /// What masters may do: each unit may be asked where none was named, and everything written where nothing was said of that.
    pub fn rules(&self) -> Rules<'_>
        ensures { result ≡ rules_said self.now.units.items self.now.writes.items
            self.now.is_read_only }
    {
        let units = if self.units.is_empty() {
            None
        } else {
            Some(self.units.as_slice())
        };
        let writes = if self.writes.is_empty() && !self.is_read_only {
            None
        } else {
            Some(self.writes.as_slice())
        };
        Rules { units, writes }
    }
}
