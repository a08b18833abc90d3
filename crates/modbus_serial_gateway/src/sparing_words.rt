//! The words that say when a slave is dead, and for how long it is not asked then.
ghost use Rattle.std.specs.Prelude.{◌≡◌, None};
ghost use Rattle.std.specs.Option.{option_map, is_some};
ghost use Rattle.std.specs.Duration.{as_nanos};
ghost use Rattle.modbus_serial_gateway.specs.SparingWords.{misses_named, seconds_named, or_ten, limits_said, wants_misses};

use modbus_gateway::SparingLimits;
use modbus_poll::number_within;
use std::time::Duration;

/// For how many seconds a dead slave is not asked where no word says that.
const RETRY: u32 = 10;

/// After how many requests in a row that it did not answer a slave is dead: one to four digits, of a value from 1 to 1,000.
fn misses_of(word: &str) -> Option<u16>
    ensures { result ≡ misses_named word.now }
{
    match number_within(word.as_bytes(), 4, 1, 1_000) {
        Some(misses) if misses <= 1_000 => Some(misses as u16),
        _ => None,
    }
}

/// For how many seconds a dead slave is not asked: one to four digits, of a value from 1 to 3,600.
fn seconds_of(word: &str) -> Option<u32>
    ensures { result ≡ seconds_named word.now }
{
    number_within(word.as_bytes(), 4, 1, 3_600)
}

/// What the words said so far of dead slaves.
#[derive(Clone, Copy)]
pub struct SparingWords {
    misses: Option<u16>,
    seconds: Option<u32>,
}

impl SparingWords {
    /// Nothing was said: each slave is asked at each request.
    pub fn new() -> SparingWords
        ensures { result ≡ record { misses = None; seconds = None } }
    {
        SparingWords {
            misses: None,
            seconds: None,
        }
    }

    /// After how many requests a slave is dead; whether the word tells that.
    pub fn read_misses(&mut self, word: &str) -> bool
        ensures said { self.new ≡ record self.old { misses = misses_named word.now } }
        ensures tells { result ≡ is_some (misses_named word.now) }
    {
        self.misses = misses_of(word);
        self.misses.is_some()
    }

    /// For how long a dead slave is not asked; whether the word tells that.
    pub fn read_seconds(&mut self, word: &str) -> bool
        ensures said { self.new ≡ record self.old { seconds = seconds_named word.now } }
        ensures tells { result ≡ is_some (seconds_named word.now) }
    {
        self.seconds = seconds_of(word);
        self.seconds.is_some()
    }

    /// Whether it is said for how long a dead slave is not asked, and not when one is dead.
    pub fn wants_misses(&self) -> bool
        ensures { result ≡ wants_misses self.now.misses self.now.seconds }
    {
        self.seconds.is_some() && self.misses.is_none()
    }

    /// For how many seconds a dead slave is not asked.
    pub fn retry_seconds(&self) -> u32
        ensures { result ≡ or_ten self.now.seconds }
    {
        self.seconds.unwrap_or(RETRY)
    }

    /// When a slave is dead, and for how long it is not asked then; `None` where each slave is asked at each request.
    pub fn limits(&self) -> Option<SparingLimits>
        ensures { option_map (λ limits. (limits.misses, as_nanos limits.retry)) result
            ≡ limits_said self.now.misses self.now.seconds }
    {
        let misses = self.misses?;
        Some(SparingLimits {
            misses,
            retry: Duration::from_secs(u64::from(self.retry_seconds())),
        })
    }
}
