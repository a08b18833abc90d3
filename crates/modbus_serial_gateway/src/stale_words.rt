//! The word that says for how long a request waits for its turn at the line.
ghost use Rattle.std.specs.Prelude.{◌≡◌, ◌*◌, ◌<◌, ◌^◌, None};
ghost use Rattle.std.specs.Option.{is_some};
ghost use Rattle.std.specs.Duration.{as_nanos};
ghost use Rattle.modbus_serial_gateway.specs.StaleWords.{stale_named, stale_said};

use modbus_poll::number_within;
use std::time::Duration;

/// How many times the time that the reply of a slave is waited for a request waits at most, where no word says for how long.
const TIMES: u64 = 4;

/// What the words said so far of requests that wait.
#[derive(Clone, Copy)]
pub struct StaleWords {
    millis: Option<u32>,
}

impl StaleWords {
    /// Nothing was said.
    pub fn new() -> StaleWords
        ensures { result ≡ record { millis = None } }
    {
        StaleWords { millis: None }
    }

    /// For how many milliseconds a request waits at most, of one to six digits, from 1 to 600,000; whether the word tells that.
    pub fn read(&mut self, word: &str) -> bool
        ensures said { self.new ≡ record { millis = stale_named word.now } }
        ensures tells { result ≡ is_some (stale_named word.now) }
    {
        self.millis = number_within(word.as_bytes(), 6, 1, 600_000);
        self.millis.is_some()
    }

    /// For how long a request waits at most, where the reply of a slave is waited for so many milliseconds.
    pub fn limit(&self, reply: u32) -> Duration
        ensures { as_nanos result ≡ stale_said self.now.millis reply * 1_000_000 }
    {
        match self.millis {
            Some(millis) => Duration::from_millis(u64::from(millis)),
            None => Duration::from_millis(TIMES * u64::from(reply)),
        }
    }
}
