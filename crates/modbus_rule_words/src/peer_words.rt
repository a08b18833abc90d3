//! The words that say which peers are served.
ghost use Rattle.std.specs.Prelude.{◌≡◌, [], Some, IfSome, IfOk};
ghost use Rattle.modbus_rule_words.specs.PeerWords.{most_bits, bits_named, address_text, peers_said, AddsNetwork, IsNetworkNamed};

use modbus_peers::{Network, Peers};
use modbus_poll::number_within;
use std::alloc::{AllocError, Global};
use std::net::IpAddr;

/// How many bits an address has.
fn most_bits(address: IpAddr) -> u32
    ensures { result ≡ most_bits address }
{
    match address {
        IpAddr::V4(_) => 32,
        IpAddr::V6(_) => 128,
    }
}

/// The number of bits behind the slash of a word, or all of an address's where it has no slash.
fn bits_of(address: IpAddr, word: &str) -> Option<u8>
    ensures { IfSome result (λ bits. bits_named address word.now ≡ Some bits) }
{
    let most = most_bits(address);
    let bits = match word.split_once('/') {
        Some((_, bits)) => number_within(bits.as_bytes(), 3, 0, most)?,
        None => most,
    };
    u8::try_from(bits).ok()
}

/// What stands before the slash of a word, or the whole word where it has none.
fn address_text(word: &str) -> &str
    ensures { result.now ≡ address_text word.now }
{
    match word.split_once('/') {
        Some((address, _)) => address,
        None => word,
    }
}

/// The network that a word names: an address, or one and how many of its bits are common, as `192.0.2.0/24` or `2001:db8::/32`.
pub fn network_of(word: &str) -> Option<Network>
    ensures { IfSome result (IsNetworkNamed word.now) }
{
    let Ok(address) = address_text(word).parse() else {
        return None;
    };
    let bits = bits_of(address, word)?;
    Some(Network { address, bits })
}

/// What the words said so far of which peers are served.
#[derive(Drop)]
pub struct PeerWords {
    networks: Vec<Network>,
}

impl PeerWords {
    /// Nothing was said.
    pub fn new(alloc: Global) -> PeerWords
        ensures { result.networks.items ≡ [] }
    {
        PeerWords {
            networks: Vec::new(alloc),
        }
    }

    /// One more network whose peers are served; whether the word tells one.
    ///
    /// # Errors
    /// `AllocError` where memory is refused.
    pub fn add(&mut self, word: &str) -> Result<bool, AllocError>
        ensures { IfOk result (λ is_named. AddsNetwork word.now self.old.networks.items is_named
            self.new.networks.items) }
    {
        match network_of(word) {
            Some(network) => {
                self.networks.push(network)?;
                Ok(true)
            }
            None => Ok(false),
        }
    }

    /// Which peers are served: each where no network was named.
    pub fn peers(&self) -> Peers<'_>
        ensures { result ≡ peers_said self.now.networks.items }
    {
        if self.networks.is_empty() {
            return Peers::all();
        }
        Peers {
            networks: Some(self.networks.as_slice()),
        }
    }
}
