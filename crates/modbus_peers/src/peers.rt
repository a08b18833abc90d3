//! Which peers are served, by their addresses.
ghost use Rattle.std.specs.Prelude.{◌≡◌};
ghost use Rattle.modbus_peers.specs.Peers.{bits_of, host_bits, has_bits, one_has, is_in, every_peer, may_come, may_come_by};

use std::marker::Model;
use std::net::IpAddr;

/// How many bits an address has. One of IPv4 counts as that of IPv6 which it is mapped to (RFC 4291, section 2.5.5.2).
const BITS: u32 = 128;

/// Addresses that begin with the same bits, as 192.0.2.0/24 or 2001:db8::/32 (RFC 4632, section 3.1; RFC 4291, section 2.3).
#[derive(Clone, Copy, Debug, PartialEq, Eq)]
pub struct Network {
    /// One of them.
    pub address: IpAddr,
    /// How many bits they have in common: up to 32 of IPv4, up to 128 of IPv6. A greater number stands for these.
    pub bits: u8,
}

/// The bits of an address.
fn bits_of(address: IpAddr) -> u128
    ensures { result ≡ bits_of address }
{
    match address {
        IpAddr::V4(address) => address.to_ipv6_mapped().to_bits(),
        IpAddr::V6(address) => address.to_bits(),
    }
}

impl Network {
    /// How many bits the addresses need not have in common.
    fn host_bits(&self) -> u32
        ensures { result ≡ host_bits self.now }
    {
        let most: u8 = match self.address {
            IpAddr::V4(_) => 32,
            IpAddr::V6(_) => 128,
        };
        u32::from(most.saturating_sub(self.bits))
    }

    /// Whether the address of these bits is one of these.
    fn has_bits(&self, bits: u128) -> bool
        ensures { result ≡ has_bits self.now bits }
    {
        let host_bits = self.host_bits();
        if host_bits >= BITS {
            return true;
        }
        bits_of(self.address) >> host_bits == bits >> host_bits
    }

    /// Whether an address is one of these.
    pub fn has(&self, address: IpAddr) -> bool
        ensures { result ≡ is_in self.now address }
    {
        self.has_bits(bits_of(address))
    }
}

/// Whether the address of these bits is in one of the networks.
fn one_has(networks: &[Network], bits: u128) -> bool
    ensures { result ≡ one_has networks.now bits }
{
    for network in networks {
        if network.has_bits(bits) {
            return true;
        }
    }
    false
}

/// Which peers are served.
#[derive(Drop)]
pub struct Peers<'n> {
    /// The networks that they come from; `None` for each peer.
    pub networks: Option<&'n [Network]>,
}

impl<'n> Model for Peers<'n> {
    ghost use Rattle.std.specs.Option.{option_map};
    ghost use Rattle.modbus_peers.specs.Peers.{PeersState};

    ghost Value = { PeersState };

    ghost view = { λ it. record { networks = option_map (λ networks. networks.now) it.networks } };
}

impl<'n> Peers<'n> {
    /// Each peer.
    pub fn all() -> Peers<'n>
        ensures { result ≡ every_peer }
    {
        Peers { networks: None }
    }

    /// Whether a peer is served whose address has these bits, as one of IPv6; one of IPv4 has those of the address that it is mapped to.
    pub fn has_bits(&self, bits: u128) -> bool
        ensures { result ≡ may_come_by self.now bits }
    {
        match self.networks {
            Some(networks) => one_has(networks, bits),
            None => true,
        }
    }

    /// Whether a peer of this address is served.
    pub fn has(&self, address: IpAddr) -> bool
        ensures { result ≡ may_come self.now address }
    {
        self.has_bits(bits_of(address))
    }
}
