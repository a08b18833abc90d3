//! What a connection says of its peer.
ghost use Rattle.std.specs.Prelude.{◌≡◌};
ghost use Rattle.modbus_ready.specs.Peers.{address_of, unspecified};

use modbus_link::MemoryLink;
use std::net::IpAddr;

/// The address of a peer, without its port. One of IPv4 is that of IPv6 which it is mapped to (RFC 4291, section 2.5.5.2), so a peer has one
/// address, by whichever of both it comes.
#[derive(Clone, Copy, Debug, PartialEq, Eq)]
pub struct PeerAddress {
    /// Its bits, as those of an address of IPv6.
    pub bits: u128,
}

impl PeerAddress {
    /// No address: all bits are 0.
    pub fn unspecified() -> PeerAddress
        ensures { result ≡ unspecified }
    {
        PeerAddress { bits: 0 }
    }

    /// The address of a peer of this address.
    pub fn of(address: IpAddr) -> PeerAddress
        ensures { result ≡ address_of address }
    {
        let bits = match address {
            IpAddr::V4(address) => address.to_ipv6_mapped().to_bits(),
            IpAddr::V6(address) => address.to_bits(),
        };
        PeerAddress { bits }
    }
}

/// A connection that knows the address of its peer.
pub trait Peered {
    ghost use Rattle.modbus_ready.specs.declared.peered.PeerAddress.{PeerAddress};

    // the address of its peer
    ghost peer: { Self → PeerAddress };

    /// The address of its peer.
    fn peer_address(&self) -> PeerAddress
        ensures { result ≡ peer self.now };
}

/// A link in memory comes from no address.
impl Peered for MemoryLink {
    ghost peer = { λ link. unspecified };

    fn peer_address(&self) -> PeerAddress {
        PeerAddress::unspecified()
    }
}

/// A link that is lent has the peer that it has.
impl<'l, L: Peered> Peered for &'l mut L {
    ghost peer = { λ link. L.peer link.now };

    fn peer_address(&self) -> PeerAddress {
        (**self).peer_address()
    }
}
