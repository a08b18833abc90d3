//! Links in memory, an acceptor of two, and a read of one register with its reply in both framings.

use modbus_link::{MemoryAcceptor, MemoryLink, MemorySink, MemorySource};
use std::alloc::{AllocError, Global};
use std::net::SocketAddr;

/// A read of one register from address 0 of slave 1.
pub const READ_ONE: [u8; 8] = [0x01, 0x03, 0x00, 0x00, 0x00, 0x01, 0x84, 0x0A];

/// The register 0 in reply.
pub const ONE: [u8; 7] = [0x01, 0x03, 0x02, 0x00, 0x00, 0xB8, 0x44];

/// A read of one register from address 0 by unit 255.
pub const READ_ADU: [u8; 12] = [
    0x00, 0x00, 0x00, 0x00, 0x00, 0x06, 0xFF, 0x03, 0x00, 0x00, 0x00, 0x01,
];

/// The register 0 in reply.
pub const REPLY_ADU: [u8; 11] = [
    0x00, 0x00, 0x00, 0x00, 0x00, 0x05, 0xFF, 0x03, 0x02, 0x00, 0x00,
];

/// A link that gives these bytes, and whose reads of these numbers fail.
pub fn link_of(
    alloc: Global,
    input: &[u8],
    failing_reads: &[u64],
) -> Result<MemoryLink, AllocError> {
    let source = MemorySource::new(alloc, input, &[], failing_reads)?;
    Ok(MemoryLink::new(source, MemorySink::new(alloc, 64, 64, &[])?, false))
}

/// Where a peer connects from.
fn peer() -> SocketAddr {
    SocketAddr::from(([127, 0, 0, 1], 502))
}

/// Two links as one value, since the check of a function that owns one takes less than of one that owns both.
#[derive(Drop)]
pub struct Pair {
    pub near: MemoryLink,
    pub far: MemoryLink,
}

/// Links that give these bytes.
pub fn pair_of(alloc: Global, near: &[u8], far: &[u8]) -> Result<Pair, AllocError> {
    Ok(Pair {
        near: link_of(alloc, near, &[])?,
        far: link_of(alloc, far, &[])?,
    })
}

/// An acceptor of two links.
pub fn accepting(
    alloc: Global,
    pair: &mut Pair,
) -> Result<MemoryAcceptor<&mut MemoryLink>, AllocError> {
    let mut links = Vec::new(alloc);
    links.push((&mut pair.near, peer()))?;
    links.push((&mut pair.far, peer()))?;
    Ok(MemoryAcceptor::new(links))
}
