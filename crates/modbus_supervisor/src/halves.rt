//! A read that a device refuses, in two: each gives half of what the whole gave, so that what the device lacks stands alone at last.

use crate::reads::TableRead;
use modbus_frame::Address;
use modbus_poll::{Read, Span};
use std::alloc::{AllocError, Global};

/// Two reads in place of one.
#[derive(Clone, Copy, Debug, PartialEq, Eq)]
pub struct Halves {
    /// The read that is made first.
    pub first: TableRead,
    /// The read behind it.
    pub second: TableRead,
}

/// What spans are sorted by: their address, and their end where that is the same.
fn rank(span: &Span) -> u64 {
    (u64::from(span.address) << 32) + u64::from(span.end())
}

/// Spans by their place, each once.
fn sorted(alloc: Global, spans: &[Span]) -> Result<Vec<Span>, AllocError> {
    let mut ranked = Vec::from_slice(alloc, spans)?;
    ranked.sort_unstable_by_key(|span| rank(span));
    let mut once: Vec<Span> = Vec::new(alloc);
    for span in &ranked {
        if once.last() != Some(span) {
            once.push(*span)?;
        }
    }
    Ok(once)
}

/// The read over these spans, which are sorted, and the first of which begins at this address.
fn read_over(address: Address, spans: &[Span]) -> Read {
    let mut end = u32::from(address);
    for span in spans {
        end = end.max(span.end());
    }
    let count = end.saturating_sub(u32::from(address));
    Read {
        address,
        count: u16::try_from(count).unwrap_or(u16::MAX),
    }
}

/// The address of the first of these spans.
fn first_address(spans: &[Span]) -> Address {
    match spans.first() {
        Some(span) => span.address,
        None => 0,
    }
}

/// A read of the same table over these spans.
fn part_of(asked: TableRead, spans: &[Span]) -> TableRead {
    TableRead {
        table: asked.table,
        read: read_over(first_address(spans), spans),
    }
}

/// The two reads that stand in place of one that gives these spans; `None` where they are all the same. Where one of the two is as long as the
/// whole, as of spans that lie in one another, it comes last, and the other one decides about what it gives.
///
/// # Errors
/// Refused memory.
pub fn halves_of(
    alloc: Global,
    asked: TableRead,
    spans: &[Span],
) -> Result<Option<Halves>, AllocError> {
    let spans = sorted(alloc, spans)?;
    let middle = spans.len() / 2;
    if middle == 0 {
        return Ok(None);
    }
    let near = part_of(asked, &spans[..middle]);
    let far = part_of(asked, &spans[middle..]);
    if near == asked {
        return Ok(Some(Halves {
            first: far,
            second: near,
        }));
    }
    Ok(Some(Halves {
        first: near,
        second: far,
    }))
}
