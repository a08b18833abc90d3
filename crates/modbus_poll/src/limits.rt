//! The planner within limits: it sorts the spans, and makes a read for each that no earlier one gives.
ghost use Rattle.std.specs.Prelude.{◌≡◌, ◌↔◌, ℕ, ◌<◌, ◌≤◌, not, [], length, position, IfOk, slice_index_or};
ghost use Rattle.std.specs.List.{AllPass};
ghost use Rattle.modbus_poll.specs.Items.{read_end};
ghost use Rattle.modbus_poll.specs.Spans.{span_end, is_allowed};
ghost use Rattle.modbus_poll.specs.SpanPlans.{IsFirstOver, IsLimited, GoesOn, IsPlanWithin, FollowWithin};
ghost use Rattle.modbus_poll.specs.RankOrder.{AreRanked, AreInRankOrder, EndEarlier, joins};
ghost use Rattle.modbus_poll.specs.declared.span.Span.{Span};

use crate::plan::{Plan, PlanError};
use crate::read::Read;
use crate::span::{Limits, Span};
use modbus_frame::Address;
use std::alloc::{AllocError, Global};

/// The spans, the one with the least rank first.
fn by_rank(alloc: Global, spans: &[Span]) -> Result<Vec<Span>, AllocError>
    ensures { IfOk result (λ sorted. AreInRankOrder spans.now sorted.items) }
{
    let mut sorted = Vec::from_slice(alloc, spans)?;
    sorted.sort_unstable_by_key(|span| span.rank());
    Ok(sorted)
}

/// Whether a read from this address, which ends there so far, goes on over a span that ends later.
fn joins(limits: Limits, address: Address, end: u32, span: &Span) -> bool
    requires { end ≤ 65536 }
    ensures { result ≡ joins limits address end span.now }
{
    span.end() <= u32::from(address) + u32::from(limits.most)
        && u32::from(span.address) <= end + u32::from(limits.gap)
}

/// How far the read goes that begins with the span at this place, for spans in the order of their ranks.
fn end_from(limits: Limits, spans: &[Span], place: usize) -> u32
    requires within { place < length spans.now }
    requires allowed { AllPass (is_allowed limits) spans.now }
    requires ranked { AreRanked spans.now }
    requires earlier { EndEarlier spans.now place }
    ensures holds { (d : Span) → span_end (slice_index_or spans.now place d) ≤ result }
    ensures goes_on { (d : Span) →
        GoesOn limits spans.now (slice_index_or spans.now place d).address result }
{
    let address = spans[place].address;
    let mut end = spans[place].end();
    for span in &spans[place + 1..] {
        let further = span.end();
        if end < further {
            if !joins(limits, address, end, span) {
                return end;
            }
            end = further;
        }
    }
    end
}

/// The read that begins with the span at this place, for spans in the order of their ranks.
fn read_from(limits: Limits, spans: &[Span], place: usize) -> Read
    requires within { place < length spans.now }
    requires allowed { AllPass (is_allowed limits) spans.now }
    requires ranked { AreRanked spans.now }
    requires earlier { EndEarlier spans.now place }
    ensures begins { (d : Span) → result.address ≡ (slice_index_or spans.now place d).address }
    ensures holds { (d : Span) →
        span_end (slice_index_or spans.now place d) ≤ read_end result }
    ensures goes_on { GoesOn limits spans.now result.address (read_end result) }
    ensures limited { IsLimited limits result }
{
    let address = spans[place].address;
    let end = end_from(limits, spans, place);
    Read {
        address,
        count: (end - u32::from(address)) as u16,
    }
}

/// The plan for spans in the order of their ranks.
fn plan_sorted(alloc: Global, limits: Limits, spans: &[Span]) -> Result<Plan, AllocError>
    requires allowed { AllPass (is_allowed limits) spans.now }
    requires ranked { AreRanked spans.now }
    ensures { IfOk result (λ plan.
        IsPlanWithin limits spans.now plan × FollowWithin limits spans.now [] plan) }
{
    let mut plan = Plan::new(alloc);
    // The end of the last read, which no earlier one passes: a span that doesn't pass it either lies in that read.
    let mut reached = 0;
    for (place, span) in spans.iter().enumerate() {
        if span.end() > reached {
            let read = read_from(limits, spans, place);
            reached = read.end();
            plan.push(read)?;
        }
    }
    Ok(plan)
}

/// The place of the first span that no read within the limits can give.
fn first_over(limits: Limits, spans: &[Span]) -> Option<usize>
    ensures { result ≡ position (λ span. not (is_allowed limits span)) spans.now }
{
    spans.iter().position(|span| !limits.allow(span))
}

/// The plan for spans, each of which a read within the limits can give.
fn plan_allowed(alloc: Global, limits: Limits, spans: &[Span]) -> Result<Plan, AllocError>
    requires { AllPass (is_allowed limits) spans.now }
    ensures { IfOk result (λ plan.
        IsPlanWithin limits spans.now plan × FollowWithin limits spans.now [] plan) }
{
    let sorted = by_rank(alloc, spans)?;
    plan_sorted(alloc, limits, sorted.as_slice())
}

/// Plans few reads within limits that give each of these spans of one table, which may stand in any order, overlap and repeat.
///
/// A read begins at the lowest address that a span names and no read before it gives. It takes the next span, the one with the lowest address
/// and of several the longest, where that ends no more than `most` behind the beginning and begins no more than `gap` behind what is taken so
/// far, and goes on so. So it has at most `most` registers or bits, and at most `gap` in a row that no span names.
///
/// For n spans it takes as many steps as sorting them does, of the order of n log n.
///
/// # Errors
/// `BadItem` with the place of the first span that no read within the limits can give. `NoMemory` where memory was refused.
pub fn plan_spans(alloc: Global, limits: Limits, spans: &[Span]) -> Result<Plan, PlanError>
    ensures bad_item { (k : ℕ) →
        (result ≡ Err (PlanError.BadItem k)) ↔ IsFirstOver limits spans.now k }
    ensures covers { IfOk result (λ plan. IsPlanWithin limits spans.now plan) }
    ensures follows { IfOk result (λ plan. FollowWithin limits spans.now [] plan) }
{
    match first_over(limits, spans) {
        Some(place) => Err(PlanError::BadItem(place)),
        None => Ok(plan_allowed(alloc, limits, spans)?),
    }
}
