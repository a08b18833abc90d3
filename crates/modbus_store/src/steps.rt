//! The steps of the lock, one function each, and the loops that wait. They speak of the seat alone.
ghost use Rattle.std.specs.Prelude.{◌≡◌, true, [], ◌^◌, ◌<◌, ◌≤◌, None, IfSome, IfNone, MatchBool};
ghost use Rattle.modbus_frame.specs.Meaning.{meaning};
ghost use Rattle.modbus_store.specs.Outcomes.{outcome_of};
ghost use Rattle.modbus_store.specs.Views.{resting, split_view};
ghost use Rattle.modbus_store.specs.Plays.{with_stage, with_call_counted, known_of, joined_view, with_ticket, with_number};
ghost use Rattle.modbus_store.specs.Legal.{call, calls_by, IsLegal, StartsWith};
ghost use Rattle.modbus_store.specs.Lock.{Holds};
ghost use Rattle.modbus_store.specs.Turns.{IsDesk, IsNumbered, IsAtRest, TookTurn, HasTurnOf, MayCount, IsGiven};

use crate::lock::{
    Adds, Advance, Copies, CountCall, DrawNumber, DrawTicket, Glues, InTurn, LoadDrawn,
    LookServing, Stored, View,
};
use crate::outcome::Outcome;
use crate::waiting::{Looks, TURN, mark, pass_gate, sleep, wake};
use atomic_table::{Seat, Shared};
use modbus_frame::SlaveRequest;
use std::marker::Brand;
use std::snapshot::Snapshot;
use std::sync::Wait;

pub(crate) type Desk = Shared<Option<Stored>, View, Snapshot<Stored>, InTurn>;

pub(crate) type Spot = Seat<Option<Stored>, View>;

/// The next ticket.
pub(crate) const TICKET: usize = 0;

/// The ticket whose turn it is.
pub(crate) const SERVING: usize = 1;

/// How many calls the history has.
const COUNT: usize = 2;

/// How many numbers of passes were drawn.
const SEATS: usize = 3;

/// There are so many numbers of passes.
const MOST_PASSES: u64 = 1 << 32;

/// Waits for the turn, and takes the value out of the slot.
pub(crate) fn take_turn<R: Wait>(desk: &Desk, rt: &R, seat: &mut Spot, number: u32) -> Stored
    requires desk { (seat.old.table_id ≡ desk.now.table_id) × IsDesk desk.now.table_id }
    requires rests { IsAtRest number seat.old.me }
    ensures desk { seat.new.table_id ≡ seat.old.table_id }
    ensures turn { TookTurn number seat.old.me seat.new.me result }
{
    pass_gate(desk, rt, seat);
    wait_turn(desk, rt, seat, number)
}

/// Before a look whose turn it is: who has looked often enough marks the bell first.
fn prepare(desk: &Desk, seat: &mut Spot, looks: &Looks) -> Option<u64>
    requires { (seat.old.table_id ≡ desk.now.table_id) × IsDesk desk.now.table_id }
    ensures { (seat.new.table_id ≡ seat.old.table_id) × (seat.new.me ≡ seat.old.me) }
{
    if looks.is_last() {
        Some(mark(desk, seat, TURN))
    } else {
        None
    }
}

/// After a look that showed another ticket.
fn pause<R: Wait>(desk: &Desk, rt: &R, looks: &mut Looks, marked: Option<u64>)
    requires { IsDesk desk.now.table_id }
{
    match marked {
        Some(marked) => sleep(desk, rt, TURN, marked),
        None => looks.again(),
    }
}

fn wait_turn<R: Wait>(desk: &Desk, rt: &R, seat: &mut Spot, number: u32) -> Stored
    requires desk { (seat.old.table_id ≡ desk.now.table_id) × IsDesk desk.now.table_id }
    requires rests { IsAtRest number seat.old.me }
    ensures desk { seat.new.table_id ≡ seat.old.table_id }
    ensures turn { TookTurn number seat.old.me seat.new.me result }
{
    let _ = number;
    let ticket = desk.fetch_add::<DrawTicket>(seat, TICKET, 1);
    let mut looks = Looks::new();
    for _ in rt.forever() {
        let marked = prepare(desk, seat, &looks);
        let serving = desk.load::<LookServing>(seat, SERVING);
        if serving == ticket {
            return desk.exchange(seat, 0, None).unwrap();
        }
        pause(desk, rt, &mut looks, marked);
    }
    unreachable!()
}

/// Puts the value back, ends the turn, and wakes who waits.
pub(crate) fn leave(desk: &Desk, seat: &mut Spot, number: u32, stored: Stored)
    requires desk { (seat.old.table_id ≡ desk.now.table_id) × IsDesk desk.now.table_id }
    requires turn { HasTurnOf number (known_of seat.old.me.0.stage) seat.old.me }
    requires value { Holds seat.old.me.0.opening (known_of seat.old.me.0.stage) stored }
    ensures desk { seat.new.table_id ≡ seat.old.table_id }
    ensures rests { seat.new.me ≡ (with_stage resting seat.old.me.0, []) }
{
    let _ = number;
    drop(desk.exchange(seat, 0, Some(stored)));
    let served = desk.fetch_add::<Advance>(seat, SERVING, 1);
    wake(desk, seat, served);
}

fn count_as<E: Adds>(
    desk: &Desk,
    seat: &mut Spot,
    number: u32,
    request: &SlaveRequest<'_>,
    outcome: &Outcome,
)
    requires call { call number request.now.slave (meaning request.now.request)
        (outcome_of outcome.now) ≡ E.added }
    requires desk { (seat.old.table_id ≡ desk.now.table_id) × IsDesk desk.now.table_id }
    requires turn { HasTurnOf number (known_of seat.old.me.0.stage) seat.old.me }
    requires legal { MayCount (known_of seat.old.me.0.stage) E.added seat.old.me.0 }
    ensures desk { seat.new.table_id ≡ seat.old.table_id }
    ensures counted { seat.new.me ≡ (with_call_counted E.added seat.old.me.0, seat.old.me.1) }
{
    let _ = number;
    let _ = request;
    let _ = outcome;
    desk.fetch_add::<CountCall<E>>(seat, COUNT, 1);
}

/// The call joins the history.
pub(crate) fn count(
    desk: &Desk,
    seat: &mut Spot,
    number: u32,
    request: &SlaveRequest<'_>,
    outcome: &Outcome,
)
    requires desk { (seat.old.table_id ≡ desk.now.table_id) × IsDesk desk.now.table_id }
    requires turn { HasTurnOf number (known_of seat.old.me.0.stage) seat.old.me }
    requires legal { MayCount (known_of seat.old.me.0.stage)
        (call number request.now.slave (meaning request.now.request) (outcome_of outcome.now))
        seat.old.me.0 }
    ensures desk { seat.new.table_id ≡ seat.old.table_id }
    ensures counted { seat.new.me ≡ (
      with_call_counted
          (call number request.now.slave (meaning request.now.request) (outcome_of outcome.now))
          seat.old.me.0,
      seat.old.me.1,
    ) }
{
    count_as::<Brand>(desk, seat, number, request, outcome);
}

/// How many numbers were drawn. The load tells that the lists of the last join are fronts of what was seen.
pub(crate) fn load_drawn(desk: &Desk, seat: &mut Spot, number: u32) -> u64
    requires desk { (seat.old.table_id ≡ desk.now.table_id) × IsDesk desk.now.table_id }
    requires number { IsNumbered number seat.old.me.0 }
    ensures desk { seat.new.table_id ≡ seat.old.table_id }
    ensures drawn { seat.new.me ≡ (with_ticket result seat.old.me.0, seat.old.me.1) }
    ensures within { (result ≤ 2 ^ 32) × (number < result) }
    ensures known { IsLegal seat.old.me.0.opening.tables seat.old.me.0.seen
        × (calls_by number seat.old.me.0.seen ≡ seat.old.me.0.mine) }
    ensures fronts { StartsWith seat.old.me.0.seen seat.old.me.0.left
        × StartsWith seat.old.me.0.seen seat.old.me.0.right }
{
    let _ = number;
    desk.load::<LoadDrawn>(seat, SEATS)
}

/// Draws the number, if it is the next.
pub(crate) fn draw_number(desk: &Desk, seat: &mut Spot, number: u64) -> bool
    requires desk { (seat.old.table_id ≡ desk.now.table_id) × IsDesk desk.now.table_id }
    requires none { (seat.old.me.0.number ≡ None) × (number < 2 ^ 32) }
    ensures desk { seat.new.table_id ≡ seat.old.table_id }
    ensures drawn { MatchBool result ((seat.new.me ≡ (with_number number seat.old.me.0, seat.old.me.1))
        × (calls_by number seat.old.me.0.seen ≡ [])) (seat.new.me ≡ seat.old.me) }
    ensures first { seat.old.me.0.first ≡ true → number ≡ 0 → result ≡ true }
{
    desk.compare_exchange::<DrawNumber>(seat, SEATS, number, number + 1) == number
}

/// A new seat, which has seen as much.
fn copy(desk: &Desk, seat: &mut Spot, number: u32) -> Spot
    requires desk { (seat.old.table_id ≡ desk.now.table_id) × IsDesk desk.now.table_id }
    requires number { IsNumbered number seat.old.me.0 }
    ensures old { (seat.new.table_id ≡ seat.old.table_id) × (seat.new.me ≡ seat.old.me) }
    ensures new { (result.table_id ≡ seat.old.table_id) × (result.me ≡ (split_view seat.old.me.0, [])) }
{
    let _ = number;
    desk.split_seat::<Copies>(seat)
}

/// Takes in what the other has seen.
pub(crate) fn glue(desk: &Desk, seat: &mut Spot, other: Spot)
    requires desk { (seat.old.table_id ≡ desk.now.table_id) × (other.table_id ≡ desk.now.table_id)
        × IsDesk desk.now.table_id }
    requires other { (other.me.0.stage ≡ resting) × (other.me.1 ≡ []) }
    ensures { (seat.new.table_id ≡ seat.old.table_id)
        × (seat.new.me ≡ (joined_view seat.old.me.0 other.me.0, seat.old.me.1)) }
{
    desk.join_seat::<Glues>(seat, other);
}

/// Splits a seat, and draws a number for the new one. None where all are drawn.
pub(crate) fn split<R: Wait>(
    desk: &Desk,
    rt: &R,
    seat: &mut Spot,
    number: u32,
) -> (u64, Option<(Spot, u32)>)
    requires desk { (seat.old.table_id ≡ desk.now.table_id) × IsDesk desk.now.table_id }
    requires rests { IsAtRest number seat.old.me }
    ensures desk { seat.new.table_id ≡ seat.old.table_id }
    ensures old { seat.new.me ≡ (with_ticket result.0 seat.old.me.0, []) }
    ensures some { IfSome result.1 (λ t. (t.0.table_id ≡ seat.old.table_id)
        × IsGiven number t.1 seat.old.me.0 t.0.me × (result.0 ≡ t.1)) }
    ensures none { IfNone result.1 (result.0 ≡ 2 ^ 32) }
{
    let mut drawn = load_drawn(desk, seat, number);
    if drawn >= MOST_PASSES {
        return (drawn, None);
    }
    let mut new = copy(desk, seat, number);
    for _ in rt.forever() {
        if draw_number(desk, &mut new, drawn) {
            return (drawn, Some((new, drawn as u32)));
        }
        drawn = load_drawn(desk, seat, number);
        if drawn >= MOST_PASSES {
            return (drawn, None);
        }
    }
    unreachable!()
}
