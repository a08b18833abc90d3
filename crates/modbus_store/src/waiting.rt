//! How a pass waits: for its turn on a bell, and before it draws a ticket at the gate.
//!
//! Both are words of which the rule of the lock says nothing. A word is odd once a pass that may sleep on it has marked it; who wakes the
//! sleepers makes it even. A pass marks, looks again and only then sleeps; who ends its turn first lets the next one in and then looks for
//! a mark: so a look that came too early has its mark seen, and no wake is lost. At the gate passes wait that have no ticket yet, so that
//! the turn seldom goes to a sleeping thread; who was woken there comes next, and one is woken at each so many turns. No clause says that a
//! turn comes.
ghost use Rattle.std.specs.Prelude.{◌≡◌, ◌<◌, ◌≤◌};
ghost use Rattle.modbus_store.specs.Turns.{IsDesk};

use crate::lock::Ring;
use crate::steps::{Desk, SERVING, Spot, TICKET};
use std::hint::spin_loop;
use std::sync::Wait;

/// A word that passes sleep on.
#[derive(Clone, Copy)]
pub(crate) struct Bell {
    word: usize,
    ghost above: { 4 ≤ word },
    ghost below: { word < 6 },
}

/// Who has a ticket sleeps here.
pub(crate) const TURN: Bell = Bell { word: 4 };

/// Who has none yet sleeps here.
const GATE: Bell = Bell { word: 5 };

/// How often a pass looks before it sleeps.
const SPINS: u32 = 128;

/// A pass that sleeps compares the low half of the word.
const LOW_HALF: u64 = 1 << 32;

/// Marks that a pass may sleep on the bell, and gives the word as it then is.
pub(crate) fn mark(desk: &Desk, seat: &mut Spot, bell: Bell) -> u64
    requires { (seat.old.table_id ≡ desk.now.table_id) × IsDesk desk.now.table_id }
    ensures { (seat.new.table_id ≡ seat.old.table_id) × (seat.new.me ≡ seat.old.me) }
{
    desk.fetch_or::<Ring>(seat, bell.word, 1) | 1
}

/// Takes the mark off, and says whether there was one.
fn unmark(desk: &Desk, seat: &mut Spot, bell: Bell) -> bool
    requires { (seat.old.table_id ≡ desk.now.table_id) × IsDesk desk.now.table_id }
    ensures { (seat.new.table_id ≡ seat.old.table_id) × (seat.new.me ≡ seat.old.me) }
{
    let found = desk.peek(bell.word);
    if found % 2 == 0 {
        return false;
    }
    desk.compare_exchange::<Ring>(seat, bell.word, found, found.wrapping_add(1));
    true
}

/// Sleeps while the bell is as it was when it was marked.
pub(crate) fn sleep<R: Wait>(desk: &Desk, rt: &R, bell: Bell, marked: u64)
    requires { IsDesk desk.now.table_id }
{
    desk.park(rt, bell.word, (marked % LOW_HALF) as u32);
}

/// How often a pass has looked in vain since it last slept.
#[derive(Drop)]
pub(crate) struct Looks {
    count: u32,
}

impl Looks {
    pub(crate) fn new() -> Looks {
        Looks { count: 0 }
    }

    /// Whether the next look is to be the last before sleep.
    pub(crate) fn is_last(&self) -> bool {
        self.count >= SPINS
    }

    pub(crate) fn again(&mut self) {
        if self.count < SPINS {
            self.count += 1;
            spin_loop();
        }
    }
}

/// Whether a pass may draw a ticket: nobody has one that is not served, or one has and the pass has slept. So who was woken comes next.
fn is_open(desk: &Desk, has_slept: bool) -> bool
    requires { IsDesk desk.now.table_id }
{
    let most = if has_slept { 2 } else { 1 };
    let serving = desk.peek(SERVING);
    desk.peek(TICKET).wrapping_sub(serving) < most
}

/// Waits until few have a ticket. Who slept here marks the gate again, so that each wake leads to the next.
pub(crate) fn pass_gate<R: Wait>(desk: &Desk, rt: &R, seat: &mut Spot)
    requires { (seat.old.table_id ≡ desk.now.table_id) × IsDesk desk.now.table_id }
    ensures { (seat.new.table_id ≡ seat.old.table_id) × (seat.new.me ≡ seat.old.me) }
{
    let mut has_slept = false;
    let mut looks = Looks::new();
    for _ in rt.forever() {
        if is_open(desk, has_slept) {
            break;
        }
        if looks.is_last() {
            let marked = mark(desk, seat, GATE);
            if is_open(desk, has_slept) {
                break;
            }
            sleep(desk, rt, GATE, marked);
            has_slept = true;
            looks = Looks::new();
        } else {
            looks.again();
        }
    }
    if has_slept {
        mark(desk, seat, GATE);
    }
}

/// At each of so many turns one who sleeps at the gate is woken, marked or not, so that none is left behind.
const FAIR: u64 = 256;

/// Wakes who may sleep for its turn, and one at the gate. To be called once the turn after that of the ticket has begun.
pub(crate) fn wake(desk: &Desk, seat: &mut Spot, served: u64)
    requires { (seat.old.table_id ≡ desk.now.table_id) × IsDesk desk.now.table_id }
    ensures { (seat.new.table_id ≡ seat.old.table_id) × (seat.new.me ≡ seat.old.me) }
{
    let turn = TURN;
    if unmark(desk, seat, turn) {
        desk.wake_all(turn.word);
    }
    let gate = GATE;
    if unmark(desk, seat, gate) || served % FAIR == 0 {
        desk.wake_one(gate.word);
    }
}
