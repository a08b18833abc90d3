//! Laws on the definitions alone.

ghost use Rattle.std.specs.Prelude.{◌≡◌, ℕ, List, [], All, Result, Err};
ghost use Rattle.modbus_rtu.specs.Leftmost.{IsLeftmost};
ghost use Rattle.modbus_rtu.specs.Stands.{frame_at};
ghost use Rattle.modbus_server.specs.declared.error.ProcessError.TheVariants as errors;
ghost use Rattle.modbus_tcp.specs.Stream.{Rest, IsSplit};
ghost use Rattle.modbus_frame.specs.declared.tcp.Header.{Header};
ghost use Rattle.modbus_pdu.specs.Message.{Message};
ghost use Rattle.modbus_server.specs.declared.error.ProcessError.{ProcessError};
ghost use Rattle.modbus_server.specs.State.{State};
ghost use Rattle.modbus_server.specs.Exchanges.{Exchange, Run};
ghost use Rattle.modbus_server.specs.Served.{Served, Halt, remaining, all_asked};
ghost use Rattle.modbus_server.specs.FirstFault.{FailsAt, IsFirstFault};
ghost use Rattle.modbus_server.specs.FirstAdu.{HasAduFault, IsFirstAduFault};
ghost use Rattle.modbus_server.specs.Memory.{TakesNone};
ghost use Rattle.modbus_server.specs.Step.{Ran};
ghost use Rattle.modbus_server.specs.Rtu.{rtu};
ghost use Rattle.modbus_server.specs.Tcp.{tcp};
ghost use Rattle.modbus_server.specs.Complete.{Completes};
ghost use Rattle.modbus_link.specs.Outside.{Outside};
ghost use Rattle.modbus_server.specs.Polled.{polled, polled_past, PolledPast, PollStands, PolledRan, CompletesAfter};
ghost use Rattle.modbus_server.specs.Moment.{Moment};

use crate::framing::Framing;
use modbus_service::Answerer;

/// What a call over RTU frames names is what fails first in what it read, by offset, in the very run that it made; it names nothing
/// where nothing fails.
pub fn failing_place<V: Answerer>()
    ensures run { (bytes cuts written : List ℕ) (opening now : V) (halt : Halt)
        (s : Served rtu V.answering bytes cuts opening now written halt)
        → Run rtu V.answering opening (all_asked halt s) now }
    ensures first { (bytes cuts written : List ℕ) (opening now : V) (halt : Halt)
        (s : Served rtu V.answering bytes cuts opening now written halt) (frames : List ℕ)
        (stop : ℕ) → IsLeftmost bytes frames stop
        → IsFirstFault bytes cuts frames (all_asked halt s) halt }
{
    modbus_rtu::laws::one_reading();
}

/// The failing place is one: two kinds of fault are not both the first, and none is first where there is none. So a call whose
/// bytes have a failing place names it, unless a fault of the source or sink or refused memory came before.
pub fn one_failing_place()
    ensures one { (bytes cuts frames : List ℕ) (all : List (Exchange rtu)) (stop place at : ℕ)
        (fault other : Halt) → IsLeftmost bytes frames stop
        → FailsAt bytes cuts frames all place fault → FailsAt bytes cuts frames all at other
        → IsFirstFault bytes cuts frames all fault → IsFirstFault bytes cuts frames all other
        → fault ≡ other }
    ensures none { (bytes cuts frames left : List ℕ) (all : List (Exchange rtu)) (place : ℕ)
        (fault : Halt) → IsFirstFault bytes cuts frames all (remaining left)
        → FailsAt bytes cuts frames all place fault → ⊥ }
{
    modbus_rtu::laws::crowds_stay();
}

/// What a call over TCP names is what fails first in what it read, ADU by ADU and then the rest, in the very run that it made; it
/// names nothing where nothing fails.
pub fn failing_adu<V: Answerer>()
    ensures run { (bytes cuts written : List ℕ) (opening now : V) (halt : Halt)
        (s : Served tcp V.answering bytes cuts opening now written halt)
        → Run tcp V.answering opening (all_asked halt s) now }
    ensures first { (bytes cuts written : List ℕ) (opening now : V) (halt : Halt)
        (s : Served tcp V.answering bytes cuts opening now written halt)
        (adus : List (Message Header)) (rest : List ℕ) (kind : Rest) → IsSplit bytes adus rest kind
        → IsFirstAduFault adus kind (all_asked halt s) halt }
{
    modbus_tcp::laws::one_splitting();
    modbus_tcp::laws::adus_come_first();
}

/// What fails first in a stream of ADUs is one, so a call whose bytes have it names it, unless a fault of the source or sink or
/// refused memory came before.
pub fn one_failing_adu()
    ensures one { (adus : List (Message Header)) (kind : Rest) (all : List (Exchange tcp))
        (place at : ℕ) (fault other : Halt) → HasAduFault adus kind all place fault
        → HasAduFault adus kind all at other → IsFirstAduFault adus kind all fault
        → IsFirstAduFault adus kind all other → fault ≡ other }
    ensures none { (adus : List (Message Header)) (kind : Rest) (left : List ℕ)
        (all : List (Exchange tcp)) (place : ℕ) (fault : Halt)
        → IsFirstAduFault adus kind all (remaining left) → HasAduFault adus kind all place fault
        → ⊥ }
{}

/// A polled server that was just opened stands for no bytes, with all of its turns left.
pub fn polled_servers_begin<I: Framing>()
    ensures { (turns : ℕ) (state : State) → state.held ≡ [] → state.waiting ≡ []
        → I.framing.StandsFor [] [] [] []
        → PollStands I.framing (polled_past turns [] [] [] []) (polled state turns) }
{}

/// Every call that runs to its end, a polled one too, serves a clean line to its end.
pub fn clean_lines_are_served<I: Framing, V: Answerer>()
    ensures { (turns : ℕ) (before after : Moment V) (result : Result (Unit {0}) ProcessError)
        → Ran I.framing V.answering turns before after result
        → Completes I.framing V.answering turns before after result }
{
    I::laws();
}

/// Polls that come to an end serve a clean line to its end, whatever else the service is asked between them.
pub fn polled_lines_are_served<I: Framing, V: Answerer>()
    ensures { (behind : PolledPast I.framing) (ends now : V) (first last : Outside)
        (result : Result (Unit {0}) ProcessError)
        → PolledRan I.framing V.answering behind ends now first last result
        → CompletesAfter I.framing V.answering behind ends first last result }
{
    I::laws();
}

/// Where no delivered frame takes memory, it is wanting only as a connection is opened: nothing was read then, and nothing written. A
/// frame takes none where its request carries no list, and the service wants none for it.
pub fn memory_at_the_opening<V: Answerer>()
    ensures { (turns : ℕ) (before after : Moment V)
        (ran : Ran rtu V.answering turns before after (Err errors.NoMemory))
        (frames : List ℕ) (stop : ℕ) → IsLeftmost ran.fed frames stop
        → All (λ f. TakesNone rtu V.answering (frame_at ran.fed f)) frames
        → (ran.fed ≡ []) × (ran.sent ≡ []) × (after.service ≡ before.service) }
{}
