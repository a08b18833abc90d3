//! Laws on the calls of clients, about definitions alone. Each is proved by its contract.
ghost use Rattle.std.specs.Prelude.{◌≡◌, ◌≢◌, ℕ, ◌+◌, ◌≤◌, List, [], ◌++◌, length, take, drop, Result, Err, Some};
ghost use Rattle.modbus_link.specs.Outside.{outside, Input, Output, Rose};
ghost use Rattle.modbus_link.specs.Reads.{totals};
ghost use Rattle.modbus_frame.specs.Meaning.{Asked, function_asked};
ghost use Rattle.modbus_frame.specs.declared.code.FunctionCode.{FunctionCode};
ghost use Rattle.modbus_frame.specs.declared.tcp.Header.{Header};
ghost use Rattle.modbus_frame.specs.declared.response.Response.{Response};
ghost use Rattle.modbus_frame.specs.declared.response.ExceptionResponse.{ExceptionResponse};
ghost use Rattle.modbus_frame.specs.declared.fault.HeaderSeen.{HeaderSeen};
ghost use Rattle.modbus_frame.specs.declared.fault.Error.{Error};
ghost use Rattle.modbus_frame.specs.declared.fault.Error.TheVariants as error;
ghost use Rattle.modbus_frame.specs.declared.fault.ProtocolError.TheVariants.{HeaderMismatch};
ghost use Rattle.modbus_pdu.specs.Encodes.{Fits};
ghost use Rattle.modbus_pdu.specs.RequestPdu.{request_pdu};
ghost use Rattle.modbus_client.specs.Protocol.{Found, waiting};
ghost use Rattle.modbus_client.specs.Matches.{Answer, IsOf, Judges, answer_of};
ghost use Rattle.modbus_client.specs.Search as search;
ghost use Rattle.modbus_client.specs.Call.{CallState, CallStands, IsAnswered, IsOfBytesIfSome};
ghost use Rattle.modbus_client.specs.Calls.{Exchanged, CallEndsAs, CallEndsRead};
ghost use Rattle.modbus_client.specs.Polled.{AnswersAlone, IsRefusedCall};
ghost use Rattle.modbus_client.specs.Exactly.{IsToldOf, TellsWaiting};
ghost use Rattle.modbus_client.specs.Tcp.{matching_protocol};

use crate::protocol::Protocol;

/// In given bytes with given cuts the search of a client of a serial line stands in one way.
pub fn one_search()
    ensures { (bytes cuts : List ℕ) (found other : search.SearchState)
        → search.SearchFinds bytes cuts found → search.SearchFinds bytes cuts other
        → found ≡ other }
{}

/// What the search finds in the bytes that a connected call read is what the call tells. Where it waits, the call tells that the turns
/// ran out or how the input ended.
pub fn searches_are_told<P: Protocol>()
    ensures found { (from to : Input) (sunk sinks : Output) (header : P.Header) (asked : Asked)
        (turns : ℕ) (held : List ℕ) (answer : Answer)
        (r : Exchanged P.protocol (outside from sunk) (outside to sinks) header asked turns held
        answer) (found : Found)
        → P.protocol.Finds (P.protocol.seen header) r.fed (totals r.made) found
        → IsToldOf P.protocol.means (P.protocol.seen header) (function_asked asked) found answer }
    ensures waiting { (from to : Input) (sunk sinks : Output) (header : P.Header) (asked : Asked)
        (turns : ℕ) (held kept : List ℕ) (answer : Answer)
        (r : Exchanged P.protocol (outside from sunk) (outside to sinks) header asked turns held
        answer)
        → P.protocol.Finds (P.protocol.seen header) r.fed (totals r.made) (waiting kept)
        → Fits (request_pdu asked) → (Rose from.faults to.faults → ⊥)
        → (Rose sunk.faults sinks.faults → ⊥)
        → TellsWaiting kept (length r.made) turns to.left answer }
{
    P::laws();
}

/// A request that is not opened is the whole call: nothing is written and nothing is read.
pub fn requests_not_opened_are_unsent<P: Protocol>()
    ensures { (from : Input) (sunk : Output) (header : P.Header) (asked : Asked) (turns : ℕ)
        (error : Error) → IsRefusedCall (request_pdu asked) error
        → Exchanged P.protocol (outside from sunk) (outside from sunk) header asked turns []
        (Err error) }
{
    P::laws();
}

/// Every connected call, a polled one too, gives the result of a message alone that belongs to its request.
pub fn messages_alone_are_answered<P: Protocol>()
    ensures { (from to : Input) (sunk sinks : Output) (header : P.Header) (asked : Asked)
        (turns : ℕ) (held : List ℕ) (answer : Answer)
        → Exchanged P.protocol (outside from sunk) (outside to sinks) header asked turns held answer
        → AnswersAlone P.protocol (outside from sunk) (outside to sinks) header asked turns answer }
{
    P::laws();
}

/// A client that drops the responses of other transactions and units never tells that headers differ: what it answers of a message is of
/// the transaction and the unit of its request.
pub fn matching_answers_are_own()
    ensures { (from to : Input) (sunk sinks : Output) (header : Header) (asked : Asked)
        (turns : ℕ) (held : List ℕ) (answer : Answer)
        → Exchanged matching_protocol (outside from sunk) (outside to sinks) header asked turns held
        answer
        → (request response : HeaderSeen) (received : Result Response ExceptionResponse)
        → answer ≢ Err (error.Protocol (HeaderMismatch request response received)) }
{}

/// What a call stands for goes on with each write, and stays where its room is made.
pub fn calls_go_on<P: Protocol>()
    ensures write { (written bytes cuts : List ℕ) (n : ℕ) (call : CallState)
        → CallStands P.protocol written bytes cuts call → n ≤ length call.unwritten
        → CallStands P.protocol (written ++ take n call.unwritten) bytes cuts
        (record call { unwritten = drop n call.unwritten }) }
    ensures room { (written bytes cuts : List ℕ) (n : ℕ) (call : CallState)
        → CallStands P.protocol written bytes cuts call
        → CallStands P.protocol written bytes cuts (record call { free = n }) }
{}

/// An answer of the bytes that a call was fed ends the call as that, whatever is left to read.
pub fn bytes_end_calls<P: Protocol>()
    ensures ends { (asked : HeaderSeen) (function : FunctionCode) (bytes cuts held : List ℕ)
        (answer : Answer) → IsAnswered P.protocol asked function bytes cuts held answer
        → CallEndsAs P.protocol asked function bytes cuts held answer }
    ensures anywhere { (answer : Answer) (left : List ℕ) → IsOfBytesIfSome (Some answer)
        → CallEndsRead answer left }
{}

/// A message under the header of a request, with a result of its function, is answered with that result.
pub fn own_results_are_told()
    ensures { (asked : HeaderSeen) (function : FunctionCode) (seen : HeaderSeen)
        (result : Result Response ExceptionResponse) (answer : Answer) → seen ≡ asked
        → IsOf function result → Judges asked function seen result answer
        → answer ≡ answer_of result }
{}
