//! Polls of a service without a transport: the reads of a plan, each of which is one exchange, and the value of each item.
ghost use Rattle.std.specs.Prelude.{◌≡◌, true, IfOk, IfErr};
ghost use Rattle.modbus_client.specs.Typed.{answer_map};
ghost use Rattle.modbus_poll.specs.Items.{covers};
ghost use Rattle.modbus_poll.specs.Polls.{ReadsEach, Stops, GivesValues};
ghost use Rattle.modbus_local.specs.Polls.{IsOfRegisters, AsksService, ServesPoll};

use crate::local::exchange;
use modbus_frame::{Request, Response, Slave, Words};
use modbus_poll::{Item, Plan, PollError, Read, Value, take_answer, values_among};
use modbus_service::Answerer;
use std::alloc::Global;

/// The answer of an exchange, whose response is one of holding registers, as the words of that.
fn as_words(answer: modbus_frame::Result<Response>) -> modbus_frame::Result<Words>
    requires { IsOfRegisters answer }
    ensures { answer ≡ answer_map Response.ReadHoldingRegisters result }
{
    match answer {
        Ok(Ok(Response::ReadHoldingRegisters(words))) => Ok(Ok(words)),
        Ok(Ok(_)) => unreachable!(),
        Ok(Err(code)) => Ok(Err(code)),
        Err(error) => Err(error),
    }
}

/// Asks a service, or another answerer, one read.
fn ask_service<V: Answerer>(
    alloc: Global,
    slave: Slave,
    service: &mut V,
    read: &Read,
) -> modbus_frame::Result<Words>
    ensures { AsksService V.answering slave.0 service.old read.now result service.new }
{
    modbus_pdu::requests_have_sizes();
    let request = Request::ReadHoldingRegisters(read.address, read.count);
    as_words(exchange(alloc, slave, request, service))
}

/// Makes reads by a service, or another answerer, in order.
fn read_by_service<V: Answerer>(
    alloc: Global,
    slave: Slave,
    service: &mut V,
    reads: &[Read],
) -> Result<Vec<Words>, PollError>
    ensures made { IfOk result (λ found.
        ReadsEach (AsksService V.answering slave.0) service.old reads.now found.items service.new) }
    ensures stops { IfErr result (λ error.
        Stops (AsksService V.answering slave.0) service.old reads.now error service.new) }
{
    let mut found = Vec::with_capacity(alloc, reads.len())?;
    for (place, read) in reads.iter().enumerate() {
        let answer = ask_service(alloc, slave, service, read);
        let words = take_answer(place, read, answer)?;
        found.push_reserved(words);
    }
    Ok(found)
}

/// Polls items by a service, or another answerer.
fn poll_answerer<V: Answerer>(
    alloc: Global,
    slave: Slave,
    items: &[Item],
    plan: &Plan,
    service: &mut V,
) -> Result<Vec<Value>, PollError>
    requires { covers plan.now items.now ≡ true }
    ensures values { IfOk result (λ values. GivesValues (AsksService V.answering slave.0)
        service.old plan.now items.now values.items service.new) }
    ensures stops { IfErr result (λ error.
        Stops (AsksService V.answering slave.0) service.old plan.now error service.new) }
{
    let found = read_by_service(alloc, slave, service, plan.reads())?;
    Ok(values_among(alloc, plan, found.as_slice(), items)?)
}

/// Polls items by a service, or another answerer, that answers a slave: makes each read of the plan once, in order, as an exchange
/// without a transport, and gives the values of the items in their order.
///
/// The value of an item is that of its words in the first read in which it lies. The service then stands where one run over the requests
/// of the reads, in order, ends.
///
/// # Errors
/// `Call` and `Exception` where a read was answered so, after all earlier ones gave their words; no later one was made. `Words` exactly
/// where a response has another number of words than its read asks for. `NoMemory` where memory was refused.
pub fn poll_service<V: Answerer>(
    alloc: Global,
    slave: Slave,
    items: &[Item],
    plan: &Plan,
    service: &mut V,
) -> Result<Vec<Value>, PollError>
    requires { covers plan.now items.now ≡ true }
    ensures values { IfOk result (λ values. GivesValues (AsksService V.answering slave.0)
        service.old plan.now items.now values.items service.new) }
    ensures run { IfOk result (λ values. ServesPoll V.answering slave.0
        service.old plan.now items.now values.items service.new) }
    ensures stops { IfErr result (λ error.
        Stops (AsksService V.answering slave.0) service.old plan.now error service.new) }
{
    modbus_pdu::requests_have_sizes();
    poll_answerer(alloc, slave, items, plan, service)
}
