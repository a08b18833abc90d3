//! Typed calls of any client, and through a box over a caller's client that gives one answer.

use crate::text::Text;
use crate::word::Word;
use crate::{diagnosing, filing};
use bytes::Bytes;
use modbus_client::Context;
use modbus_client::prelude::*;
use modbus_frame::{Error, PduError, ResponsePdu, Result as Answer, ShutdownFault, TransportError};
use modbus_pdu::{decode_request, decode_response_pdu};
use std::alloc::{AllocError, Global};
use std::fmt::Debug;
use std::time::Duration;

/// A client that gives the answer of this PDU, whatever it is asked.
#[derive(Drop)]
pub struct Prompted {
    alloc: Global,
    pdu: Bytes,
    slave: Slave,
    timeout: Option<Duration>,
}

impl Prompted {
    /// Such a client in a box. None where memory was refused.
    pub fn boxed(alloc: Global, pdu: Bytes) -> Option<Box<Prompted>> {
        let prompted = Prompted {
            alloc,
            pdu,
            slave: Slave(0),
            timeout: Some(Duration::from_secs(9)),
        };
        Box::new(alloc, prompted).ok()
    }
}

impl SlaveContext for Prompted {
    ghost selected = { λ it. it.slave.0 };

    fn set_slave(&mut self, slave: Slave) {
        self.slave = slave;
    }
}

/// What a client answers that gets this PDU.
fn answer_of(alloc: Global, pdu: Bytes) -> Answer<Response> {
    match decode_response_pdu(alloc, pdu) {
        Ok(ResponsePdu(Ok(response))) => Ok(Ok(response)),
        Ok(ResponsePdu(Err(refusal))) => Ok(Err(refusal.exception)),
        Err(PduError::NoMemory) => Err(Error::NoMemory),
        Err(PduError::Refused(reason)) => {
            Err(Error::Transport(TransportError::InvalidResponse(reason)))
        }
    }
}

/// The same of a PDU that is kept; an empty one stands for a fault of the link.
fn answer_again(alloc: Global, pdu: &Bytes) -> Answer<Response> {
    if pdu.is_empty() {
        return Err(Error::Transport(TransportError::BrokenPipe));
    }
    match pdu.clone() {
        Ok(pdu) => answer_of(alloc, pdu),
        Err(AllocError) => Err(Error::NoMemory),
    }
}

impl Client for Prompted {
    ghost answers = { λ _ _ _ _. Unit {0} };

    ghost disconnects = { λ _ _ _. Unit {0} };

    ghost time_limit = { λ it. it.timeout };

    ghost limits = { λ _ _ _. Unit {0} };

    fn call(&mut self, _request: Request<'_>) -> Answer<Response> {
        answer_again(self.alloc, &self.pdu)
    }

    /// Fails for slave 9 alone.
    fn disconnect(&mut self) -> std::result::Result<(), ShutdownFault> {
        if self.slave == Slave(9) {
            return Err(ShutdownFault);
        }
        Ok(())
    }

    fn timeout(&self) -> Option<Duration> {
        self.timeout
    }

    fn set_timeout(&mut self, duration: Option<Duration>) {
        self.timeout = duration;
    }
}

/// Appends the answer of a typed call. The check of a caller then knows of `T` alone.
pub fn push_answer<T: Debug + Drop>(text: &mut Text, answer: Answer<T>) {
    text.push_shown(answer);
}

/// Makes the typed call of a request that reads what is no table.
fn read_other<C: SyncReader>(text: &mut Text, client: &mut C, request: &Request<'_>) -> bool {
    match request {
        Request::ReadFifoQueue(at) => push_answer(text, client.read_fifo_queue(*at)),
        Request::ReadDeviceIdentification(code, id) => {
            push_answer(text, client.read_device_identification(*code, *id));
        }
        _ => return false,
    }
    true
}

/// The same of one that reads registers, or what is no table.
fn read_words<C: SyncReader>(text: &mut Text, client: &mut C, request: &Request<'_>) -> bool {
    match request {
        Request::ReadHoldingRegisters(at, count) => {
            push_answer(text, client.read_holding_registers(*at, *count));
        }
        Request::ReadInputRegisters(at, count) => {
            push_answer(text, client.read_input_registers(*at, *count));
        }
        Request::ReadWriteMultipleRegisters(at, count, to, words) => {
            push_answer(
                text,
                client.read_write_multiple_registers(*at, *count, *to, words.as_slice()),
            );
        }
        _ => return read_other(text, client, request),
    }
    true
}

/// The same of any that reads.
fn read<C: SyncReader>(text: &mut Text, client: &mut C, request: &Request<'_>) -> bool {
    match request {
        Request::ReadCoils(at, count) => push_answer(text, client.read_coils(*at, *count)),
        Request::ReadDiscreteInputs(at, count) => {
            push_answer(text, client.read_discrete_inputs(*at, *count));
        }
        _ => return read_words(text, client, request),
    }
    true
}

/// Makes the typed call of a request that writes.
fn write<C: SyncWriter>(client: &mut C, request: &Request<'_>) -> Answer<()> {
    match request {
        Request::WriteSingleCoil(at, state) => client.write_single_coil(*at, *state),
        Request::WriteSingleRegister(at, word) => client.write_single_register(*at, *word),
        Request::WriteMultipleCoils(at, states) => {
            client.write_multiple_coils(*at, states.as_slice())
        }
        Request::WriteMultipleRegisters(at, words) => {
            client.write_multiple_registers(*at, words.as_slice())
        }
        Request::MaskWriteRegister(at, and_mask, or_mask) => {
            client.masked_write_register(*at, *and_mask, *or_mask)
        }
        _ => Ok(Err(ExceptionCode::IllegalFunction)),
    }
}

/// The answer of the typed call of a request. False where it has none.
pub fn ask<C: SyncClient>(text: &mut Text, client: &mut C, request: &Request<'_>) -> bool {
    match request.function_code().value() {
        0x07 | 0x08 | 0x0B | 0x0C | 0x11 => diagnosing::ask(text, client, request),
        0x14 | 0x15 => filing::ask(text, client, request),
        0x05 | 0x06 | 0x0F | 0x10 | 0x16 => {
            push_answer(text, write(client, request));
            true
        }
        _ => read(text, client, request),
    }
}

/// The answer of the typed call of a request, of a client that gives the answer of this PDU.
fn ask_prompted(text: &mut Text, request: &Request<'_>, pdu: Bytes) -> bool {
    let Some(prompted) = Prompted::boxed(text.alloc, pdu) else {
        return false;
    };
    let client: Box<dyn Client> = prompted;
    ask(text, &mut Context::from(client), request)
}

/// The same of the bytes of both PDUs.
fn ask_of(text: &mut Text, request: &[u8], pdu: Bytes) -> bool {
    match decode_request(text.alloc, request) {
        Ok(request) => ask_prompted(text, &request, pdu),
        Err(_) => false,
    }
}

/// `typed`, the PDU of a request, and the PDU of what the client answers: a response or an exception; `-` for a fault of its link.
pub fn answer(text: &mut Text, words: &[Word]) -> bool {
    let [request, answer] = words else {
        return false;
    };
    let (Some(request), Some(answer)) = (request.bytes(), answer.bytes()) else {
        return false;
    };
    match Bytes::copy_from_slice(text.alloc, answer) {
        Ok(pdu) => ask_of(text, request, pdu),
        Err(_) => false,
    }
}
