//! What no clause of modbus_link tells: what the adapters over std move, real connections on the loopback interface, silences, and a raised
//! flag.

mod adapters;
mod deadlines;
mod silence;
mod stops;
mod tcp;
