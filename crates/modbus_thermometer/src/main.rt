//! A thermometer over the standard streams: the least program over the library.
#![tactic(auto)]

use modbus_example::Thermometer;
use modbus_link::{ReadSource, WriteSink};
use modbus_server::rtu_over_tcp;
use std::process::ExitCode;

fn main(rt: HostRuntime) -> ExitCode {
    let mut input = ReadSource::new(rt.stdin());
    let mut output = WriteSink::new(rt.stdout());
    let mut device = Thermometer { tenths: 215 };
    match rtu_over_tcp::process(rt.alloc(), &mut input, &mut output, &mut device, u64::MAX) {
        Ok(()) => ExitCode::from(0),
        Err(_) => ExitCode::from(1),
    }
}
