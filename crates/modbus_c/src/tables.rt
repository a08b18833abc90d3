//! The tables of a device in the caller's arrays, and devices behind their addresses, as structs of C.

/// The four tables of a device, which requests read and write. A table may have any length; an entry past the 65536th has no address.
#[repr(C)]
#[derive(Drop)]
pub struct ModbusTables<'t> {
    pub coils: &'t mut [bool],
    pub discrete_inputs: &'t [bool],
    pub holding_registers: &'t mut [u16],
    pub input_registers: &'t [u16],
}

/// A device of a line: the address that it answers to, and its tables. Of two devices of one address the first is asked.
#[repr(C)]
pub struct ModbusUnit<'t> {
    pub unit: u8,
    pub tables: ModbusTables<'t>,
}

/// The address of the first entry of each table.
#[repr(C)]
#[derive(Clone, Copy, Debug, PartialEq, Eq)]
pub struct ModbusStarts {
    pub coils: u16,
    pub discrete_inputs: u16,
    pub holding_registers: u16,
    pub input_registers: u16,
}

/// So many addresses from one on.
#[repr(C)]
#[derive(Clone, Copy, Debug, PartialEq, Eq)]
pub struct ModbusSpan {
    pub address: u16,
    pub count: u32,
}

/// A device: its tables, where each begins, and which coils and holding registers requests read alone.
#[repr(C)]
pub struct ModbusDevice<'t> {
    pub tables: ModbusTables<'t>,
    pub starts: ModbusStarts,
    pub kept_coils: ModbusSpan,
    pub kept_registers: ModbusSpan,
}

/// Such a device of a line: the address that it answers to, and the device. Of two of one address the first is asked.
#[repr(C)]
pub struct ModbusSlave<'t> {
    pub unit: u8,
    pub device: ModbusDevice<'t>,
}
