//! The numbers of the function codes (Modbus Application Protocol V1.1b3, section 6), each of which stands here alone.
//!
//! [`FunctionCode`](crate::FunctionCode) names what they ask for. A decoder or a length rule matches the byte of a PDU with these.

/// Read Coils, section 6.1.
pub const READ_COILS: u8 = 0x01;

/// Read Discrete Inputs, section 6.2.
pub const READ_DISCRETE_INPUTS: u8 = 0x02;

/// Read Holding Registers, section 6.3.
pub const READ_HOLDING_REGISTERS: u8 = 0x03;

/// Read Input Registers, section 6.4.
pub const READ_INPUT_REGISTERS: u8 = 0x04;

/// Write Single Coil, section 6.5.
pub const WRITE_SINGLE_COIL: u8 = 0x05;

/// Write Single Register, section 6.6.
pub const WRITE_SINGLE_REGISTER: u8 = 0x06;

/// Read Exception Status, section 6.7, serial line only.
pub const READ_EXCEPTION_STATUS: u8 = 0x07;

/// Diagnostics, section 6.8, serial line only.
pub const DIAGNOSTICS: u8 = 0x08;

/// Get Comm Event Counter, section 6.9, serial line only.
pub const GET_COMM_EVENT_COUNTER: u8 = 0x0B;

/// Get Comm Event Log, section 6.10, serial line only.
pub const GET_COMM_EVENT_LOG: u8 = 0x0C;

/// Write Multiple Coils, section 6.11.
pub const WRITE_MULTIPLE_COILS: u8 = 0x0F;

/// Write Multiple Registers, section 6.12.
pub const WRITE_MULTIPLE_REGISTERS: u8 = 0x10;

/// Report Server ID, section 6.13, serial line only.
pub const REPORT_SERVER_ID: u8 = 0x11;

/// Read File Record, section 6.14.
pub const READ_FILE_RECORD: u8 = 0x14;

/// Write File Record, section 6.15.
pub const WRITE_FILE_RECORD: u8 = 0x15;

/// Mask Write Register, section 6.16.
pub const MASK_WRITE_REGISTER: u8 = 0x16;

/// Read/Write Multiple Registers, section 6.17.
pub const READ_WRITE_MULTIPLE_REGISTERS: u8 = 0x17;

/// Read FIFO Queue, section 6.18.
pub const READ_FIFO_QUEUE: u8 = 0x18;

/// Encapsulated Interface Transport, section 6.19; device identification (section 6.21) is one of its MEI types.
pub const ENCAPSULATED_INTERFACE_TRANSPORT: u8 = 0x2B;

/// What an exception adds to the function code of its request (section 7). Function codes of requests are below it.
pub const EXCEPTION_BIT: u8 = 0x80;
