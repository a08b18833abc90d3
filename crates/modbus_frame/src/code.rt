//! The codes of the protocol: functions, exceptions and device identification.
//!
//! Each code has one byte on the wire. The numbers are those of the Modbus Application Protocol V1.1b3: function codes
//! of section 6, exception codes of section 7, read codes and conformity levels of section 6.21.
ghost use Rattle.std.specs.Prelude.{◌≡◌, Some};
ghost use Rattle.std.specs.Fmt.{decimal, styled_decimal};
ghost use Rattle.modbus_frame.specs.Codes.{function_number, function_of, exception_number, exception_of, exception_text, read_code_number, read_code_of, level_number, level_of};

use crate::function_code;
use std::error::Error;
use std::fmt;

/// What a request asks for (Application Protocol V1.1b3, sections 5 and 6). The module [`function_code`] has the numbers.
///
/// [`FunctionCode::new`] never gives [`FunctionCode::Custom`] for a number that has a name, but a caller can write it;
/// such a value is another value than the named one, though both have one number.
#[derive(Clone, Copy, Debug, PartialEq, Eq)]
pub enum FunctionCode {
    /// `READ_COILS`, section 6.1.
    ReadCoils,
    /// `READ_DISCRETE_INPUTS`, section 6.2.
    ReadDiscreteInputs,
    /// `READ_HOLDING_REGISTERS`, section 6.3.
    ReadHoldingRegisters,
    /// `READ_INPUT_REGISTERS`, section 6.4.
    ReadInputRegisters,
    /// `WRITE_SINGLE_COIL`, section 6.5.
    WriteSingleCoil,
    /// `WRITE_SINGLE_REGISTER`, section 6.6.
    WriteSingleRegister,
    /// `READ_EXCEPTION_STATUS`, section 6.7, serial line only.
    ReadExceptionStatus,
    /// `DIAGNOSTICS`, section 6.8, serial line only.
    Diagnostics,
    /// `GET_COMM_EVENT_COUNTER`, section 6.9, serial line only.
    GetCommEventCounter,
    /// `GET_COMM_EVENT_LOG`, section 6.10, serial line only.
    GetCommEventLog,
    /// `WRITE_MULTIPLE_COILS`, section 6.11.
    WriteMultipleCoils,
    /// `WRITE_MULTIPLE_REGISTERS`, section 6.12.
    WriteMultipleRegisters,
    /// `REPORT_SERVER_ID`, section 6.13, serial line only.
    ReportServerId,
    /// `READ_FILE_RECORD`, section 6.14.
    ReadFileRecord,
    /// `WRITE_FILE_RECORD`, section 6.15.
    WriteFileRecord,
    /// `MASK_WRITE_REGISTER`, section 6.16.
    MaskWriteRegister,
    /// `READ_WRITE_MULTIPLE_REGISTERS`, section 6.17.
    ReadWriteMultipleRegisters,
    /// `READ_FIFO_QUEUE`, section 6.18.
    ReadFifoQueue,
    /// `ENCAPSULATED_INTERFACE_TRANSPORT`, section 6.19; device identification (section 6.21) is one of its MEI types.
    EncapsulatedInterfaceTransport,
    /// Any other number.
    Custom(u8),
}

impl FunctionCode {
    /// The function code of a number: the named one where the standard has one, else [`FunctionCode::Custom`].
    pub const fn new(value: u8) -> Self
        ensures { result ≡ function_of value }
    {
        match value {
            function_code::READ_COILS => FunctionCode::ReadCoils,
            function_code::READ_DISCRETE_INPUTS => FunctionCode::ReadDiscreteInputs,
            function_code::READ_HOLDING_REGISTERS => FunctionCode::ReadHoldingRegisters,
            function_code::READ_INPUT_REGISTERS => FunctionCode::ReadInputRegisters,
            function_code::WRITE_SINGLE_COIL => FunctionCode::WriteSingleCoil,
            function_code::WRITE_SINGLE_REGISTER => FunctionCode::WriteSingleRegister,
            function_code::READ_EXCEPTION_STATUS => FunctionCode::ReadExceptionStatus,
            function_code::DIAGNOSTICS => FunctionCode::Diagnostics,
            function_code::GET_COMM_EVENT_COUNTER => FunctionCode::GetCommEventCounter,
            function_code::GET_COMM_EVENT_LOG => FunctionCode::GetCommEventLog,
            function_code::WRITE_MULTIPLE_COILS => FunctionCode::WriteMultipleCoils,
            function_code::WRITE_MULTIPLE_REGISTERS => FunctionCode::WriteMultipleRegisters,
            function_code::REPORT_SERVER_ID => FunctionCode::ReportServerId,
            function_code::READ_FILE_RECORD => FunctionCode::ReadFileRecord,
            function_code::WRITE_FILE_RECORD => FunctionCode::WriteFileRecord,
            function_code::MASK_WRITE_REGISTER => FunctionCode::MaskWriteRegister,
            function_code::READ_WRITE_MULTIPLE_REGISTERS =>
                FunctionCode::ReadWriteMultipleRegisters,
            function_code::READ_FIFO_QUEUE => FunctionCode::ReadFifoQueue,
            function_code::ENCAPSULATED_INTERFACE_TRANSPORT =>
                FunctionCode::EncapsulatedInterfaceTransport,
            code => FunctionCode::Custom(code),
        }
    }

    /// The number of the function code.
    pub const fn value(self) -> u8
        ensures { result ≡ function_number self }
    {
        match self {
            FunctionCode::ReadCoils => function_code::READ_COILS,
            FunctionCode::ReadDiscreteInputs => function_code::READ_DISCRETE_INPUTS,
            FunctionCode::ReadHoldingRegisters => function_code::READ_HOLDING_REGISTERS,
            FunctionCode::ReadInputRegisters => function_code::READ_INPUT_REGISTERS,
            FunctionCode::WriteSingleCoil => function_code::WRITE_SINGLE_COIL,
            FunctionCode::WriteSingleRegister => function_code::WRITE_SINGLE_REGISTER,
            FunctionCode::ReadExceptionStatus => function_code::READ_EXCEPTION_STATUS,
            FunctionCode::Diagnostics => function_code::DIAGNOSTICS,
            FunctionCode::GetCommEventCounter => function_code::GET_COMM_EVENT_COUNTER,
            FunctionCode::GetCommEventLog => function_code::GET_COMM_EVENT_LOG,
            FunctionCode::WriteMultipleCoils => function_code::WRITE_MULTIPLE_COILS,
            FunctionCode::WriteMultipleRegisters => function_code::WRITE_MULTIPLE_REGISTERS,
            FunctionCode::ReportServerId => function_code::REPORT_SERVER_ID,
            FunctionCode::ReadFileRecord => function_code::READ_FILE_RECORD,
            FunctionCode::WriteFileRecord => function_code::WRITE_FILE_RECORD,
            FunctionCode::MaskWriteRegister => function_code::MASK_WRITE_REGISTER,
            FunctionCode::ReadWriteMultipleRegisters =>
                function_code::READ_WRITE_MULTIPLE_REGISTERS,
            FunctionCode::ReadFifoQueue => function_code::READ_FIFO_QUEUE,
            FunctionCode::EncapsulatedInterfaceTransport =>
                function_code::ENCAPSULATED_INTERFACE_TRANSPORT,
            FunctionCode::Custom(code) => code,
        }
    }
}

/// The number in decimal, to which the width and the fill of the caller apply.
impl fmt::Display for FunctionCode {
    ghost output = { λ code. Some (decimal (function_number code)) };

    ghost styled_output = { λ code style. Some (styled_decimal style (function_number code)) };

    fn fmt<W: fmt::Write>(&self, f: &mut fmt::Formatter<W>) -> fmt::Result {
        fmt::Display::fmt(&self.value(), f)
    }
}

/// Why a server refuses a request (Application Protocol V1.1b3, section 7).
#[derive(Clone, Copy, Debug, PartialEq, Eq)]
pub enum ExceptionCode {
    /// `0x01`: the server has no such function.
    IllegalFunction,
    /// `0x02`: an address of the request is outside what the server has.
    IllegalDataAddress,
    /// `0x03`: a value in the request is not allowed.
    IllegalDataValue,
    /// `0x04`: the server failed while it worked on the request.
    ServerDeviceFailure,
    /// `0x05`: the request was accepted and takes long.
    Acknowledge,
    /// `0x06`: the server is busy; the client may ask again.
    ServerDeviceBusy,
    /// `0x08`: the extended memory failed its consistency check.
    MemoryParityError,
    /// `0x0A`: the gateway has no path to the target.
    GatewayPathUnavailable,
    /// `0x0B`: the target behind the gateway did not answer.
    GatewayTargetDevice,
    /// Any other number.
    Custom(u8),
}

/// The numbers, each of which stands here alone.
impl ExceptionCode {
    const ILLEGAL_FUNCTION: u8 = 0x01;

    const ILLEGAL_DATA_ADDRESS: u8 = 0x02;

    const ILLEGAL_DATA_VALUE: u8 = 0x03;

    const SERVER_DEVICE_FAILURE: u8 = 0x04;

    const ACKNOWLEDGE: u8 = 0x05;

    const SERVER_DEVICE_BUSY: u8 = 0x06;

    const MEMORY_PARITY_ERROR: u8 = 0x08;

    const GATEWAY_PATH_UNAVAILABLE: u8 = 0x0A;

    const GATEWAY_TARGET_DEVICE: u8 = 0x0B;
}

impl ExceptionCode {
    /// The exception code of a number: the named one where the standard has one, else [`ExceptionCode::Custom`].
    pub const fn new(value: u8) -> Self
        ensures { result ≡ exception_of value }
    {
        match value {
            ExceptionCode::ILLEGAL_FUNCTION => ExceptionCode::IllegalFunction,
            ExceptionCode::ILLEGAL_DATA_ADDRESS => ExceptionCode::IllegalDataAddress,
            ExceptionCode::ILLEGAL_DATA_VALUE => ExceptionCode::IllegalDataValue,
            ExceptionCode::SERVER_DEVICE_FAILURE => ExceptionCode::ServerDeviceFailure,
            ExceptionCode::ACKNOWLEDGE => ExceptionCode::Acknowledge,
            ExceptionCode::SERVER_DEVICE_BUSY => ExceptionCode::ServerDeviceBusy,
            ExceptionCode::MEMORY_PARITY_ERROR => ExceptionCode::MemoryParityError,
            ExceptionCode::GATEWAY_PATH_UNAVAILABLE => ExceptionCode::GatewayPathUnavailable,
            ExceptionCode::GATEWAY_TARGET_DEVICE => ExceptionCode::GatewayTargetDevice,
            other => ExceptionCode::Custom(other),
        }
    }
}

impl From<ExceptionCode> for u8 {
    ghost from_gives = { λ code number. number ≡ exception_number code };

    fn from(code: ExceptionCode) -> u8 {
        match code {
            ExceptionCode::IllegalFunction => ExceptionCode::ILLEGAL_FUNCTION,
            ExceptionCode::IllegalDataAddress => ExceptionCode::ILLEGAL_DATA_ADDRESS,
            ExceptionCode::IllegalDataValue => ExceptionCode::ILLEGAL_DATA_VALUE,
            ExceptionCode::ServerDeviceFailure => ExceptionCode::SERVER_DEVICE_FAILURE,
            ExceptionCode::Acknowledge => ExceptionCode::ACKNOWLEDGE,
            ExceptionCode::ServerDeviceBusy => ExceptionCode::SERVER_DEVICE_BUSY,
            ExceptionCode::MemoryParityError => ExceptionCode::MEMORY_PARITY_ERROR,
            ExceptionCode::GatewayPathUnavailable => ExceptionCode::GATEWAY_PATH_UNAVAILABLE,
            ExceptionCode::GatewayTargetDevice => ExceptionCode::GATEWAY_TARGET_DEVICE,
            ExceptionCode::Custom(code) => code,
        }
    }
}

/// The name of the exception in words.
impl fmt::Display for ExceptionCode {
    ghost output = { λ code. Some (exception_text code) };

    fn fmt<W: fmt::Write>(&self, f: &mut fmt::Formatter<W>) -> fmt::Result {
        f.write_str(match self {
            ExceptionCode::IllegalFunction => "Illegal function",
            ExceptionCode::IllegalDataAddress => "Illegal data address",
            ExceptionCode::IllegalDataValue => "Illegal data value",
            ExceptionCode::ServerDeviceFailure => "Server device failure",
            ExceptionCode::Acknowledge => "Acknowledge",
            ExceptionCode::ServerDeviceBusy => "Server device busy",
            ExceptionCode::MemoryParityError => "Memory parity error",
            ExceptionCode::GatewayPathUnavailable => "Gateway path unavailable",
            ExceptionCode::GatewayTargetDevice => "Gateway target device failed to respond",
            ExceptionCode::Custom(_) => "Custom",
        })
    }
}

impl Error for ExceptionCode {}

/// Which objects a device identification request asks for (Application Protocol V1.1b3, section 6.21).
#[derive(Clone, Copy, Debug, PartialEq, Eq)]
pub enum ReadCode {
    /// `0x01`: the basic objects, as a stream.
    Basic,
    /// `0x02`: the regular objects, as a stream.
    Regular,
    /// `0x03`: the extended objects, as a stream.
    Extended,
    /// `0x04`: one object, by its id.
    Specific,
}

/// The numbers, each of which stands here alone.
impl ReadCode {
    const BASIC: u8 = 0x01;

    const REGULAR: u8 = 0x02;

    const EXTENDED: u8 = 0x03;

    const SPECIFIC: u8 = 0x04;
}

impl ReadCode {
    /// The read code of a number, or `None` where the standard has none.
    pub const fn try_from_value(value: u8) -> Option<Self>
        ensures { result ≡ read_code_of value }
    {
        match value {
            ReadCode::BASIC => Some(ReadCode::Basic),
            ReadCode::REGULAR => Some(ReadCode::Regular),
            ReadCode::EXTENDED => Some(ReadCode::Extended),
            ReadCode::SPECIFIC => Some(ReadCode::Specific),
            _ => None,
        }
    }

    /// The number of the read code.
    pub const fn value(self) -> u8
        ensures { result ≡ read_code_number self }
    {
        match self {
            ReadCode::Basic => ReadCode::BASIC,
            ReadCode::Regular => ReadCode::REGULAR,
            ReadCode::Extended => ReadCode::EXTENDED,
            ReadCode::Specific => ReadCode::SPECIFIC,
        }
    }
}

/// Which objects a device has, and how they can be read (Application Protocol V1.1b3, section 6.21).
#[derive(Clone, Copy, Debug, PartialEq, Eq)]
pub enum ConformityLevel {
    /// `0x01`: the basic objects, as a stream only.
    BasicIdentificationStreamOnly,
    /// `0x02`: the regular objects, as a stream only.
    RegularIdentificationStreamOnly,
    /// `0x03`: the extended objects, as a stream only.
    ExtendedIdentificationStreamOnly,
    /// `0x81`: the basic objects, as a stream and one by one.
    BasicIdentification,
    /// `0x82`: the regular objects, as a stream and one by one.
    RegularIdentification,
    /// `0x83`: the extended objects, as a stream and one by one.
    ExtendedIdentification,
}

/// The numbers, each of which stands here alone.
impl ConformityLevel {
    const BASIC_IDENTIFICATION_STREAM_ONLY: u8 = 0x01;

    const REGULAR_IDENTIFICATION_STREAM_ONLY: u8 = 0x02;

    const EXTENDED_IDENTIFICATION_STREAM_ONLY: u8 = 0x03;

    const BASIC_IDENTIFICATION: u8 = 0x81;

    const REGULAR_IDENTIFICATION: u8 = 0x82;

    const EXTENDED_IDENTIFICATION: u8 = 0x83;
}

impl ConformityLevel {
    /// The conformity level of a number, or `None` where the standard has none.
    pub const fn try_from_value(value: u8) -> Option<Self>
        ensures { result ≡ level_of value }
    {
        match value {
            ConformityLevel::BASIC_IDENTIFICATION_STREAM_ONLY => Some(
                ConformityLevel::BasicIdentificationStreamOnly,
            ),
            ConformityLevel::REGULAR_IDENTIFICATION_STREAM_ONLY => Some(
                ConformityLevel::RegularIdentificationStreamOnly,
            ),
            ConformityLevel::EXTENDED_IDENTIFICATION_STREAM_ONLY => Some(
                ConformityLevel::ExtendedIdentificationStreamOnly,
            ),
            ConformityLevel::BASIC_IDENTIFICATION => Some(ConformityLevel::BasicIdentification),
            ConformityLevel::REGULAR_IDENTIFICATION => Some(ConformityLevel::RegularIdentification),
            ConformityLevel::EXTENDED_IDENTIFICATION => Some(
                ConformityLevel::ExtendedIdentification,
            ),
            _ => None,
        }
    }

    /// The number of the conformity level.
    pub const fn value(self) -> u8
        ensures { result ≡ level_number self }
    {
        match self {
            ConformityLevel::BasicIdentificationStreamOnly =>
                ConformityLevel::BASIC_IDENTIFICATION_STREAM_ONLY,
            ConformityLevel::RegularIdentificationStreamOnly =>
                ConformityLevel::REGULAR_IDENTIFICATION_STREAM_ONLY,
            ConformityLevel::ExtendedIdentificationStreamOnly =>
                ConformityLevel::EXTENDED_IDENTIFICATION_STREAM_ONLY,
            ConformityLevel::BasicIdentification => ConformityLevel::BASIC_IDENTIFICATION,
            ConformityLevel::RegularIdentification => ConformityLevel::REGULAR_IDENTIFICATION,
            ConformityLevel::ExtendedIdentification => ConformityLevel::EXTENDED_IDENTIFICATION,
        }
    }
}
