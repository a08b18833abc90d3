//! Which requests that have no layout of their own only read.
ghost use Rattle.std.specs.Prelude.{◌≡◌};
ghost use Rattle.modbus_calls.specs.OnlyReads.{is_reading_diagnostic, is_identification, only_reads_code};

use modbus_frame::function_code;
use modbus_pdu::MEI_DEVICE_IDENTIFICATION;

/// Whether the data of Diagnostics asks for what changes nothing.
fn is_reading_diagnostic(bytes: &[u8]) -> bool
    ensures { result ≡ is_reading_diagnostic bytes.now }
{
    match bytes {
        [high, sub, ..] => {
            *high == 0 && (*sub == 0x00 || *sub == 0x02 || (*sub >= 0x0B && *sub <= 0x12))
        }
        _ => false,
    }
}

/// Whether the data of the encapsulated interface transport asks for a device identification.
fn is_identification(bytes: &[u8]) -> bool
    ensures { result ≡ is_identification bytes.now }
{
    match bytes {
        [mei, ..] => *mei == MEI_DEVICE_IDENTIFICATION,
        _ => false,
    }
}

/// Whether a request of this function code with these bytes behind it only reads: a device that does it twice is as if it had done it once.
///
/// These are Read Exception Status (section 6.7), Diagnostics that send data back, read the diagnostic register or read a counter (00, 02,
/// 0B to 12, section 6.8.1), Get Comm Event Counter (6.9), Get Comm Event Log (6.10), Report Server ID (6.13), Read File Record (6.14) and
/// Read Device Identification (6.21). [`Request::only_reads`](modbus_frame::Request::only_reads) says it of requests that have a layout.
pub fn only_reads_code(function: u8, bytes: &[u8]) -> bool
    ensures { result ≡ only_reads_code function bytes.now }
{
    match function {
        function_code::READ_EXCEPTION_STATUS
        | function_code::GET_COMM_EVENT_COUNTER
        | function_code::GET_COMM_EVENT_LOG
        | function_code::REPORT_SERVER_ID
        | function_code::READ_FILE_RECORD => true,
        function_code::DIAGNOSTICS => is_reading_diagnostic(bytes),
        function_code::ENCAPSULATED_INTERFACE_TRANSPORT => is_identification(bytes),
        _ => false,
    }
}
