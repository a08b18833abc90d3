//! The sub-functions of Diagnostics (Modbus Application Protocol V1.1b3, section 6.8.1).
ghost use Rattle.std.specs.Prelude.{◌≡◌};
ghost use Rattle.modbus_calls.specs.Diagnostics.{sub_function, data_field, is_echoed, diagnostic_data, field_of};

use crate::data::word_of;
use modbus_frame::Word;

/// A sub-function of Diagnostics, by its name in section 6.8.1.
#[derive(Clone, Copy, Debug, PartialEq, Eq)]
pub enum Diagnostic {
    /// `00`: the device sends this word back.
    ReturnQueryData(Word),
    /// `01`: the port is started anew, and leaves the listen only mode. A device that was in that mode sends no response.
    RestartCommunications {
        /// Whether the log of events is cleared too.
        clear_log: bool,
    },
    /// `02`: the diagnostic register, whose bits its maker names.
    ReturnDiagnosticRegister,
    /// `03`: this character ends a message of the ASCII mode from now on, in place of LF.
    ChangeAsciiDelimiter(u8),
    /// `04`: the device does nothing with what it is asked until its port is started anew. It sends no response.
    ForceListenOnly,
    /// `0A`: all counters and the diagnostic register are cleared.
    ClearCounters,
    /// `0B`: how many messages the device saw on the line.
    ReturnBusMessageCount,
    /// `0C`: how many of them had a wrong checksum.
    ReturnBusCommunicationErrorCount,
    /// `0D`: how many exceptions it sent.
    ReturnBusExceptionErrorCount,
    /// `0E`: how many messages were for it, or for all.
    ReturnServerMessageCount,
    /// `0F`: how many of them it did not answer.
    ReturnServerNoResponseCount,
    /// `10`: how many of them it answered with the exception Negative Acknowledge.
    ReturnServerNakCount,
    /// `11`: how many of them it answered with the exception Server Device Busy.
    ReturnServerBusyCount,
    /// `12`: how many messages it could not take, since characters came faster than it could keep them.
    ReturnBusCharacterOverrunCount,
    /// `14`: the counter of those messages is cleared.
    ClearOverrunCounter,
}

impl Diagnostic {
    /// Its number.
    pub fn sub_function(self) -> u8
        ensures { result ≡ sub_function self }
    {
        match self {
            Diagnostic::ReturnQueryData(_) => 0x00,
            Diagnostic::RestartCommunications { clear_log: _ } => 0x01,
            Diagnostic::ReturnDiagnosticRegister => 0x02,
            Diagnostic::ChangeAsciiDelimiter(_) => 0x03,
            Diagnostic::ForceListenOnly => 0x04,
            Diagnostic::ClearCounters => 0x0A,
            Diagnostic::ReturnBusMessageCount => 0x0B,
            Diagnostic::ReturnBusCommunicationErrorCount => 0x0C,
            Diagnostic::ReturnBusExceptionErrorCount => 0x0D,
            Diagnostic::ReturnServerMessageCount => 0x0E,
            Diagnostic::ReturnServerNoResponseCount => 0x0F,
            Diagnostic::ReturnServerNakCount => 0x10,
            Diagnostic::ReturnServerBusyCount => 0x11,
            Diagnostic::ReturnBusCharacterOverrunCount => 0x12,
            Diagnostic::ClearOverrunCounter => 0x14,
        }
    }

    /// The data field of its request.
    fn data_field(self) -> Word
        ensures { result ≡ data_field self }
    {
        match self {
            Diagnostic::ReturnQueryData(word) => word,
            Diagnostic::RestartCommunications { clear_log } => {
                if clear_log { 0xFF00 } else { 0 }
            }
            Diagnostic::ChangeAsciiDelimiter(delimiter) => 256 * Word::from(delimiter),
            _ => 0,
        }
    }

    /// Whether its response repeats its request.
    fn is_echoed(self) -> bool
        ensures { result ≡ is_echoed self }
    {
        matches!(
            self,
            Diagnostic::ReturnQueryData(_)
                | Diagnostic::RestartCommunications { clear_log: _ }
                | Diagnostic::ChangeAsciiDelimiter(_)
                | Diagnostic::ForceListenOnly
                | Diagnostic::ClearCounters
                | Diagnostic::ClearOverrunCounter
        )
    }

    /// The bytes of its request behind the function code: the sub-function and the data field, a word each.
    pub fn data(self) -> [u8; 4]
        ensures { result ≡ diagnostic_data self }
    {
        let [high, low] = self.data_field().to_be_bytes();
        [0, self.sub_function(), high, low]
    }

    /// The data field that a response of this sub-function has; `None` where the data is no such response.
    pub(crate) fn field_of(self, bytes: &[u8]) -> Option<Word>
        ensures { result ≡ field_of self bytes.now }
    {
        match bytes {
            [zero, sub, high, low] => {
                let field = word_of(*high, *low);
                let fits = !self.is_echoed() || field == self.data_field();
                if *zero == 0 && *sub == self.sub_function() && fits {
                    Some(field)
                } else {
                    None
                }
            }
            _ => None,
        }
    }
}
