//! Laws on the frames that bytes deliver, about definitions alone. Each is proved by its contract, and its body is empty.
ghost use Rattle.std.specs.Prelude.{◌≡◌, ◌≢◌, ℕ, ◌<◌, List, [], ◌∷◌, ◌++◌, length, map};
ghost use Rattle.std.specs.List.{AllByRecursion};
ghost use Rattle.modbus_pdu.specs.SlavePdu.{SlavePdu, IsFramed, message_of};
ghost use Rattle.modbus_frame.specs.Meaning.{Asked};
ghost use Rattle.modbus_ascii.specs.Encoder.{frame};
ghost use Rattle.modbus_ascii.specs.Frames.{frames};
ghost use Rattle.modbus_ascii.specs.OpenFrames.{open_frame};
ghost use Rattle.modbus_ascii.specs.WholeReading.{IsFramedRequest, stream_of};
ghost use Rattle.modbus_ascii.specs.Limits.{colon, max_frame};
ghost use Rattle.modbus_ascii.specs.Stands.{AreOnlyFrames};
ghost use Rattle.modbus_ascii.specs.Text.{open_end};

/// What bytes deliver stays, whatever follows; and where no `:` is open at their end, what follows delivers what it delivers alone.
pub fn frames_go_on()
    ensures front { (bytes more : List ℕ) → (later : List SlavePdu)
        × (frames (bytes ++ more) ≡ frames bytes ++ later) }
    ensures closed { (bytes more : List ℕ) → open_end bytes ≡ []
        → frames (bytes ++ more) ≡ frames bytes ++ frames more }
{}

/// A `:` is open alone, whatever came before it. Any other byte joins the `:` that is open and its text, or no `:` is open after it; none
/// is open after the last byte of a frame.
pub fn open_ends_grow()
    ensures begins { (bytes : List ℕ) → open_end (bytes ++ colon ∷ []) ≡ colon ∷ [] }
    ensures joins { (bytes : List ℕ) (byte : ℕ) → byte ≢ colon → open_end (bytes ++ byte ∷ []) ≢ []
        → open_end (bytes ++ byte ∷ []) ≡ open_end bytes ++ byte ∷ [] }
    ensures closes { (bytes : List ℕ) (byte : ℕ) (frame : SlavePdu)
        → frames (bytes ++ byte ∷ []) ≡ frames bytes ++ frame ∷ []
        → open_end (bytes ++ byte ∷ []) ≡ [] }
{}

/// What follows bytes delivers what it delivers behind the `:` that is open at their end and its text; and where these are longer than any
/// frame, what follows delivers what it delivers alone.
pub fn frames_behind_open_ends()
    ensures behind { (bytes more : List ℕ)
        → frames (bytes ++ more) ≡ frames bytes ++ frames (open_end bytes ++ more) }
    ensures long { (bytes more : List ℕ) → max_frame < length (open_end bytes)
        → frames (bytes ++ more) ≡ frames bytes ++ frames more }
{}

/// Bytes go on as the front of a frame that they end with: what follows them delivers the same frames behind it, and the same front is
/// left.
pub fn open_frames_go_on()
    ensures delivers { (bytes more : List ℕ)
        → frames (bytes ++ more) ≡ frames bytes ++ frames (open_frame bytes ++ more) }
    ensures left { (bytes more : List ℕ)
        → open_frame (bytes ++ more) ≡ open_frame (open_frame bytes ++ more) }
{}

/// A front of a frame of a slave address and of a PDU of 1 to 253 bytes delivers nothing, where it is not the whole frame.
pub fn fronts_deliver_nothing()
    ensures { (message : SlavePdu) (bytes rest : List ℕ) → IsFramed message
        → frame message.header message.pdu ≡ bytes ++ rest → rest ≢ [] → frames bytes ≡ [] }
{}

/// Frames one after another, each of a slave address and of a PDU of 1 to 253 bytes, deliver exactly these, with no `:` open at their end.
pub fn frames_alone()
    ensures { (messages : List SlavePdu) → AllByRecursion IsFramed messages
        → AreOnlyFrames (stream_of messages) messages }
{}

/// Frames of requests that fit, one after another, each for some slave, deliver exactly these, with no `:` open at their end.
pub fn request_frames()
    ensures framed { (asked : ℕ × Asked) → IsFramedRequest asked → IsFramed (message_of asked) }
    ensures alone { (asked : List (ℕ × Asked)) → AllByRecursion IsFramedRequest asked
        → AreOnlyFrames (stream_of (map message_of asked)) (map message_of asked) }
{
    modbus_pdu::requests_have_sizes();
}
