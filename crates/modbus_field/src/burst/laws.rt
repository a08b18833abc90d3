//! Laws on the bursts of a line, about definitions alone. Each is proved by its contract, and its body is empty.
ghost use Rattle.std.specs.Prelude.{◌≡◌, ◌≢◌, ◌↔◌, ℕ, ◌+◌, ◌<◌, ◌≤◌, All, true, Ok, Some, None, List, [], ◌∷◌, ◌++◌, length, map};
ghost use Rattle.std.specs.List.{AllByRecursion, flat_map};
ghost use Rattle.modbus_pdu.specs.SlavePdu.{SlavePdu, IsFramed};
ghost use Rattle.modbus_link.specs.Reads.{AreCuts};
ghost use Rattle.modbus_pdu.specs.Laws.{IsByte};
ghost use Rattle.modbus_rtu.specs.Frame.{frame};
ghost use Rattle.modbus_field.specs.declared.burst.frame.Part.TheVariants.{Last};
ghost use Rattle.modbus_rtu.specs.Frame.{rule, unknown};
ghost use Rattle.modbus_rtu.specs.ResponseHead.{response_rule, unknown as open_end};
ghost use Rattle.modbus_frame.specs.FunctionCodes.{diagnostics, read_file_record, write_file_record};
ghost use Rattle.modbus_pdu.specs.Limits.{max_pdu, two_words_pdu};
ghost use Rattle.modbus_field.specs.BurstLength.{own_head};
ghost use Rattle.modbus_field.specs.BurstLimits.{most_read};
ghost use Rattle.modbus_field.specs.Bursts.{Heard, is_answered, heard, frame_of, frame_length, messages, noise, said, slave_and_pdu, frames, frames_in_message};
ghost use Rattle.modbus_field.specs.BurstReading.{IsFrame, IsRead, messages_of};
ghost use Rattle.modbus_field.specs.LineAnswers.{addresses_of, KeepsToOwn};
ghost use Rattle.modbus_service.specs.Units.{units_answering};

use modbus_service::Answerer;

/// A burst of bytes is a frame exactly where it is that of a slave address and of a PDU of 1 to 253 bytes. Its message is then these, and
/// noise exactly where it is no frame.
pub fn bursts_that_are_frames()
    ensures frames { (burst : List ℕ) (message : SlavePdu) → AllByRecursion IsByte burst
        → (frame_of burst ≡ message ∷ [])
        ↔ ((burst ≡ frame message.header message.pdu) × IsFramed message) }
    ensures messages { (burst : List ℕ) (message : SlavePdu) → frame_of burst ≡ message ∷ []
        → said burst ≡ heard message.header Last message.pdu ∷ [] }
{}

/// What follows changes nothing of the bursts before it: one more burst adds its message, and the frame that it is, or none.
pub fn bursts_go_on()
    ensures messages { (bytes piece cuts : List ℕ) → AreCuts bytes cuts → 0 < length piece
        → AreCuts (bytes ++ piece) (cuts ++ length (bytes ++ piece) ∷ [])
        × (messages (bytes ++ piece) (cuts ++ length (bytes ++ piece) ∷ [])
        ≡ messages bytes cuts ++ said piece) }
    ensures frames { (bytes piece cuts : List ℕ) → AreCuts bytes cuts → 0 < length piece
        → frames (bytes ++ piece) (cuts ++ length (bytes ++ piece) ∷ []) ≡ frames bytes cuts ++
        flat_map frames_in_message (said piece) }
{}

/// A burst is frames one after another and a rest in one way, and says the messages of these frames; the rest is noise. Each of them is a
/// frame with a right checksum. A burst of `MOST_READ` bytes says that it is noise.
pub fn one_reading()
    ensures one { (burst rest other : List ℕ) (pieces others : List (List ℕ))
        → IsRead burst pieces rest → IsRead burst others other → (pieces ≡ others)
        × (rest ≡ other) }
    ensures read { (burst : List ℕ) → length burst < most_read → (pieces : List (List ℕ))
        × (rest : List ℕ) × IsRead burst pieces rest × (said burst ≡ messages_of pieces rest) }
    ensures frames { (burst rest : List ℕ) (pieces : List (List ℕ)) → IsRead burst pieces rest
        → All IsFrame pieces }
    ensures long { (burst : List ℕ) → most_read ≤ length burst → said burst ≡ noise ∷ [] }
{}

/// The messages of a burst without the noise are its frames, in order.
pub fn frames_among_messages()
    ensures { (burst rest : List ℕ) (pieces : List (List ℕ)) → IsRead burst pieces rest
        → flat_map frames_in_message (messages_of pieces rest) ≡ map slave_and_pdu pieces }
{}

/// No length is known for a function that is not of the standard, nor for Diagnostics of sub-function 00, which echoes data of any length:
/// a frame of one has all that is left of its burst.
pub fn unknown_functions_fill()
    ensures { (slave code : ℕ) (rest : List ℕ) → own_head (slave ∷ code ∷ rest) ≡ None
        → rule code ≡ unknown → response_rule code ≡ open_end
        → 0 < frame_length (slave ∷ code ∷ rest)
        → frame_length (slave ∷ code ∷ rest) ≡ length (slave ∷ code ∷ rest) }
{}

/// Which functions have a length in a burst beside those of RTU: none but Diagnostics, of another sub-function than 00, and those of file
/// records. These have one as requests and as replies.
pub fn functions_with_own_lengths()
    ensures records { (slave count : ℕ) (rest : List ℕ) → count + 2 ≤ max_pdu
        → (own_head (slave ∷ read_file_record ∷ count ∷ rest) ≡ Some (Ok (Some (2 + count))))
        × (own_head (slave ∷ write_file_record ∷ count ∷ rest) ≡ Some (Ok (Some (2 + count)))) }
    ensures diagnostics { (slave sub : ℕ) (rest : List ℕ) → 0 < sub
        → own_head (slave ∷ diagnostics ∷ 0 ∷ sub ∷ rest) ≡ Some (Ok (Some two_words_pdu)) }
    ensures echo { (slave : ℕ) (rest : List ℕ)
        → own_head (slave ∷ diagnostics ∷ 0 ∷ 0 ∷ rest) ≡ None }
    ensures others { (slave code : ℕ) (rest : List ℕ) → code ≢ read_file_record
        → code ≢ write_file_record → code ≢ diagnostics
        → own_head (slave ∷ code ∷ rest) ≡ None }
{}

/// One answer is written for a burst at most: behind a message that is answered no frame stands.
pub fn last_alone_is_answered()
    ensures { (burst : List ℕ) (front later : List Heard) (message : Heard)
        → said burst ≡ front ++ message ∷ later → is_answered message.header ≡ true
        → flat_map frames_in_message later ≡ [] }
{}

/// Units that have no exception for another address answer what is for their addresses alone, and go on so.
pub fn units_keep_to_own<S: Answerer>()
    ensures { KeepsToOwn (units_answering S.answering) (λ it. addresses_of it.units)
        (λ it. it.absent ≡ None) }
{}
