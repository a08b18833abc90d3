//! Laws on the frames in a list of bytes, about definitions alone. Each is proved by its contract, and its body is empty.
ghost use Rattle.std.specs.Prelude.{◌*◌, ◌≡◌, ◌≢◌, ◌↔◌, ℕ, ◌+◌, ◌-◌, ◌/◌, ◌%◌, ◌^◌, bit_xor, ◌<◌, ◌≤◌, All, Contains, List, [], ◌∷◌, ◌++◌, map, length, take, drop, get_or, slice_index};
ghost use Rattle.std.specs.List.{AllByRecursion};
ghost use Rattle.modbus_pdu.specs.SlavePdu.{SlavePdu, message_of};
ghost use Rattle.modbus_pdu.specs.Message.{message};
ghost use Rattle.modbus_rtu.specs.declared.verdict.Verdict.{Verdict};
ghost use Rattle.modbus_rtu.specs.declared.verdict.Verdict.TheVariants.{Open, Bad, Good};
ghost use Rattle.modbus_rtu.specs.declared.search.Next.{Next};
ghost use Rattle.modbus_rtu.specs.declared.search.Next.TheVariants.{Frame, Waiting, TooManyRetries};
ghost use Rattle.modbus_rtu.specs.declared.crc_table.TheConstants.{BYTE_SHIFTS};
ghost use Rattle.modbus_rtu.specs.Checksum.{shifts, with_byte, four_looked_up};
ghost use Rattle.modbus_rtu.specs.Frame.{frame, verdict};
ghost use Rattle.modbus_rtu.specs.ResponseHead.{HasResponseHead, response_verdict};
ghost use Rattle.modbus_rtu.specs.Next.{IsNext, IsNextBy};
ghost use Rattle.modbus_rtu.specs.Leftmost.{IsLeftmost, IsUncovered};
ghost use Rattle.modbus_rtu.specs.Place.{frames_below};
ghost use Rattle.modbus_rtu.specs.Stands.{StandsFor, IsTakenNext, IsUsedUp, IsFirstCrowd, HasCrowd, frame_at};
ghost use Rattle.modbus_rtu.specs.Quiet.{IsQuietLine};
ghost use Rattle.modbus_frame.specs.Meaning.{Asked};
ghost use Rattle.modbus_rtu.specs.WholeReading.{HasHead, IsFramedAsk, stream_of, IsWholeReading};
ghost use Rattle.modbus_rtu.specs.Limits.{overhead, max_retries};

/// The checksum goes by whole bytes: a byte's eight bit steps move the high half of the register down, and add what eight bit steps make
/// of its low half and the byte (MODBUS over Serial Line V1.02, appendix B).
pub fn crc_steps()
    ensures bits { (register byte : ℕ) → byte < 2 ^ 8
        → with_byte register byte ≡ bit_xor (register / 256)
        (shifts 8 (bit_xor register byte % 256)) }

    // Each row of the table has what the bit steps of so many bytes make of each number of a byte, so one look into the first row is eight
    // bit steps, and a look into each row takes four bytes.
    ensures entries { (k low : ℕ) → k < 4 → low < 256
        → get_or (get_or BYTE_SHIFTS k []) low 0 ≡ shifts (8 * (k + 1)) low }
    ensures table { (register byte : ℕ) → byte < 2 ^ 8
        → with_byte register byte ≡ bit_xor (register / 256)
        (get_or (get_or BYTE_SHIFTS 0 []) (bit_xor register byte % 256) 0) }
    ensures four { (register a b c d : ℕ) → register < 2 ^ 16 → a < 2 ^ 8 → b < 2 ^ 8 → c < 2 ^ 8
        → d < 2 ^ 8 → with_byte (with_byte (with_byte (with_byte register a) b) c) d
        ≡ four_looked_up BYTE_SHIFTS (bit_xor register (b * 256 + a)) c d }
{}

/// A verdict good or bad is the same in every list that the bytes begin.
pub fn verdicts_stay()
    ensures { (bytes more : List ℕ) (i : ℕ) → verdict bytes i ≢ Open
        → verdict (bytes ++ more) i ≡ verdict bytes i }
{}

/// What stands at an offset depends on the bytes from there on: at the end it is open, and a frame lies within the bytes.
pub fn verdicts_by_offset()
    ensures from { (bytes : List ℕ) (start i : ℕ)
        → verdict (drop start bytes) i ≡ verdict bytes (start + i) }
    ensures end { (bytes : List ℕ) (i : ℕ) → length bytes ≤ i → verdict bytes i ≡ Open }
    ensures whole { (bytes : List ℕ) (i n : ℕ) → verdict bytes i ≡ Good n
        → i + (n + overhead) ≤ length bytes }
{}

/// What stands at the front of bytes that are read as a response: nothing at all is open, and a frame lies within the bytes.
pub fn responses_by_front()
    ensures end { response_verdict [] ≡ Open }
    ensures whole { (bytes : List ℕ) (n : ℕ) → response_verdict bytes ≡ Good n
        → n + overhead ≤ length bytes }
{}

/// The frame of a response whose first bytes tell its length is read whatever follows it, and each shorter front of it waits.
pub fn responses_in_pieces()
    ensures frame { (slave : ℕ) (pdu more : List ℕ) → HasResponseHead (message slave pdu)
        → response_verdict (frame slave pdu ++ more) ≡ Good (length pdu) }
    ensures front { (slave : ℕ) (pdu : List ℕ) (k : ℕ) → HasResponseHead (message slave pdu)
        → k < length pdu + overhead → response_verdict (take k (frame slave pdu)) ≡ Open }
{}

/// Each list has exactly one leftmost reading.
pub fn one_reading()
    ensures some { (bytes : List ℕ) → (frames : List ℕ) × (stop : ℕ)
        × IsLeftmost bytes frames stop }
    ensures only { (bytes frames others : List ℕ) (stop last : ℕ) → IsLeftmost bytes frames stop
        → IsLeftmost bytes others last → (frames ≡ others) × (stop ≡ last) }
{}

/// With more bytes the reading goes on: first what was read up to the stop, and then what is read in the bytes from the stop on.
pub fn reading_goes_on()
    ensures { (bytes more frames later : List ℕ) (stop last : ℕ) → IsLeftmost bytes frames stop
        → IsLeftmost (drop stop bytes ++ more) later last
        → IsLeftmost (bytes ++ more) (frames ++ map (λ f. stop + f) later) (stop + last) }
{}

/// With more bytes the delivered frames stay: they are the first delivered frames of the whole, and the later ones begin at the
/// stop or above.
pub fn frames_stay()
    ensures front { (bytes more frames all : List ℕ) (stop last : ℕ) → IsLeftmost bytes frames stop
        → IsLeftmost (bytes ++ more) all last
        → (later : List ℕ) × (all ≡ frames ++ later) × All (λ f. stop ≤ f) later }
    ensures delivered { (bytes more frames all : List ℕ) (stop last f : ℕ)
        → IsLeftmost bytes frames stop → IsLeftmost (bytes ++ more) all last → f < stop
        → Contains frames f ↔ Contains all f }
    ensures below { (bytes more frames all : List ℕ) (stop last : ℕ) → IsLeftmost bytes frames stop
        → IsLeftmost (bytes ++ more) all last → frames_below stop all ≡ frames }
    ensures stop { (bytes more frames all : List ℕ) (stop last : ℕ) → IsLeftmost bytes frames stop
        → IsLeftmost (bytes ++ more) all last → stop ≤ last }
    ensures same { (bytes more frames : List ℕ) (stop : ℕ) → IsLeftmost bytes frames stop
        → map (frame_at (bytes ++ more)) frames ≡ map (frame_at bytes) frames }
{}

/// What is read of a frame stays when bytes follow.
pub fn frame_stays()
    ensures { (bytes more : List ℕ) (i : ℕ) → verdict bytes i ≢ Open
        → frame_at (bytes ++ more) i ≡ frame_at bytes i }
{}

/// The delivered frames are those below one of them, this one, and later ones.
pub fn frames_in_order()
    ensures { (bytes frames : List ℕ) (stop f : ℕ) → IsLeftmost bytes frames stop
        → Contains frames f → (later : List ℕ) × (frames ≡ frames_below f frames ++ f ∷ later) }
{}

/// The offsets of a crowd are bad and uncovered in every list that the bytes begin.
pub fn crowds_stay()
    ensures { (bytes cuts more frames : List ℕ) (k stop : ℕ) → HasCrowd bytes cuts k
        → IsLeftmost (bytes ++ more) frames stop → (i : ℕ) → k ≤ i → i < k + max_retries
        → (verdict (bytes ++ more) i ≡ Bad) × IsUncovered (bytes ++ more) frames i }
{}

/// One search has exactly one answer, whatever judges the offsets.
pub fn one_answer()
    ensures some { (judge : List ℕ → Verdict) (held : List ℕ)
        → (next : Next) × IsNextBy judge held next }
    ensures only { (judge : List ℕ → Verdict) (held : List ℕ) (next other : Next)
        → IsNextBy judge held next → IsNextBy judge held other → next ≡ other }
{}

/// Frames one after another, each of the length that its first bytes tell, are the leftmost frames, and the stop is the end.
pub fn frames_alone()
    ensures { (messages : List SlavePdu) → AllByRecursion HasHead messages
        → IsWholeReading (stream_of messages) messages }
{}

/// Frames of requests of modelled kinds, one after another, each for some slave, are the leftmost frames, and the stop is the end. They
/// are a quiet line: each offset is that of a frame or lies in one. No PDU is longer than `MAX_PDU`, since a longer one
/// has no head.
pub fn request_frames()
    ensures heads { (asked : ℕ × Asked) → IsFramedAsk asked.1 → HasHead (message_of asked) }
    ensures alone { (asked : List (ℕ × Asked)) → AllByRecursion (λ one. IsFramedAsk one.1) asked
        → IsWholeReading (stream_of (map message_of asked)) (map message_of asked) }
    ensures quiet { (asked : List (ℕ × Asked)) → AllByRecursion (λ one. IsFramedAsk one.1) asked
        → IsQuietLine (stream_of (map message_of asked)) (map message_of asked) }
{
    modbus_pdu::requests_have_sizes();
}

/// What a reader stands for, from its opening on over each search and each read.
pub fn standing()
    // A reader that was given nothing holds nothing.
    ensures opening { StandsFor [] [] [] [] }

    // It takes off a frame with all bytes before it,
    ensures frame { (bytes cuts held : List ℕ) (taken : List SlavePdu) (start n : ℕ)
        → StandsFor bytes cuts held taken → IsNext held (Frame start n)
        → StandsFor bytes cuts (drop (start + (n + overhead)) held)
        (taken ++ message (slice_index held start) (take n (drop (start + 1) held)) ∷ []) }

    // or drops the bad offsets before an open one; then all delivered frames are taken.
    ensures waiting { (bytes cuts held : List ℕ) (taken : List SlavePdu) (dropped : ℕ)
        → StandsFor bytes cuts held taken → IsNext held (Waiting dropped)
        → StandsFor bytes cuts (drop dropped held) taken
        × IsUsedUp bytes cuts (drop dropped held) taken }

    // So it is wherever the held bytes begin open.
    ensures used_up { (bytes cuts held : List ℕ) (taken : List SlavePdu)
        → StandsFor bytes cuts held taken → verdict held 0 ≡ Open → IsUsedUp bytes cuts held taken }

    // `MAX_RETRIES` bad offsets are the first crowd, and a crowd that no frame precedes is found so.
    ensures crowd { (bytes cuts held : List ℕ) (taken : List SlavePdu)
        → StandsFor bytes cuts held taken → IsNext held TooManyRetries
        → (k : ℕ) × IsFirstCrowd bytes cuts taken k }
    ensures found { (bytes cuts held : List ℕ) (taken : List SlavePdu) (k : ℕ)
        → (s : StandsFor bytes cuts held taken) → HasCrowd bytes cuts k
        → ((frames : List ℕ) (stop : ℕ) → IsLeftmost bytes frames stop → (f : ℕ) → Contains frames f
        → s.place ≤ f → f < k + (max_retries - 1) → ⊥) → IsNext held TooManyRetries }

    // A read that gave bytes, made where the held bytes begin open, appends them and is one more cut.
    ensures read { (bytes cuts held more : List ℕ) (taken : List SlavePdu)
        → StandsFor bytes cuts held taken → verdict held 0 ≡ Open → 0 < length more
        → StandsFor (bytes ++ more) (cuts ++ length (bytes ++ more) ∷ []) (held ++ more) taken }
{}

/// A quiet line goes on as it was read: whatever its pieces, no read brings a crowd, each frame that is given away is the next one of
/// the line, and where all was read and used nothing is held.
pub fn quiet_lines()
    ensures calm { (read rest cuts : List ℕ) (messages : List SlavePdu) (k : ℕ)
        → IsQuietLine (read ++ rest) messages → HasCrowd read cuts k → ⊥ }
    ensures next { (read rest cuts : List ℕ) (messages before : List SlavePdu)
        (message : SlavePdu) → IsQuietLine (read ++ rest) messages
        → IsTakenNext read cuts before message
        → (later : List SlavePdu) × (messages ≡ (before ++ message ∷ []) ++ later) }
    ensures used { (read cuts left : List ℕ) (messages before : List SlavePdu)
        → IsQuietLine read messages → IsUsedUp read cuts left before → left ≡ [] }
{}
