//! Laws on the ADUs in a list of bytes, about definitions alone. Each is proved by its contract, and its body is empty.
ghost use Rattle.std.specs.Prelude.{◌≡◌, ◌⊎◌, ℕ, ◌+◌, ◌<◌, All, List, [], ◌∷◌, ◌++◌, length};
ghost use Rattle.modbus_frame.specs.declared.tcp.Header.{Header};
ghost use Rattle.modbus_pdu.specs.Laws.{IsByte};
ghost use Rattle.modbus_pdu.specs.Message.{Message};
ghost use Rattle.modbus_tcp.specs.Adu.{IsAdu, stream_of};
ghost use Rattle.modbus_tcp.specs.Stream.{Rest, unfinished, no_length, foreign, empty, IsRest, IsSplit, BeginsWith};
ghost use Rattle.modbus_tcp.specs.Limits.{mbap_header};

/// Of a list of bytes exactly one holds: it begins with an ADU, and then with this one only and the same others; or it is a rest of
/// one kind.
pub fn one_front()
    ensures some { (bytes : List ℕ) → All IsByte bytes
        → ((message : Message Header) × (others : List ℕ) × BeginsWith bytes message others)
        ⊎ ((kind : Rest) × IsRest bytes kind) }
    ensures adu { (bytes others left : List ℕ) (message other : Message Header)
        → BeginsWith bytes message others → BeginsWith bytes other left
        → (message ≡ other) × (others ≡ left) }
    ensures rest { (bytes : List ℕ) (kind other : Rest) → IsRest bytes kind → IsRest bytes other
        → kind ≡ other }
    ensures apart { (bytes others : List ℕ) (message : Message Header) (kind : Rest)
        → BeginsWith bytes message others → IsRest bytes kind → ⊥ }
{}

/// Each list of bytes is ADUs and a rest in exactly one way.
pub fn one_splitting()
    ensures some { (bytes : List ℕ) → All IsByte bytes
        → (adus : List (Message Header)) × (rest : List ℕ) × (kind : Rest)
        × IsSplit bytes adus rest kind }
    ensures only { (bytes rest left : List ℕ) (adus others : List (Message Header))
        (kind other : Rest) → IsSplit bytes adus rest kind → IsSplit bytes others left other
        → (adus ≡ others) × (rest ≡ left) × (kind ≡ other) }
{}

/// What stands at the front stays when bytes follow: an ADU, a length of 0, and an ADU of another protocol. Where the whole is a front
/// of an ADU, so is each shorter front of it that has a byte.
pub fn adu_stays()
    ensures adu { (bytes more others : List ℕ) (message : Message Header)
        → BeginsWith bytes message others → BeginsWith (bytes ++ more) message (others ++ more) }
    ensures no_length { (bytes more : List ℕ) → IsRest bytes no_length
        → IsRest (bytes ++ more) no_length }
    ensures foreign { (bytes more : List ℕ) (protocol : ℕ) → IsRest bytes (foreign protocol)
        → IsRest (bytes ++ more) (foreign protocol) }
    ensures unfinished { (bytes more : List ℕ) → IsRest (bytes ++ more) unfinished
        → IsRest bytes empty ⊎ IsRest bytes unfinished }
    ensures none { (bytes more others : List ℕ) (message : Message Header)
        → IsRest (bytes ++ more) unfinished → BeginsWith bytes message others → ⊥ }
{}

/// ADUs that were taken off, one after another, and then the next one, or bytes that are read. An ADU has a header, so what follows
/// it is shorter.
pub fn adus_go_on()
    ensures size { (bytes others : List ℕ) (message : Message Header)
        → BeginsWith bytes message others
        → length bytes ≡ mbap_header + length message.pdu + length others }
    ensures fewer { (bytes others : List ℕ) (message : Message Header)
        → BeginsWith bytes message others → length others < length bytes }
    ensures joined { (bytes held others : List ℕ) (adus : List (Message Header))
        (message : Message Header) → bytes ≡ stream_of adus ++ held
        → BeginsWith held message others → bytes ≡ stream_of (adus ++ message ∷ []) ++ others }
    ensures whole { (held others : List ℕ) (adus : List (Message Header))
        (message : Message Header) → All IsAdu adus → BeginsWith held message others
        → All IsAdu (adus ++ message ∷ []) }
    ensures read { (bytes held more : List ℕ) (adus : List (Message Header))
        → bytes ≡ stream_of adus ++ held → bytes ++ more ≡ stream_of adus ++ (held ++ more) }
{}

/// ADUs that were taken off are the first ADUs of all bytes, and the later ones are those of what is held. ADUs alone leave nothing.
pub fn adus_come_first()
    ensures first { (bytes held rest : List ℕ) (adus all : List (Message Header)) (kind : Rest)
        → bytes ≡ stream_of adus ++ held → All IsAdu adus → IsSplit bytes all rest kind
        → (later : List (Message Header)) × (all ≡ adus ++ later) × IsSplit held later rest kind }
    ensures later { (bytes held rest : List ℕ) (adus later : List (Message Header)) (kind : Rest)
        → bytes ≡ stream_of adus ++ held → All IsAdu adus → IsSplit held later rest kind
        → IsSplit bytes (adus ++ later) rest kind }
    ensures alone { (adus : List (Message Header)) → All IsAdu adus
        → IsSplit (stream_of adus) adus [] empty }
{}
