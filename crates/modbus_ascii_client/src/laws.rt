//! Laws on the search for a reply, about definitions alone. Each is proved by its contract, and its body is empty.
ghost use Rattle.std.specs.Prelude.{ℕ, ◌≤◌, List, length};
ghost use Rattle.modbus_frame.specs.declared.fault.HeaderSeen.{HeaderSeen};
ghost use Rattle.modbus_frame.specs.declared.fault.TransportError.{TransportError};
ghost use Rattle.modbus_client.specs.Protocol.{waiting, reply, broken};
ghost use Rattle.modbus_ascii.specs.Frames.{frames};
ghost use Rattle.modbus_ascii.specs.Limits.{max_frame};
ghost use Rattle.modbus_ascii_client.specs.Frames.{FindsReplyFrame};
ghost use Rattle.modbus_ascii_client.specs.Laws.{IsFirstOf};
ghost use Rattle.modbus_ascii_client.specs.Search.{AreOthers};

/// The reply is a frame that the bytes deliver, and the first of its slave. A search that waits was given frames of other slaves alone, and
/// holds no more bytes than a frame has. No bytes end a search without a reply.
pub fn replies_are_first_frames()
    ensures first { (asked : HeaderSeen) (bytes cuts held pdu : List ℕ) (header : HeaderSeen)
        → FindsReplyFrame asked bytes cuts (reply held header pdu)
        → IsFirstOf asked.slave_id (frames bytes) header pdu }
    ensures none { (asked : HeaderSeen) (bytes cuts held : List ℕ)
        → FindsReplyFrame asked bytes cuts (waiting held) → AreOthers asked.slave_id (frames bytes) }
    ensures few { (asked : HeaderSeen) (bytes cuts held : List ℕ)
        → FindsReplyFrame asked bytes cuts (waiting held) → length held ≤ max_frame }
    ensures whole { (asked : HeaderSeen) (bytes cuts held : List ℕ) (fault : TransportError)
        → FindsReplyFrame asked bytes cuts (broken held fault) → ⊥ }
{}
