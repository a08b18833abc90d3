//! Laws on what is asked by a PDU that can't be read, about definitions alone. Each is proved by its contract, and its body is empty.
ghost use Rattle.std.specs.Prelude.{◌≡◌, ℕ, ◌<◌, List, ◌∷◌, Ok, None, true, false};
ghost use Rattle.modbus_frame.specs.Meaning.{Asked, Custom};
ghost use Rattle.modbus_pdu.specs.RequestOf.{request_of};
ghost use Rattle.modbus_field.specs.Unread.{any_request_of, has_spare_bytes, unread_of};

/// A PDU that is a request, of any function code but 0, asks for that request, unless it writes coils and has more bytes than these need; and it
/// is the service that is asked.
pub fn requests_are_read()
    ensures asked { (code : ℕ) (rest : List ℕ) (request : Asked) → 0 < code
        → has_spare_bytes (code ∷ rest) ≡ false
        → request_of (code ∷ rest) ≡ Ok request → any_request_of (code ∷ rest) ≡ request }
    ensures spare { (code : ℕ) (rest : List ℕ) → has_spare_bytes (code ∷ rest) ≡ true
        → any_request_of (code ∷ rest) ≡ Custom code rest }
    ensures read { (code : ℕ) (rest : List ℕ) (request : Asked) → 0 < code
        → request_of (code ∷ rest) ≡ Ok request → unread_of request ≡ None }
{}
