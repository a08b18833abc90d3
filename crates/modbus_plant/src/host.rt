//! A host and its port, as a word.
ghost use Rattle.std.specs.Prelude.{◌≡◌, ℕ, List, Option, MatchOption, IfSome, IfNone};
ghost use Rattle.std.specs.Option.{option_map};
ghost use Rattle.modbus_plant.specs.Hosts.{port_behind, bracketed_parts, plain_parts, host_parts, IsPortText, IsHostAndPort};

/// The port of Modbus TCP (Messaging on TCP/IP V1.0b, section 4.3.1).
const PORT: &str = "502";

/// The number of a port.
fn port_of(text: &str) -> Option<u16>
    ensures { MatchOption result ((n : ℕ) → IsPortText text.now n → ⊥) (IsPortText text.now) }
{
    match text.parse::<u16>() {
        Ok(port) => Some(port),
        Err(_) => None,
    }
}

/// The text of the port in what stands behind a host in brackets: 502 where nothing does.
fn port_behind(text: &str) -> Option<&str>
    ensures { option_map (λ port. port.now) result ≡ port_behind text.now }
{
    if text.is_empty() {
        return Some(PORT);
    }
    text.strip_prefix(":")
}

/// The parts of a word, behind its first bracket: what stands before the other bracket, and the text of the port.
fn bracketed_parts(text: &str) -> Option<(&str, &str)>
    ensures { option_map (λ parts. (parts.0.now, parts.1.now)) result ≡ bracketed_parts text.now }
{
    match text.split_once(']') {
        Some((host, rest)) => match port_behind(rest) {
            Some(port) => Some((host, port)),
            None => None,
        },
        None => None,
    }
}

/// The parts of a word without brackets: what stands before the first colon, and the text of the port behind it.
fn plain_parts(word: &str) -> (&str, &str)
    ensures { (result.0.now, result.1.now) ≡ plain_parts word.now }
{
    match word.split_once(':') {
        Some(parts) => parts,
        None => (word, PORT),
    }
}

/// The host of a word, and the text of its port.
fn host_parts(word: &str) -> Option<(&str, &str)>
    ensures { option_map (λ parts. (parts.0.now, parts.1.now)) result ≡ host_parts word.now }
{
    match word.strip_prefix("[") {
        Some(rest) => bracketed_parts(rest),
        None => Some(plain_parts(word)),
    }
}

/// The host and the port that a word names: `HOST`, `HOST:PORT`, `[HOST]` or `[HOST]:PORT`, an address of IPv6 in brackets; port 502 where
/// none is told. None where the host is empty or the port no number up to 65535.
pub fn host_and_port(word: &str) -> Option<(&str, u16)>
    ensures named { IfSome result (λ found. IsHostAndPort word.now found.0.now found.1) }
    ensures none { IfNone result ((host : List ℕ) (port : ℕ) → IsHostAndPort word.now host port
        → ⊥) }
{
    let Some((host, text)) = host_parts(word) else {
        return None;
    };
    if host.is_empty() {
        return None;
    }
    match port_of(text) {
        Some(port) => Some((host, port)),
        None => None,
    }
}
