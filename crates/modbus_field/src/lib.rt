//! What a device that stays in the field stands on: whatever its line or a client sends, it goes on.
//!
//! `burst` reads frames by the silences of a serial line, `stream` the pieces of a TCP connection, and `standard` answers what can't be read
//! as the standard wants.
#![tactic(auto)]

pub mod burst;
pub mod standard;
pub mod stream;
