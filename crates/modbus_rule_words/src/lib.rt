//! The words of command lines that say who may come and what masters may do, for each program that takes them.
#![tactic(auto)]

mod peer_words;
mod rule_words;

pub use crate::peer_words::{PeerWords, network_of};
pub use crate::rule_words::RuleWords;
