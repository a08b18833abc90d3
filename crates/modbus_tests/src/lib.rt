//! Tests that need code: threads, sockets, hooks, and a schedule of readiness. Each module is named for what it tests; what has bytes in
//! and an answer out is in the table, crates/modbus_vectors.
#![tactic(auto)]

#[cfg(test)]
mod check;
#[cfg(test)]
mod fleet;
#[cfg(test)]
mod hub;
#[cfg(test)]
mod lines;
#[cfg(test)]
mod link;
#[cfg(test)]
mod links;
#[cfg(test)]
mod listeners;
#[cfg(test)]
mod map;
#[cfg(test)]
mod plant;
#[cfg(test)]
mod poll;
#[cfg(test)]
mod store;
#[cfg(test)]
mod told;
