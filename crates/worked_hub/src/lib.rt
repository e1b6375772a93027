//! Worked calls of a hub over a simulated slot, and of a hub, of a channel table and of a PIN session over a slot in memory that tells nothing.
//! They stand above those crates, which are proved once.
#![tactic(auto)]

#[cfg(test)]
mod edits;
#[cfg(test)]
mod nodding;
#[cfg(test)]
mod sent;
