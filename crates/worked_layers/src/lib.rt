//! Worked calls of the layers between a card and a report: over slots in memory that tell nothing, and over simulated cards. A crate with
//! tests is proved twice, so these stand above the crates that they try, which are proved once.
#![tactic(auto)]

#[cfg(test)]
mod exchanges;
#[cfg(test)]
mod kept;
#[cfg(test)]
mod loads;
#[cfg(test)]
mod turns;
