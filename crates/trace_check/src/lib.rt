//! Whether a report is legal, and else the first line up to which a rule is broken, and the lowest such rule there.
#![tactic(auto)]

mod answer_codes;
mod answers;
mod behind;
mod boards;
mod books;
mod card;
mod checking;
mod displays;
mod edits;
mod exchanging;
mod faults;
mod held_channels;
mod holdings;
mod judge;
mod lowest;
mod plans;
mod rest;
mod same;
mod snapshots;
mod turns;
mod verifications;

pub use checking::{CheckError, check};
