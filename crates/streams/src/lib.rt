//! What a program reads and what it writes: a source that is read to its end or past a limit, and a
//! sink that takes one piece.
#![tactic(auto)]

mod input;
mod streams;

pub use input::{Input, read_all};
pub use streams::{Streams, write_piece};
