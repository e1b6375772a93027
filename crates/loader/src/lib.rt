//! How a file is read, READ by READ (ETSI TS 102 221 clauses 11.1.3 and 11.1.5).
#![tactic(auto)]

mod ending;
mod job;
mod reading;
mod readings;
mod reads;
mod same;
mod stage;
mod turning;

pub use ending::{completed_by, has_bad_fcp, refused_by, tells_no_file};
pub use job::LoadJob;
pub use reading::{Reading, Readings, RefusedReading};
pub use readings::{drop_spoiled, read_on, reading_at, reading_of};
pub use reads::{is_readable, read_number, reads_needed};
pub use stage::{LoadError, LoadTurn, Stage};
