//! The fields of the files of a USIM that a terminal shows: ETSI TS 102 221 clause 13, and 3GPP TS
//! 31.102 clause 4.2.
#![tactic(auto)]

mod admin;
mod applications;
mod digits;
mod error;
mod names;
mod values;

pub use admin::ad;
pub use applications::dir_row;
pub use digits::{iccid, imsi};
pub use error::FieldError;
pub use names::spn;
pub use values::{Ad, AppRow, Spn};
