//! The families of files that are published, what their files are decoded to, and the JSON that is shown
//! of each.
#![tactic(auto)]

mod content;
mod copies;
mod decode;
mod family_set;
mod json;
mod standard;

pub use content::{Field, Records, StandardContent};
pub use family_set::{ContentText, Families};
pub use standard::Standard;
