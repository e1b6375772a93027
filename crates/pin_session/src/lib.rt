//! A PIN session begins by one VERIFY.
#![tactic(auto)]

mod verifying;

pub use verifying::{VerifyError, verify};
