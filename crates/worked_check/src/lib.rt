//! Worked reports that are checked. A crate with tests is proved twice, so they stand above the reader and the checker of reports, which are
//! proved once.
#![tactic(auto)]

#[cfg(test)]
mod checked;
