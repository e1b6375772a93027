//! Worked values of the standards, read and written by the libraries that no program calls with them so far: each subject's in a file. A crate with
//! tests is proved twice, so the tests of the libraries stand here together, over crates that are proved once.
#![tactic(auto)]

#[cfg(test)]
mod books;
#[cfg(test)]
mod calls;
#[cfg(test)]
mod commands;
#[cfg(test)]
mod digits;
#[cfg(test)]
mod fields;
#[cfg(test)]
mod names;
#[cfg(test)]
mod objects;
#[cfg(test)]
mod parameters;
#[cfg(test)]
mod streams;
#[cfg(test)]
mod tables;
