//! Objects of tag, length and value: BER-TLV (ETSI TS 101 220 clause 7.1), and the simple form of TS 102 223.
#![tactic(auto)]

mod error;
mod object;
mod reader;
mod writer;

pub use error::TlvError;
pub use reader::{BerReader, SimpleReader};
pub use writer::put_tlv;
