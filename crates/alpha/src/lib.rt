//! Names as files of a UICC have them: in the default alphabet (3GPP TS 23.038 clause 6.2.1) and in
//! the three UCS2 forms of ETSI TS 102 221 annex A.
#![tactic(auto)]

mod decode;
mod encode;
mod tables;

pub use decode::decode_alpha;
pub use encode::{AlphaError, encode_alpha};
