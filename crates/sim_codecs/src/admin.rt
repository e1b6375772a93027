// Administrative data.
ghost use Rattle.std.specs.Prelude.{◌≡◌};
ghost use Rattle.sim_codecs.specs.Fields.{ad_of, mnc_of, mnc_length};
ghost use Rattle.sim_codecs.specs.Reads.{answer_of};

use crate::{Ad, FieldError};

/// Reads EF_AD, 3GPP TS 31.102 clause 4.2.18. Takes no memory.
pub fn ad(bytes: &[u8]) -> Result<Ad, FieldError>
    ensures { result ≡ answer_of (ad_of bytes.now) }
{
    let [mode, ..] = bytes else {
        return Err(FieldError::Malformed { at: 0 });
    };
    Ok(Ad {
        mode: *mode,
        mnc: mnc_of(bytes),
    })
}

fn mnc_of(bytes: &[u8]) -> Option<u8>
    ensures { result ≡ mnc_of bytes.now }
{
    let [_, _, _, byte, ..] = bytes else {
        return None;
    };
    mnc_length(byte % 16)
}

/// The length, unless the card leaves it open.
fn mnc_length(length: u8) -> Option<u8>
    ensures { result ≡ mnc_length length }
{
    (length == 2 || length == 3).then_some(length)
}
