// The name of the service provider.
ghost use Rattle.sim_codecs.specs.Fields.{spn_of};
ghost use Rattle.sim_codecs.specs.Reads.{ReadsAs};

use crate::{FieldError, Spn};
use alpha::decode_alpha;
use std::alloc::Global;

/// Reads EF_SPN, 3GPP TS 31.102 clause 4.2.12.
pub fn spn(alloc: Global, bytes: &[u8]) -> Result<Spn, FieldError>
    ensures { ReadsAs (spn_of bytes.now) result }
{
    if bytes.len() < 17 {
        return Err(FieldError::Malformed { at: bytes.len() });
    }
    Ok(Spn {
        show: bytes[0],
        name: decode_alpha(alloc, &bytes[1..17])?,
    })
}
