// Objects written at the end of a buffer.
ghost use Rattle.std.specs.Prelude.{◌≡◌, ◌<◌, ◌≤◌, ◌↔◌, ◌++◌, length, OnOk, OnErr, IsErr, IfErr};
ghost use Rattle.tlv.specs.Objects.{part_bytes};

use crate::TlvError;
use arrayvec::ArrayVec;

/// Puts an object at the end of a buffer: its tag, its length in the shortest form, and its value.
pub fn put_tlv<const N: usize>(
    out: &mut ArrayVec<u8, N>,
    tag: u8,
    value: &[u8],
) -> Result<(), TlvError>
    requires { length value.now ≤ 255 }
    ensures ok { OnOk result (out.new.items ≡ out.old.items ++ part_bytes tag value.now) }
    ensures err { OnErr result (out.new ≡ out.old) }
    ensures room { IsErr result ↔ (N < length (out.old.items ++ part_bytes tag value.now)) }
    ensures cause { IfErr result (λ e. e ≡ TlvError.NoRoom) }
{
    let head = if value.len() < 0x80 { 2 } else { 3 };
    if out.remaining_capacity() < head + value.len() {
        return Err(TlvError::NoRoom);
    }
    out.push(tag);
    if value.len() >= 0x80 {
        out.push(0x81);
    }
    out.push(value.len() as u8);
    let _ = out.try_extend_from_slice(value);
    Ok(())
}
