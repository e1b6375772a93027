// Control parameters as a card writes them.
ghost use Rattle.std.specs.Prelude.{◌≡◌, ◌+◌, ◌≤◌, ◌++◌, length, Ok};
ghost use Rattle.apdu.specs.Words.{two_bytes};
ghost use Rattle.tlv.specs.Objects.{part_bytes};
ghost use Rattle.fcp.specs.Control.{write_fcp, read_fcp, Describes, template_bytes, descriptor_bytes, identity_part, reference_part, size_part, life_cycle_byte};

use crate::{ArrRef, Fcp, FileKind};
use arrayvec::ArrayVec;
use tlv::put_tlv;

/// Writes the template of these control parameters. The AID is that of an application's directory, which has no
/// file id.
#[tactic(auto, unfolding(crate::specs::Control::write_fcp))]
pub fn write_fcp(fcp: &Fcp, aid: &[u8]) -> ArrayVec<u8, 64>
    requires { length aid.now ≤ 16 }
    ensures value { result.items ≡ write_fcp fcp.now aid.now }
    ensures read_back { Describes fcp.now.kind fcp.now → read_fcp result.items ≡ Ok fcp.now }
{
    let template = template(fcp, aid);
    let mut out = ArrayVec::new();
    put_object(&mut out, 0x62, template.as_slice());
    out
}

fn template(fcp: &Fcp, aid: &[u8]) -> ArrayVec<u8, 62>
    requires { length aid.now ≤ 16 }
    ensures value { result.items ≡ template_bytes fcp.now aid.now }
    ensures short { length result.items ≤ 37 }
    ensures two_bytes { fcp.now.size ≤ 65535 }
{
    let mut out = ArrayVec::new();
    put_descriptor(&mut out, fcp.kind, fcp.width, fcp.count);
    put_identity(&mut out, fcp.file_id, aid);
    put_object(&mut out, 0x8A, &[if fcp.active { 5 } else { 4 }]);
    put_reference(&mut out, fcp.arr);
    put_size(&mut out, fcp.kind, fcp.size);
    out
}

/// Puts an object of a short value at the end, where there is room.
fn put_object<const N: usize>(out: &mut ArrayVec<u8, N>, tag: u8, value: &[u8])
    requires short { length value.now ≤ 127 }
    requires room { length out.old.items + 2 + length value.now ≤ N }
    ensures value { out.new.items ≡ out.old.items ++ part_bytes tag value.now }
    ensures len { length out.new.items ≡ length out.old.items + 2 + length value.now }
{
    let _ = put_tlv(out, tag, value);
}

fn put_descriptor(out: &mut ArrayVec<u8, 62>, kind: FileKind, width: u16, count: u8)
    requires { length out.old.items + 7 ≤ 62 }
    ensures value { out.new.items
        ≡ out.old.items ++ part_bytes 0x82 (descriptor_bytes kind width count) }
    ensures len { length out.new.items ≤ length out.old.items + 7 }
{
    match kind {
        FileKind::Transparent => put_object(out, 0x82, &[0x41, 0x21]),
        FileKind::Linear => put_object(
            out,
            0x82,
            &[0x42, 0x21, (width / 256) as u8, (width % 256) as u8, count],
        ),
        FileKind::Directory => put_object(out, 0x82, &[0x78, 0x21]),
    }
}

fn put_identity(out: &mut ArrayVec<u8, 62>, file_id: Option<u16>, aid: &[u8])
    requires room { length out.old.items + 18 ≤ 62 }
    requires short { length aid.now ≤ 16 }
    ensures value { out.new.items ≡ out.old.items ++ identity_part file_id aid.now }
    ensures len { length out.new.items ≤ length out.old.items + 18 }
{
    match file_id {
        Some(id) => put_object(out, 0x83, &[(id / 256) as u8, (id % 256) as u8]),
        None => put_object(out, 0x84, aid),
    }
}

fn put_reference(out: &mut ArrayVec<u8, 62>, arr: Option<ArrRef>)
    requires { length out.old.items + 5 ≤ 62 }
    ensures value { out.new.items ≡ out.old.items ++ reference_part arr }
    ensures len { length out.new.items ≤ length out.old.items + 5 }
{
    if let Some(ArrRef { file_id, row }) = arr {
        put_object(
            out,
            0x8B,
            &[(file_id / 256) as u8, (file_id % 256) as u8, row],
        );
    }
}

fn put_size(out: &mut ArrayVec<u8, 62>, kind: FileKind, size: u16)
    requires { length out.old.items + 4 ≤ 62 }
    ensures value { out.new.items ≡ out.old.items ++ size_part kind size }
    ensures len { length out.new.items ≤ length out.old.items + 4 }
{
    match kind {
        FileKind::Transparent | FileKind::Linear => put_object(
            out,
            0x80,
            &[(size / 256) as u8, (size % 256) as u8],
        ),
        FileKind::Directory => {}
    }
}
