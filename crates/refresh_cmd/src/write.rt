// Proactive commands and terminal responses as bytes, ETSI TS 102 223 clauses 6.6.13, 6.8 and 8.
ghost use Rattle.std.specs.Prelude.{◌≡◌, ◌≤◌, ◌+◌, ◌*◌, ◌++◌, true, Ok, length, flat_map};
ghost use Rattle.std.specs.List.{list_all};
ghost use Rattle.arrayvec.specs.ArrayVec.{array_vec_len};
ghost use Rattle.apdu.specs.Words.{two_bytes};
ghost use Rattle.refresh_cmd.specs.Proactive as spec;

use crate::{MASTER_FILE, Proactive};
use apdu::Path;
use arrayvec::ArrayVec;

/// The bytes of a proactive command. Its file list is left out where it has no path.
pub fn write_refresh(p: &Proactive) -> ArrayVec<u8, 128>
    requires { length p.now.list ≤ 8 }
    ensures value { result.items ≡ spec.write_refresh p.now }
    ensures read_back { list_all spec.is_below_master p.now.list ≡ true
        → spec.read_proactive result.items ≡ Ok p.now }
{
    write_proactive(p.number, p.kind, p.qualifier, p.list.as_slice())
}

/// The bytes of the proactive command with these details and this file list, which is left out where it has no path.
pub fn write_proactive(number: u8, kind: u8, qualifier: u8, paths: &[Path]) -> ArrayVec<u8, 128>
    requires { length paths.now ≤ 8 }
    ensures value { result.items ≡ spec.proactive_bytes number kind qualifier paths.now }
    ensures read_back { list_all spec.is_below_master paths.now ≡ true
        → spec.read_proactive result.items ≡ Ok (spec.command_of number kind qualifier paths.now) }
{
    let list = list_object(paths);
    with_details(number, kind, qualifier, list.as_slice())
}

/// The body of the TERMINAL RESPONSE to the command with these details (TS 102 223 clause 6.8).
pub fn write_terminal_response(
    number: u8,
    kind: u8,
    qualifier: u8,
    general_result: u8,
) -> ArrayVec<u8, 12>
    ensures value { result.items
        ≡ spec.write_terminal_response number kind qualifier general_result }
{
    ArrayVec::from([
        0x81,
        3,
        number,
        kind,
        qualifier,
        0x82,
        2,
        0x82,
        0x81,
        0x83,
        1,
        general_result,
    ])
}

// The command with this object of a file list behind its details and identities.
fn with_details(number: u8, kind: u8, qualifier: u8, list: &[u8]) -> ArrayVec<u8, 128>
    requires { length list.now ≤ 67 }
    ensures { result.items ≡ spec.with_details number kind qualifier list.now }
{
    let len = 9 + list.len() as u8;
    let head = [
        0xD0, len, 0x81, 3, number, kind, qualifier, 0x82, 2, 0x81, 0x82,
    ];
    let mut out = ArrayVec::new();
    let _ = out.try_extend_from_slice(&head);
    let _ = out.try_extend_from_slice(list);
    out
}

// The file list, nothing where there is no path.
fn list_object(paths: &[Path]) -> ArrayVec<u8, 67>
    requires { length paths.now ≤ 8 }
    ensures value { result.items ≡ spec.list_part paths.now }
    ensures good { list_all spec.is_good_path paths.now ≡ true }
{
    let mut out = ArrayVec::new();
    if paths.is_empty() {
        return out;
    }
    let bytes = paths_bytes(paths);
    out.push(0x92);
    out.push(1 + bytes.len() as u8);
    out.push(paths.len() as u8);
    let _ = out.try_extend_from_slice(bytes.as_slice());
    out
}

fn paths_bytes(paths: &[Path]) -> ArrayVec<u8, 64>
    requires { length paths.now ≤ 8 }
    ensures value { result.items ≡ flat_map spec.path_bytes paths.now }
    ensures good { list_all spec.is_good_path paths.now ≡ true }
{
    let mut out = ArrayVec::new();
    for path in paths {
        put_path(&mut out, path);
    }
    out
}

fn put_path(out: &mut ArrayVec<u8, 64>, path: &Path)
    requires { array_vec_len out.old ≤ 56 }
    ensures value { out.new.items ≡ out.old.items ++ spec.path_bytes path.now }
    ensures good { spec.is_good_path path.now ≡ true }
    ensures short { array_vec_len out.new ≤ array_vec_len out.old + 8 }
{
    put_id(out, MASTER_FILE);
    for id in path.ids() {
        put_id(out, *id);
    }
}

fn put_id(out: &mut ArrayVec<u8, 64>, id: u16)
    requires { array_vec_len out.old ≤ 62 }
    ensures value { out.new.items ≡ out.old.items ++ two_bytes id }
    ensures len { array_vec_len out.new ≡ array_vec_len out.old + 2 }
{
    out.push((id / 256) as u8);
    out.push((id % 256) as u8);
}
