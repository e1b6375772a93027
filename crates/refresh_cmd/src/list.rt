// The file list of a proactive command, ETSI TS 102 223 clause 8.18.
ghost use Rattle.std.specs.Prelude.{◌≡◌, ◌+◌, ◌<◌, ◌++◌, ◌∷◌, [], true, List, ℕ, None, length, option_map, IfSome, IfNone};
ghost use Rattle.refresh_cmd.specs.Proactive as spec;
ghost use Rattle.refresh_cmd.specs.Lists.{cut_bytes, with_id_seen, onto};

use crate::MASTER_FILE;
use apdu::Path;
use arrayvec::ArrayVec;

/// The paths of a file list, where it is a count and as many full paths.
pub fn read_list(bytes: &[u8]) -> Option<ArrayVec<Path, 64>>
    ensures { option_map (λ list. list.items) result ≡ spec.paths_of bytes.now }
{
    let (count, paths) = bytes.split_first()?;
    let list = read_paths(paths)?;
    if list.len() == *count as usize {
        Some(list)
    } else {
        None
    }
}

fn read_paths(bytes: &[u8]) -> Option<ArrayVec<Path, 64>>
    ensures { option_map (λ list. list.items) result ≡ spec.full_paths bytes.now }
{
    let mut list = ArrayVec::new_in(());
    let mut rest = bytes;
    'paths: while !rest.is_empty() {
        let (path, behind) = read_path(rest)?;
        if list.is_full() {
            return None;
        }
        list.push(path);
        rest = behind;
    }
    Some(list)
}

// The path at the front, which ends before the next master file or at the end.
fn read_path<'a>(bytes: &'a [u8]) -> Option<(Path, &'a [u8])>
    requires { 0 < length bytes.now }
    ensures some { IfSome result (λ r. (paths : List (List ℕ))
        → onto paths (cut_bytes bytes.now) ≡ onto (paths ++ r.0 ∷ []) (cut_bytes r.1.now)) }
    ensures shorter { IfSome result (λ r. length r.1.now < length bytes.now) }
    ensures good { IfSome result (λ r. spec.is_good_path r.0 ≡ true) }
    ensures none { IfNone result ((paths : List (List ℕ))
        → onto paths (cut_bytes bytes.now) ≡ None) }
{
    let (first, mut rest) = split_id(bytes)?;
    if first != MASTER_FILE {
        return None;
    }
    let mut ids = ArrayVec::<u16, 3>::new();
    'ids: while let Some((id, behind)) = split_id(rest) {
        if id == MASTER_FILE {
            break;
        }
        if ids.is_full() {
            return None;
        }
        ids.push(id);
        rest = behind;
    }
    Some((Path::from_ids(ids.as_slice())?, rest))
}

// The first two bytes as an id, and the bytes behind.
fn split_id<'a>(bytes: &'a [u8]) -> Option<(u16, &'a [u8])>
    ensures some { IfSome result (λ r. cut_bytes bytes.now ≡ with_id_seen r.0 (cut_bytes r.1.now)) }
    ensures shorter { IfSome result (λ r. length r.1.now + 2 ≡ length bytes.now) }
    ensures none { IfNone result (length bytes.now < 2) }
{
    let [high, low, behind @ ..] = bytes else {
        return None;
    };
    Some((*high as u16 * 256 + *low as u16, behind))
}
