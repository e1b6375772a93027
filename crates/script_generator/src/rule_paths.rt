// The paths of access rules that files bring: an EF_ARR its own, any other file that of the EF_ARR that it names.
ghost use Rattle.std.specs.Prelude.{◌≡◌, ◌≤◌, ◌++◌, [], length};
ghost use Rattle.apdu.specs.Words.{path_is_in};
ghost use Rattle.card_model.specs.Card as card;
ghost use Rattle.script_generator.specs.Working as spec;
ghost use Rattle.script_generator.specs.Walked.{paths_left, is_left};

use arrayvec::ArrayVec;
use fcp::ArrRef;
use script_reader::{CardSpec, ChangeSpec, FileSpec};

const MASTER_FILE: u16 = 0x3F00;

const EF_ARR: u16 = 0x2F06;

const EF_ARR_BELOW: u16 = 0x6F06;

fn is_family_path(path: &[u16]) -> bool
    ensures { result ≡ path_is_in spec.family_paths path.now }
{
    match path {
        [0x2FE2] | [0x2F00] => true,
        [0x7FFF, 0x6F07] | [0x7FFF, 0x6FAD] | [0x7FFF, 0x6F46] => true,
        [0x7FFF, 0x6F40] | [0x7FFF, 0x6F4E] => true,
        [0x7F10, 0x6F3A] | [0x7F10, 0x6F4A] => true,
        [0x7FFF, 0x6F3B] | [0x7FFF, 0x6F4B] => true,
        _ => false,
    }
}

fn directory_of(path: &[u16]) -> &[u16]
    ensures { result.now ≡ card.directory_of path.now }
{
    &path[..path.len().saturating_sub(1)]
}

fn last_id(path: &[u16]) -> u16
    ensures { result ≡ card.last_id path.now }
{
    match path.last() {
        Some(id) => *id,
        None => MASTER_FILE,
    }
}

pub(crate) fn is_rule_path(path: &[u16]) -> bool
    ensures { result ≡ spec.is_rule_path path.now }
{
    let id = last_id(path);
    id == EF_ARR || id == EF_ARR_BELOW
}

/// Where the EF_ARR of a reference stands.
pub(crate) fn rule_file_path(path: &[u16], arr: ArrRef) -> ArrayVec<u16, 3>
    requires some { 1 ≤ length path.now }
    requires few { length path.now ≤ 3 }
    ensures { result.items ≡ card.rule_file_path path.now arr }
{
    let mut ids = ArrayVec::new();
    if arr.file_id == EF_ARR {
        ids.push(EF_ARR);
    } else {
        let _ = ids.try_extend_from_slice(directory_of(path));
        ids.push(arr.file_id);
    }
    ids
}

fn is_own(path: &[u16], file: &FileSpec) -> bool
    ensures { result ≡ path_is_in (spec.own_path file.now.path) path.now }
{
    is_rule_path(file.path.ids()) && path == file.path.ids()
}

fn is_named(path: &[u16], file: &FileSpec) -> bool
    ensures { result ≡ path_is_in (spec.named_path file.now.path file.now.arr) path.now }
{
    match file.arr {
        Some(arr) => path == rule_file_path(file.path.ids(), arr).as_slice(),
        None => false,
    }
}

#[tactic(auto, using(crate::proofs::Appended::in_file))]
fn is_brought(path: &[u16], files: &[FileSpec]) -> bool
    ensures { result ≡ path_is_in (spec.rule_paths files.now) path.now }
{
    let [file, behind @ ..] = files else {
        return false;
    };
    is_own(path, file) || is_named(path, file) || is_brought(path, behind)
}

/// Whether the path comes while these changes are left.
#[tactic(auto, using(crate::proofs::Appended::left_of_none, crate::proofs::Appended::left_of_change))]
fn is_left_of_changes(path: &[u16], changes: &[ChangeSpec]) -> bool
    ensures { result ≡ is_left [] [] changes.now path.now }
{
    let [change, behind @ ..] = changes else {
        return is_family_path(path);
    };
    is_brought(path, change.files.as_slice()) || is_left_of_changes(path, behind)
}

/// Whether the path comes while these cards and changes are left.
#[tactic(auto, using(crate::proofs::Appended::left_of_card))]
fn is_left_of_cards(path: &[u16], cards: &[CardSpec], changes: &[ChangeSpec]) -> bool
    ensures { result ≡ is_left [] cards.now changes.now path.now }
{
    let [card, behind @ ..] = cards else {
        return is_left_of_changes(path, changes);
    };
    is_brought(path, card.files.as_slice()) || is_left_of_cards(path, behind, changes)
}

/// Whether the path comes while these files, cards and changes are left.
#[tactic(auto, using(crate::proofs::Appended::left_of_files))]
pub(crate) fn is_left(
    path: &[u16],
    files: &[FileSpec],
    cards: &[CardSpec],
    changes: &[ChangeSpec],
) -> bool
    ensures { result ≡ is_left files.now cards.now changes.now path.now }
{
    is_brought(path, files) || is_left_of_cards(path, cards, changes)
}

/// Whether the path of a file comes again, as that of the EF_ARR that it names or behind it.
#[tactic(auto, using(crate::proofs::Appended::in_appended), unfolding(crate::specs::Walked::is_left))]
pub(crate) fn comes_again(
    file: &FileSpec,
    files: &[FileSpec],
    cards: &[CardSpec],
    changes: &[ChangeSpec],
) -> bool
    ensures { result ≡ path_is_in
        (spec.named_path file.now.path file.now.arr
        ++ paths_left files.now cards.now changes.now) file.now.path }
{
    let path = file.path.ids();
    is_named(path, file) || is_left(path, files, cards, changes)
}
