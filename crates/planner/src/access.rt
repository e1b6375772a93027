// What updating a current file asks for, ETSI TS 102 221 clause 9.
ghost use Rattle.std.specs.Prelude.{◌≡◌, ◌≤◌, ◌<◌, Some, length};
ghost use Rattle.std.specs.Option.{option_copied};
ghost use Rattle.card_model.specs.Card as card;
ghost use Rattle.editor.specs.Editing as edits;
ghost use Rattle.epoch_cache.specs.Cache as cache;
ghost use Rattle.families.specs.Families as families;

use apdu::Path;
use arrayvec::ArrayVec;
use editor::family_paths;
use epoch_cache::{CachedFile, CachedFiles};
use fcp::{ArrRef, Need, Rule, read_rule};

const EF_ARR: u16 = 0x2F06;

fn is_of(ids: &[u16], file: &CachedFile) -> bool
    ensures { result ≡ cache.is_of ids.now file.now }
{
    file.path.ids() == ids
}

// The file of these ids, where it is current.
fn taken_at<'a>(ids: &[u16], files: &'a CachedFiles) -> Option<&'a CachedFile>
    ensures { option_copied result ≡ cache.taken ids.now files.now }
{
    files.as_slice().iter().find(|file| is_of(ids, file))
}

fn directory_of(path: &[u16]) -> &[u16]
    ensures { result.now ≡ card.directory_of path.now }
{
    let len = path.len().saturating_sub(1);
    &path[..len]
}

// Where the EF_ARR of a reference stands: under the master file for its id there, else beside the file.
fn rule_file_ids(path: &[u16], arr: ArrRef) -> ArrayVec<u16, 3>
    requires { length path.now ≤ 3 }
    ensures { result.items ≡ card.rule_file_path path.now arr }
{
    let mut ids = ArrayVec::new();
    if arr.file_id == EF_ARR {
        ids.push(EF_ARR);
    } else {
        let _ = ids.try_extend_from_slice(directory_of(path));
        ids.push(arr.file_id);
    }
    ids
}

#[tactic(auto, using(crate::proofs::Paths::rule_path_is))]
fn rule_file_of(path: &[u16], arr: ArrRef) -> Option<Path>
    requires { length path.now ≤ 3 }
    ensures { result ≡ Some (card.rule_file_path path.now arr) }
{
    Path::from_ids(rule_file_ids(path, arr).as_slice())
}

/// The EF_ARR path that a current file names.
pub(crate) fn rule_path(files: &CachedFiles, path: &Path) -> Option<Path>
    ensures { result ≡ edits.rule_path files.now path.now }
{
    match taken_at(path.ids(), files)?.arr {
        None => None,
        Some(arr) => rule_file_of(path.ids(), arr),
    }
}

// The row of a number from 1, of the file of these ids.
fn row_from_one<'a>(files: &'a CachedFiles, ids: &[u16], number: u8) -> Option<&'a [u8]>
    ensures { option_copied result
        ≡ edits.row_from_one (cache.view_of_files files.now ids.now).rows number }
{
    if number == 0 {
        return None;
    }
    match taken_at(ids, files) {
        None => None,
        Some(file) => file.content.row(number as usize - 1),
    }
}

fn rule_of_record(found: Option<&[u8]>) -> Rule
    ensures { result ≡ card.rule_of_record (option_copied found.entry) }
{
    match found {
        Some(bytes) => read_rule(bytes),
        None => Rule {
            read: Need::Never,
            update: Need::Never,
        },
    }
}

fn need_by_rule(files: &CachedFiles, path: &[u16], arr: Option<ArrRef>) -> Need
    requires { length path.now ≤ 3 }
    ensures { result ≡ edits.need_by_rule files.now path.now arr }
{
    match arr {
        None => Need::Always,
        Some(arr) => {
            let ids = rule_file_ids(path, arr);
            rule_of_record(row_from_one(files, ids.as_slice(), arr.row)).update
        }
    }
}

fn update_need(files: &CachedFiles, path: &[u16]) -> Need
    requires { length path.now ≤ 3 }
    ensures { result ≡ edits.update_need files.now path.now }
{
    match taken_at(path, files) {
        None => Need::Always,
        Some(file) => need_by_rule(files, path, file.arr),
    }
}

/// What updating a file of a family asks for.
pub(crate) fn family_need(files: &CachedFiles, family: u8, file: u8) -> Need
    ensures { result ≡ edits.update_need files.now (families.family_path family file) }
{
    let paths = family_paths(family);
    match paths.as_slice().get(file as usize) {
        None => update_need(files, &[]),
        Some(path) => update_need(files, path.ids()),
    }
}
