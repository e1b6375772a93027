// What the current files of each family are decoded to behind a command that may have written them.
ghost use Rattle.std.specs.Prelude.{◌≡◌, ◌<◌, ◌≤◌, Some, true, false, IfSome, length};
ghost use Rattle.std.specs.Option.{option_copied};
ghost use Rattle.epoch_cache.specs.Cache.{is_row_update, view_of_files};
ghost use Rattle.families.specs.Contents as families;
ghost use Rattle.families.specs.Families.{family_paths as paths_of};
ghost use Rattle.families.specs.Patches.{WasContent};
ghost use Rattle.content_tracker.specs.Contents as spec;

use crate::Contents;
use crate::contents::{FIXED, PHONEBOOK, RECORDS};
use apdu::{Command, Path, Response};
use editor::{family_paths, has_path};
use epoch_cache::{CachedFiles, all_current, is_update};
use families::{Families, Standard, StandardContent};
use family_files::CurrentFiles;
use std::alloc::Global;

/// A row that was written, counted from 1.
#[derive(Drop)]
pub struct WrittenRow {
    pub path: Path,
    pub row: u8,
}

const UPDATE_RECORD: u8 = 0xDC;

const ABSOLUTE: u8 = 0x04;

fn is_row_update(command: &Command) -> bool
    ensures { result ≡ is_row_update command.now }
{
    command.class == 0 && command.ins == UPDATE_RECORD && command.p2 == ABSOLUTE
}

/// Whether the command may move or write files.
fn may_write(command: &Command) -> bool
    ensures { result ≡ spec.may_write command.now }
{
    matches!(command.ins, 0xD6 | 0xDC) || command.ins == 0x12
}

/// The row of the selected file that an UPDATE wrote.
pub fn row_written(
    selected: Option<&Path>,
    command: &Command,
    response: &Response,
) -> Option<WrittenRow>
    ensures { result
        ≡ spec.row_written (option_copied selected.entry) command.now response.now }
{
    match selected {
        None => None,
        Some(path) => {
            if is_update(command, response) && is_row_update(command) {
                Some(WrittenRow {
                    path: path.copy(),
                    row: command.p1,
                })
            } else {
                None
            }
        }
    }
}

// ---- one family

/// The content with one row more decoded anew; none where memory runs out.
fn patched(
    alloc: Global,
    family: u8,
    number: u8,
    row: u8,
    files: &CachedFiles,
    content: StandardContent,
) -> Option<StandardContent>
    requires known { family < families.family_count }
    requires editable { families.is_editable family ≡ true }
    requires number { number < length (paths_of family) }
    requires first { 1 ≤ row }
    requires before { WasContent (families.decoded family) (paths_of family) number row content
        (view_of_files files.now) }
    ensures { IfSome result (λ c. c ≡ families.decoded family (view_of_files files.now)) }
{
    let mut content = content;
    let view = CurrentFiles { files };
    match Standard.patch(alloc, family, &mut content, &view, number, row) {
        Ok(()) => Some(content),
        Err(_) => None,
    }
}

/// The number of the file of a path, which is one of two.
fn number_of(path: &Path, paths: &[Path]) -> u8
    ensures { result ≡ spec.number_of path.now paths.now }
{
    match paths {
        [first, ..] if path.equals(first) => 0,
        _ => 1,
    }
}

/// The content of a family all of whose files are current, behind a row that was written.
fn behind_row(
    alloc: Global,
    family: u8,
    row: &WrittenRow,
    files: &CachedFiles,
    content: StandardContent,
) -> Option<StandardContent>
    requires known { family < families.family_count }
    requires before { spec.WasBefore family (Some row.now) content files.now }
    ensures { spec.IsOf family files.now result }
{
    if !has_path(family, &row.path) {
        Some(content)
    } else if Standard.editable(family) && row.row != 0 {
        let number = number_of(&row.path, family_paths(family).as_slice());
        patched(alloc, family, number, row.row, files, content)
    } else {
        None
    }
}

fn behind_some(
    alloc: Global,
    family: u8,
    row: Option<&WrittenRow>,
    files: &CachedFiles,
    content: StandardContent,
) -> Option<StandardContent>
    requires known { family < families.family_count }
    requires before { spec.WasBefore family (option_copied row) content files.now }
    ensures { spec.IsOf family files.now result }
{
    match row {
        None => Some(content),
        Some(row) => behind_row(alloc, family, row, files, content),
    }
}

/// The content of a family behind a command that may have written its files.
fn behind(
    alloc: Global,
    family: u8,
    row: Option<&WrittenRow>,
    files: &CachedFiles,
    kept: Option<StandardContent>,
) -> Option<StandardContent>
    requires known { family < families.family_count }
    requires before { spec.Follows family (option_copied row) kept files.now }
    ensures { spec.IsOf family files.now result }
{
    let content = kept?;
    if all_current(files, family_paths(family).as_slice()) {
        behind_some(alloc, family, row, files, content)
    } else {
        None
    }
}

impl Contents {
    fn follow_row(&mut self, alloc: Global, row: Option<&WrittenRow>, files: &CachedFiles)
        requires { spec.AllFollow (option_copied row) self.old files.now }
        ensures { spec.AreOf files.now self.new }
    {
        self.records = behind(alloc, RECORDS, row, files, self.records.take());
        self.phonebook = behind(alloc, PHONEBOOK, row, files, self.phonebook.take());
        self.fixed = behind(alloc, FIXED, row, files, self.fixed.take());
    }

    /// Makes what is kept of each family that of the files behind a command, which may have written a row.
    pub fn follow_command(
        &mut self,
        alloc: Global,
        command: &Command,
        row: Option<&WrittenRow>,
        files: &CachedFiles,
    )
        requires written { spec.may_write command.now ≡ true
            → spec.AllFollow (option_copied row) self.old files.now }
        requires unwritten { spec.may_write command.now ≡ false → spec.AreOf files.now self.old }
        ensures { spec.AreOf files.now self.new }
    {
        if may_write(command) {
            self.follow_row(alloc, row, files);
        }
    }
}
