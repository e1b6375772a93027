// The files whose rows are current, and how they change.
ghost use Rattle.std.specs.Prelude.{◌≡◌, ◌≤◌, OnOk, OnErr, map, vec_len};
ghost use Rattle.std.specs.Vec.{vec_capacity};
ghost use Rattle.std.specs.Option.{option_copied};
ghost use Rattle.epoch_cache.specs.Cache as spec;

use crate::lists::{Change, change_each};
use crate::{CachedFile, CachedFiles, Touch, Written};
use apdu::{Command, Memory, Path, Sequence};
use fcp::Rows;
use std::alloc::Global;
use std::mem;

fn is_of(path: &Path, file: &CachedFile) -> bool
    ensures { result ≡ spec.is_of path.now file.now }
{
    file.path.equals(path)
}

/// The file of a path, where it is current.
pub fn taken<'a>(path: &Path, files: &'a CachedFiles) -> Option<&'a CachedFile>
    ensures { option_copied result ≡ spec.taken path.now files.now }
{
    files.as_slice().iter().find(|file| is_of(path, file))
}

pub fn is_current(files: &CachedFiles, path: &Path) -> bool
    ensures { result ≡ spec.is_current files.now path.now }
{
    taken(path, files).is_some()
}

pub fn all_current(files: &CachedFiles, paths: &[Path]) -> bool
    ensures { result ≡ spec.all_current files.now paths.now }
{
    paths.iter().all(|path| is_current(files, path))
}

/// The first path of the list that is not current.
pub fn first_missing<'a>(files: &CachedFiles, paths: &'a [Path]) -> Option<&'a Path>
    ensures { option_copied result ≡ spec.first_missing files.now paths.now }
{
    paths.iter().find(|path| !is_current(files, path))
}

fn keep_unmoved(touch: &Touch, files: &mut Vec<CachedFile>)
    ensures { files.new.items ≡ spec.forgotten touch.now files.old.items }
{
    files.retain(|file| !touch.moves(&file.path));
}

fn keep_others(path: &Path, files: &mut Vec<CachedFile>)
    ensures items { files.new.items ≡ spec.without_file path.now files.old.items }
    ensures bound { vec_len files.new ≤ vec_len files.old }
    ensures room { vec_capacity files.new ≡ vec_capacity files.old }
{
    files.retain(|other| !is_of(path, other));
}

/// Drops the files that moved, and takes no memory.
pub fn forget_moved(alloc: Global, touch: &Touch, files: &mut CachedFiles)
    ensures { files.new ≡ spec.forgotten touch.now files.old }
{
    let mut items = mem::replace(files, Sequence::new(alloc)).into_vec();
    keep_unmoved(touch, &mut items);
    *files = Sequence::from_vec(items);
}

/// Drops the file of a path, and takes no memory.
pub fn forget_file(alloc: Global, path: &Path, files: &mut CachedFiles)
    ensures { files.new ≡ spec.without_file path.now files.old }
{
    let mut items = mem::replace(files, Sequence::new(alloc)).into_vec();
    keep_others(path, &mut items);
    *files = Sequence::from_vec(items);
}

fn put_last(file: CachedFile, files: &mut Vec<CachedFile>) -> Result<(), Memory>
    ensures ok { OnOk result (files.new.items ≡ spec.with_file file files.old.items) }
    ensures err { OnErr result (files.new.items ≡ files.old.items) }
{
    files.reserve(1)?;
    keep_others(&file.path, files);
    let _ = files.push(file);
    Ok(())
}

/// Puts a file, in the place of the one of its path.
pub fn put_file(alloc: Global, file: CachedFile, files: &mut CachedFiles) -> Result<(), Memory>
    ensures ok { OnOk result (files.new ≡ spec.with_file file files.old) }
    ensures err { OnErr result (files.new ≡ files.old) }
{
    let mut items = mem::replace(files, Sequence::new(alloc)).into_vec();
    let put = put_last(file, &mut items);
    *files = Sequence::from_vec(items);
    put
}

/// Puts the file of a reading that was completed.
pub fn put_completed(
    alloc: Global,
    completed: Option<CachedFile>,
    files: &mut CachedFiles,
) -> Result<(), Memory>
    ensures ok { OnOk result (files.new ≡ spec.with_completed completed files.old) }
    ensures err { OnErr result (files.new ≡ files.old) }
{
    match completed {
        None => Ok(()),
        Some(file) => put_file(alloc, file, files),
    }
}

/// Whether the content has the row, counted from 1, and these bytes are as wide.
pub fn is_row_of(row: u8, bytes: &[u8], content: &Rows) -> bool
    ensures { result ≡ spec.is_row_of row bytes.now content.now }
{
    1 <= row && row as usize <= content.count() && bytes.len() == content.width() as usize
}

/// A row of the file of a path that was written over.
#[derive(Drop)]
struct Patch<'a> {
    path: &'a Path,
    row: u8,
    bytes: &'a [u8],
}

fn patch_one(path: &Path, row: u8, bytes: &[u8], file: &mut CachedFile)
    ensures { file.new ≡ spec.patched_file path.now row bytes.now file.old }
{
    if is_of(path, file) && is_row_of(row, bytes, &file.content) {
        file.content.set(row as usize - 1, bytes);
    }
}

impl Change<CachedFile> for Patch<'_> {
    ghost after = { λ p. spec.patched_file p.path.now p.row p.bytes.now };

    fn apply(&self, file: &mut CachedFile) {
        patch_one(self.path, self.row, self.bytes, file);
    }
}

/// Writes over a row, counted from 1, of the file of a path, where that has a row so wide. Takes no memory.
pub fn patch_file(alloc: Global, path: &Path, row: u8, bytes: &[u8], files: &mut CachedFiles)
    ensures { files.new ≡ map (spec.patched_file path.now row bytes.now) files.old }
{
    change_each(alloc, files, &Patch { path, row, bytes });
}

/// Changes the files as what was written into the selected file did.
pub fn write_files(
    alloc: Global,
    selected: Option<&Path>,
    command: &Command,
    files: &mut CachedFiles,
    written: Written,
)
    ensures { files.new
        ≡ spec.written_files (option_copied selected.entry) command.now files.old written }
{
    match written {
        Written::Nothing | Written::Raw => {}
        Written::Unknown => files.truncate(0),
        Written::Row => patch_selected(alloc, selected, command, files),
    }
}

fn patch_selected(
    alloc: Global,
    selected: Option<&Path>,
    command: &Command,
    files: &mut CachedFiles,
)
    ensures { files.new ≡ spec.patched (option_copied selected.entry) command.now files.old }
{
    if let Some(path) = selected {
        patch_file(alloc, path, command.p1, command.body.as_slice(), files);
    }
}

/// Changes the files as an exchange did. `completed` is the file of the reading that it completed.
pub fn exchange_files(
    alloc: Global,
    touch: &Touch,
    selected: Option<&Path>,
    command: &Command,
    completed: Option<CachedFile>,
    files: &mut CachedFiles,
) -> Result<(), Memory>
    ensures { OnOk result (files.new ≡ spec.files_exchanged touch.now (option_copied selected.entry)
        command.now completed files.old) }
{
    write_files(alloc, selected, command, files, touch.written);
    forget_moved(alloc, touch, files);
    put_completed(alloc, completed, files)
}
