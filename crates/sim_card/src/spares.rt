// Spare files beside a card: what a FETCH gives it is written into files that were made before, so that it takes no memory.
ghost use Rattle.std.specs.Prelude.{◌≡◌, ◌≤◌, ◌<◌, ◌+◌, ◌∷◌, ◌++◌, [], true, None, Some, length, map, slice_get, slice_set, option_map, All, IfOk, IfSome};
ghost use Rattle.std.specs.List.{list_any, position};
ghost use Rattle.apdu.specs.Words.{same_number as is_same_number};
ghost use Rattle.card_model.specs.declared.world.FileState.{FileState};
ghost use Rattle.card_model.specs.Card.{has_path};
ghost use Rattle.card_model.specs.Limits.{all_files};
ghost use Rattle.card_model.specs.Room.{most_files};
ghost use Rattle.card_model.specs.Toolkit.{with_file, with_files};
ghost use Rattle.sim_card.specs.Spares as stock;
ghost use Rattle.sim_card.specs.Spares.{IsReadyFor, StaysReady};

use apdu::{Memory, Sequence};
use card_model::{CardFiles, CardState, Change, Changes, FileList, FileState};
use card_rows::place_in;
use fcp::FileKind;
use std::alloc::Global;
use std::mem::swap;

/// The spare files of each card, card by card.
pub type Spares = Sequence<FileList>;

fn same_number(a: Option<usize>, b: Option<usize>) -> bool
    ensures { result ≡ is_same_number a b }
{
    match (a, b) {
        (None, None) => true,
        (Some(a), Some(b)) => a == b,
        _ => false,
    }
}

fn same_kind(a: FileKind, b: FileKind) -> bool
    ensures { result ≡ stock.same_kind a b }
{
    match a {
        FileKind::Transparent => b == FileKind::Transparent,
        FileKind::Linear => b == FileKind::Linear,
        FileKind::Directory => b == FileKind::Directory,
    }
}

fn template_len(file: &FileState) -> Option<usize>
    ensures { result ≡ option_map length file.now.fcp }
{
    match &file.fcp {
        Some(bytes) => Some(bytes.as_slice().len()),
        None => None,
    }
}

// Whether the new file can be written over this one.
fn fits(new: &FileState, file: &FileState) -> bool
    ensures { result ≡ stock.fits new.now file.now }
{
    file.path.equals(&new.path)
        && same_kind(new.rows.kind(), file.rows.kind())
        && new.rows.width() == file.rows.width()
        && new.rows.count() == file.rows.count()
        && same_number(template_len(new), template_len(file))
}

// Writes over a file, which takes no memory.
#[tactic(auto, using(crate::proofs::Stock::same_parts))]
fn write_file(file: &mut FileState, new: &FileState)
    requires { stock.fits new.now file.old ≡ true }
    ensures { file.new ≡ new.now }
{
    file.rows.copy_from(&new.rows);
    file.active = new.active;
    file.arr = new.arr;
    file.endless = new.endless;
    if let (Some(bytes), Some(from)) = (&mut file.fcp, &new.fcp) {
        bytes.copy_from_slice(from.as_slice());
    }
}

fn first_spare(spares: &FileList, new: &FileState) -> Option<usize>
    ensures value { result ≡ position (stock.fits new.now) spares.now }
    ensures within { IfSome result (λ place. place < length spares.now) }
{
    spares.as_slice().iter().position(|spare| fits(new, spare))
}

// Where the first spare of the new file's shape stands.
#[tactic(auto, using(crate::proofs::Stock::no_spare, crate::proofs::Stock::spare_fits))]
fn spare_place(spares: &FileList, new: &FileState) -> usize
    requires { list_any (stock.fits new.now) spares.now ≡ true }
    ensures within { result < length spares.now }
    ensures shape { IfSome (slice_get spares.now result)
        (λ spare. stock.fits new.now spare ≡ true) }
{
    match first_spare(spares, new) {
        Some(place) => place,
        None => unreachable!(),
    }
}

// The file at this place becomes one of the new file's shape: where it is none it changes places with a spare.
fn make_fit(files: &mut CardFiles, place: usize, spares: &mut FileList, new: &FileState)
    requires place { position (has_path new.now.path) files.old ≡ Some place }
    requires ready { IsReadyFor files.old spares.old new.now }
    ensures within { place < length files.new }
    ensures shape { IfSome (slice_get files.new place) (λ file. stock.fits new.now file ≡ true) }
    ensures others { IfSome (slice_get files.new place)
        (λ file. files.new ≡ slice_set files.old place file) }
    ensures count { length spares.new ≡ length spares.old }
    ensures ready { StaysReady files.old spares.old files.new spares.new }
{
    if !fits(new, &files.as_slice()[place]) {
        let spare = spare_place(spares, new);
        swap(files.at_mut(place), spares.at_mut(spare));
    }
}

// The new file replaces the one at this place, which has its path.
fn replace_file(files: &mut CardFiles, place: usize, spares: &mut FileList, new: &FileState)
    requires place { position (has_path new.now.path) files.old ≡ Some place }
    requires ready { IsReadyFor files.old spares.old new.now }
    ensures value { files.new ≡ slice_set files.old place new.now }
    ensures count { length spares.new ≡ length spares.old }
    ensures ready { StaysReady files.old spares.old files.new spares.new }
{
    make_fit(files, place, spares, new);
    write_file(files.at_mut(place), new);
}

// The new file goes last.
fn add_file(files: &mut CardFiles, spares: &mut FileList, new: &FileState)
    requires missing { position (has_path new.now.path) files.old ≡ None }
    requires ready { IsReadyFor files.old spares.old new.now }
    requires room { length files.old + length spares.old ≤ most_files }
    ensures value { files.new ≡ files.old ++ new.now ∷ [] }
    ensures count { length spares.new + 1 ≡ length spares.old }
    ensures ready { StaysReady files.old spares.old files.new spares.new }
{
    let spare = spare_place(spares, new);
    let mut file = spares.remove(spare);
    write_file(&mut file, new);
    let _ = files.push(file);
}

// The new file replaces the one of its path; a new path goes last.
fn put_file(files: &mut CardFiles, spares: &mut FileList, new: &FileState)
    requires ready { IsReadyFor files.old spares.old new.now }
    requires room { length files.old + length spares.old ≤ most_files }
    ensures value { files.new ≡ with_file files.old new.now }
    ensures room { length files.new + length spares.new ≡ length files.old + length spares.old }
    ensures ready { StaysReady files.old spares.old files.new spares.new }
{
    match place_in(new.path.ids(), files) {
        Some(place) => replace_file(files, place, spares, new),
        None => add_file(files, spares, new),
    }
}

/// The new files replace those of their paths, one after another, which takes no memory.
#[tactic(auto, using(crate::proofs::Put::all_ready))]
pub fn put_files(files: &mut CardFiles, spares: &mut FileList, new: &[FileState])
    requires ready { All (IsReadyFor files.old spares.old) new.now }
    requires room { length files.old + length spares.old ≤ most_files }
    ensures value { files.new ≡ with_files files.old new.now }
    ensures room { length files.new + length spares.new ≡ length files.old + length spares.old }
    ensures ready { StaysReady files.old spares.old files.new spares.new }
{
    let [file, rest @ ..] = new else {
        return;
    };
    put_file(files, spares, file);
    put_files(files, spares, rest);
}

// A spare for each file of each change.
#[tactic(auto, using(crate::proofs::Copies::copyable, crate::proofs::Copies::copied))]
fn spare_files(alloc: Global, changes: &[Change]) -> Result<FileList, Memory>
    ensures { IfOk result (λ files. files ≡ all_files changes.now) }
{
    let mut files = Sequence::new(alloc);
    for change in changes {
        files.extend_made(alloc, change.files.as_slice())?;
    }
    Ok(files)
}

/// The spares of cards before any FETCH.
pub fn spares_of(alloc: Global, cards: &[CardState], changes: &Changes) -> Result<Spares, Memory>
    ensures { IfOk result (λ spares. spares ≡ map (λ _. all_files changes.now) cards.now) }
{
    let mut spares = Sequence::new(alloc);
    for _ in cards {
        spares.push(spare_files(alloc, changes.as_slice())?)?;
    }
    Ok(spares)
}
