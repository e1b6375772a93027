// How many READs a path may need.
ghost use Rattle.std.specs.Prelude.{◌≡◌, ◌<◌, ◌≤◌, ◌+◌, length};
ghost use Rattle.script_generator.specs.Working as spec;

use script_reader::{CardSpec, ChangeSpec, FileSpec, KindSpec, Script};

/// The most bytes that one READ gives.
const PIECE: usize = 255;

fn reads_of(kind: &KindSpec) -> usize
    ensures { result ≡ spec.reads_of kind.now }
{
    match kind {
        KindSpec::Transparent { bytes } => (bytes.as_slice().len() + (PIECE - 1)) / PIECE,
        KindSpec::Linear { rows, .. } => rows.len(),
    }
}

fn reads_at(path: &[u16], file: &FileSpec) -> usize
    ensures { result ≡ spec.reads_at path.now file.now }
{
    if path == file.path.ids() {
        reads_of(&file.kind)
    } else {
        0
    }
}

fn most_of_files(path: &[u16], files: &[FileSpec]) -> usize
    ensures { result ≡ spec.most_reads path.now files.now }
{
    let [file, behind @ ..] = files else {
        return 0;
    };
    reads_at(path, file).max(most_of_files(path, behind))
}

#[tactic(auto, using(crate::proofs::Appended::most_of_card))]
fn most_of_cards(path: &[u16], cards: &[CardSpec]) -> usize
    ensures { result ≡ spec.most_reads path.now (spec.card_files cards.now) }
{
    let [card, behind @ ..] = cards else {
        return 0;
    };
    most_of_files(path, card.files.as_slice()).max(most_of_cards(path, behind))
}

#[tactic(auto, using(crate::proofs::Appended::most_of_change))]
fn most_of_changes(path: &[u16], changes: &[ChangeSpec]) -> usize
    ensures { result ≡ spec.most_reads path.now (spec.change_files changes.now) }
{
    let [change, behind @ ..] = changes else {
        return 0;
    };
    most_of_files(path, change.files.as_slice()).max(most_of_changes(path, behind))
}

/// The most READs that one of the script's files asks for at this path.
#[tactic(auto, using(crate::proofs::Appended::most_appended))]
pub(crate) fn most_reads(path: &[u16], script: &Script) -> usize
    ensures { result ≡ spec.most_reads path.now (spec.all_files script.now) }
{
    most_of_cards(path, script.cards.as_slice()).max(most_of_changes(
        path,
        script.changes.as_slice(),
    ))
}
