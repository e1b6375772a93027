// How many commands read every file that a run may read, each path once.
ghost use Rattle.std.specs.Prelude.{◌≡◌, ◌<◌, ◌+◌, ◌^◌, [], ◌∷◌};
ghost use Rattle.script_generator.specs.Working as spec;
ghost use Rattle.script_generator.specs.Walked.{reading_left, reading_named};

use crate::reads::most_reads;
use crate::rule_paths::{comes_again, is_left, is_rule_path, rule_file_path};
use script_reader::{CardSpec, ChangeSpec, FileSpec, Script};

/// What the EF_ARR that a file names adds, where it does not come again.
#[tactic(auto, using(crate::proofs::Left::none_named, crate::proofs::Left::named_again, crate::proofs::Left::named_once))]
fn named_sum(
    script: &Script,
    file: &FileSpec,
    files: &[FileSpec],
    cards: &[CardSpec],
    changes: &[ChangeSpec],
) -> u64
    requires { reading_named script.now file.now files.now cards.now changes.now < 2 ^ 64 }
    ensures { result + reading_left script.now files.now cards.now changes.now
        ≡ reading_named script.now file.now files.now cards.now changes.now }
{
    let Some(arr) = file.arr else {
        return 0;
    };
    let path = rule_file_path(file.path.ids(), arr);
    if is_left(path.as_slice(), files, cards, changes) {
        0
    } else {
        1 + most_reads(path.as_slice(), script) as u64
    }
}

/// What a file adds where it is an EF_ARR that does not come again.
#[tactic(auto, using(crate::proofs::Left::not_own, crate::proofs::Left::own_again, crate::proofs::Left::own_once))]
fn own_sum(
    script: &Script,
    file: &FileSpec,
    files: &[FileSpec],
    cards: &[CardSpec],
    changes: &[ChangeSpec],
) -> u64
    requires { reading_left script.now (file.now ∷ files.now) cards.now changes.now < 2 ^ 64 }
    ensures { result + reading_named script.now file.now files.now cards.now changes.now
        ≡ reading_left script.now (file.now ∷ files.now) cards.now changes.now }
{
    let path = file.path.ids();
    if !is_rule_path(path) {
        return 0;
    }
    if comes_again(file, files, cards, changes) {
        0
    } else {
        1 + most_reads(path, script) as u64
    }
}

/// What some files add, before these cards and changes.
fn files_sum(script: &Script, files: &[FileSpec], cards: &[CardSpec], changes: &[ChangeSpec]) -> u64
    requires { reading_left script.now files.now cards.now changes.now < 2 ^ 64 }
    ensures { result + reading_left script.now [] cards.now changes.now
        ≡ reading_left script.now files.now cards.now changes.now }
{
    let [file, behind @ ..] = files else {
        return 0;
    };
    own_sum(script, file, behind, cards, changes)
        + named_sum(script, file, behind, cards, changes)
        + files_sum(script, behind, cards, changes)
}

/// What some cards add, before these changes.
#[tactic(auto, using(crate::proofs::Left::card_more))]
fn cards_sum(script: &Script, cards: &[CardSpec], changes: &[ChangeSpec]) -> u64
    requires { reading_left script.now [] cards.now changes.now < 2 ^ 64 }
    ensures { result + reading_left script.now [] [] changes.now
        ≡ reading_left script.now [] cards.now changes.now }
{
    let [card, behind @ ..] = cards else {
        return 0;
    };
    files_sum(script, card.files.as_slice(), behind, changes) + cards_sum(script, behind, changes)
}

/// What some changes add, before the files of the families.
#[tactic(auto, using(crate::proofs::Left::change_more))]
fn changes_sum(script: &Script, changes: &[ChangeSpec]) -> u64
    requires { reading_left script.now [] [] changes.now < 2 ^ 64 }
    ensures { result + reading_left script.now [] [] []
        ≡ reading_left script.now [] [] changes.now }
{
    let [change, behind @ ..] = changes else {
        return 0;
    };
    files_sum(script, change.files.as_slice(), &[], behind) + changes_sum(script, behind)
}

/// What the files of the families add.
#[tactic(auto, unfolding(crate::specs::Walked::reading_left))]
fn families_sum(script: &Script) -> u64
    requires { reading_left script.now [] [] [] < 2 ^ 64 }
    ensures { result ≡ reading_left script.now [] [] [] }
{
    let records = 6
        + most_reads(&[0x2FE2], script) as u64
        + most_reads(&[0x7FFF, 0x6F07], script) as u64
        + most_reads(&[0x7FFF, 0x6FAD], script) as u64
        + most_reads(&[0x7FFF, 0x6F46], script) as u64
        + most_reads(&[0x7FFF, 0x6F40], script) as u64
        + most_reads(&[0x7FFF, 0x6F4E], script) as u64;
    let others = 5
        + most_reads(&[0x2F00], script) as u64
        + most_reads(&[0x7F10, 0x6F3A], script) as u64
        + most_reads(&[0x7F10, 0x6F4A], script) as u64
        + most_reads(&[0x7FFF, 0x6F3B], script) as u64
        + most_reads(&[0x7FFF, 0x6F4B], script) as u64;
    records + others
}

/// The commands that read everything once, the access rules too.
#[tactic(auto, using(crate::proofs::Left::whole_left))]
pub(crate) fn whole_reading(script: &Script) -> u64
    requires { spec.whole_reading script.now < 2 ^ 64 }
    ensures { result ≡ spec.whole_reading script.now }
{
    let cards = script.cards.as_slice();
    let changes = script.changes.as_slice();
    cards_sum(script, cards, changes) + changes_sum(script, changes) + families_sum(script)
}
