// What READ and UPDATE ask of the current file, ETSI TS 102 221 clauses 11.1.3 to 11.1.6.
ghost use Rattle.std.specs.Prelude.{◌≡◌, IfNone, IsTrue};
ghost use Rattle.card_model.specs.Parts as table;

use crate::access::is_met;
use apdu::Command;
use card_model::{CardState, FileState, Part};
use fcp::{FileKind, Need};

// Whether the files of this kind have such parts.
fn is_part_of(kind: FileKind, part: Part) -> bool
    ensures { result ≡ table.is_part_of kind part }
{
    match part {
        Part::Binary => kind == FileKind::Transparent,
        Part::Record => kind == FileKind::Linear,
    }
}

// Whether P1 and P2 name such a part.
fn is_named(command: &Command, part: Part) -> bool
    ensures { result ≡ table.is_named command.now part }
{
    match part {
        Part::Binary => command.p1 < 0x80,
        Part::Record => command.p2 == 0x04 && 0x00 < command.p1,
    }
}

/// The word that refuses such a part of the file.
pub fn part_refusal(part: Part, file: &FileState, command: &Command) -> Option<u16>
    ensures value { result ≡ table.part_refusal part file.now command.now }
    ensures kind { IfNone result (IsTrue (table.is_part_of file.now.rows.kind part)) }
    ensures named { IfNone result (IsTrue (table.is_named command.now part)) }
{
    if !is_part_of(file.rows.kind(), part) {
        return Some(0x6981);
    }
    if !is_named(command, part) {
        return Some(0x6A86);
    }
    None
}

/// The word that refuses this access to the file.
pub fn access_refusal(card: &CardState, file: &FileState, need: Need) -> Option<u16>
    ensures { result ≡ table.access_refusal card.now file.now need }
{
    if !file.active {
        return Some(0x6985);
    }
    if !is_met(card, need) {
        return Some(0x6982);
    }
    None
}
