// READ BINARY and READ RECORD, ETSI TS 102 221 clauses 11.1.3 and 11.1.5.
ghost use Rattle.std.specs.Prelude.{◌≡◌, ◌≤◌, length, All, IfNone, IfSome, IsTrue};
ghost use Rattle.std.specs.Option.{option_copied};
ghost use Rattle.card_model.specs.Parts.{is_part_of};
ghost use Rattle.card_model.specs.Read as table;
ghost use Rattle.card_model.specs.Limits.{IsFittingChange};

use crate::access::rule_of;
use crate::channel::current_file;
use crate::command::{le_of, parameters, wanted_le};
use crate::file::{bytes_of, record_at};
use crate::part::{access_refusal, part_refusal};
use crate::response::{answer, other_length, refused, success_word};
use apdu::{Command, Response};
use card_model::{CardState, Changes, ChannelState, FileState, Part};

// From the offset on, `le` bytes.
fn read_bytes(
    changes: &Changes,
    card: &CardState,
    file: &FileState,
    at: usize,
    le: usize,
) -> Response
    requires changes { All IsFittingChange changes.now }
    requires short { le ≤ 256 }
    ensures { (card.now, result) ≡ table.read_bytes changes.now card.now file.now at le }
{
    let bytes = bytes_of(file);
    if bytes.len() <= at {
        return refused(0x6B00);
    }
    if file.endless {
        return refused(0x6C01);
    }
    let rest = bytes.len() - at;
    if rest < le {
        return other_length(rest);
    }
    answer(&bytes[at..at + le], success_word(changes, card))
}

// The record, where there is one and Le is its width.
fn read_record(
    changes: &Changes,
    card: &CardState,
    file: &FileState,
    le: u16,
    found: Option<&[u8]>,
) -> Response
    requires changes { All IsFittingChange changes.now }
    requires short { IfSome found (λ bytes. length bytes.now ≤ 255) }
    ensures { (card.now, result)
        ≡ table.read_record changes.now card.now file.now le (option_copied found.entry) }
{
    let Some(bytes) = found else {
        return refused(0x6A83);
    };
    if file.endless || le != file.rows.width() {
        return other_length(file.rows.width() as usize);
    }
    answer(bytes, success_word(changes, card))
}

fn read_part(
    changes: &Changes,
    card: &CardState,
    part: Part,
    file: &FileState,
    command: &Command,
) -> Response
    requires changes { All IsFittingChange changes.now }
    requires kind { IsTrue (is_part_of file.now.rows.kind part) }
    ensures { (card.now, result) ≡ table.read_part changes.now card.now part file.now command.now }
{
    let le = le_of(command);
    match part {
        Part::Binary => read_bytes(changes, card, file, parameters(command), le as usize),
        Part::Record => read_record(changes, card, file, le, record_at(command.p1, file)),
    }
}

// The word of the first check that fails.
fn read_refusal(card: &CardState, part: Part, file: &FileState, command: &Command) -> Option<u16>
    ensures value { result ≡ table.read_refusal card.now part file.now command.now }
    ensures kind { IfNone result (IsTrue (is_part_of file.now.rows.kind part)) }
{
    if let Some(word) = part_refusal(part, file, command) {
        return Some(word);
    }
    if wanted_le(command).is_none() {
        return Some(0x6700);
    }
    access_refusal(card, file, rule_of(card, file).read)
}

// READ of the current file.
fn read_current(
    changes: &Changes,
    card: &CardState,
    channel: &ChannelState,
    part: Part,
    command: &Command,
) -> Response
    requires { All IsFittingChange changes.now }
    ensures { (card.now, result)
        ≡ table.read_current changes.now card.now channel.now part command.now }
{
    let Some(file) = current_file(card, channel) else {
        return refused(0x6986);
    };
    if let Some(word) = read_refusal(card, part, file, command) {
        return refused(word);
    }
    read_part(changes, card, part, file, command)
}

/// READ BINARY on a channel.
#[tactic(auto, unfolding(card_model::specs::Read::read_binary_row))]
pub fn read_binary_row(
    changes: &Changes,
    card: &CardState,
    channel: &ChannelState,
    command: &Command,
) -> Response
    requires { All IsFittingChange changes.now }
    ensures { (card.now, result)
        ≡ table.read_binary_row changes.now card.now channel.now command.now }
{
    read_current(changes, card, channel, Part::Binary, command)
}

/// READ RECORD on a channel.
#[tactic(auto, unfolding(card_model::specs::Read::read_record_row))]
pub fn read_record_row(
    changes: &Changes,
    card: &CardState,
    channel: &ChannelState,
    command: &Command,
) -> Response
    requires { All IsFittingChange changes.now }
    ensures { (card.now, result)
        ≡ table.read_record_row changes.now card.now channel.now command.now }
{
    read_current(changes, card, channel, Part::Record, command)
}
