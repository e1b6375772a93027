// UPDATE BINARY and UPDATE RECORD, ETSI TS 102 221 clauses 11.1.4 and 11.1.6.
ghost use Rattle.std.specs.Prelude.{◌≡◌, ◌≤◌, ◌<◌, ◌+◌, length, slice_get, All, IsTrue, IfSome, IfNone};
ghost use Rattle.apdu.specs.Words.{written_at};
ghost use Rattle.fcp.specs.Content.{first_row as row_of_bytes, is_transparent};
ghost use Rattle.card_model.specs.Parts as parts;
ghost use Rattle.card_model.specs.Update as table;
ghost use Rattle.card_rows.specs.Writes.{Takes, TakesBytes, TakesRecord, IsRefusal};
ghost use Rattle.card_model.specs.Limits.{HasFittingParameters, IsFittingCard, IsFittingChange};

use crate::access::rule_of;
use crate::channel::current_place;
use crate::command::parameters;
use crate::file::bytes_of;
use crate::part::{access_refusal, part_refusal};
use crate::response::{refused, success};
use apdu::{Command, Response};
use card_model::{CardState, Changes, ChannelState, FileState, Part};

// Writes over the bytes of a transparent file from an offset on.
fn write_bytes(file: &mut FileState, at: usize, body: &[u8])
    requires transparent { IsTrue (is_transparent file.old.rows.kind) }
    requires within { at + length body.now ≤ length (row_of_bytes file.old.rows.rows) }
    requires fits { HasFittingParameters file.old }
    ensures fits { HasFittingParameters file.new }
    ensures value { file.new ≡ table.with_record file.old 0 (written_at at body.now
        (row_of_bytes file.old.rows.rows)) }
{
    // the count's contract tells that the content has the form of its kind: one row, as wide as the file
    let _count = file.rows.count();
    file.rows.write_at(0, at, body);
}

// Writes over a record.
fn write_record(file: &mut FileState, index: usize, body: &[u8])
    requires within { index < length file.old.rows.rows }
    requires width { length body.now ≡ file.old.rows.width }
    requires fits { HasFittingParameters file.old }
    ensures fits { HasFittingParameters file.new }
    ensures value { file.new ≡ table.with_record file.old index body.now }
{
    file.rows.set(index, body);
}

// Writes the body over the part.
fn write_part(file: &mut FileState, part: Part, command: &Command)
    requires takes { Takes part file.old command.now }
    requires fits { HasFittingParameters file.old }
    ensures fits { HasFittingParameters file.new }
    ensures value { file.new ≡ table.with_part part file.old command.now }
{
    let body = command.body.as_slice();
    match part {
        Part::Binary => write_bytes(file, parameters(command), body),
        Part::Record => write_record(file, command.p1 as usize - 1, body),
    }
}

fn bytes_refusal(file: &FileState, command: &Command) -> Option<u16>
    requires kind { IsTrue (is_transparent file.now.rows.kind) }
    ensures value { result ≡ table.fit_refusal Part.Binary file.now command.now }
    ensures takes { IfNone result (TakesBytes file.now command.now) }
{
    let size = bytes_of(file).len();
    if size <= parameters(command) {
        return Some(0x6B00);
    }
    if size < parameters(command) + command.body.len() {
        return Some(0x6700);
    }
    None
}

fn record_refusal(file: &FileState, command: &Command) -> Option<u16>
    requires named { 0 < command.now.p1 }
    ensures value { result ≡ table.fit_refusal Part.Record file.now command.now }
    ensures takes { IfNone result (TakesRecord file.now command.now) }
{
    if file.rows.count() < command.p1 as usize {
        return Some(0x6A83);
    }
    if command.body.len() != file.rows.width() as usize {
        return Some(0x6700);
    }
    None
}

// The word that refuses a body for the part.
fn fit_refusal(part: Part, file: &FileState, command: &Command) -> Option<u16>
    requires kind { IsTrue (parts.is_part_of file.now.rows.kind part) }
    requires named { IsTrue (parts.is_named command.now part) }
    ensures value { result ≡ table.fit_refusal part file.now command.now }
    ensures takes { IfNone result (Takes part file.now command.now) }
{
    match part {
        Part::Binary => bytes_refusal(file, command),
        Part::Record => record_refusal(file, command),
    }
}

// The word of the first check that fails.
fn update_refusal(card: &CardState, part: Part, file: &FileState, command: &Command) -> Option<u16>
    ensures { IsRefusal card.now part command.now result file.now }
{
    if let Some(word) = part_refusal(part, file, command) {
        return Some(word);
    }
    if command.body.is_empty() {
        return Some(0x6700);
    }
    if let Some(word) = access_refusal(card, file, rule_of(card, file).update) {
        return Some(word);
    }
    fit_refusal(part, file, command)
}

fn refusal_at(card: &CardState, part: Part, place: usize, command: &Command) -> Option<u16>
    requires { place < length card.now.files }
    ensures { IfSome (slice_get card.now.files place) (IsRefusal card.now part command.now result) }
{
    update_refusal(card, part, &card.files.as_slice()[place], command)
}

fn update_found(
    changes: &Changes,
    card: &mut CardState,
    part: Part,
    place: usize,
    command: &Command,
) -> Response
    requires changes { All IsFittingChange changes.now }
    requires card { IsFittingCard card.old }
    requires place { place < length card.old.files }
    ensures fits { IsFittingCard card.new }
    ensures value { (card.new, result)
        ≡ table.update_found changes.now card.old part command.now place
        (slice_get card.old.files place) }
{
    if let Some(word) = refusal_at(card, part, place, command) {
        return refused(word);
    }
    write_part(card.files.at_mut(place), part, command);
    success(changes, card)
}

// UPDATE of the current file.
fn update_current(
    changes: &Changes,
    card: &mut CardState,
    channel: &ChannelState,
    part: Part,
    command: &Command,
) -> Response
    requires changes { All IsFittingChange changes.now }
    requires card { IsFittingCard card.old }
    ensures fits { IsFittingCard card.new }
    ensures value { (card.new, result)
        ≡ table.update_current changes.now card.old channel.now part command.now }
{
    let Some(place) = current_place(card, channel) else {
        return refused(0x6986);
    };
    update_found(changes, card, part, place, command)
}

/// UPDATE BINARY on a channel.
#[tactic(auto, unfolding(card_model::specs::Update::update_binary_row))]
pub fn update_binary_row(
    changes: &Changes,
    card: &mut CardState,
    channel: &ChannelState,
    command: &Command,
) -> Response
    requires changes { All IsFittingChange changes.now }
    requires card { IsFittingCard card.old }
    ensures fits { IsFittingCard card.new }
    ensures value { (card.new, result)
        ≡ table.update_binary_row changes.now card.old channel.now command.now }
{
    update_current(changes, card, channel, Part::Binary, command)
}

/// UPDATE RECORD on a channel.
#[tactic(auto, unfolding(card_model::specs::Update::update_record_row))]
pub fn update_record_row(
    changes: &Changes,
    card: &mut CardState,
    channel: &ChannelState,
    command: &Command,
) -> Response
    requires changes { All IsFittingChange changes.now }
    requires card { IsFittingCard card.old }
    ensures fits { IsFittingCard card.new }
    ensures value { (card.new, result)
        ≡ table.update_record_row changes.now card.old channel.now command.now }
{
    update_current(changes, card, channel, Part::Record, command)
}
