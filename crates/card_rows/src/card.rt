// A command on a card: its class and channel, and the row of its instruction, ETSI TS 102 221 clause 10.1.
ghost use Rattle.std.specs.Prelude.{◌≡◌, ◌<◌, length, slice_get, All, IfSome, Some};
ghost use Rattle.std.specs.Option.{option_copied};
ghost use Rattle.apdu.specs.Apdu.{is_toolkit as is_toolkit_class};
ghost use Rattle.card_model.specs.Step as table;
ghost use Rattle.card_model.specs.Instructions.{instruction_of};
ghost use Rattle.card_model.specs.Limits.{IsFittingChange, IsFittingCard};
ghost use Rattle.card_model.specs.Card.{first_armed};
ghost use Rattle.card_rows.specs.Fetched.{with_fetched};
ghost use Rattle.card_rows.specs.Shapes.{shapes};

use crate::channel::{channel_place, copy_of};
use crate::fetch::fetch_row;
use crate::get_response::{drop_waiting, get_response_row};
use crate::manage::manage_channel_row;
use crate::outcome::Outcome;
use crate::read::{read_binary_row, read_record_row};
use crate::response::refused;
use crate::select::select_row;
use crate::toolkit::{status_row, terminal_profile_row, terminal_response_row};
use crate::update::{update_binary_row, update_record_row};
use crate::verify::verify_row;
use apdu::{ClassKind, Command, channel_of};
use card_model::{CardState, Changes, ChannelState, Instruction};

fn is_toolkit(kind: ClassKind) -> bool
    ensures { result ≡ is_toolkit_class kind }
{
    match kind {
        ClassKind::Plain => false,
        ClassKind::Toolkit => true,
    }
}

fn same_kind(of_row: ClassKind, kind: ClassKind) -> bool
    ensures { result ≡ table.same_kind of_row kind }
{
    match of_row {
        ClassKind::Plain => !is_toolkit(kind),
        ClassKind::Toolkit => is_toolkit(kind),
    }
}

fn on_row<'a>(
    changes: &'a Changes,
    card: &mut CardState,
    place: usize,
    channel: &ChannelState,
    command: &Command,
    row: Instruction,
) -> Outcome<'a>
    requires changes { All IsFittingChange changes.now }
    requires card { IsFittingCard card.old }
    requires place { place < length card.old.channels }
    requires row { instruction_of command.now.ins ≡ Some row }
    ensures fits { IsFittingCard card.new }
    ensures shapes { shapes card.new.files ≡ shapes card.old.files }
    ensures fetched { IfSome result.fetched (λ change. Some change.now
        ≡ first_armed changes.now card.old) }
    ensures value { (with_fetched card.new (option_copied result.fetched), result.response)
        ≡ table.on_row changes.now card.old place channel.now command.now row }
{
    let response = match row {
        Instruction::Fetch => return fetch_row(changes, card, command),
        Instruction::Select => select_row(changes, card, place, channel, command),
        Instruction::GetResponse => get_response_row(changes, card, channel, command),
        Instruction::Status => status_row(changes, card, command),
        Instruction::ReadBinary => read_binary_row(changes, card, channel, command),
        Instruction::UpdateBinary => update_binary_row(changes, card, channel, command),
        Instruction::ReadRecord => read_record_row(changes, card, channel, command),
        Instruction::UpdateRecord => update_record_row(changes, card, channel, command),
        Instruction::Verify => verify_row(changes, card, command),
        Instruction::ManageChannel => manage_channel_row(changes, card, command),
        Instruction::TerminalProfile => terminal_profile_row(changes, card, command),
        Instruction::TerminalResponse => terminal_response_row(changes, card, command),
    };
    Outcome::of(response)
}

fn on_kind<'a>(
    changes: &'a Changes,
    card: &mut CardState,
    place: usize,
    channel: &ChannelState,
    kind: ClassKind,
    command: &Command,
) -> Outcome<'a>
    requires changes { All IsFittingChange changes.now }
    requires card { IsFittingCard card.old }
    requires place { place < length card.old.channels }
    ensures fits { IsFittingCard card.new }
    ensures shapes { shapes card.new.files ≡ shapes card.old.files }
    ensures fetched { IfSome result.fetched (λ change. Some change.now
        ≡ first_armed changes.now card.old) }
    ensures value { (with_fetched card.new (option_copied result.fetched), result.response)
        ≡ table.on_kind changes.now card.old place channel.now kind command.now
        (instruction_of command.now.ins) }
{
    let Some(row) = Instruction::from_byte(command.ins) else {
        return Outcome::of(refused(0x6D00));
    };
    if !same_kind(row.kind(), kind) {
        return Outcome::of(refused(0x6E00));
    }
    drop_waiting(card, channel, row);
    on_row(changes, card, place, channel, command, row)
}

fn on_place<'a>(
    changes: &'a Changes,
    card: &mut CardState,
    kind: ClassKind,
    place: usize,
    command: &Command,
) -> Outcome<'a>
    requires changes { All IsFittingChange changes.now }
    requires card { IsFittingCard card.old }
    requires place { place < length card.old.channels }
    ensures fits { IsFittingCard card.new }
    ensures shapes { shapes card.new.files ≡ shapes card.old.files }
    ensures fetched { IfSome result.fetched (λ change. Some change.now
        ≡ first_armed changes.now card.old) }
    ensures value { (with_fetched card.new (option_copied result.fetched), result.response)
        ≡ table.on_channel changes.now card.old place kind
        (slice_get card.old.channels place) command.now }
{
    let channel = match card.channels.get(place) {
        Some(channel) => copy_of(channel),
        None => return Outcome::of(refused(0x6881)),
    };
    on_kind(changes, card, place, &channel, kind, command)
}

/// A command on a card, which takes no memory. Only the files of a change that is fetched are left to be written.
#[tactic(auto, unfolding(card_model::specs::Step::on_card))]
pub fn on_card<'a>(changes: &'a Changes, card: &mut CardState, command: &Command) -> Outcome<'a>
    requires changes { All IsFittingChange changes.now }
    requires card { IsFittingCard card.old }
    ensures fits { IsFittingCard card.new }
    ensures shapes { shapes card.new.files ≡ shapes card.old.files }
    ensures fetched { IfSome result.fetched (λ change. Some change.now
        ≡ first_armed changes.now card.old) }
    ensures value { (with_fetched card.new (option_copied result.fetched), result.response)
        ≡ table.on_card changes.now card.old command.now }
{
    let Some((kind, number)) = channel_of(command.class) else {
        return Outcome::of(refused(0x6E00));
    };
    let Some(place) = channel_place(number, card) else {
        return Outcome::of(refused(0x6881));
    };
    on_place(changes, card, kind, place, command)
}
