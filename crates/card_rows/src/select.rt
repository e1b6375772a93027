// SELECT, ETSI TS 102 221 clause 11.1.1.
ghost use Rattle.std.specs.Prelude.{◌≡◌, ◌≢◌, ◌≤◌, ◌<◌, length, All, IsTrue};
ghost use Rattle.card_model.specs.Select as table;
ghost use Rattle.card_model.specs.Limits.{IsFittingChange, IsFittingCard};

use crate::channel::{current_directory, is_selectable};
use crate::command::{ids_of, is_one_of};
use crate::control::current_parameters;
use crate::file::{APPLICATION_ID, application_named};
use crate::response::{answer, refused, success, success_word};
use apdu::{Command, Path, Response};
use arrayvec::ArrayVec;
use card_model::{CardState, Changes, ChannelState, Waiting};

const MASTER_FILE: u16 = 0x3F00;

// P1 00 names the master file, the application's directory, or a child of the current directory.
fn ids_of_child(card: &CardState, channel: &ChannelState, ids: &[u16]) -> ArrayVec<u16, 6>
    requires { length ids.now ≤ 3 }
    ensures { result.items ≡ table.ids_of_child card.now channel.now ids.now }
{
    let mut out = ArrayVec::new();
    if ids == [MASTER_FILE].as_slice() {
        return out;
    }
    if ids == [APPLICATION_ID].as_slice() && channel.app.is_some() {
        out.push(APPLICATION_ID);
        return out;
    }
    let _ = out.try_extend_from_slice(current_directory(card, channel));
    let _ = out.try_extend_from_slice(ids);
    out
}

// P1 08 gives the ids from the master file on.
fn selected_ids(card: &CardState, channel: &ChannelState, command: &Command) -> ArrayVec<u16, 6>
    requires { length command.now.body ≤ 6 }
    ensures { result.items ≡ table.selected_ids card.now channel.now command.now }
{
    let ids = ids_of(command.body.as_slice());
    if command.p1 == 0x08 {
        let mut out = ArrayVec::new();
        let _ = out.try_extend_from_slice(ids.as_slice());
        return out;
    }
    ids_of_child(card, channel, ids.as_slice())
}

// The control parameters come, or 61LL comes and they wait.
fn parameters_answer(
    changes: &Changes,
    card: &mut CardState,
    number: u8,
    bytes: ArrayVec<u8, 256>,
) -> Response
    requires changes { All IsFittingChange changes.now }
    requires card { IsFittingCard card.old }
    ensures fits { IsFittingCard card.new }
    ensures value { (card.new, result)
        ≡ table.parameters_answer changes.now card.old number bytes.items }
{
    if card.get_response {
        let word = 0x6100 + (bytes.len() % 256) as u16;
        card.waiting = Some(Waiting {
            channel: number,
            bytes,
        });
        answer(&[], word)
    } else {
        answer(bytes.as_slice(), success_word(changes, card))
    }
}

// The channel at this place has the target current. P2 0C asks for no answer.
fn selection_answer(
    changes: &Changes,
    card: &mut CardState,
    place: usize,
    channel: ChannelState,
    command: &Command,
) -> Response
    requires changes { All IsFittingChange changes.now }
    requires card { IsFittingCard card.old }
    requires place { place < length card.old.channels }
    ensures fits { IsFittingCard card.new }
    ensures value { (card.new, result)
        ≡ table.selection_answer changes.now card.old place channel command.now }
{
    if command.p2 == 0x0C {
        card.channels.set(place, channel);
        return success(changes, card);
    }
    let parameters = current_parameters(card, &channel);
    let number = channel.number;
    card.channels.set(place, channel);
    parameters_answer(changes, card, number, parameters)
}

fn is_select_length(command: &Command) -> bool
    ensures value { result ≡ table.is_select_length command.now }
    ensures short { IsTrue result → command.now.p1 ≢ 4 → length command.now.body ≤ 6 }
{
    let len = command.body.len();
    if command.p1 == 0x00 {
        len == 2
    } else if command.p1 == 0x04 {
        5 <= len && len <= 16
    } else {
        is_one_of(len, &[2, 4, 6])
    }
}

// P1 04: the first application whose identifier begins with the body.
fn select_application(
    changes: &Changes,
    card: &mut CardState,
    place: usize,
    channel: &ChannelState,
    command: &Command,
) -> Response
    requires changes { All IsFittingChange changes.now }
    requires card { IsFittingCard card.old }
    requires place { place < length card.old.channels }
    ensures fits { IsFittingCard card.new }
    ensures value { (card.new, result)
        ≡ table.select_application changes.now card.old place channel.now command.now }
{
    let Some(app) = application_named(command.body.as_slice(), card) else {
        return refused(0x6A82);
    };
    let selected = ChannelState {
        number: channel.number,
        app: Some(app as u8),
        current: Path::from_ids(&[APPLICATION_ID]),
    };
    selection_answer(changes, card, place, selected, command)
}

fn select_ids(
    changes: &Changes,
    card: &mut CardState,
    place: usize,
    channel: &ChannelState,
    command: &Command,
    ids: &[u16],
) -> Response
    requires changes { All IsFittingChange changes.now }
    requires card { IsFittingCard card.old }
    requires place { place < length card.old.channels }
    ensures fits { IsFittingCard card.new }
    ensures value { (card.new, result)
        ≡ table.select_ids changes.now card.old place channel.now command.now ids.now }
{
    if !is_selectable(card, channel, ids) {
        return refused(0x6A82);
    }
    let selected = ChannelState {
        number: channel.number,
        app: channel.app,
        current: Path::from_ids(ids),
    };
    selection_answer(changes, card, place, selected, command)
}

/// SELECT on the channel at a place.
#[tactic(auto, unfolding(card_model::specs::Select::select_row))]
pub fn select_row(
    changes: &Changes,
    card: &mut CardState,
    place: usize,
    channel: &ChannelState,
    command: &Command,
) -> Response
    requires changes { All IsFittingChange changes.now }
    requires card { IsFittingCard card.old }
    requires place { place < length card.old.channels }
    ensures fits { IsFittingCard card.new }
    ensures value { (card.new, result)
        ≡ table.select_row changes.now card.old place channel.now command.now }
{
    if !is_one_of(command.p1 as usize, &[0x00, 0x04, 0x08])
        || !is_one_of(command.p2 as usize, &[0x04, 0x0C])
    {
        return refused(0x6A86);
    }
    if !is_select_length(command) {
        return refused(0x6700);
    }
    if command.p1 == 0x04 {
        return select_application(changes, card, place, channel, command);
    }
    let ids = selected_ids(card, channel, command);
    select_ids(changes, card, place, channel, command, ids.as_slice())
}
