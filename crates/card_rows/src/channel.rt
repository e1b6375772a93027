// Logical channels of a card, and what is current on them, ETSI TS 102 221 clauses 8.4 and 8.7.
ghost use Rattle.std.specs.Prelude.{◌≡◌, ◌≤◌, ◌<◌, length, All, IfSome};
ghost use Rattle.std.specs.Option.{option_copied};
ghost use Rattle.card_model.specs.Card as model;
ghost use Rattle.card_model.specs.Limits.{HasFittingParameters};

use crate::file::{
    APPLICATION_ID, directory_of, file_at, file_place, is_directory_path, is_in_application,
    usim_of,
};
use card_model::{CardState, ChannelState, FileState};

/// Where the channel of a number stands among the open ones.
pub fn channel_place(number: u8, card: &CardState) -> Option<usize>
    ensures value { result ≡ model.channel_place number card.now }
    ensures within { IfSome result (λ place. place < length card.now.channels) }
{
    card.channels
        .as_slice()
        .iter()
        .position(|channel| channel.number == number)
}

/// A copy of the channel.
pub fn copy_of(channel: &ChannelState) -> ChannelState
    ensures { result ≡ channel.now }
{
    let current = match &channel.current {
        Some(path) => Some(path.copy()),
        None => None,
    };
    ChannelState {
        number: channel.number,
        app: channel.app,
        current,
    }
}

/// The channel of a number as it is opened, with the master file selected.
pub fn fresh_channel(number: u8) -> ChannelState
    ensures { result ≡ model.fresh_channel number }
{
    ChannelState {
        number,
        app: None,
        current: None,
    }
}

/// The current path, without ids for the master file.
pub fn current_path(channel: &ChannelState) -> &[u16]
    ensures value { result.now ≡ model.current_path channel.now }
    ensures few { length result.now ≤ 3 }
{
    match &channel.current {
        Some(path) => path.ids(),
        None => &[],
    }
}

// Whether the channel's application is the USIM.
fn is_on_usim(card: &CardState, channel: &ChannelState) -> bool
    ensures { result ≡ model.is_on_usim card.now channel.now }
{
    let Some(app) = channel.app else {
        return false;
    };
    match usim_of(card) {
        Some(usim) => app as usize == usim,
        None => false,
    }
}

// Whether what stands at a path is there for the channel: 7FFF, and what stands below it, is the USIM's.
fn is_visible(card: &CardState, channel: &ChannelState, path: &[u16]) -> bool
    ensures { result ≡ model.is_visible card.now channel.now path.now }
{
    if is_in_application(path) {
        is_on_usim(card, channel)
    } else {
        true
    }
}

// The file of a path as the channel sees it.
fn file_seen<'a>(card: &'a CardState, channel: &ChannelState, path: &[u16]) -> Option<&'a FileState>
    ensures value { option_copied result ≡ model.file_seen card.now channel.now path.now }
    ensures fits { All HasFittingParameters card.now.files
        → IfSome result (λ f. HasFittingParameters f.now) }
{
    if is_visible(card, channel, path) {
        file_at(path, card)
    } else {
        None
    }
}

// Where that file stands among the card's files.
fn place_seen(card: &CardState, channel: &ChannelState, path: &[u16]) -> Option<usize>
    ensures value { result ≡ model.place_seen card.now channel.now path.now }
    ensures within { IfSome result (λ place. place < length card.now.files) }
{
    if is_visible(card, channel, path) {
        file_place(path, card)
    } else {
        None
    }
}

/// The file that is current, where that is no directory.
pub fn current_file<'a>(card: &'a CardState, channel: &ChannelState) -> Option<&'a FileState>
    ensures value { option_copied result ≡ model.current_file card.now channel.now }
    ensures fits { All HasFittingParameters card.now.files
        → IfSome result (λ f. HasFittingParameters f.now) }
{
    match &channel.current {
        Some(path) => file_seen(card, channel, path.ids()),
        None => None,
    }
}

/// Where the current file stands among the card's files.
pub fn current_place(card: &CardState, channel: &ChannelState) -> Option<usize>
    ensures value { result ≡ model.current_place card.now channel.now }
    ensures within { IfSome result (λ place. place < length card.now.files) }
{
    match &channel.current {
        Some(path) => place_seen(card, channel, path.ids()),
        None => None,
    }
}

/// The directory that is current, or that of the current file.
pub fn current_directory<'a>(card: &CardState, channel: &'a ChannelState) -> &'a [u16]
    ensures value { result.now ≡ model.current_directory card.now channel.now }
    ensures few { length result.now ≤ 3 }
{
    let path = current_path(channel);
    if current_file(card, channel).is_some() {
        directory_of(path)
    } else {
        path
    }
}

/// Whether SELECT finds the path on this channel.
pub fn is_selectable(card: &CardState, channel: &ChannelState, path: &[u16]) -> bool
    ensures { result ≡ model.is_selectable card.now channel.now path.now }
{
    if path.is_empty() {
        true
    } else if path == [APPLICATION_ID].as_slice() {
        channel.app.is_some()
    } else {
        (file_at(path, card).is_some() || is_directory_path(path, card))
            && is_visible(card, channel, path)
    }
}
