// The control parameters that SELECT gives, ETSI TS 102 221 clause 11.1.1.3.
ghost use Rattle.std.specs.Prelude.{◌≡◌, ◌≤◌, length};
ghost use Rattle.card_model.specs.Card as model;
ghost use Rattle.card_model.specs.Limits.{HasFittingParameters, IsFittingCard};

use crate::channel::{current_file, current_path};
use crate::file::{APPLICATION_ID, last_id};
use arrayvec::ArrayVec;
use card_model::{CardState, ChannelState, FileState};
use fcp::{Fcp, FileKind, Rows, write_fcp};

// The bytes of a file.
fn content_size(rows: &Rows) -> u16
    ensures { result ≡ model.content_size rows.now }
{
    match rows.kind() {
        FileKind::Linear => rows.width() * rows.count() as u16,
        _ => rows.width(),
    }
}

fn fields_of_file(file: &FileState) -> Fcp
    ensures { result ≡ model.fields_of_file file.now }
{
    let is_linear = file.rows.kind() == FileKind::Linear;
    Fcp {
        kind: file.rows.kind(),
        size: content_size(&file.rows),
        file_id: Some(last_id(file.path.ids())),
        width: if is_linear { file.rows.width() } else { 0 },
        count: if is_linear {
            file.rows.count() as u8
        } else {
            0
        },
        active: file.active,
        arr: file.arr,
    }
}

fn file_parameters(file: &FileState) -> ArrayVec<u8, 256>
    requires { HasFittingParameters file.now }
    ensures { result.items ≡ model.file_parameters file.now }
{
    match &file.fcp {
        Some(bytes) => owned(bytes.as_slice()),
        None => owned(write_fcp(&fields_of_file(file), &[]).as_slice()),
    }
}

fn owned(bytes: &[u8]) -> ArrayVec<u8, 256>
    requires { length bytes.now ≤ 256 }
    ensures { result.items ≡ bytes.now }
{
    let mut out = ArrayVec::new();
    let _ = out.try_extend_from_slice(bytes);
    out
}

fn fields_of_directory(id: Option<u16>) -> Fcp
    ensures { result ≡ model.fields_of_directory id }
{
    Fcp {
        kind: FileKind::Directory,
        size: 0,
        file_id: id,
        width: 0,
        count: 0,
        active: true,
        arr: None,
    }
}

// The identifier of the channel's application.
fn aid_of<'a>(card: &'a CardState, channel: &ChannelState) -> &'a [u8]
    requires { IsFittingCard card.now }
    ensures value { result.now ≡ model.aid_of card.now channel.now }
    ensures short { length result.now ≤ 16 }
{
    match channel.app {
        Some(app) => match card.aids.get(app as usize) {
            Some(aid) => aid.as_slice(),
            None => &[],
        },
        None => &[],
    }
}

fn directory_parameters(card: &CardState, channel: &ChannelState) -> ArrayVec<u8, 256>
    requires { IsFittingCard card.now }
    ensures { result.items ≡ model.directory_parameters card.now channel.now }
{
    let path = current_path(channel);
    if path == [APPLICATION_ID].as_slice() {
        owned(write_fcp(&fields_of_directory(None), aid_of(card, channel)).as_slice())
    } else {
        owned(write_fcp(&fields_of_directory(Some(last_id(path))), &[]).as_slice())
    }
}

/// The control parameters of the file or directory that is current.
pub fn current_parameters(card: &CardState, channel: &ChannelState) -> ArrayVec<u8, 256>
    requires { IsFittingCard card.now }
    ensures { result.items ≡ model.current_parameters card.now channel.now }
{
    match current_file(card, channel) {
        Some(file) => file_parameters(file),
        None => directory_parameters(card, channel),
    }
}
