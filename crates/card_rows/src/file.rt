// Files, directories and applications of a card, ETSI TS 102 221 clause 8.
ghost use Rattle.std.specs.Prelude.{◌≡◌, ◌<◌, ◌≤◌, length, IfSome, IsTrue};
ghost use Rattle.std.specs.List.{position};
ghost use Rattle.std.specs.Option.{option_copied};
ghost use Rattle.fcp.specs.Content.{first_row as row_of_bytes, is_linear};
ghost use Rattle.card_model.specs.Card as model;

use card_model::{CardFiles, CardState, FileState};

/// The id that stands for the directory of the current application.
pub const APPLICATION_ID: u16 = 0x7FFF;

const USIM_AID_PREFIX: [u8; 7] = [0xA0, 0x00, 0x00, 0x00, 0x87, 0x10, 0x02];

/// The file of a path, whoever it is there for.
pub fn file_at<'a>(path: &[u16], card: &'a CardState) -> Option<&'a FileState>
    ensures value { option_copied result ≡ model.file_at path.now card.now }
{
    card.files
        .as_slice()
        .iter()
        .find(|file| file.path.ids() == path)
}

/// The file of a path for what is no channel.
pub fn file_of<'a>(path: &[u16], card: &'a CardState) -> Option<&'a FileState>
    ensures { option_copied result ≡ model.file_of path.now card.now }
{
    if is_in_application(path) && usim_of(card).is_none() {
        None
    } else {
        file_at(path, card)
    }
}

/// Where the file of a path stands among files.
pub fn place_in(path: &[u16], files: &CardFiles) -> Option<usize>
    ensures value { result ≡ position (model.has_path path.now) files.now }
    ensures within { IfSome result (λ place. place < length files.now) }
{
    files
        .as_slice()
        .iter()
        .position(|file| file.path.ids() == path)
}

/// Where the file of a path stands among the card's files.
pub fn file_place(path: &[u16], card: &CardState) -> Option<usize>
    ensures value { result ≡ model.file_place path.now card.now }
    ensures within { IfSome result (λ place. place < length card.now.files) }
{
    place_in(path, &card.files)
}

/// The bytes of a transparent file.
pub fn bytes_of(file: &FileState) -> &[u8]
    ensures { result.now ≡ row_of_bytes file.now.rows.rows }
{
    match file.rows.row(0) {
        Some(row) => row,
        None => &[],
    }
}

/// The record of a number from 1.
pub fn record_at(number: u8, file: &FileState) -> Option<&[u8]>
    ensures value { option_copied result ≡ model.record_at number file.now }
    ensures wide { IsTrue (is_linear file.now.rows.kind) → IfSome result (λ r. length r.now ≤ 255) }
{
    // the count's contract tells that a linear file's width is a byte
    let _count = file.rows.count();
    if 0 < number {
        file.rows.row(number as usize - 1)
    } else {
        None
    }
}

/// The first application whose identifier begins with these bytes.
pub fn application_named(name: &[u8], card: &CardState) -> Option<usize>
    ensures value { result ≡ model.application_named name.now card.now }
    ensures within { IfSome result (λ i. i < length card.now.aids) }
{
    card.aids
        .as_slice()
        .iter()
        .position(|aid| aid.as_slice().starts_with(name))
}

/// Which of the card's applications is the USIM.
pub fn usim_of(card: &CardState) -> Option<usize>
    ensures { result ≡ model.usim_of card.now }
{
    application_named(&USIM_AID_PREFIX, card)
}

/// The path without its last id.
pub fn directory_of(path: &[u16]) -> &[u16]
    ensures { result.now ≡ model.directory_of path.now }
{
    let len = path.len().saturating_sub(1);
    &path[..len]
}

/// The last id of a path; that of the master file where there is none.
pub fn last_id(path: &[u16]) -> u16
    ensures { result ≡ model.last_id path.now }
{
    match path.get(path.len().saturating_sub(1)) {
        Some(id) => *id,
        None => 0x3F00,
    }
}

/// Whether a path stands below the application's directory, or is that directory.
pub fn is_in_application(path: &[u16]) -> bool
    ensures { result ≡ model.is_in_application path.now }
{
    path.starts_with(&[APPLICATION_ID])
}

fn is_below(directory: &[u16], file: &FileState) -> bool
    ensures { result ≡ model.is_below directory.now file.now }
{
    let path = file.path.ids();
    path.starts_with(directory) && directory.len() < path.len()
}

/// Whether some file stands below this path.
pub fn is_directory_path(path: &[u16], card: &CardState) -> bool
    ensures { result ≡ model.is_directory_path path.now card.now }
{
    card.files
        .as_slice()
        .iter()
        .any(|file| is_below(path, file))
}
