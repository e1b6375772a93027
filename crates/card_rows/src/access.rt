// Access rules and keys, ETSI TS 102 221 clause 9.
ghost use Rattle.std.specs.Prelude.{◌≡◌, ◌≤◌, ◌<◌, length, IfSome};
ghost use Rattle.std.specs.Option.{option_copied};
ghost use Rattle.apdu.specs.Words.{has_value};
ghost use Rattle.card_model.specs.declared.world.PinState.{PinState};
ghost use Rattle.card_model.specs.Card as model;

use crate::file::{directory_of, file_of, record_at};
use arrayvec::ArrayVec;
use card_model::{CardState, FileState, PinState};
use fcp::{ArrRef, Need, Rule, read_rule};

const EF_ARR: u16 = 0x2F06;

// Where the EF_ARR of a reference stands: under the master file for its id there, else beside the file.
fn rule_file_path(path: &[u16], arr: ArrRef) -> ArrayVec<u16, 3>
    requires { length path.now ≤ 3 }
    ensures { result.items ≡ model.rule_file_path path.now arr }
{
    let mut ids = ArrayVec::new();
    if arr.file_id == EF_ARR {
        ids.push(EF_ARR);
    } else {
        let _ = ids.try_extend_from_slice(directory_of(path));
        ids.push(arr.file_id);
    }
    ids
}

fn rule_record<'a>(card: &'a CardState, path: &[u16], arr: ArrRef) -> Option<&'a [u8]>
    requires { length path.now ≤ 3 }
    ensures { option_copied result ≡ model.rule_record card.now path.now arr }
{
    let ids = rule_file_path(path, arr);
    match file_of(ids.as_slice(), card) {
        Some(file) => record_at(arr.row, file),
        None => None,
    }
}

fn rule_of_record(found: Option<&[u8]>) -> Rule
    ensures { result ≡ model.rule_of_record (option_copied found.entry) }
{
    match found {
        Some(bytes) => read_rule(bytes),
        None => Rule {
            read: Need::Never,
            update: Need::Never,
        },
    }
}

/// The access rule of a file.
pub fn rule_of(card: &CardState, file: &FileState) -> Rule
    ensures { result ≡ model.rule_of card.now file.now }
{
    match file.arr {
        Some(arr) => rule_of_record(rule_record(card, file.path.ids(), arr)),
        None => Rule {
            read: Need::Always,
            update: Need::Always,
        },
    }
}

fn key_at(number: u8, card: &CardState) -> Option<&PinState>
    ensures { option_copied result ≡ model.key_at number card.now }
{
    card.keys.as_slice().iter().find(|key| key.key == number)
}

/// Where the first key with this number stands among the card's keys.
pub fn key_place(number: u8, card: &CardState) -> Option<usize>
    ensures value { result ≡ model.key_place number card.now }
    ensures within { IfSome result (λ place. place < length card.now.keys) }
{
    card.keys
        .as_slice()
        .iter()
        .position(|key| key.key == number)
}

fn is_verified(number: u8, card: &CardState) -> bool
    ensures { result ≡ has_value (λ (k : PinState). k.verified) (model.key_at number card.now) }
{
    match key_at(number, card) {
        Some(key) => key.verified,
        None => false,
    }
}

/// Whether what an access asks for is met.
pub fn is_met(card: &CardState, need: Need) -> bool
    ensures { result ≡ model.is_met card.now need }
{
    match need {
        Need::Always => true,
        Need::Never => false,
        Need::Key(number) => is_verified(number, card),
    }
}
