// Responses, and the status word of success, ETSI TS 102 221 clause 10.2.1.
ghost use Rattle.std.specs.Prelude.{◌≡◌, ◌≤◌, [], length, All, IfSome};
ghost use Rattle.std.specs.Option.{option_copied};
ghost use Rattle.apdu.specs.Apdu.{refusal};
ghost use Rattle.card_model.specs.Card as model;
ghost use Rattle.card_model.specs.Answers as table;
ghost use Rattle.card_model.specs.Limits.{IsFittingChange};

use apdu::{Response, Sw};
use arrayvec::ArrayVec;
use card_model::{CardState, Change, Changes};
use refresh_cmd::write_proactive;

/// A status word without a body.
pub fn refused(word: u16) -> Response
    ensures { result ≡ refusal word }
{
    Response {
        body: ArrayVec::new(),
        sw: Sw(word),
    }
}

/// 6CXX, where Le is not this length.
pub fn other_length(len: usize) -> Response
    ensures { result ≡ refusal (table.other_length len) }
{
    refused(0x6C00 + (len % 256) as u16)
}

/// A body and a status word.
pub fn answer(body: &[u8], word: u16) -> Response
    requires { length body.now ≤ 256 }
    ensures { result ≡ table.answer body.now word }
{
    let mut bytes = ArrayVec::new();
    let _ = bytes.try_extend_from_slice(body);
    Response {
        body: bytes,
        sw: Sw(word),
    }
}

/// 9000, or 91XX where a change is armed and nothing is awaited.
pub fn success_word(changes: &Changes, card: &CardState) -> u16
    requires { All IsFittingChange changes.now }
    ensures { result ≡ table.success_word changes.now card.now }
{
    announced_word(card.awaiting, first_armed(changes, card))
}

/// Success without a body.
pub fn success(changes: &Changes, card: &CardState) -> Response
    requires { All IsFittingChange changes.now }
    ensures { result ≡ table.answer [] (table.success_word changes.now card.now) }
{
    answer(&[], success_word(changes, card))
}

fn announced_word(awaiting: bool, change: Option<&Change>) -> u16
    requires { IfSome change (λ c. IsFittingChange c.now) }
    ensures { result ≡ table.announced_word awaiting (option_copied change.entry) }
{
    match change {
        None => 0x9000,
        Some(change) => {
            if awaiting {
                0x9000
            } else {
                0x9100 + (change_command(change).len() % 256) as u16
            }
        }
    }
}

/// The proactive command that announces a change.
pub fn change_command(change: &Change) -> ArrayVec<u8, 128>
    requires { IsFittingChange change.now }
    ensures { result.items ≡ model.change_command change.now }
{
    write_proactive(1, change.kind, change.qualifier, change.list.as_slice())
}

/// The change that the card announces, where one is armed.
pub fn first_armed<'a>(changes: &'a Changes, card: &CardState) -> Option<&'a Change>
    requires { All IsFittingChange changes.now }
    ensures value { option_copied result ≡ model.first_armed changes.now card.now }
    ensures fits { IfSome result (λ c. IsFittingChange c.now) }
{
    match card.armed.as_slice().get(0) {
        Some(number) => changes.get(*number as usize),
        None => None,
    }
}
