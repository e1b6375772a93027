// Two values that are the same.
ghost use Rattle.std.specs.Prelude.{◌≡◌};
ghost use Rattle.std.specs.Option.{option_copied};
ghost use Rattle.apdu.specs.Apdu as apdus;
ghost use Rattle.apdu.specs.Words.{has_value, same_bytes as same_lists, same_number};
ghost use Rattle.rules.specs.Rules as rules;
ghost use Rattle.rules.specs.State as state;

use apdu::{Command, Response, Text};
use card_model::WorldEvent;
use link::same_command;

pub fn same_bytes(a: &[u8], b: &[u8]) -> bool
    ensures { result ≡ same_lists a.now b.now }
{
    a == b
}

/// Whether the option is this number.
pub fn is_number(a: Option<u8>, b: u8) -> bool
    ensures { result ≡ same_number a (Some b) }
{
    a == Some(b)
}

pub fn same_text(a: &Text, b: &Text) -> bool
    ensures { result ≡ same_lists a.now b.now }
{
    same_bytes(a.as_str().as_bytes(), b.as_str().as_bytes())
}

/// Whether the texts of what two cards show are the same.
pub fn same_shown(a: &Option<Text>, b: &Option<Text>) -> bool
    ensures { result ≡ state.same_shown a.now b.now }
{
    match (a, b) {
        (None, None) => true,
        (Some(a), Some(b)) => same_text(a, b),
        (_, _) => false,
    }
}

/// Whether a card shows this text.
pub fn shows(a: &Option<Text>, text: &Text) -> bool
    ensures { result ≡ state.same_shown a.now (Some text.now) }
{
    match a {
        None => false,
        Some(a) => same_text(a, text),
    }
}

pub fn same_response(a: &Response, b: &Response) -> bool
    ensures { result ≡ apdus.same_response a.now b.now }
{
    a.equals(b)
}

/// Whether the command is this one, where there is one.
pub fn is_command(command: &Command, due: Option<&Command>) -> bool
    ensures { result ≡ has_value (apdus.same_command command.now) (option_copied due.entry) }
{
    match due {
        None => false,
        Some(due) => same_command(command, due),
    }
}

pub fn same_event(a: WorldEvent, b: WorldEvent) -> bool
    ensures { result ≡ rules.same_event a b }
{
    match (a, b) {
        (WorldEvent::Arm(i), WorldEvent::Arm(j)) => i == j,
        (WorldEvent::Out, WorldEvent::Out) => true,
        (WorldEvent::Insert(i), WorldEvent::Insert(j)) => i == j,
        (_, _) => false,
    }
}
