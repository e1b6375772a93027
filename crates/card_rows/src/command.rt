// Parts of a command.
ghost use Rattle.std.specs.Prelude.{◌≡◌, ◌≤◌, length, IfSome};
ghost use Rattle.apdu.specs.Words.{is_one_of as is_among};
ghost use Rattle.card_model.specs.Answers as table;
ghost use Rattle.card_model.specs.Select.{ids_of as ids_in};

use apdu::Command;
use arrayvec::ArrayVec;

/// P1 and P2 as one number.
pub fn parameters(command: &Command) -> usize
    ensures { result ≡ table.parameters command.now }
{
    command.p1 as usize * 256 + command.p2 as usize
}

/// Le of a command without a body.
pub fn wanted_le(command: &Command) -> Option<u16>
    ensures value { result ≡ table.wanted_le command.now }
    ensures short { IfSome result (λ le. le ≤ 256) }
{
    if command.body.is_empty() {
        command.le
    } else {
        None
    }
}

/// Le as a number.
pub fn le_of(command: &Command) -> u16
    ensures value { result ≡ table.le_of command.now }
    ensures short { result ≤ 256 }
{
    command.le.unwrap_or(0)
}

/// Whether the number is one of the list.
pub fn is_one_of(number: usize, list: &[usize]) -> bool
    ensures { result ≡ is_among number list.now }
{
    list.iter().any(|item| *item == number)
}

/// Ids of two bytes each; a byte left over is not read.
pub fn ids_of(bytes: &[u8]) -> ArrayVec<u16, 3>
    requires { length bytes.now ≤ 6 }
    ensures { result.items ≡ ids_in bytes.now }
{
    let mut ids = ArrayVec::new();
    let mut rest = bytes;
    'ids: while let [high, low, after @ ..] = rest {
        ids.push(*high as u16 * 256 + *low as u16);
        rest = after;
    }
    ids
}
