// Whether two commands are the same.
ghost use Rattle.std.specs.Prelude.{◌≡◌};
ghost use Rattle.apdu.specs.Apdu.{same_command as same_commands};
ghost use Rattle.apdu.specs.Words.{same_bytes, same_number as same_numbers};

use apdu::Command;

fn same_body(a: &Command, b: &Command) -> bool
    ensures { result ≡ same_bytes a.now.body b.now.body }
{
    a.body.as_slice() == b.body.as_slice()
}

fn same_number(a: Option<u16>, b: Option<u16>) -> bool
    ensures { result ≡ same_numbers a b }
{
    match (a, b) {
        (None, None) => true,
        (Some(a), Some(b)) => a == b,
        (_, _) => false,
    }
}

pub(crate) fn same_command(a: &Command, b: &Command) -> bool
    ensures { result ≡ same_commands a.now b.now }
{
    a.class == b.class
        && a.ins == b.ins
        && a.p1 == b.p1
        && a.p2 == b.p2
        && same_body(a, b)
        && same_number(a.le, b.le)
}
