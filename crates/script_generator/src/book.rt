// The rows of the phonebook, 3GPP TS 31.102 clause 4.4.2.3.
ghost use Rattle.std.specs.Prelude.{◌≡◌, ◌<◌, ◌≤◌, ◌+◌, IfOk, OnOk, replicate};
ghost use Rattle.script_generator.specs.Draws.{behind, draw};
ghost use Rattle.script_generator.specs.Generated as spec;

use crate::draws::Draws;
use apdu::{Bytes, Memory, Sequence};
use std::alloc::Global;

/// The bytes of a row.
pub(crate) const ROW: usize = 28;

const NAME: usize = 14;

const FREE: [u8; ROW] = [0xFF; ROW];

fn digit(value: u8) -> u8
    requires { value < 10 }
    ensures { result ≡ 48 + value }
{
    b'0' + value
}

/// The name of a row: P and its number.
fn name(row: u8) -> [u8; NAME]
    ensures { result ≡ spec.name row }
{
    let mut name = [0xFF; NAME];
    name[0] = b'P';
    if row < 10 {
        name[1] = digit(row);
        return name;
    }
    if row < 100 {
        name[1] = digit(row / 10);
        name[2] = digit(row % 10);
        return name;
    }
    name[1] = digit(row / 10 / 10);
    name[2] = digit(row / 10 % 10);
    name[3] = digit(row % 10);
    name
}

/// A row with an entry, whose number the next draws give.
fn entry_row(alloc: Global, row: u8, draws: &mut Draws) -> Result<Bytes, Memory>
    ensures value { IfOk result (λ bytes. bytes ≡ spec.entry_row row draws.old.state) }
    ensures state { OnOk result (draws.new.state ≡ behind draws.old.state 10) }
{
    let mut bytes = Bytes::with_capacity(alloc, ROW)?;
    bytes.extend_from_slice(&name(row))?;
    bytes.extend_from_slice(&[6, 0x81])?;
    bytes.extend_from_slice(&draws.number())?;
    bytes.extend_from_slice(&[0xFF; 7])?;
    Ok(bytes)
}

/// A row, which is free where its draw is odd.
fn book_row(alloc: Global, row: u8, draws: &mut Draws) -> Result<Bytes, Memory>
    ensures value { IfOk result (λ bytes. bytes ≡ spec.book_row row draws.old.state) }
    ensures state { OnOk result (draws.new.state ≡ spec.behind_row draws.old.state) }
{
    if draws.draw() % 2 == 1 {
        Bytes::from_slice(alloc, &FREE)
    } else {
        entry_row(alloc, row, draws)
    }
}

/// So many rows, numbered from 1.
pub(crate) fn book_rows(
    alloc: Global,
    size: u8,
    draws: &mut Draws,
) -> Result<Sequence<Bytes>, Memory>
    ensures value { IfOk result (λ rows. rows ≡ spec.book_rows draws.old.state size) }
    ensures state { OnOk result (draws.new.state ≡ spec.behind_rows draws.old.state size) }
{
    let mut rows = Sequence::new(alloc);
    for row in 0..size {
        rows.push(book_row(alloc, row + 1, draws)?)?;
    }
    Ok(rows)
}
