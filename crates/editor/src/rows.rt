// The extension rows that an edit leaves marked.
ghost use Rattle.std.specs.Prelude.{◌≡◌, ◌≤◌, ◌++◌, not, filter, length, IfOk, OnOk};
ghost use Rattle.std.specs.Option.{option_copied};
ghost use Rattle.editor.specs.Editing as spec;
ghost use Rattle.editor.specs.Rows as rows_of;

use crate::{Attempt, Decided, Editing};
use adn::RowUpdate;
use apdu::{Bytes, Memory};
use std::alloc::Global;

// How many rows stand before the place of this one.
fn place_of(row: u8, rows: &[u8]) -> usize
    ensures value { result ≡ rows_of.place_of row rows.now }
    ensures within { result ≤ length rows.now }
{
    match rows {
        [] => 0,
        [first, rest @ ..] => if row <= *first {
            0
        } else {
            1 + place_of(row, rest)
        },
    }
}

fn is_at(row: u8, rows: &[u8], at: usize) -> bool
    ensures { result ≡ rows_of.is_row_at row rows.now at }
{
    match rows.get(at) {
        None => false,
        Some(found) => *found == row,
    }
}

// Puts a row in its place, unless it is there.
#[tactic(auto, using(crate::proofs::Places::is_there, crate::proofs::Places::is_put))]
fn put_row(row: u8, rows: &mut Vec<u8>) -> Result<(), Memory>
    ensures { OnOk result (rows.new.items ≡ spec.with_row row rows.old.items) }
{
    let at = place_of(row, rows.as_slice());
    if !is_at(row, rows.as_slice(), at) {
        rows.insert(at, row)?;
    }
    Ok(())
}

fn names_row(decided: Decided, row: u8) -> bool
    ensures { result ≡ spec.names_row decided row }
{
    decided.named == row && 1 <= row && row <= 254
}

fn after_of(attempt: Option<&Attempt>) -> Option<&RowUpdate>
    ensures { option_copied result ≡ spec.after_of (option_copied attempt.entry) }
{
    attempt?.plan.after.as_ref()
}

// The row of the update behind the deciding one, unless that succeeded.
fn put_unreleased(
    released: bool,
    update: Option<&RowUpdate>,
    rows: &mut Vec<u8>,
) -> Result<(), Memory>
    ensures { OnOk result (rows.new.items ≡ rows_of.rows_onto
        (spec.unreleased released (option_copied update.entry)) rows.old.items) }
{
    match update {
        Some(update) if !released => put_row(update.row, rows),
        _ => Ok(()),
    }
}

fn put_unless_named(decided: Decided, row: u8, rows: &mut Vec<u8>) -> Result<(), Memory>
    ensures { OnOk result (rows.new.items ≡ rows_of.row_onto decided row rows.old.items) }
{
    if names_row(decided, row) {
        Ok(())
    } else {
        put_row(row, rows)
    }
}

// Those of the rows that the deciding bytes do not name, from the last to the first.
fn put_marked(decided: Decided, marked: &[u8], rows: &mut Vec<u8>) -> Result<(), Memory>
    ensures { OnOk result (rows.new.items ≡ rows_of.marked_onto decided marked.now rows.old.items) }
{
    let mut left = marked.len();
    while left > 0 {
        left -= 1;
        put_unless_named(decided, marked[left], rows)?;
    }
    Ok(())
}

impl Editing {
    /// The rows that stay marked, rising: those that updates before the deciding one marked and that its bytes do not name, and that of the
    /// update behind it, unless that succeeded.
    #[tactic(auto, using(crate::proofs::Places::left_onto))]
    pub fn left_rows(&self, alloc: Global, decided: Decided) -> Result<Bytes, Memory>
        ensures { IfOk result (λ rows. rows ≡ spec.left_rows self.now decided) }
    {
        let mut rows = Vec::new(alloc);
        let after = after_of(self.attempt.as_ref());
        put_unreleased(decided.released, after, &mut rows)?;
        put_marked(decided, self.marked.as_slice(), &mut rows)?;
        Ok(Bytes::from_vec(rows))
    }
}
