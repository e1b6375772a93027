// The books of two families' files, and the book that an edit makes.
ghost use Rattle.std.specs.Prelude.{◌≡◌, ◌<◌, ◌&&◌, Some, length, position, IfOk, IfSome, OnOk};
ghost use Rattle.adn.specs.declared.edit.Edit.TheVariants as edit_kind;
ghost use Rattle.apdu.specs.Words.{is_empty as has_none};
ghost use Rattle.families.specs.Plans as spec;
ghost use Rattle.rules.specs.Editing.{family_edit};
ghost use Rattle.rules.specs.Rules as rules;

use crate::card::file_in;
use crate::same::same_text;
use adn::{AdnEntry, Book, BookRow, Edit, decode_book};
use apdu::{Memory, Text};
use card_model::World;
use fcp::Rows;
use script::Operation;
use std::alloc::Global;

/// The book of a family, as the card in the slot has it.
pub fn book_in(alloc: Global, world: &World, family: u8) -> Result<Book, Memory>
    ensures { IfOk result (λ book. book ≡ rules.book_in world.now family) }
{
    let missing = Rows::missing(alloc);
    let main = file_in(world, family, 0, &missing);
    decode_book(alloc, main, file_in(world, family, 1, &missing))
}

// ---- edits

fn text_copy(alloc: Global, text: &Text) -> Result<Text, Memory>
    ensures { IfOk result (λ copy. copy ≡ text.now) }
{
    Text::from_str(alloc, text.as_str())
}

fn set_of(alloc: Global, at: Option<u8>, name: &Text, number: &Text) -> Result<Edit, Memory>
    ensures { IfOk result (λ edit. edit
        ≡ edit_kind.Set at (record { name = name.now; number = number.now })) }
{
    let entry = AdnEntry {
        name: text_copy(alloc, name)?,
        number: text_copy(alloc, number)?,
    };
    Ok(Edit::Set { at, entry })
}

/// What an operation edits, where it is an edit.
pub fn edit_of(alloc: Global, operation: &Operation) -> Result<Option<(u8, Edit)>, Memory>
    ensures { IfOk result (λ edited. edited ≡ family_edit operation.now) }
{
    match operation {
        Operation::Set {
            family,
            at,
            name,
            number,
        } => Ok(Some((*family, set_of(alloc, *at, name, number)?))),
        Operation::Clear { family, at } => Ok(Some((*family, Edit::Clear { at: *at }))),
        _ => Ok(None),
    }
}

fn is_empty(entry: &AdnEntry) -> bool
    ensures { result ≡ (has_none entry.now.name && has_none entry.now.number) }
{
    entry.name.as_str().is_empty() && entry.number.as_str().is_empty()
}

/// What is in the row behind an edit.
fn new_row(alloc: Global, edit: &Edit) -> Result<BookRow, Memory>
    ensures { IfOk result (λ row. row ≡ spec.new_row edit.now) }
{
    match edit {
        Edit::Clear { .. } => Ok(BookRow::Free),
        Edit::Set { entry, .. } => {
            if is_empty(entry) {
                return Ok(BookRow::Free);
            }
            Ok(BookRow::Entry(AdnEntry {
                name: text_copy(alloc, &entry.name)?,
                number: text_copy(alloc, &entry.number)?,
            }))
        }
    }
}

fn is_free(row: &BookRow) -> bool
    ensures { result ≡ spec.is_free row.now }
{
    matches!(row, BookRow::Free)
}

/// The index of the first free row.
fn first_free(book: &[BookRow]) -> Option<usize>
    ensures place { result ≡ position spec.is_free book.now }
    ensures within { IfSome result (λ place. place < length book.now) }
{
    book.iter().position(|row| is_free(row))
}

/// The number of the first free row, from 1.
fn free_target(book: &[BookRow]) -> Option<usize>
    ensures { result ≡ spec.from_one (position spec.is_free book.now) }
{
    match first_free(book) {
        None => None,
        Some(at) => Some(at + 1),
    }
}

/// The row that an edit is about, from 1.
fn target_of(book: &[BookRow], edit: &Edit) -> Option<usize>
    ensures { result ≡ spec.target_of book.now edit.now }
{
    match edit {
        Edit::Set { at: Some(at), .. } => Some(*at as usize),
        Edit::Set { at: None, .. } => free_target(book),
        Edit::Clear { at } => Some(*at as usize),
    }
}

fn replace(at: usize, row: BookRow, book: &mut Book)
    ensures { book.new ≡ spec.with_target book.old (Some at) row }
{
    let at = at.saturating_sub(1);
    if at < book.len() {
        book.set(at, row);
    }
}

/// Makes an edit in a book.
pub fn make_edit(alloc: Global, edit: &Edit, book: &mut Book) -> Result<(), Memory>
    ensures { OnOk result (book.new ≡ spec.edited book.old edit.now) }
{
    let row = new_row(alloc, edit)?;
    if let Some(at) = target_of(book.as_slice(), edit) {
        replace(at, row, book);
    }
    Ok(())
}

// ---- two books

fn same_row(a: &BookRow, b: &BookRow) -> bool
    ensures { result ≡ spec.same_row a.now b.now }
{
    match (a, b) {
        (BookRow::Free, BookRow::Free) => true,
        (BookRow::Unreadable, BookRow::Unreadable) => true,
        (BookRow::Entry(a), BookRow::Entry(b)) => {
            same_text(&a.name, &b.name) && same_text(&a.number, &b.number)
        }
        (_, _) => false,
    }
}

/// Whether two books have the same rows.
pub fn same_book(a: &[BookRow], b: &[BookRow]) -> bool
    ensures { result ≡ spec.same_book a.now b.now }
{
    let mut rest_a = a;
    let mut rest_b = b;
    'rows: loop {
        let [x, more_a @ ..] = rest_a else {
            return rest_b.is_empty();
        };
        let [y, more_b @ ..] = rest_b else {
            return false;
        };
        if !same_row(x, y) {
            return false;
        }
        rest_a = more_a;
        rest_b = more_b;
    }
}
