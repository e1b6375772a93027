// Reading the phonebook.
ghost use Rattle.std.specs.Prelude.{◌≡◌, IfOk, length};
ghost use Rattle.adn.specs.Book as phonebook;

use crate::number::{FOOTER_LEN, is_empty, number_of};
use crate::{AdnEntry, Book, BookRow};
use alpha::decode_alpha;
use apdu::{Memory, Sequence};
use fcp::{FileKind, Rows};
use std::alloc::Global;

/// The phonebook of a main file and its extension file. A main file that is not linear has no rows.
pub fn decode_book(alloc: Global, main: &Rows, ext: &Rows) -> Result<Book, Memory>
    ensures { IfOk result (λ book. book ≡ phonebook.decode_book main.now ext.now) }
{
    let mut book = Sequence::new(alloc);
    if main.kind() != FileKind::Linear {
        return Ok(book);
    }
    while let Some(row) = main.row(book.len()) {
        book.push(book_row(alloc, ext, row)?)?;
    }
    Ok(book)
}

/// What a row of the main file holds.
pub fn book_row(alloc: Global, ext: &Rows, row: &[u8]) -> Result<BookRow, Memory>
    ensures { IfOk result (λ found. found
        ≡ phonebook.book_row (phonebook.extension_rows ext.now) row.now) }
{
    if row.len() < FOOTER_LEN {
        return Ok(BookRow::Unreadable);
    }
    let (name, footer) = row.split_at(row.len() - FOOTER_LEN);
    row_of(alloc, ext, name, footer)
}

/// What a row holds that has these bytes for its name, and these behind it.
fn row_of(alloc: Global, ext: &Rows, name: &[u8], footer: &[u8]) -> Result<BookRow, Memory>
    requires { length footer.now ≡ 14 }
    ensures { IfOk result (λ found. found
        ≡ phonebook.row_of (phonebook.extension_rows ext.now) name.now footer.now) }
{
    if (12..=254).contains(&footer[0]) {
        return Ok(BookRow::Unreadable);
    }
    let name = decode_alpha(alloc, name)?;
    let number = number_of(alloc, ext, footer)?;
    Ok(entry_row(AdnEntry { name, number }))
}

/// An entry, or a free row where it has neither name nor number.
fn entry_row(entry: AdnEntry) -> BookRow
    ensures { result ≡ phonebook.entry_row entry }
{
    if is_empty(&entry.name) && is_empty(&entry.number) {
        BookRow::Free
    } else {
        BookRow::Entry(entry)
    }
}
