// A phonebook behind an update of one row.
ghost use Rattle.std.specs.Prelude.{◌≡◌, ◌≤◌, ◌∷◌, ◌++◌, [], IsTrue, IfOk, OnOk, OnErr, length, slice_set};
ghost use Rattle.fcp.specs.Content.{is_linear};
ghost use Rattle.adn.specs.Book as phonebook;
ghost use Rattle.adn.specs.Changed as changed;

use crate::book::book_row;
use crate::{Book, BookRow};
use apdu::{Memory, Sequence};
use fcp::{FileKind, Rows};
use std::alloc::Global;

/// A row of a book that was decoded anew.
#[derive(Drop)]
pub struct Renewed {
    pub index: usize,
    pub row: BookRow,
}

/// Makes a book that of its two files behind an update of a row of one of them. File 0 is the main file and 1 its
/// extension file, and rows count from 1. Only the main rows are decoded that the update concerns.
pub fn redecode(
    alloc: Global,
    book: &mut Book,
    main: &Rows,
    ext: &Rows,
    file: u8,
    row: u8,
) -> Result<(), Memory>
    requires first { 1 ≤ row }
    requires before { changed.WasBook file row main.now ext.now book.old }
    ensures ok { OnOk result (book.new ≡ phonebook.decode_book main.now ext.now) }
    ensures err { OnErr result (book.new ≡ book.old) }
{
    if file == 0 {
        redecode_row(alloc, book, main, ext, row)
    } else {
        redecode_naming(alloc, book, main, ext, row)
    }
}

/// Decodes one main row anew, where the book has it.
fn redecode_row(
    alloc: Global,
    book: &mut Book,
    main: &Rows,
    ext: &Rows,
    row: u8,
) -> Result<(), Memory>
    requires first { 1 ≤ row }
    requires before { changed.WasBook 0 row main.now ext.now book.old }
    ensures ok { OnOk result (book.new ≡ phonebook.decode_book main.now ext.now) }
    ensures err { OnErr result (book.new ≡ book.old) }
{
    let index = usize::from(row) - 1;
    if let Some(bytes) = main.row(index) {
        let row = book_row(alloc, ext, bytes)?;
        put(book, index, row);
    }
    Ok(())
}

/// Puts a row in its place, where the book has it.
fn put(book: &mut Book, index: usize, row: BookRow)
    ensures { book.new ≡ slice_set book.old index row }
{
    if index < book.len() {
        book.set(index, row);
    }
}

// ---- main rows that name an extension row

fn ends_in(row: &[u8], number: u8) -> bool
    ensures { result ≡ changed.ends_in number row.now }
{
    match row {
        [.., last] => *last == number,
        [] => number == 0,
    }
}

/// Decodes a main row anew, where it ends in this number.
fn renew(
    alloc: Global,
    ext: &Rows,
    number: u8,
    index: usize,
    row: &[u8],
    list: &mut Sequence<Renewed>,
) -> Result<(), Memory>
    ensures { OnOk result (list.new ≡ list.old
        ++ changed.renewed_from (phonebook.extension_rows ext.now) number index (row.now ∷ [])) }
{
    if ends_in(row, number) {
        let row = book_row(alloc, ext, row)?;
        list.push(Renewed { index, row })?;
    }
    Ok(())
}

/// The main rows that end in this number, decoded anew.
fn naming_rows(
    alloc: Global,
    main: &Rows,
    ext: &Rows,
    number: u8,
) -> Result<Sequence<Renewed>, Memory>
    ensures { IfOk result (λ list. list ≡ changed.renewed_from (phonebook.extension_rows ext.now)
        number 0 main.now.rows) }
{
    let mut list = Sequence::new(alloc);
    for index in 0..main.count() {
        if let Some(row) = main.row(index) {
            renew(alloc, ext, number, index, row, &mut list)?;
        }
    }
    Ok(list)
}

/// Puts each in its place.
fn put_all(book: &mut Book, list: Sequence<Renewed>)
    ensures { book.new ≡ changed.with_renewed book.old list }
{
    let mut rest = list.into_vec();
    while let Some(last) = rest.pop() {
        let Renewed { index, row } = last;
        put(book, index, row);
    }
}

/// Decodes the main rows anew that name an extension row.
fn redecode_naming(
    alloc: Global,
    book: &mut Book,
    main: &Rows,
    ext: &Rows,
    number: u8,
) -> Result<(), Memory>
    requires first { 1 ≤ number }
    requires before { changed.WasBook 1 number main.now ext.now book.old }
    ensures ok { OnOk result (book.new ≡ phonebook.decode_book main.now ext.now) }
    ensures err { OnErr result (book.new ≡ book.old) }
{
    if main.kind() == FileKind::Linear {
        let list = naming_rows(alloc, main, ext, number)?;
        put_all(book, list);
    }
    Ok(())
}
