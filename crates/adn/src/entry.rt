// The rows of a phonebook.
ghost use Rattle.std.specs.Prelude.{◌≡◌, IfOk};

use apdu::{Memory, Sequence, Text};
use std::alloc::Global;

/// An entry of the phonebook. Its name and its number are not both empty.
#[derive(Drop)]
pub struct AdnEntry {
    pub name: Text,
    /// Digits `0` to `9`, `*`, `#`, `,` for a pause and `N` for a wild digit; `+` stands before an
    /// international number.
    pub number: Text,
}

/// What a row of the phonebook holds.
#[derive(Drop)]
pub enum BookRow {
    /// Neither a name nor a number.
    Free,
    Entry(AdnEntry),
    /// The row is too short, or its count of bytes is none that a number has.
    Unreadable,
}

/// The rows of a phonebook in their order, row 1 first.
pub type Book = Sequence<BookRow>;

impl AdnEntry {
    pub fn copy(&self, alloc: Global) -> Result<AdnEntry, Memory>
        ensures { IfOk result (λ entry. entry ≡ self.now) }
    {
        Ok(AdnEntry {
            name: Text::from_str(alloc, self.name.as_str())?,
            number: Text::from_str(alloc, self.number.as_str())?,
        })
    }
}

impl BookRow {
    pub fn copy(&self, alloc: Global) -> Result<BookRow, Memory>
        ensures { IfOk result (λ row. row ≡ self.now) }
    {
        match self {
            BookRow::Free => Ok(BookRow::Free),
            BookRow::Entry(entry) => Ok(BookRow::Entry(entry.copy(alloc)?)),
            BookRow::Unreadable => Ok(BookRow::Unreadable),
        }
    }
}

/// A copy of a book.
pub fn copy_book(alloc: Global, book: &Book) -> Result<Book, Memory>
    ensures { IfOk result (λ copy. copy ≡ book.now) }
{
    let rows = book.as_slice();
    let mut copy = Sequence::new(alloc);
    for row in rows {
        copy.push(row.copy(alloc)?)?;
    }
    Ok(copy)
}
