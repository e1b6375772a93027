// Phonebooks of worked rows.
use adn::{Book, BookRow, decode_book};
use fcp::{FileKind, Rows};
use std::alloc::Global;
use std::test::Fail;

/// A main file, its extension file, and what each row of their book holds.
pub const BOOKS: &str =
    "linear 426F62FFFFFFFFFFFFFF059151552143FFFFFFFFFFFFFFFF / missing:Bob +15551234;
linear 80042F04300431FFFFFF0481A1CB0DFFFFFFFFFFFFFFFFFF / missing:Яаб 1*#,N0;
linear 426F62FFFFFFFFFFFFFF059051552143FFFFFFFFFFFFFFFF / missing:Bob +15551234;
linear 426F62FFFFFFFFFFFFFF051F51552143FFFFFFFFFFFFFFFF / missing:Bob +15551234;
linear 426F62FFFFFFFFFFFFFF05A151552143FFFFFFFFFFFFFFFF / missing:Bob 15551234;
linear 426F62FFFFFFFFFFFFFF05B151552143FFFFFFFFFFFFFFFF / missing:Bob 15551234;
linear 426F62FFFFFFFFFFFFFF058151552143FFFFFFFFFFFFFFFF / missing:Bob 15551234;
linear 426F62FFFFFFFFFFFFFF009151552143FFFFFFFFFFFFFFFF / missing:Bob ;
linear 426F62FFFFFFFFFFFFFF019151552143FFFFFFFFFFFFFFFF / missing:Bob ;
linear 426F62FFFFFFFFFFFFFFFF9151552143FFFFFFFFFFFFFFFF / missing:Bob ;
linear 426F62FFFFFFFFFFFFFF039151552143FFFFFFFFFFFFFFFF / missing:Bob +1555;
linear 426F62FFFFFFFFFFFFFF0B9121436587092143658709FFFF / missing:Bob +12345678901234567890;
linear 426F62FFFFFFFFFFFFFF059151F52143FFFFFFFFFFFFFFFF / missing:Bob +155;
linear FFFFFFFFFFFFFFFFFFFFFFFFFFFFFFFFFFFFFFFFFFFFFFFF / missing:free;
linear FFFFFFFFFFFFFFFFFFFF0591FF552143FFFFFFFFFFFFFFFF / missing:free;
linear FFFFFFFFFFFFFFFFFFFF038121FFFFFFFFFFFFFFFFFFFFFF / missing: 12;
linear 426F62FFFFFFFFFFFFFF0C9121436587092143658709FFFF / missing:unreadable;
linear 426F62FFFFFFFFFFFFFFFE9121436587092143658709FFFF / missing:unreadable;
linear 03812143FFFFFFFFFFFFFFFFFFFF / missing: 1234;
linear FFFFFFFFFFFFFFFFFFFFFFFFFF / missing:unreadable;
transparent FFFFFFFFFFFFFFFFFFFFFFFFFFFFFFFFFFFFFFFFFFFFFFFF / missing:
missing / missing:
linear FFFF0B8121436587092143658709FF01 / six: 1234567890123456789012;
linear FFFF0B8121436587092143658709FF02 / six: 1234567890123456789012345678901234567890;
linear FFFF0B8121436587092143658709FF00 / six: 12345678901234567890;
linear FFFF0B8121436587092143658709FF03 / six: 12345678901234567890;
linear FFFF0B8121436587092143658709FF04 / six: 12345678901234567890;
linear FFFF0B8121436587092143658709FF05 / six: 12345678901234567890;
linear FFFF0B8121436587092143658709FF06 / six: 12345678901234567890;
linear FFFF0B8121436587092143658709FF07 / six: 12345678901234567890;
linear FFFF0B8121436587092143658709FFFF / six: 12345678901234567890;
linear FFFF0B8121436587092143658709FF01 / linear 02012134FFFFFFFFFFFFFFFFFFFF: 1234567890123456789012;
linear FFFF0B8121436587092143658709FF01 / linear 020121FFFFFFFFFFFFFFFFFF: 12345678901234567890;
linear FFFF0B8121436587092143658709FF01 / transparent 020121FFFFFFFFFFFFFFFFFFFF: 12345678901234567890;
linear FFFF01812143FFFFFFFFFFFFFFFFFF01,41FF01812143FFFFFFFFFFFFFFFFFF01,41FF028121FFFFFFFFFFFFFFFFFFFF01 / linear 020134FFFFFFFFFFFFFFFFFFFF:free;A ;A 1243;";

/// Extension rows of additional data, of too many bytes of it, of two other types, and of none.
const SIX: &str =
    "020121FFFFFFFFFFFFFFFFFFFF,020A21436587092143658709FF,020B21436587092143658709FF,010121FFFFFFFFFFFFFFFFFFFF,000121FFFFFFFFFFFFFFFFFFFF,020021FFFFFFFFFFFFFFFFFFFF";

fn push_row(file: &mut Rows, row: &[u8]) -> Result<(), Fail> {
    let is_linear = file.kind() == FileKind::Linear;
    if is_linear && row.len() == usize::from(file.width()) && file.count() < 255 {
        file.push(row)?;
        Ok(())
    } else {
        Err("a row".into())
    }
}

/// A linear file of these rows in hexadecimal, each as wide as the first.
fn linear(alloc: Global, rows: &str) -> Result<Rows, Fail> {
    let (first, _) = rows.split_once(',').unwrap_or((rows, ""));
    let width = first.len() / 2;
    if width > 255 {
        return Err("a width".into());
    }
    let mut file = Rows::linear(alloc, width as u16);
    for row in rows.split(',') {
        let bytes = hex::decode(alloc, row)?;
        push_row(&mut file, &bytes)?;
    }
    Ok(file)
}

fn transparent(alloc: Global, bytes: &str) -> Result<Rows, Fail> {
    let bytes = hex::decode(alloc, bytes)?;
    if bytes.len() > 255 {
        return Err("bytes".into());
    }
    Ok(Rows::transparent(alloc, &bytes)?)
}

/// A file of its kind and its bytes, or none.
fn file(alloc: Global, text: &str) -> Result<Rows, Fail> {
    match text.split_once(' ') {
        Some(("linear", rows)) => linear(alloc, rows),
        Some((_, bytes)) => transparent(alloc, bytes),
        None if text == "six" => linear(alloc, SIX),
        None => Ok(Rows::missing(alloc)),
    }
}

/// What a row holds: a name and a number, or a mark for the other two.
fn row_text(alloc: Global, row: &BookRow) -> Result<String, Fail> {
    Ok(match row {
        BookRow::Free => String::from_str(alloc, "free;")?,
        BookRow::Unreadable => String::from_str(alloc, "unreadable;")?,
        BookRow::Entry(entry) => {
            format!(in alloc; "{} {};", entry.name.as_str(), entry.number.as_str())?
        }
    })
}

fn book_text(alloc: Global, book: &Book) -> Result<String, Fail> {
    let mut text = String::new(alloc);
    for row in book.as_slice() {
        text.push_str(row_text(alloc, row)?.as_str())?;
    }
    Ok(text)
}

/// The rows of the book of a main file and its extension file.
pub fn book_of(alloc: Global, files: &str) -> Result<String, Fail> {
    let (main, ext) = files.split_once(" / ").ok_or("two files")?;
    let main = file(alloc, main)?;
    let ext = file(alloc, ext)?;
    let book = decode_book(alloc, &main, &ext)?;
    book_text(alloc, &book)
}
