// The two files of a phonebook, and the extension rows that a plan fills and frees.
ghost use Rattle.std.specs.Prelude.{◌≡◌, ◌≤◌, ◌<◌, ◌==◌, ◌-◌, ◌∷◌, ◌&&◌, not, ℕ, [], None, true, IsTrue, IfOk, length, slice_get, slice_set, slice_index, slice_index_or};
ghost use Rattle.std.specs.Option.{option_copied};
ghost use Rattle.apdu.specs.Words.{is_between, is_one_of};
ghost use Rattle.fcp.specs.Content.{is_linear};
ghost use Rattle.adn.specs.Book as books;
ghost use Rattle.families.specs.Plans as plans;
ghost use Rattle.book_plans.specs.Phonebook.{names_of, is_among, marked};

use crate::row_bytes::{ADDITIONAL_DATA, FREE_EXTENSION};
use crate::target::is_free;
use adn::BookRow;
use apdu::{Memory, Sequence};
use fcp::{FileKind, Rows};
use std::alloc::Global;
use std::marker::Model;

/// The narrowest row of an extension file.
const EXTENSION_LEN: u16 = 13;

/// A linear main file whose rows have room for a number, its extension file, and the extension row
/// that each main row names.
#[derive(Drop)]
pub struct Phonebook<'a> {
    main: &'a Rows,
    ext: &'a Rows,
    names: Sequence<Option<u8>>,
}

impl<'a> Model for Phonebook<'a> {
    ghost use Rattle.book_plans.specs.Phonebook.{Files, IsPhonebook};

    ghost Value = { Files };

    ghost view = { λ p. record { main = p.main.now; ext = p.ext.now } };

    ghost invariant = { λ p. IsPhonebook p.main.now p.ext.now p.names };
}

// ---- extension rows

/// How many rows a linear file has.
#[tactic(auto, using(crate::proofs::Files::linear_limit))]
pub fn linear_count(rows: &Rows) -> u8
    requires { IsTrue (is_linear rows.now.kind) }
    ensures { result ≡ length rows.now.rows }
{
    rows.count() as u8
}

/// How many extension rows a file has; one that is not linear, or too narrow, has none.
fn extension_count(ext: &Rows) -> u8
    ensures { result ≡ length (books.extension_rows ext.now) }
{
    if ext.kind() != FileKind::Linear || ext.width() < EXTENSION_LEN {
        return 0;
    }
    linear_count(ext)
}

/// The extension row of a number, counted from 1.
fn extension_row(ext: &Rows, number: u8) -> Option<&[u8]>
    ensures { option_copied result ≡ slice_get (books.extension_rows ext.now) (number - 1) }
{
    if ext.kind() != FileKind::Linear || ext.width() < EXTENSION_LEN {
        return None;
    }
    ext.row(usize::from(number).saturating_sub(1))
}

/// The type of an extension row; 00 where there is none.
fn extension_type(ext: &Rows, number: u8) -> u8
    ensures { result ≡ plans.extension_type ext.now number }
{
    match extension_row(ext, number) {
        Some([kind, ..]) => *kind,
        _ => 0x00,
    }
}

/// Whether the type of an extension row is that of a free one.
fn has_free_type(row: &[u8]) -> bool
    ensures { result ≡ is_one_of (slice_index row.now 0) (0x00 ∷ 0xFF ∷ []) }
{
    match row {
        [kind, ..] => *kind == FREE_EXTENSION || *kind == 0xFF,
        [] => true,
    }
}

// ---- what main rows name

/// The extension row that the last byte of a row names, where there is one.
fn named_number(ext: &Rows, row: &[u8]) -> Option<u8>
    ensures { result ≡ plans.named_number (books.extension_rows ext.now) row.now }
{
    match row {
        [.., number] if (1..=254).contains(number) && *number <= extension_count(ext) => {
            Some(*number)
        }
        _ => None,
    }
}

/// The same, where a free row names none.
fn named_extension(ext: &Rows, decoded: &BookRow, row: &[u8]) -> Option<u8>
    requires { decoded.now ≡ books.book_row (books.extension_rows ext.now) row.now }
    ensures { result ≡ plans.named_extension (books.extension_rows ext.now) row.now }
{
    if is_free(decoded) {
        None
    } else {
        named_number(ext, row)
    }
}

/// What each main row names.
fn names_of(
    alloc: Global,
    book: &[BookRow],
    main: &Rows,
    ext: &Rows,
) -> Result<Sequence<Option<u8>>, Memory>
    requires linear { IsTrue (is_linear main.now.kind) }
    requires decoded { book.now ≡ books.decode_book main.now ext.now }
    ensures { IfOk result (λ names. names
        ≡ names_of (books.extension_rows ext.now) main.now.rows) }
{
    let mut names = Sequence::new(alloc);
    while let Some(row) = main.row(names.len()) {
        let decoded = &book[names.len()];
        names.push(named_extension(ext, decoded, row))?;
    }
    Ok(names)
}

/// Whether a number is among the names.
fn is_among(names: &[Option<u8>], number: u8) -> bool
    ensures { result ≡ is_among names.now number }
{
    names.iter().any(|name| *name == Some(number))
}

/// The same, but for one of the names.
fn is_among_others(names: &[Option<u8>], index: usize, number: u8) -> bool
    requires { index < length names.now }
    ensures { result ≡ is_among (slice_set names.now index None) number }
{
    is_among(&names[..index], number) || is_among(&names[index + 1..], number)
}

/// Marks a number that is named.
fn mark(named: &mut [bool; 256], name: Option<u8>)
    ensures { named.new ≡ marked named.old name }
{
    if let Some(number) = name {
        named[usize::from(number)] = true;
    }
}

/// Which numbers are among the names.
fn marks_of(names: &[Option<u8>]) -> [bool; 256]
    ensures { (number : ℕ) → number < 256
        → slice_index_or result number true ≡ is_among names.now number }
{
    let mut named = [false; 256];
    for name in names {
        mark(&mut named, *name);
    }
    named
}

impl<'a> Phonebook<'a> {
    /// Takes the files and the book that is decoded from them.
    pub fn new(
        alloc: Global,
        book: &[BookRow],
        main: &'a Rows,
        ext: &'a Rows,
    ) -> Result<Phonebook<'a>, Memory>
        requires linear { IsTrue (is_linear main.now.kind) }
        requires wide { books.footer_len ≤ main.now.width }
        requires decoded { book.now ≡ books.decode_book main.now ext.now }
        ensures { IfOk result (λ p. p ≡ record { main = main.now; ext = ext.now }) }
    {
        let names = names_of(alloc, book, main, ext)?;
        Ok(Phonebook { main, ext, names })
    }

    /// The width of a main row.
    pub fn main_width(&self) -> u16
        ensures width { result ≡ self.now.main.width }
        ensures wide { books.footer_len ≤ result }
    {
        self.main.width()
    }

    /// The width of an extension row.
    pub fn extension_width(&self) -> u16
        ensures { result ≡ self.now.ext.width }
    {
        self.ext.width()
    }

    /// How many extension rows there are.
    pub fn extension_count(&self) -> u8
        ensures { result ≡ length (books.extension_rows self.now.ext) }
    {
        extension_count(self.ext)
    }

    /// The lowest free extension row, counted from 1.
    pub fn free_extension(&self) -> Option<u8>
        ensures { result ≡ plans.free_extension self.now.main self.now.ext }
    {
        let named = self.named();
        for number in 1..255u8 {
            let row = extension_row(self.ext, number)?;
            if self.is_free(&named, number, row) {
                return Some(number);
            }
        }
        None
    }

    /// Which extension rows the main rows name.
    #[tactic(auto, using(crate::proofs::Names::is_named_names))]
    fn named(&self) -> [bool; 256]
        ensures { (number : ℕ) → number < 256 → slice_index_or result number true
            ≡ plans.is_named (books.extension_rows self.now.ext) (books.main_rows self.now.main)
            number }
    {
        marks_of(self.names.as_slice())
    }

    /// Whether an extension row is free.
    fn is_free(&self, named: &[bool; 256], number: u8, row: &[u8]) -> bool
        requires range { is_between 1 254 number ≡ true }
        requires named { slice_index_or named.now number true
            ≡ plans.is_named (books.extension_rows self.now.ext) (books.main_rows self.now.main)
            number }
        ensures { result ≡ plans.is_free_extension self.now.main self.now.ext number row.now }
    {
        has_free_type(row) && !named[usize::from(number)]
    }

    /// The extension row that a main row names as additional data, where no other main row names it.
    pub fn released_extension(&self, at: u8) -> Option<u8>
        requires first { 1 ≤ at }
        requires last { at ≤ length self.now.main.rows }
        ensures { result ≡ plans.released_extension self.now.main self.now.ext at }
    {
        let number = self.names.as_slice()[usize::from(at) - 1]?;
        if self.is_released(at, number) {
            Some(number)
        } else {
            None
        }
    }

    /// Whether an extension row has additional data and no main row but this one names it.
    #[tactic(auto, using(crate::proofs::Names::is_named_without))]
    fn is_released(&self, at: u8, number: u8) -> bool
        requires first { 1 ≤ at }
        requires last { at ≤ length self.now.main.rows }
        ensures { result ≡ ((plans.extension_type self.now.ext number == 0x02)
            && not (plans.is_named (books.extension_rows self.now.ext)
            (plans.without_row self.now.main at) number)) }
    {
        let others = is_among_others(self.names.as_slice(), usize::from(at) - 1, number);
        extension_type(self.ext, number) == ADDITIONAL_DATA && !others
    }
}
