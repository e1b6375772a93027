// The three families of a USIM.
ghost use Rattle.std.specs.Prelude.{◌≡◌, ◌≤◌, ◌<◌, [], ◌∷◌, IfOk, OnOk, OnErr, length};
ghost use Rattle.fcp.specs.Content as file_content;
ghost use Rattle.adn.specs.Book as phonebook;
ghost use Rattle.adn.specs.Changed.{WasBook};
ghost use Rattle.families.specs.Families as standard;
ghost use Rattle.families.specs.Contents as spec;

use crate::copies::Copies;
use crate::decode::{ad_field, applications, iccid_field, imsi_field, spn_field};
use crate::json::ToJson;
use crate::{ContentText, Families, Records, StandardContent};
use adn::{Book, copy_book, decode_book, redecode};
use apdu::{Memory, Path, Text};
use arrayvec::ArrayVec;
use fcp::{FileView, Rows};
use std::alloc::Global;

const RECORDS: u8 = 0;

const PHONEBOOK: u8 = 1;

const ICCID: [u16; 1] = [0x2FE2];

const IMSI: [u16; 2] = [0x7FFF, 0x6F07];

const AD: [u16; 2] = [0x7FFF, 0x6FAD];

const SPN: [u16; 2] = [0x7FFF, 0x6F46];

const MSISDN: [u16; 2] = [0x7FFF, 0x6F40];

const EXT5: [u16; 2] = [0x7FFF, 0x6F4E];

const DIR: [u16; 1] = [0x2F00];

const ADN: [u16; 2] = [0x7F10, 0x6F3A];

const EXT1: [u16; 2] = [0x7F10, 0x6F4A];

const FDN: [u16; 2] = [0x7FFF, 0x6F3B];

const EXT2: [u16; 2] = [0x7FFF, 0x6F4B];

/// The records, the phonebook and the fixed dialling numbers, in that order.
#[derive(Clone, Copy, Debug, PartialEq, Eq)]
pub struct Standard;

/// The path of one to three ids.
fn path(ids: &[u16]) -> Path
    requires some { 0 < length ids.now }
    requires few { length ids.now ≤ 3 }
    ensures { result ≡ ids.now }
{
    match Path::from_ids(ids) {
        Some(path) => path,
        None => unreachable!(),
    }
}

fn records_paths() -> ArrayVec<Path, 8>
    ensures { result.items ≡ standard.family_paths standard.records }
{
    let mut paths = ArrayVec::new_in(());
    paths.push(path(&ICCID));
    paths.push(path(&IMSI));
    paths.push(path(&AD));
    paths.push(path(&SPN));
    paths.push(path(&MSISDN));
    paths.push(path(&EXT5));
    paths.push(path(&DIR));
    paths
}

fn book_paths(main: [u16; 2], extension: [u16; 2]) -> ArrayVec<Path, 8>
    ensures { result.items ≡ main ∷ extension ∷ [] }
{
    let mut paths = ArrayVec::new_in(());
    paths.push(path(&main));
    paths.push(path(&extension));
    paths
}

/// The file of a path, which is this one where the view does not know it.
fn file<'a, V: FileView>(view: &'a V, ids: &[u16], missing: &'a Rows) -> &'a Rows
    requires some { 0 < length ids.now }
    requires few { length ids.now ≤ 3 }
    requires missing { missing.now ≡ file_content.missing }
    ensures { result.now ≡ spec.files_of (V.content view.now) ids.now }
{
    view.rows(&path(ids)).unwrap_or(missing)
}

fn records<V: FileView>(alloc: Global, view: &V) -> Result<Records, Memory>
    ensures { IfOk result (λ records.
        records ≡ spec.records_of (spec.files_of (V.content view.now))) }
{
    let missing = Rows::missing(alloc);
    Ok(Records {
        iccid: iccid_field(alloc, file(view, &ICCID, &missing))?,
        imsi: imsi_field(alloc, file(view, &IMSI, &missing))?,
        ad: ad_field(file(view, &AD, &missing))?,
        spn: spn_field(alloc, file(view, &SPN, &missing))?,
        msisdn: decode_book(
            alloc,
            file(view, &MSISDN, &missing),
            file(view, &EXT5, &missing),
        )?,
        applications: applications(alloc, file(view, &DIR, &missing))?,
    })
}

/// The book of a main file and its extension file.
fn book<V: FileView>(
    alloc: Global,
    view: &V,
    main: [u16; 2],
    extension: [u16; 2],
) -> Result<Book, Memory>
    ensures { IfOk result (λ book. book ≡ phonebook.decode_book
        (spec.files_of (V.content view.now) main)
        (spec.files_of (V.content view.now) extension)) }
{
    let missing = Rows::missing(alloc);
    decode_book(
        alloc,
        file(view, &main, &missing),
        file(view, &extension, &missing),
    )
}

/// What the files of a family hold.
fn content<V: FileView>(alloc: Global, family: u8, view: &V) -> Result<StandardContent, Memory>
    requires { family < spec.family_count }
    ensures { IfOk result (λ content.
        content ≡ spec.decoded family (spec.files_of (V.content view.now))) }
{
    match family {
        RECORDS => Ok(StandardContent::Records(records(alloc, view)?)),
        PHONEBOOK => Ok(StandardContent::Book(book(alloc, view, ADN, EXT1)?)),
        _ => Ok(StandardContent::Book(book(alloc, view, FDN, EXT2)?)),
    }
}

impl ContentText for StandardContent {
    ghost use Rattle.families.specs.Contents.{content_text};

    ghost shown_text = { content_text };

    #[tactic(auto, using(crate::proofs::Shown::json_whole))]
    fn text(&self, alloc: Global) -> Result<Text, Memory> {
        let value = self.to_json(alloc)?;
        Ok(Text::from_string(value.to_string(alloc)?))
    }

    fn copy(&self, alloc: Global) -> Result<StandardContent, Memory> {
        match self {
            StandardContent::Records(records) => {
                Ok(StandardContent::Records(records.copied(alloc)?))
            }
            StandardContent::Book(book) => Ok(StandardContent::Book(copy_book(alloc, book)?)),
        }
    }
}

// ---- behind an update of one row

/// Makes a book that of its files behind an update of a row of one of them.
fn patch_book<V: FileView>(
    alloc: Global,
    book: &mut Book,
    view: &V,
    main: [u16; 2],
    extension: [u16; 2],
    number: u8,
    row: u8,
) -> Result<(), Memory>
    requires first { 1 ≤ row }
    requires before { WasBook number row (spec.files_of (V.content view.now) main)
        (spec.files_of (V.content view.now) extension) book.old }
    ensures ok { OnOk result (book.new ≡ phonebook.decode_book
        (spec.files_of (V.content view.now) main)
        (spec.files_of (V.content view.now) extension)) }
    ensures err { OnErr result (book.new ≡ book.old) }
{
    let missing = Rows::missing(alloc);
    redecode(
        alloc,
        book,
        file(view, &main, &missing),
        file(view, &extension, &missing),
        number,
        row,
    )
}

impl Families for Standard {
    ghost use Rattle.families.specs.OwnFiles.{same_shown};

    type Content = StandardContent;

    ghost family_count = { λ _. spec.family_count };

    ghost family_paths = { λ _. standard.family_paths };

    ghost is_editable = { λ _. spec.is_editable };

    ghost decoded = { λ _. spec.decoded };

    ghost shown = { λ _. standard.shown };

    fn count(&self) -> u8 {
        3
    }

    fn paths(&self, family: u8) -> ArrayVec<Path, 8> {
        match family {
            RECORDS => records_paths(),
            PHONEBOOK => book_paths(ADN, EXT1),
            _ => book_paths(FDN, EXT2),
        }
    }

    fn editable(&self, family: u8) -> bool {
        family != RECORDS
    }

    fn decode<V: FileView>(
        &self,
        alloc: Global,
        family: u8,
        view: &V,
    ) -> Result<StandardContent, Memory> {
        content(alloc, family, view)
    }

    fn patch<V: FileView>(
        &self,
        alloc: Global,
        family: u8,
        content: &mut StandardContent,
        view: &V,
        file: u8,
        row: u8,
    ) -> Result<(), Memory> {
        match content {
            StandardContent::Book(book) => match family {
                PHONEBOOK => patch_book(alloc, book, view, ADN, EXT1, file, row),
                _ => patch_book(alloc, book, view, FDN, EXT2, file, row),
            },
            StandardContent::Records(_) => Ok(()),
        }
    }

    ghost shown_by_paths = { λ set. same_shown };
}
