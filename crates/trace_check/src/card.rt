// What the card in the slot holds and shows.
ghost use Rattle.std.specs.Prelude.{◌≡◌, ◌<◌, IfOk};
ghost use Rattle.std.specs.Option.{option_copied};
ghost use Rattle.fcp.specs.Content.{missing as no_file};
ghost use Rattle.card_model.specs.Card.{rows_of as rows_on};
ghost use Rattle.card_model.specs.Step.{card_inside as card_in};
ghost use Rattle.families.specs.Families as families;
ghost use Rattle.rules.specs.State as state;
ghost use Rattle.serde_json.specs.Written.{compact_text};

use adn::decode_book;
use apdu::{Memory, Path, Text};
use card_model::{CardState, World};
use card_rows::file_of;
use editor::family_paths;
use families::{ContentText, Families, Standard, StandardContent};
use fcp::{FileView, Rows};
use std::alloc::Global;

/// The number of families that a card can show.
const FAMILIES: u8 = 3;

/// The card in the slot.
pub fn card_inside(world: &World) -> Option<&CardState>
    ensures { option_copied result ≡ card_in world.now }
{
    match world.inside {
        None => None,
        Some(place) => world.cards.get(place as usize),
    }
}

/// The files of a card.
#[derive(Drop)]
struct OnCard<'a> {
    card: &'a CardState,
}

impl FileView for OnCard<'_> {
    ghost use Rattle.std.specs.Prelude.{option_map};
    ghost use Rattle.card_model.specs.declared.world.FileState.{FileState};
    ghost use Rattle.card_model.specs.Card.{file_of};

    ghost content = { λ v path. option_map (λ (f : FileState). f.rows) (file_of path v.card.now) };

    fn rows(&self, path: &Path) -> Option<&Rows> {
        match file_of(path.ids(), self.card) {
            None => None,
            Some(file) => Some(&file.rows),
        }
    }
}

/// The file of these ids, which is this one where the card has none.
fn rows_of<'a>(ids: &[u16], card: &'a CardState, missing: &'a Rows) -> &'a Rows
    requires { missing.now ≡ no_file }
    ensures { result.now ≡ rows_on ids.now card.now }
{
    match file_of(ids, card) {
        None => missing,
        Some(file) => &file.rows,
    }
}

/// File `at` of a family, by its place among the family's paths; the card in the slot has none of a place that there is not.
fn file_on<'a>(card: &'a CardState, family: u8, at: usize, missing: &'a Rows) -> &'a Rows
    requires { missing.now ≡ no_file }
    ensures { result.now ≡ rows_on (families.family_path family at) card.now }
{
    let paths = family_paths(family);
    match paths.as_slice().get(at) {
        None => rows_of(&[], card, missing),
        Some(path) => rows_of(path.ids(), card, missing),
    }
}

/// The same of the card in the slot, if there is one.
pub fn file_in<'a>(world: &'a World, family: u8, at: usize, missing: &'a Rows) -> &'a Rows
    requires { missing.now ≡ no_file }
    ensures { result.now ≡ state.view_in world.now (families.family_path family at) }
{
    match card_inside(world) {
        None => missing,
        Some(card) => file_on(card, family, at, missing),
    }
}

/// What is shown of a book's two files.
fn book_text(alloc: Global, main: &Rows, ext: &Rows) -> Result<Text, Memory>
    ensures { IfOk result (λ text. text ≡ compact_text (families.book_data main.now ext.now)) }
{
    StandardContent::Book(decode_book(alloc, main, ext)?).text(alloc)
}

/// What the card shows of a family.
fn text_on(alloc: Global, family: u8, card: &CardState) -> Result<Text, Memory>
    ensures { IfOk result (λ text. text ≡ families.shown family (state.content_on (Some card.now))) }
{
    if family < FAMILIES {
        let content = Standard.decode(alloc, family, &OnCard { card })?;
        return content.text(alloc);
    }
    let missing = Rows::missing(alloc);
    let main = file_on(card, family, 0, &missing);
    book_text(alloc, main, file_on(card, family, 1, &missing))
}

/// What the card in the slot shows of a family; without a card nothing is shown.
pub fn text_shown(alloc: Global, family: u8, world: &World) -> Result<Option<Text>, Memory>
    ensures { IfOk result (λ text. text ≡ state.shown_in world.now family) }
{
    match card_inside(world) {
        None => Ok(None),
        Some(card) => Ok(Some(text_on(alloc, family, card)?)),
    }
}
