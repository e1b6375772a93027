// The updates of an edit.
ghost use Rattle.std.specs.Prelude.{◌≡◌, ◌≤◌, None, IsTrue, IfOk, length, option_map};
ghost use Rattle.fcp.specs.Content.{is_linear};
ghost use Rattle.adn.specs.declared.edit.Edit.TheVariants as edit_kind;
ghost use Rattle.families.specs.Plans as plans;

use crate::phonebook::{Phonebook, linear_count};
use crate::row_bytes::{FOOTER_LEN, extension_bytes, free_row, number_bytes, released_bytes};
use crate::target::{row_from_target, target_of};
use crate::words::{digit_bytes, has_plus, name_bytes};
use adn::{AdnEntry, BookRow, Edit, Plan, PlanError, RowUpdate, decode_book};
use apdu::{Bytes, Memory};
use fcp::{FileKind, Rows};
use std::alloc::Global;

/// The bytes of digits that a main row holds.
const OWN_DIGITS: usize = 10;

/// No extension row.
const NO_EXTENSION: u8 = 0xFF;

const MAIN: u8 = 0;

const EXTENSION: u8 = 1;

/// The updates of an edit for what the main file and the extension file hold, or why there are none.
pub fn plan_edit(
    alloc: Global,
    edit: &Edit,
    main: &Rows,
    ext: &Rows,
) -> Result<Result<Plan, PlanError>, Memory>
    ensures { IfOk result (λ planned. planned ≡ plans.plan_edit edit.now main.now ext.now) }
{
    let width = main.width();
    if main.kind() != FileKind::Linear || width < FOOTER_LEN {
        return Ok(Err(PlanError::BadFile { width }));
    }
    let book = decode_book(alloc, main, ext)?;
    match row_to_edit(main, book.as_slice(), edit) {
        Err(refusal) => Ok(Err(refusal)),
        Ok(at) => {
            let phonebook = Phonebook::new(alloc, book.as_slice(), main, ext)?;
            plan_at(alloc, &phonebook, edit, at)
        }
    }
}

/// The row that is to be written, counted from 1, or why there is none.
fn row_to_edit(main: &Rows, book: &[BookRow], edit: &Edit) -> Result<u8, PlanError>
    requires linear { IsTrue (is_linear main.now.kind) }
    requires whole { length book.now ≡ length main.now.rows }
    ensures { result ≡ plans.row_from_target (length main.now.rows)
        (plans.target_of book.now edit.now) }
{
    let count = linear_count(main);
    row_from_target(count, target_of(book, edit))
}

fn plan_at(
    alloc: Global,
    phonebook: &Phonebook,
    edit: &Edit,
    at: u8,
) -> Result<Result<Plan, PlanError>, Memory>
    requires first { 1 ≤ at }
    requires last { at ≤ length phonebook.now.main.rows }
    ensures { IfOk result (λ planned. planned
        ≡ plans.plan_at phonebook.now.main phonebook.now.ext edit.now at) }
{
    match edit {
        Edit::Set { entry, .. } => plan_set(alloc, phonebook, at, entry),
        Edit::Clear { .. } => Ok(Ok(clear_plan(alloc, phonebook, at)?)),
    }
}

// ---- an entry is written

fn plan_set(
    alloc: Global,
    phonebook: &Phonebook,
    at: u8,
    entry: &AdnEntry,
) -> Result<Result<Plan, PlanError>, Memory>
    requires first { 1 ≤ at }
    requires last { at ≤ length phonebook.now.main.rows }
    ensures { IfOk result (λ planned. planned ≡ plans.plan_at phonebook.now.main
        phonebook.now.ext (edit_kind.Set None entry.now) at) }
{
    let room = usize::from(phonebook.main_width() - FOOTER_LEN);
    let number = entry.number.as_str().as_bytes();
    let name = match name_bytes(alloc, room, &entry.name)? {
        Ok(name) => name,
        Err(refusal) => return Ok(Err(refusal)),
    };
    let digits = match digit_bytes(number) {
        Ok(digits) => digits,
        Err(refusal) => return Ok(Err(refusal)),
    };
    match extension_for(phonebook, digits.as_slice()) {
        Err(refusal) => Ok(Err(refusal)),
        Ok(extension) => {
            let digits = digits.as_slice();
            let plan = set_plan(
                alloc,
                phonebook,
                at,
                name,
                has_plus(number),
                digits,
                extension,
            )?;
            Ok(Ok(plan))
        }
    }
}

/// The extension row for the digits behind the twentieth, where there are such.
fn extension_for(phonebook: &Phonebook, digits: &[u8]) -> Result<Option<u8>, PlanError>
    ensures { result ≡ plans.extension_for phonebook.now.main phonebook.now.ext digits.now }
{
    if digits.len() <= OWN_DIGITS {
        return Ok(None);
    }
    match phonebook.free_extension() {
        Some(number) => Ok(Some(number)),
        None => Err(PlanError::ExtFull {
            count: phonebook.extension_count(),
        }),
    }
}

fn set_plan(
    alloc: Global,
    phonebook: &Phonebook,
    at: u8,
    name: Bytes,
    international: bool,
    digits: &[u8],
    extension: Option<u8>,
) -> Result<Plan, Memory>
    requires first { 1 ≤ at }
    requires last { at ≤ length phonebook.now.main.rows }
    requires digits { length digits.now ≤ 20 }
    ensures { IfOk result (λ plan. plan ≡ plans.set_plan phonebook.now.main phonebook.now.ext
        at name international digits.now extension) }
{
    let own = &digits[..digits.len().min(OWN_DIGITS)];
    let further = &digits[own.len()..];
    let mut bytes = name;
    let last = extension.unwrap_or(NO_EXTENSION);
    let number = number_bytes(alloc, international, own, last)?;
    bytes.extend_from_slice(number.as_slice())?;
    Ok(Plan {
        before: filled_extension(alloc, phonebook, further, extension)?,
        deciding: update_of(MAIN, at, bytes),
        after: freed_extension(alloc, phonebook, at)?,
    })
}

/// The update that fills the extension row, where the number needs one.
fn filled_extension(
    alloc: Global,
    phonebook: &Phonebook,
    further: &[u8],
    extension: Option<u8>,
) -> Result<Option<RowUpdate>, Memory>
    requires { length further.now ≤ 10 }
    ensures { IfOk result (λ update. update ≡ option_map (λ number. plans.update_of 1 number
        (plans.extension_bytes phonebook.now.ext.width further.now)) extension) }
{
    let Some(number) = extension else {
        return Ok(None);
    };
    let bytes = extension_bytes(alloc, phonebook.extension_width(), further)?;
    Ok(Some(update_of(EXTENSION, number, bytes)))
}

// ---- a row is freed

fn clear_plan(alloc: Global, phonebook: &Phonebook, at: u8) -> Result<Plan, Memory>
    requires first { 1 ≤ at }
    requires last { at ≤ length phonebook.now.main.rows }
    ensures { IfOk result (λ plan. plan
        ≡ plans.clear_plan phonebook.now.main phonebook.now.ext at) }
{
    let bytes = free_row(alloc, phonebook.main_width())?;
    Ok(Plan {
        before: None,
        deciding: update_of(MAIN, at, bytes),
        after: freed_extension(alloc, phonebook, at)?,
    })
}

/// The update that frees the extension row which the row named before.
fn freed_extension(
    alloc: Global,
    phonebook: &Phonebook,
    at: u8,
) -> Result<Option<RowUpdate>, Memory>
    requires first { 1 ≤ at }
    requires last { at ≤ length phonebook.now.main.rows }
    ensures { IfOk result (λ update. update
        ≡ plans.planned_after phonebook.now.main phonebook.now.ext at) }
{
    let Some(number) = phonebook.released_extension(at) else {
        return Ok(None);
    };
    let bytes = released_bytes(alloc, phonebook.extension_width())?;
    Ok(Some(update_of(EXTENSION, number, bytes)))
}

fn update_of(file: u8, row: u8, bytes: Bytes) -> RowUpdate
    ensures { result ≡ plans.update_of file row bytes }
{
    RowUpdate { file, row, bytes }
}
