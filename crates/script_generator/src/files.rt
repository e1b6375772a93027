// The card of a usual run, and what its change leaves of it.
ghost use Rattle.std.specs.Prelude.{◌≡◌, ◌<◌, ◌≤◌, [], ◌∷◌, IfOk, length, Some, None, replicate};
ghost use Rattle.apdu.specs.Words.{filled_to};
ghost use Rattle.script_generator.specs.Generated as spec;

use apdu::{Bytes, Memory, Path, Sequence};
use card_model::AidList;
use fcp::ArrRef;
use script_reader::{
    CardSpec, ChangeSpec, FileSpec, FileSpecs, KeySpec, KeySpecs, KindSpec, RowSpecs,
};
use std::alloc::Global;

/// 1234, filled with FF.
pub(crate) const PIN: [u8; 8] = [0x31, 0x32, 0x33, 0x34, 0xFF, 0xFF, 0xFF, 0xFF];

const USIM: [u8; 12] = [
    0xA0, 0x00, 0x00, 0x00, 0x87, 0x10, 0x02, 0xFF, 0x49, 0xFF, 0xFF, 0x89,
];

const OTHER: [u8; 7] = [0xA0, 0x00, 0x00, 0x00, 0x09, 0x00, 0x01];

const ICCID: [u8; 10] = [0x98, 0x10, 0x14, 0x30, 0x12, 0x11, 0x81, 0x15, 0x70, 0x02];

const IMSI: [u8; 9] = [0x08, 0x39, 0x01, 0x14, 0x10, 0x32, 0x54, 0x76, 0x98];

const AD: [u8; 4] = [0, 0, 0, 3];

const SPN: [u8; 17] = [
    0x01, 0x80, 0x04, 0x2F, 0x04, 0x30, 0x04, 0x31, 0xFF, 0xFF, 0xFF, 0xFF, 0xFF, 0xFF, 0xFF, 0xFF,
    0xFF,
];

const CHANGED_SPN: [u8; 17] = [
    0x01, 0x42, 0xFF, 0xFF, 0xFF, 0xFF, 0xFF, 0xFF, 0xFF, 0xFF, 0xFF, 0xFF, 0xFF, 0xFF, 0xFF, 0xFF,
    0xFF,
];

/// Reading is always allowed, updating with key 01.
const RULE: [u8; 11] = [
    0x80, 0x01, 0x03, 0xA4, 0x06, 0x83, 0x01, 0x01, 0x95, 0x01, 0x08,
];

const EXTENSIONS: usize = 10;

const FREE_EXTENSION: [u8; 13] = [0xFF; 13];

/// The first rule of the EF_ARR below the master file.
const FIRST_RULE: ArrRef = ArrRef {
    file_id: 0x2F06,
    row: 1,
};

fn path(ids: &[u16]) -> Path
    requires some { 0 < length ids.now }
    requires few { length ids.now ≤ 3 }
    ensures { result ≡ ids.now }
{
    match Path::from_ids(ids) {
        Some(path) => path,
        None => unreachable!(),
    }
}

fn plain_file(alloc: Global, ids: &[u16], bytes: &[u8]) -> Result<FileSpec, Memory>
    requires some { 0 < length ids.now }
    requires few { length ids.now ≤ 3 }
    ensures { IfOk result (λ file. file ≡ spec.plain_file ids.now bytes.now) }
{
    Ok(FileSpec {
        path: path(ids),
        kind: KindSpec::Transparent {
            bytes: Bytes::from_slice(alloc, bytes)?,
        },
        arr: None,
        active: true,
        endless: false,
        fcp: None,
    })
}

fn linear_file(ids: &[u16], len: u16, rows: RowSpecs) -> FileSpec
    requires some { 0 < length ids.now }
    requires few { length ids.now ≤ 3 }
    ensures { result ≡ spec.linear_file ids.now len rows }
{
    FileSpec {
        path: path(ids),
        kind: KindSpec::Linear { len, rows },
        arr: None,
        active: true,
        endless: false,
        fcp: None,
    }
}

fn ruled(file: FileSpec) -> FileSpec
    ensures { result ≡ spec.ruled file }
{
    FileSpec {
        arr: Some(FIRST_RULE),
        ..file
    }
}

/// The name of the service provider.
fn spn_file(alloc: Global, bytes: &[u8]) -> Result<FileSpec, Memory>
    ensures { IfOk result (λ file. file ≡ spec.plain_file (0x7FFF ∷ 0x6F46 ∷ []) bytes.now) }
{
    plain_file(alloc, &[0x7FFF, 0x6F46], bytes)
}

/// The access rule of all files that have one.
fn rule_file(alloc: Global) -> Result<FileSpec, Memory>
    ensures { IfOk result (λ file. file ≡ spec.rule_file) }
{
    let mut rows = Sequence::new(alloc);
    rows.push(Bytes::from_slice(alloc, &RULE)?)?;
    Ok(linear_file(&[0x2F06], 11, rows))
}

#[tactic(auto, using(crate::proofs::Rows::one_more))]
fn extension_rows(alloc: Global) -> Result<RowSpecs, Memory>
    ensures { IfOk result (λ rows. rows ≡ replicate 10 (replicate 13 0xFF)) }
{
    let mut rows = Sequence::new(alloc);
    for _row in 0..EXTENSIONS {
        rows.push(Bytes::from_slice(alloc, &FREE_EXTENSION)?)?;
    }
    Ok(rows)
}

fn usual_files(alloc: Global, book: RowSpecs) -> Result<FileSpecs, Memory>
    ensures { IfOk result (λ files. files ≡ (spec.usual_card book).files) }
{
    let mut files = Sequence::new(alloc);
    files.push(plain_file(alloc, &[0x2FE2], &ICCID)?)?;
    files.push(ruled(plain_file(alloc, &[0x7FFF, 0x6F07], &IMSI)?))?;
    files.push(plain_file(alloc, &[0x7FFF, 0x6FAD], &AD)?)?;
    files.push(spn_file(alloc, &SPN)?)?;
    files.push(rule_file(alloc)?)?;
    files.push(ruled(linear_file(&[0x7F10, 0x6F3A], 28, book)))?;
    files.push(ruled(linear_file(&[0x7F10, 0x6F4A], 13, extension_rows(alloc)?)))?;
    Ok(files)
}

fn usual_aids(alloc: Global) -> Result<AidList, Memory>
    ensures { IfOk result (λ aids. aids ≡ spec.usim_aid ∷ spec.other_aid ∷ []) }
{
    let mut aids = Sequence::new(alloc);
    aids.push(Bytes::from_slice(alloc, &USIM)?)?;
    aids.push(Bytes::from_slice(alloc, &OTHER)?)?;
    Ok(aids)
}

fn usual_keys(alloc: Global) -> Result<KeySpecs, Memory>
    ensures { IfOk result (λ keys. keys ≡ spec.first_key ∷ []) }
{
    let mut keys = Sequence::new(alloc);
    keys.push(KeySpec {
        key: 1,
        pin: PIN,
        tries: 3,
        max: 3,
    })?;
    Ok(keys)
}

/// The card with this phonebook.
pub(crate) fn usual_card(alloc: Global, book: RowSpecs) -> Result<CardSpec, Memory>
    ensures { IfOk result (λ card. card ≡ spec.usual_card book) }
{
    Ok(CardSpec {
        files: usual_files(alloc, book)?,
        aids: usual_aids(alloc)?,
        keys: usual_keys(alloc)?,
        channels: 3,
        get_response: false,
    })
}

/// A REFRESH of every file, with another name of the service provider.
pub(crate) fn usual_change(alloc: Global) -> Result<ChangeSpec, Memory>
    ensures { IfOk result (λ change. change ≡ spec.usual_change) }
{
    let mut files = Sequence::new(alloc);
    files.push(spn_file(alloc, &CHANGED_SPN)?)?;
    Ok(ChangeSpec {
        qualifier: 0,
        kind: 1,
        list: Sequence::new(alloc),
        files,
    })
}
