// The files of a card or of a change, as JSON says them and with the rules that they keep.
ghost use Rattle.std.specs.Prelude.{◌≡◌, ◌==◌, length, List, ℕ};
ghost use Rattle.std.specs.List.{list_all};
ghost use Rattle.serde_json.specs.View.{view};
ghost use Rattle.script_reader.specs.Files as spec;
ghost use Rattle.script_reader.specs.Reading.{all_of};
ghost use Rattle.script_reader.specs.Answers.{ReadsAs};

use crate::error::ItemError;
use crate::fields::{FromJson, Ids, check, field, only, optional, text_field, with_default};
use crate::{FileSpec, FileSpecs, KindSpec, RowSpecs, Why};
use apdu::{Bytes, Path, Sequence};
use fcp::{ArrRef, read_fcp};
use serde_json::Value;
use std::alloc::Global;
use std::marker::Model;

impl FromJson for ArrRef {
    ghost use Rattle.script_reader.specs.Files.{reference};

    ghost form = { reference };

    fn from_json(alloc: Global, value: &Value) -> Result<ArrRef, ItemError> {
        let [high, low, row] = <[u8; 3] as FromJson>::from_json(alloc, value)?;
        Ok(ArrRef {
            file_id: u16::from(high) * 256 + u16::from(low),
            row,
        })
    }
}

fn transparent(alloc: Global, value: &Value) -> Result<KindSpec, ItemError>
    ensures { ReadsAs (spec.transparent (view value.now)) result }
{
    only(
        value,
        &["active", "arr", "data", "endless", "fcp", "kind", "path"],
    )?;
    let bytes = field(alloc, value, "data")?;
    Ok(KindSpec::Transparent { bytes })
}

fn linear(alloc: Global, value: &Value) -> Result<KindSpec, ItemError>
    ensures { ReadsAs (spec.linear (view value.now)) result }
{
    only(
        value,
        &[
            "active", "arr", "endless", "fcp", "kind", "len", "path", "records",
        ],
    )?;
    let len = field(alloc, value, "len")?;
    let rows: RowSpecs = field(alloc, value, "records")?;
    Ok(KindSpec::Linear { len, rows })
}

/// What a file holds, where the object has no field beside those of its kind.
fn kind_of(alloc: Global, value: &Value) -> Result<KindSpec, ItemError>
    ensures { ReadsAs (spec.kind_form (view value.now)) result }
{
    let name = text_field(value, "kind")?;
    if name == "transparent" {
        transparent(alloc, value)
    } else if name == "linear" {
        linear(alloc, value)
    } else {
        Err(ItemError::Broken(Why::Form))
    }
}

/// A file of which only the form is known: its path may have any number of ids. Contracts see it as a file.
#[derive(Drop)]
pub(crate) struct FileForm {
    ids: Ids,
    kind: KindSpec,
    arr: Option<ArrRef>,
    active: bool,
    endless: bool,
    fcp: Option<Bytes>,
}

impl Model for FileForm {
    ghost use Rattle.script_reader.specs.declared.types.FileSpec.{FileSpec};

    ghost Value = { FileSpec };

    ghost view = { λ f. record { path = f.ids; kind = f.kind; arr = f.arr; active = f.active; endless = f.endless; fcp = f.fcp } };
}

impl FromJson for FileForm {
    ghost use Rattle.script_reader.specs.Files.{file_form};

    ghost form = { file_form };

    #[tactic(auto, unfolding(crate::specs::Files::file_form))]
    fn from_json(alloc: Global, value: &Value) -> Result<FileForm, ItemError> {
        let kind = kind_of(alloc, value)?;
        let ids = field(alloc, value, "path")?;
        let arr = optional(alloc, value, "arr")?;
        let active = with_default(alloc, value, "active", true)?;
        let endless = with_default(alloc, value, "endless", false)?;
        let fcp = optional(alloc, value, "fcp")?;
        Ok(FileForm {
            ids,
            kind,
            arr,
            active,
            endless,
            fcp,
        })
    }
}

impl FileForm {
    fn is_within(&self) -> bool
        ensures { result ≡ spec.is_file_within self.now }
    {
        is_kind_within(&self.kind) && is_template_within(&self.fcp)
    }

    /// The file, where its path is one.
    fn with_path(self) -> Result<FileSpec, ItemError>
        ensures { ReadsAs (spec.with_path self) result }
    {
        let FileForm {
            ids,
            kind,
            arr,
            active,
            endless,
            fcp,
        } = self;
        let path = path_of(ids.as_slice())?;
        Ok(FileSpec {
            path,
            kind,
            arr,
            active,
            endless,
            fcp,
        })
    }
}

fn is_kind_within(kind: &KindSpec) -> bool
    ensures { result ≡ spec.is_kind_within kind.now }
{
    match kind {
        KindSpec::Transparent { bytes } => bytes.as_slice().len() <= 1_024,
        KindSpec::Linear { len, rows } => *len >= 1 && *len <= 255 && rows.len() <= 254,
    }
}

fn is_template_within(fcp: &Option<Bytes>) -> bool
    ensures { result ≡ spec.is_template_within fcp.now }
{
    match fcp {
        Some(bytes) => bytes.as_slice().len() <= 256,
        None => true,
    }
}

fn are_each_within(files: &[FileForm]) -> bool
    ensures { result ≡ list_all spec.is_file_within files.now }
{
    files.iter().all(|file| file.is_within())
}

/// There are at most 64 files, each within its limits.
pub(crate) fn are_files_within(files: &[FileForm]) -> bool
    ensures { result ≡ spec.are_files_within files.now }
{
    files.len() <= 64 && are_each_within(files)
}

/// A path of one to three ids, none of which is that of the master file.
pub(crate) fn path_of(ids: &[u16]) -> Result<Path, ItemError>
    ensures { ReadsAs (spec.path_of ids.now) result }
{
    let path = Path::from_ids(ids).ok_or(ItemError::Broken(Why::Path))?;
    check(!ids.contains(&0x3F00), Why::Path)?;
    Ok(path)
}

/// The files, where each path is one.
pub(crate) fn with_paths(alloc: Global, files: Sequence<FileForm>) -> Result<FileSpecs, ItemError>
    ensures { ReadsAs (all_of spec.with_path files) result }
{
    let mut out = Sequence::new(alloc);
    for file in files.into_vec() {
        out.push(file.with_path()?)?;
    }
    Ok(out)
}

/// The two are different files, and neither is a directory of the other.
fn are_apart(a: &FileSpec, b: &FileSpec) -> bool
    ensures { result ≡ spec.are_apart a.now b.now }
{
    !b.path.ids().starts_with(a.path.ids()) && !a.path.ids().starts_with(b.path.ids())
}

fn is_apart_from_all(file: &FileSpec, files: &[FileSpec]) -> bool
    ensures { result ≡ list_all (spec.are_apart file.now) files.now }
{
    files.iter().all(|other| are_apart(file, other))
}

pub(crate) fn are_all_apart(files: &[FileSpec]) -> bool
    ensures { result ≡ spec.are_all_apart files.now }
{
    let [file, rest @ ..] = files else {
        return true;
    };
    is_apart_from_all(file, rest) && are_all_apart(rest)
}

fn has_rows(kind: &KindSpec) -> bool
    ensures { result ≡ spec.has_rows kind.now }
{
    match kind {
        KindSpec::Transparent { .. } => true,
        KindSpec::Linear { len, rows } => have_length(rows.as_slice(), usize::from(*len)),
    }
}

fn have_length(rows: &[Bytes], len: usize) -> bool
    ensures { result ≡ list_all (λ (row : List ℕ). length row == len) rows.now }
{
    rows.iter().all(|row| row.as_slice().len() == len)
}

/// The bytes are control parameters that can be read.
fn is_template(bytes: &Bytes) -> bool
    ensures { result ≡ spec.is_template bytes.now }
{
    read_fcp(bytes.as_slice()).is_ok()
}

/// Each record has the stated length, and control parameters of its own are none that can be read.
fn has_shape(file: &FileSpec) -> bool
    ensures { result ≡ spec.has_shape file.now }
{
    has_rows(&file.kind) && !file.fcp.as_ref().is_some_and(is_template)
}

pub(crate) fn have_shape(files: &FileSpecs) -> bool
    ensures { result ≡ spec.have_shape files.now }
{
    files.as_slice().iter().all(has_shape)
}
