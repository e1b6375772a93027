// A file that is being read.
ghost use Rattle.std.specs.Prelude.{◌≡◌, ◌≤◌, ◌<◌, ◌+◌, ◌++◌, ◌∷◌, [], true, None, IsOk, IfOk, take, length};
ghost use Rattle.apdu.specs.Words.{filled_to};
ghost use Rattle.fcp.specs.Buffer.{rows_of};
ghost use Rattle.loader.specs.Buffer as buffer;
ghost use Rattle.loader.specs.Reading as spec;
ghost use Rattle.loader.specs.Values as values;

use crate::reads::{content_len, is_readable, read_number, reads_needed};
use crate::same::same_command;
use apdu::{Bytes, Command, Memory, Path, Reserved, Sequence};
use epoch_cache::CachedFile;
use fcp::{Fcp, FileKind, Rows, read_fcp};
use link::{Final, named_path};
use std::alloc::Global;
use std::marker::Model;

/// A file that is being read, whose READs can be written as commands. Memory for all of it is
/// there from its SELECT on.
#[derive(Drop)]
pub struct Reading {
    path: Path,
    control: Fcp,
    // how many rows, or pieces, came so far; they stand one behind another
    count: usize,
    bytes: Reserved<u8>,
    first_event: u64,
}

impl Model for Reading {
    ghost use Rattle.fcp.specs.Buffer.{rows_of};
    ghost use Rattle.loader.specs.Values.{ReadingValue};
    ghost use Rattle.loader.specs.Buffer.{IsBuffer, row_len};

    ghost Value = { ReadingValue };

    ghost view = { λ g. record { path = g.path; control = g.control; rows = rows_of g.count (row_len g.control) g.bytes.items; first_event = g.first_event } };

    ghost invariant = { λ g. IsBuffer g.control g.count g.bytes };
}

/// A reading that was refused.
#[derive(Drop)]
pub struct RefusedReading {
    pub path: Path,
    /// The first exchange of its SELECT.
    pub first_event: u64,
}

pub type Readings = Sequence<Reading>;

fn asked_len(le: Option<u16>) -> usize
    ensures { result ≡ spec.asked_len le }
{
    match le {
        None => 0,
        Some(le) => le as usize,
    }
}

/// Appends the body, cut or filled with FF to that length.
fn append_row(len: usize, body: &[u8], bytes: &mut Reserved<u8>)
    requires room { len ≤ bytes.old.spare }
    ensures items { bytes.new.items ≡ bytes.old.items ++ take len (filled_to 0xFF len body.now) }
    ensures spare { bytes.old.spare ≤ bytes.new.spare + len }
{
    let given = if body.len() < len { body.len() } else { len };
    bytes.extend_within(&body[..given]);
    'fill: for _ in given..len {
        bytes.push_within(0xFF);
    }
}

/// What a file holds of which so many rows came.
#[tactic(auto, using(crate::proofs::Rows::rows_together))]
fn content_of(alloc: Global, control: &Fcp, count: usize, bytes: Bytes) -> Rows
    requires within { count ≤ spec.reads_needed control.now }
    requires whole { length bytes ≡ buffer.len_of_rows control.now count }
    requires readable { values.is_readable control.now ≡ true }
    ensures { result ≡ spec.content_by control.now.kind control.now.width (rows_of count
        (buffer.row_len control.now) bytes) }
{
    let _count = control.count;
    match control.kind {
        FileKind::Transparent => Rows::transparent_of(bytes),
        FileKind::Linear => Rows::linear_of(control.width, count as u8, bytes),
        FileKind::Directory => Rows::missing(alloc),
    }
}

impl Reading {
    /// The reading that a SELECT begins, where it asks for the control parameters and gets them.
    pub fn begun(alloc: Global, answered: &Final) -> Result<Option<Reading>, Memory>
        ensures value { IfOk result (λ g. g ≡ spec.begun answered.now) }
        ensures room { spec.begun answered.now ≡ None → IsOk result }
    {
        if !answered.response.sw.is_success() {
            return Ok(None);
        }
        let Some(path) = named_path(&answered.command) else {
            return Ok(None);
        };
        let Ok(control) = read_fcp(answered.response.body.as_slice()) else {
            return Ok(None);
        };
        if !is_readable(&control) {
            return Ok(None);
        }
        Ok(Some(Reading {
            path,
            control,
            count: 0,
            bytes: Reserved::with_capacity(alloc, content_len(&control))?,
            first_event: answered.first_event,
        }))
    }

    pub fn path(&self) -> &Path
        ensures { result.now ≡ self.now.path }
    {
        &self.path
    }

    /// The number of the first exchange of its SELECT.
    pub fn first_event(&self) -> u64
        ensures { result ≡ self.now.first_event }
    {
        self.first_event
    }

    /// Whether no READ is left.
    #[tactic(auto, using(crate::proofs::Rows::row_count))]
    pub fn is_complete(&self) -> bool
        ensures { result ≡ spec.is_complete self.now }
    {
        reads_needed(&self.control) <= self.count
    }

    /// The READ that comes next, while one is left.
    #[tactic(auto, using(crate::proofs::Rows::row_count))]
    pub fn next_read(&self) -> Option<Command>
        ensures { result ≡ spec.next_read self.now }
    {
        if self.count < reads_needed(&self.control) {
            Some(read_number(&self.control, self.count))
        } else {
            None
        }
    }

    /// The reading behind a READ: the next one that succeeds takes it one further, and any other
    /// ends it. This takes no memory.
    pub fn further(self, answered: &Final) -> Option<Reading>
        ensures { result ≡ spec.further answered.now self }
    {
        if !answered.response.sw.is_success() {
            return None;
        }
        let next = self.next_read()?;
        if !same_command(&answered.command, &next) {
            return None;
        }
        let le = answered.command.le;
        Some(self.with_row(le, answered.response.body.as_slice()))
    }

    fn with_row(self, le: Option<u16>, body: &[u8]) -> Reading
        requires left { length self.rows < spec.reads_needed self.control }
        requires asked { spec.asked_len le
            ≡ spec.asked_len (spec.read_number self.control (length self.rows)).le }
        ensures { result ≡ record self {
          rows = self.rows ++ take (spec.asked_len le)
              (filled_to 0xFF (spec.asked_len le) body.now) ∷ [];
        } }
    {
        let mut g = self;
        append_row(asked_len(le), body, &mut g.bytes);
        g.count += 1;
        g
    }

    /// The file of a reading that is complete; a directory counts as a file without rows. This
    /// takes no memory.
    pub fn into_file(self, alloc: Global) -> CachedFile
        ensures { result ≡ spec.file_read self }
    {
        let Reading {
            path,
            control,
            count,
            bytes,
            first_event: _,
        } = self;
        let bytes = Bytes::from_vec(bytes.into_sequence().into_vec());
        CachedFile {
            path,
            content: content_of(alloc, &control, count, bytes),
            arr: control.arr,
        }
    }
}
