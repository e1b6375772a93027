// The READs of a file, ETSI TS 102 221 clauses 11.1.3 and 11.1.5.
ghost use Rattle.std.specs.Prelude.{◌≡◌, ◌≤◌, ◌<◌, ◌+◌, ◌-◌, ◌/◌, true};
ghost use Rattle.loader.specs.Buffer as buffer;
ghost use Rattle.loader.specs.Reading as spec;
ghost use Rattle.loader.specs.Values as values;

use apdu::Command;
use arrayvec::ArrayVec;
use fcp::{Fcp, FileKind};

const PIECE: usize = 255;

const READ_BINARY: u8 = 0xB0;

const READ_RECORD: u8 = 0xB2;

const ABSOLUTE: u8 = 0x04;

/// How many READs a file takes.
pub fn reads_needed(control: &Fcp) -> usize
    ensures { result ≡ spec.reads_needed control.now }
{
    match control.kind {
        FileKind::Transparent => (control.size as usize + (PIECE - 1)) / PIECE,
        FileKind::Linear => control.count as usize,
        FileKind::Directory => 0,
    }
}

/// Whether the READs of the file can be written as commands.
pub fn is_readable(control: &Fcp) -> bool
    ensures { result ≡ values.is_readable control.now }
{
    match control.kind {
        FileKind::Transparent => control.size < 32768,
        FileKind::Linear => 1 <= control.width && control.width <= 255,
        FileKind::Directory => true,
    }
}

/// How many bytes all rows of the file have.
pub(crate) fn content_len(control: &Fcp) -> usize
    ensures { result ≡ buffer.len_of_rows control.now (spec.reads_needed control.now) }
{
    match control.kind {
        FileKind::Transparent => control.size as usize,
        FileKind::Linear => control.count as usize * control.width as usize,
        FileKind::Directory => 0,
    }
}

fn read_piece(control: &Fcp, i: usize) -> Command
    requires within { i < (control.now.size + (spec.piece_len - 1)) / spec.piece_len }
    requires small { control.now.size < 32768 }
    ensures { result ≡ spec.read_piece control.now i }
{
    let at = i * PIECE;
    let left = control.size as usize - at;
    Command {
        class: 0,
        ins: READ_BINARY,
        p1: (at / 256) as u8,
        p2: (at % 256) as u8,
        body: ArrayVec::new(),
        le: Some(if left < PIECE {
            left as u16
        } else {
            PIECE as u16
        }),
    }
}

fn read_row(control: &Fcp, i: usize) -> Command
    requires within { i < control.now.count }
    requires narrow { 1 ≤ control.now.width }
    requires wide { control.now.width ≤ 255 }
    ensures { result ≡ spec.read_row control.now i }
{
    let _count = control.count;
    Command {
        class: 0,
        ins: READ_RECORD,
        p1: (i + 1) as u8,
        p2: ABSOLUTE,
        body: ArrayVec::new(),
        le: Some(control.width),
    }
}

/// READ number `i`, from 0.
pub fn read_number(control: &Fcp, i: usize) -> Command
    requires readable { values.is_readable control.now ≡ true }
    requires within { i < spec.reads_needed control.now }
    ensures { result ≡ spec.read_number control.now i }
{
    match control.kind {
        FileKind::Transparent => read_piece(control, i),
        FileKind::Linear | FileKind::Directory => read_row(control, i),
    }
}
