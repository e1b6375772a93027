// What a file holds.
ghost use Rattle.std.specs.Prelude.{◌≡◌, ◌≤◌, ◌<◌, ◌+◌, ◌*◌, ◌^◌, ◌∷◌, ◌++◌, [], true, length, slice_get, option_map, IfOk, IfSome, OnOk, OnErr, List, ℕ, Option, IsTrue};
ghost use Rattle.std.specs.List.{list_all};
ghost use Rattle.apdu.specs.Words.{written_at};

use apdu::{Bytes, Memory, Path};
use std::alloc::Global;
use std::marker::Model;

/// The kind of a file, ETSI TS 102 221 clause 8.2.2.
#[derive(Clone, Copy, Debug, PartialEq, Eq)]
pub enum FileKind {
    Transparent,
    Linear,
    Directory,
}

/// What a file holds: its kind, the width of a row, and its rows. A transparent file has one row, as wide as the file.
/// The rows stand one behind another in one list of bytes, so that a row costs its bytes.
#[derive(Drop)]
pub struct Rows {
    file_kind: FileKind,
    row_width: u16,
    // no length tells the number of rows of width 0
    row_count: u8,
    bytes: Bytes,
}

impl Model for Rows {
    ghost use Rattle.fcp.specs.Content.{Content};

    ghost Value = { Content };

    ghost use Rattle.fcp.specs.Buffer.{IsBuffer, rows_of};

    ghost view = { λ r. record { kind = r.file_kind; width = r.row_width; rows = rows_of r.row_count r.row_width r.bytes } };

    ghost invariant = { λ r. IsBuffer r.file_kind r.row_width r.row_count r.bytes };
}

impl Rows {
    ghost use Rattle.fcp.specs.Buffer.{rows_of};
    ghost use Rattle.fcp.specs.Content.{transparent, missing, linear, is_linear, has_width, with_row, IsContent};

    /// A transparent file of these bytes.
    pub fn transparent(alloc: Global, bytes: &[u8]) -> Result<Rows, Memory>
        requires { length bytes.now < 2 ^ 16 }
        ensures { IfOk result (λ r. r ≡ transparent bytes.now) }
    {
        Ok(Rows::transparent_of(Bytes::from_slice(alloc, bytes)?))
    }

    /// The transparent file of these bytes themselves, which takes no memory.
    #[tactic(auto, using(crate::proofs::Buffer::one_row))]
    pub fn transparent_of(bytes: Bytes) -> Rows
        requires { length bytes < 2 ^ 16 }
        ensures { result ≡ transparent bytes }
    {
        Rows {
            file_kind: FileKind::Transparent,
            row_width: bytes.as_slice().len() as u16,
            row_count: 1,
            bytes,
        }
    }

    /// A linear file without rows.
    pub fn linear(alloc: Global, width: u16) -> Rows
        requires { width ≤ 255 }
        ensures { result ≡ linear width [] }
    {
        Rows::linear_of(width, 0, Bytes::new(alloc))
    }

    /// The linear file of so many rows, whose bytes these are one behind another, which takes no memory.
    pub fn linear_of(width: u16, count: u8, bytes: Bytes) -> Rows
        requires width { width ≤ 255 }
        requires whole { length bytes ≡ count * width }
        ensures { result ≡ linear width (rows_of count width bytes) }
    {
        Rows {
            file_kind: FileKind::Linear,
            row_width: width,
            row_count: count,
            bytes,
        }
    }

    /// A linear file of copies of these rows, for which it asks for memory once.
    pub fn from_rows(alloc: Global, width: u16, rows: &[Bytes]) -> Result<Rows, Memory>
        requires width { width ≤ 255 }
        requires room { length rows.now ≤ 255 }
        requires rows { list_all (has_width width) rows.now ≡ true }
        ensures { IfOk result (λ r. r ≡ linear width rows.now) }
    {
        let bytes = Bytes::with_capacity(alloc, width as usize * rows.len())?;
        let mut out = Rows::linear_of(width, 0, bytes);
        let mut rest = rows;
        while let [row, others @ ..] = rest {
            out.push(row.as_slice())?;
            rest = others;
        }
        Ok(out)
    }

    /// What stands for a file that is not there: linear, of width 0, without rows.
    pub fn missing(alloc: Global) -> Rows
        ensures { result ≡ missing }
    {
        Rows::linear(alloc, 0)
    }

    pub fn kind(&self) -> FileKind
        ensures { result ≡ self.now.kind }
    {
        self.file_kind
    }

    pub fn width(&self) -> u16
        ensures { result ≡ self.now.width }
    {
        self.row_width
    }

    #[tactic(auto, using(crate::proofs::Buffer::row_count, crate::proofs::Buffer::has_rows))]
    pub fn count(&self) -> usize
        ensures count { result ≡ length self.now.rows }
        ensures content { IsContent self.now }
    {
        self.row_count as usize
    }

    #[tactic(auto, using(crate::proofs::Buffer::row_count, crate::proofs::Buffer::row_at, crate::proofs::Buffer::row_length, crate::proofs::Buffer::row_end, crate::proofs::Buffer::no_row))]
    pub fn row(&self, i: usize) -> Option<&[u8]>
        ensures row { option_map (λ r. r.now) result ≡ slice_get self.now.rows i }
        ensures wide { IfSome result (λ r. length r.now ≡ self.now.width) }
    {
        if i >= self.row_count as usize {
            return None;
        }
        let width = self.row_width as usize;
        Some(&self.bytes.as_slice()[i * width..(i + 1) * width])
    }

    /// Appends a row to a linear file.
    #[tactic(auto, using(crate::proofs::Buffer::row_count, crate::proofs::Buffer::row_pushed, crate::proofs::Buffer::more_bytes))]
    pub fn push(&mut self, row: &[u8]) -> Result<(), Memory>
        requires linear { IsTrue (is_linear self.old.kind) }
        requires room { length self.old.rows < 255 }
        requires width { length row.now ≡ self.old.width }
        ensures ok { OnOk result (self.new
            ≡ linear self.old.width (self.old.rows ++ row.now ∷ [])) }
        ensures err { OnErr result (self.new ≡ self.old) }
    {
        self.bytes.extend_from_slice(row)?;
        self.row_count += 1;
        Ok(())
    }

    /// Writes over a row, which takes no memory.
    #[tactic(auto, using(crate::proofs::Buffer::row_count, crate::proofs::Buffer::row_set, crate::proofs::Buffer::same_length_set))]
    pub fn set(&mut self, i: usize, row: &[u8])
        requires within { i < length self.old.rows }
        requires width { length row.now ≡ self.old.width }
        ensures { self.new ≡ with_row i row.now self.old }
    {
        self.bytes.write_at(i * self.row_width as usize, row);
    }

    /// Writes over a part of a row, which takes no memory.
    #[tactic(auto, using(crate::proofs::Buffer::row_count, crate::proofs::Buffer::row_at, crate::proofs::Buffer::row_written, crate::proofs::Buffer::same_length))]
    pub fn write_at(&mut self, i: usize, at: usize, bytes: &[u8])
        requires within { i < length self.old.rows }
        requires inside { at + length bytes.now ≤ self.old.width }
        ensures { IfSome (slice_get self.old.rows i)
            (λ row. self.new ≡ with_row i (written_at at bytes.now row) self.old) }
    {
        self.bytes.write_at(i * self.row_width as usize + at, bytes);
    }

    /// Writes over every row, which takes no memory.
    #[tactic(auto, using(crate::proofs::Buffer::row_count))]
    pub fn copy_from(&mut self, other: &Rows)
        requires kind { self.old.kind ≡ other.now.kind }
        requires width { self.old.width ≡ other.now.width }
        requires count { length self.old.rows ≡ length other.now.rows }
        ensures { self.new ≡ other.now }
    {
        self.bytes.copy_from_slice(other.bytes.as_slice());
    }

    /// A copy of the rows.
    pub fn copy(&self) -> Result<Rows, Memory>
        ensures { IfOk result (λ r. r ≡ self.now) }
    {
        Ok(Rows {
            file_kind: self.file_kind,
            row_width: self.row_width,
            row_count: self.row_count,
            bytes: self.bytes.copy()?,
        })
    }
}

/// Files by their paths.
pub trait FileView {
    /// What the file of each path holds, where it is known.
    ghost content: { Self → List ℕ → Option Content };

    ghost use Rattle.fcp.specs.Content.{Content};

    fn rows(&self, path: &Path) -> Option<&Rows>
        ensures { option_map (λ r. r.now) result ≡ content self.now path.now };
}
