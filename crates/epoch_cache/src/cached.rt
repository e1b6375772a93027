// Files whose rows are current, and what moves them.

use apdu::{Path, Sequence};
use fcp::{ArrRef, Rows};
use refresh_cmd::Proactive;

/// What a line wrote of the card's files, as far as the command tells.
#[derive(Clone, Copy)]
pub enum Written {
    /// Nothing.
    Nothing,
    /// A row of the file that is current on the basic channel, by the framework.
    Row,
    /// By the framework, and it is not known what.
    Unknown,
    /// By an application.
    Raw,
}

/// What a line does to what was read of files.
#[derive(Drop)]
pub struct Touch {
    /// An epoch begins.
    pub begins: bool,
    pub written: Written,
    /// The REFRESH that a FETCH handed over.
    pub refresh: Option<Proactive>,
}

/// A file whose rows are current.
#[derive(Drop)]
pub struct CachedFile {
    pub path: Path,
    pub content: Rows,
    /// The reference to its access rule.
    pub arr: Option<ArrRef>,
}

pub type CachedFiles = Sequence<CachedFile>;
