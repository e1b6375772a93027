// Sets of families.

use apdu::{Memory, Path, Text};
use arrayvec::ArrayVec;
use fcp::FileView;
use std::alloc::Global;

/// What the files of a family are decoded to, which is shown as a text.
pub trait ContentText: Sized {
    ghost use Rattle.std.specs.Prelude.{◌≡◌, ℕ, List, IfOk};

    /// The text that is shown.
    ghost shown_text: { Self → List ℕ };

    fn text(&self, alloc: Global) -> Result<Text, Memory>
        ensures { IfOk result (λ text. text ≡ shown_text self.now) };

    fn copy(&self, alloc: Global) -> Result<Self, Memory>
        ensures { IfOk result (λ copy. copy ≡ self.now) };
}

/// Families of files that are published. They are numbered from 0.
pub trait Families {
    ghost use Rattle.std.specs.Prelude.{◌≡◌, ◌<◌, ◌≤◌, ℕ, Bool, true, List, length, IfOk, OnOk, OnErr};
    ghost use Rattle.families.specs.Families.{View};
    ghost use Rattle.families.specs.Contents.{files_of};
    ghost use Rattle.families.specs.OwnFiles.{SameFiles};
    ghost use Rattle.families.specs.Patches.{WasContent};

    type Content: ContentText + Drop;

    /// How many families there are.
    ghost family_count: { Self → ℕ };

    /// The paths of a family's files.
    ghost family_paths: { Self → ℕ → List (List ℕ) };

    /// Whether a family can be edited.
    ghost is_editable: { Self → ℕ → Bool };

    /// What the files of a family are decoded to.
    ghost decoded: { Self → ℕ → View → Self.Content };

    /// The text that is shown of what the files of a family hold.
    ghost shown: { Self → ℕ → View → List ℕ };

    fn count(&self) -> u8
        ensures { result ≡ family_count self.now };

    /// The paths in the order in which their files are read.
    fn paths(&self, family: u8) -> ArrayVec<Path, 8>
        requires { family < family_count self.now }
        ensures { result.items ≡ family_paths self.now family };

    fn editable(&self, family: u8) -> bool
        requires { family < family_count self.now }
        ensures { result ≡ is_editable self.now family };

    /// What the family's files hold. A path that the view does not know counts as one of no file.
    fn decode<V: FileView>(
        &self,
        alloc: Global,
        family: u8,
        view: &V,
    ) -> Result<Self::Content, Memory>
        requires { family < family_count self.now }
        ensures content { IfOk result (λ content.
            content ≡ decoded self.now family (files_of (V.content view.now))) }
        ensures text { IfOk result (λ content.
            Self.Content.shown_text content ≡ shown self.now family (files_of (V.content view.now))) };

    /// Makes a family's content that of its files behind an update of a row of one of them, which is numbered from 0 as the paths
    /// stand; rows count from 1. No more is decoded than the row concerns.
    fn patch<V: FileView>(
        &self,
        alloc: Global,
        family: u8,
        content: &mut Self::Content,
        view: &V,
        file: u8,
        row: u8,
    ) -> Result<(), Memory>
        requires family { family < family_count self.now }
        requires editable { is_editable self.now family ≡ true }
        requires file { file < length (family_paths self.now family) }
        requires first { 1 ≤ row }
        requires before { WasContent (decoded self.now family) (family_paths self.now family)
            file row content.old (files_of (V.content view.now)) }
        ensures ok { OnOk result
            (content.new ≡ decoded self.now family (files_of (V.content view.now))) }
        ensures err { OnErr result (content.new ≡ content.old) };

    /// What is shown of a family is of the files of its paths alone.
    ghost shown_by_paths: { (set : Self) (family : ℕ) (v w : View)
        → family < family_count set → SameFiles (family_paths set family) v w
        → shown set family v ≡ shown set family w };
}
