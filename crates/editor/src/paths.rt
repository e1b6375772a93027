// The paths of a family, and of an edit of it.
ghost use Rattle.std.specs.Prelude.{◌≡◌, [], slice_get, unwrap_or};
ghost use Rattle.std.specs.Option.{option_copied};
ghost use Rattle.apdu.specs.Words.{same_bytes};
ghost use Rattle.families.specs.Families as families;
ghost use Rattle.link.specs.Commands.{is_at};

use apdu::Path;
use arrayvec::ArrayVec;
use families::{Families, Standard};

/// The paths of a family; one that is not known has none.
pub fn family_paths(family: u8) -> ArrayVec<Path, 8>
    ensures { result.items ≡ families.family_paths family }
{
    if family < Standard.count() {
        Standard.paths(family)
    } else {
        ArrayVec::new_in(())
    }
}

/// Whether the family has the path.
pub fn has_path(family: u8, path: &Path) -> bool
    ensures { result ≡ families.has_path family path.now }
{
    family_paths(family)
        .as_slice()
        .iter()
        .any(|other| path.equals(other))
}

fn is_first(paths: &[Path], path: &Path) -> bool
    ensures { result ≡ same_bytes (unwrap_or (slice_get paths.now 0) []) path.now }
{
    match paths {
        [] => path.ids().is_empty(),
        [first, ..] => first.equals(path),
    }
}

/// Whether the main file of a family is selected on the basic channel.
pub fn is_main_file_selected(family: u8, selected: Option<&Path>) -> bool
    ensures { result ≡ is_at (option_copied selected.entry) (families.family_path family 0) }
{
    match selected {
        None => false,
        Some(path) => is_first(family_paths(family).as_slice(), path),
    }
}
