// The files that are current, by their paths.
ghost use Rattle.std.specs.Prelude.{◌≡◌};
ghost use Rattle.std.specs.Option.{option_copied};
ghost use Rattle.epoch_cache.specs.Cache as cache;
ghost use Rattle.fcp.specs.Content as file_content;

use apdu::Path;
use epoch_cache::{CachedFile, CachedFiles};
use fcp::{FileView, Rows};

/// The files that are current.
#[derive(Drop)]
pub struct CurrentFiles<'a> {
    pub files: &'a CachedFiles,
}

fn is_of(ids: &[u16], file: &CachedFile) -> bool
    ensures { result ≡ cache.is_of ids.now file.now }
{
    file.path.ids() == ids
}

/// The file of these ids, where it is current.
fn taken_at<'a>(ids: &[u16], files: &'a CachedFiles) -> Option<&'a CachedFile>
    ensures { option_copied result ≡ cache.taken ids.now files.now }
{
    files.as_slice().iter().find(|file| is_of(ids, file))
}

/// What the file of these ids holds, or `missing` where it is not current.
pub(crate) fn content_at<'a>(ids: &[u16], files: &'a CachedFiles, missing: &'a Rows) -> &'a Rows
    requires { missing.now ≡ file_content.missing }
    ensures { result.now ≡ cache.view_of_files files.now ids.now }
{
    match taken_at(ids, files) {
        None => missing,
        Some(file) => &file.content,
    }
}

impl FileView for CurrentFiles<'_> {
    ghost use Rattle.epoch_cache.specs.Places.{content_taken};

    ghost content = { λ v path. content_taken path v.files.now };

    fn rows(&self, path: &Path) -> Option<&Rows> {
        match taken_at(path.ids(), self.files) {
            None => None,
            Some(file) => Some(&file.content),
        }
    }
}
