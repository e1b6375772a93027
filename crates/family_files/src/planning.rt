// The plan of an edit of a family.
ghost use Rattle.std.specs.Prelude.{◌≡◌, true, IfOk};
ghost use Rattle.std.specs.List.{list_all};
ghost use Rattle.epoch_cache.specs.Cache.{view_of_files};
ghost use Rattle.families.specs.Families as families;
ghost use Rattle.families.specs.Plans.{plan_updates};
ghost use Rattle.fcp.specs.Content as file_content;
ghost use Rattle.fcp.specs.Content.{IsContent};
ghost use Rattle.family_files.specs.Updates.{is_short};

use crate::current::content_at;
use adn::{Edit, Plan, PlanError};
use apdu::Memory;
use book_plans::{plan_edit, plans_fit};
use editor::family_paths;
use epoch_cache::CachedFiles;
use fcp::Rows;
use std::alloc::Global;

/// What a file of a family holds, 0 the main file and 1 its extension file; `missing` where it is not current.
fn content_of<'a>(files: &'a CachedFiles, family: u8, number: u8, missing: &'a Rows) -> &'a Rows
    requires { missing.now ≡ file_content.missing }
    ensures value { result.now ≡ view_of_files files.now (families.family_path family number) }
    ensures content { IsContent result.now }
{
    let paths = family_paths(family);
    let content = match paths.as_slice().get(usize::from(number)) {
        None => content_at(&[], files, missing),
        Some(path) => content_at(path.ids(), files, missing),
    };
    let _rows = content.count();
    content
}

/// The updates by which an edit of a family is made, for what its current files hold, or why there is none.
pub fn plan_of_family(
    alloc: Global,
    family: u8,
    edit: &Edit,
    files: &CachedFiles,
) -> Result<Result<Plan, PlanError>, Memory>
    ensures value { IfOk result (λ planned.
        planned ≡ families.family_plan family edit.now (view_of_files files.now)) }
    ensures short { IfOk result (λ planned.
        IfOk planned (λ plan. list_all is_short (plan_updates plan) ≡ true)) }
{
    let missing = Rows::missing(alloc);
    let main = content_of(files, family, 0, &missing);
    let extension = content_of(files, family, 1, &missing);
    plans_fit();
    plan_edit(alloc, edit, main, extension)
}
