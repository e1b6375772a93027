// Laws of plans, each the contract of a function that does nothing.
ghost use Rattle.book_plans.specs.Law.{PlansFit, PlansMakeEdits};

/// Of every plan for two files: the update before leaves the book as it is, the deciding one makes it the edited
/// book, and the update after leaves that as it is.
pub fn plans_make_edits()
    ensures { PlansMakeEdits }
{}

/// Each update of a plan writes a row that its file has, which is linear, with as many bytes as the file's rows have.
pub fn plans_fit()
    ensures { PlansFit }
{}
