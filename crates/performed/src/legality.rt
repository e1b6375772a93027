// Laws of legality, each the contract of a function that does nothing but to call the laws that it takes.
ghost use Rattle.performed.specs.Laws.{LinesAreLegal, LinesArePerformed, RunIsLegal};

use book_plans::plans_make_edits;
use rules::{due_is_shown, edit_is_planned_for_card, kept_agrees, kept_looks_back};

/// Lines that are due break no rule, where they show what the slot gave, and where their turns are those of the mode.
pub fn due_lines_are_legal()
    ensures { LinesAreLegal }
{
    kept_agrees();
    edit_is_planned_for_card();
    plans_make_edits();
    due_is_shown();
    kept_looks_back();
}

/// The report of a run that is finished is legal, where nothing is due in its last turn.
pub fn finished_runs_are_legal()
    ensures { RunIsLegal }
{
    kept_agrees();
    edit_is_planned_for_card();
    plans_make_edits();
    due_is_shown();
    kept_looks_back();
}

/// Lines that are due and show what the slot gave are what is due, with their numbers and their texts.
pub fn due_lines_are_performed()
    ensures { LinesArePerformed }
{}
