// Laws of the rules, each the contract of a function that does nothing.
ghost use Rattle.rules.specs.Events.{KeepsEvents};
ghost use Rattle.rules.specs.Laws.{AnswersRight, JudgesReports, KeptAgrees, KeptLooksBack, PlansForCard, ShowsCard, TellsTruth, TracksSelection, UpdatesFollowPlan};

/// The first broken line is none exactly where the report is legal.
pub fn legal_or_broken()
    ensures { JudgesReports }
{}

/// Where a publication is due, and each current file is kept as the card has it, the text is what the card shows.
pub fn due_publication_is_true()
    ensures { TellsTruth }
{}

/// Over legal lines the kept selection is none, or the path that is current on the basic channel of the card in the slot.
pub fn selection_is_tracked()
    ensures { TracksSelection }
{}

/// What is kept of the lines is what the words say that look back over them: events and epochs, how each
/// family stands, current paths, what an actor holds, and the attempt of its edit.
pub fn kept_looks_back()
    ensures { KeptLooksBack }
{}

/// Over legal lines the updates of an attempt that was begun are those of the plan for the card as it was before the
/// first of them.
pub fn updates_follow_the_plan()
    ensures { UpdatesFollowPlan }
{}

/// The card in the slot gave each response of legal lines.
pub fn legal_lines_are_answered_right()
    ensures { AnswersRight }
{}

/// Where the card gave each response, what is kept is its own: the selection, what a command still waits for, the rows
/// of current files, and the front of a file that a reading has.
pub fn kept_agrees()
    ensures { KeptAgrees }
{}

/// A publication that is due tells what the card in the slot shows.
pub fn due_is_shown()
    ensures { ShowsCard }
{}

/// What an edit decides by a plan, it decides by the plan for the card in the slot, and by the keys that the card's
/// files ask for: an attempt, the refusal of the plan, or the want of a key.
pub fn edit_is_planned_for_card()
    ensures { PlansForCard }
{}

/// A history of the events that the lines show keeps what is kept of the lines as their history.
pub fn history_keeps_events()
    ensures { KeepsEvents }
{}
