// Laws of runs that end, each the contract of a function that does nothing.
ghost use Rattle.performed.specs.Laws.{EndsAreNamed, EndsAreTold, KeepsCounts, TurnsEnd};

/// Each line that is due within a turn leaves fewer steps in it, so turns end.
pub fn turns_end()
    ensures { TurnsEnd }
{}

/// The counters of what is kept are at most as many as the lines.
pub fn counters_are_at_most_lines()
    ensures { KeepsCounts }
{}

/// Each event that ends an epoch which lived is told once, before its turn ends.
pub fn ends_are_told()
    ensures { EndsAreTold }
{}

/// An answer that an epoch ended names the event that ended it.
pub fn ends_are_named()
    ensures { EndsAreNamed }
{}
