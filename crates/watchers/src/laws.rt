// What holds of watches. The functions do nothing: the clauses are the laws.
ghost use Rattle.watchers.specs.Watches.{KeepsTheLast};

/// A watch keeps the last wanted notices that it was offered, and tells how many came before.
pub fn watch_keeps_the_last()
    ensures { KeepsTheLast }
{}
