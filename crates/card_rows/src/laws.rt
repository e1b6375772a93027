// Laws of the card's table, each the contract of a function that does nothing.
ghost use Rattle.card_rows.specs.Laws.{ResetKeeps, AnnouncesArmed, RefusedKeeps, TriesKeep};

/// A reset leaves files, tries and armed changes as they are, and the basic channel alone open.
pub fn reset_keeps()
    ensures { ResetKeeps }
{}

/// A command that is answered with 9000 or 91XX is answered with 91XX exactly where a change is armed and nothing is
/// awaited after it. It takes that the tries of each key are a byte.
pub fn success_announces()
    ensures { AnnouncesArmed }
{}

/// A command that is answered with anything but 9000, 91XX and 61XX, so with 6CXX too, changes nothing but what was
/// waiting, the try aside that a VERIFY with a wrong PIN takes from the key that it names.
pub fn refusal_keeps()
    ensures { RefusedKeeps }
{}

/// The tries of a key rise by a VERIFY of that key with its PIN alone, and only while it has tries left.
pub fn tries_keep()
    ensures { TriesKeep }
{}
