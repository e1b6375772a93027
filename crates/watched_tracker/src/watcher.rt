// The watch of an actor.
ghost use Rattle.std.specs.Prelude.{◌≡◌, Some, true};
ghost use Rattle.watched_tracker.specs.Watchers as spec;
ghost use Rattle.rules.specs.Watching.{notices_of};

use arrayvec::ArrayVec;
use report::Answer;
use std::marker::Model;
use tracker::Change;
use watchers::{Filter, Notice, Watch};

/// A watch, and whether it was answered that its actor watches.
#[derive(Drop)]
pub struct Watcher<P: Filter> {
    watch: Watch<P>,
    watching: bool,
}

impl<P: Filter> Model for Watcher<P> {
    ghost use Rattle.watched_tracker.specs.Watchers.{WatcherValue};

    ghost Value = { WatcherValue };

    ghost view = { λ w. record { watch = w.watch; watching = w.watching } };
}

impl<P: Filter + Drop> Watcher<P> {
    /// The watch of an actor that does not watch yet.
    pub fn new(watch: Watch<P>) -> Watcher<P>
        ensures { result ≡ spec.waiting watch }
    {
        Watcher {
            watch,
            watching: false,
        }
    }

    /// It was answered that the actor watches.
    pub fn begin(&mut self)
        ensures { self.new ≡ spec.begun self.old }
    {
        self.watch.clear();
        self.watching = true;
    }

    /// Offers a notice, where the actor watches.
    pub fn offer(&mut self, notice: &Notice)
        requires { spec.actor_has_room (Some self.old) ≡ true }
        ensures { self.new ≡ spec.offered_to_watcher notice.now self.old }
    {
        if self.watching {
            self.watch.offer(notice);
        }
    }

    /// The notices of the actor: none before it watches.
    pub fn notices(&self) -> Answer
        ensures { result ≡ notices_of (spec.mailbox_of_watcher self.now) }
    {
        if self.watching {
            Answer::Notices {
                dropped: self.watch.dropped(),
                numbers: self.watch.numbers(),
            }
        } else {
            Answer::Notices {
                dropped: 0,
                numbers: ArrayVec::new(),
            }
        }
    }
}

/// Offers a notice to the watch of an actor.
#[derive(Drop)]
pub struct Offering {
    pub notice: Notice,
}

impl<P: Filter + Drop> Change<Option<Watcher<P>>> for Offering {
    ghost use Rattle.watched_tracker.specs.Watchers.{actor_has_room, offered_to_actor};

    ghost after = { λ o. offered_to_actor o.notice };

    ghost fits = { λ o. actor_has_room };

    fn apply(&self, watcher: &mut Option<Watcher<P>>) {
        if let Some(watcher) = watcher {
            watcher.offer(&self.notice);
        }
    }
}
