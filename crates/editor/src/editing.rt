// An edit that is under way.
ghost use Rattle.std.specs.Prelude.{◌≡◌, ◌+◌, ◌<◌, ◌^◌, ◌∷◌, IfSome, OnOk, OnErr};
ghost use Rattle.std.specs.Option.{option_copied};
ghost use Rattle.editor.specs.Editing as spec;

use crate::paths::is_main_file_selected;
use adn::Plan;
use apdu::{Command, Memory, Path, Sequence};
use card_model::PathList;
use epoch_cache::Touch;
use std::alloc::Global;
use std::mem;

/// A plan whose updates are being sent.
#[derive(Drop)]
pub struct Attempt {
    pub family: u8,
    pub plan: Plan,
    /// The paths of the files that the plan stands on.
    pub paths: PathList,
    /// How many of its updates were sent.
    pub sent: u64,
    /// Somebody else has moved one of the paths since.
    pub moved: bool,
}

/// The deciding update that succeeded.
#[derive(Clone, Copy)]
pub struct Decided {
    pub event: u64,
    /// The last byte of the row that it wrote, which may name an extension row.
    pub named: u8,
    /// The update behind it succeeded.
    pub released: bool,
}

/// How far an edit has come.
#[derive(Drop)]
pub struct Editing {
    pub attempt: Option<Attempt>,
    pub decided: Option<Decided>,
    /// The extension rows that its updates marked, the last one first.
    pub marked: Sequence<u8>,
    /// The event of its own deciding UPDATE whose answer was lost.
    pub lost: Option<u64>,
}

fn moved_attempt(decided: Option<Decided>, attempt: Attempt) -> Option<Attempt>
    ensures { result ≡ spec.moved_attempt decided attempt }
{
    match decided {
        None => None,
        Some(_) => Some(Attempt {
            moved: true,
            ..attempt
        }),
    }
}

fn attempt_behind(
    touch: &Touch,
    decided: Option<Decided>,
    attempt: Option<Attempt>,
) -> Option<Attempt>
    ensures { result ≡ spec.attempt_behind touch.now decided attempt }
{
    let attempt = attempt?;
    if touch.moves_one(attempt.paths.as_slice()) {
        moved_attempt(decided, attempt)
    } else {
        Some(attempt)
    }
}

fn last_byte(bytes: &[u8]) -> u8
    ensures { result ≡ spec.last_byte bytes.now }
{
    match bytes {
        [] => 0,
        [.., last] => *last,
    }
}

fn add_first(row: u8, rows: &mut Vec<u8>) -> Result<(), Memory>
    ensures ok { OnOk result (rows.new.items ≡ row ∷ rows.old.items) }
    ensures err { OnErr result (rows.new.items ≡ rows.old.items) }
{
    rows.insert(0, row)?;
    Ok(())
}

impl Editing {
    /// An edit that has not begun.
    pub fn new(alloc: Global) -> Editing
        ensures { result ≡ spec.no_editing }
    {
        Editing {
            attempt: None,
            decided: None,
            marked: Sequence::new(alloc),
            lost: None,
        }
    }

    /// An attempt begins, where there is one.
    pub fn begin(&mut self, attempt: Option<Attempt>)
        ensures { self.new ≡ spec.with_attempt attempt self.old }
    {
        if attempt.is_some() {
            self.attempt = attempt;
        }
    }

    /// Somebody else's event moved what it moves.
    pub fn move_by(&mut self, touch: &Touch)
        ensures { self.new ≡ spec.moved_editing touch.now self.old }
    {
        self.attempt = attempt_behind(touch, self.decided, self.attempt.take());
    }

    /// The next update of the attempt was sent.
    pub fn send(&mut self)
        requires { IfSome self.old.attempt (λ a. a.sent + 1 < 2 ^ 64) }
        ensures { self.new ≡ spec.sent_update self.old }
    {
        if let Some(attempt) = &mut self.attempt {
            attempt.sent += 1;
        }
    }

    fn decide(&mut self, event: u64, command: &Command)
        ensures { self.new ≡ spec.decided_by event command.now self.old }
    {
        self.decided = Some(Decided {
            event,
            named: last_byte(command.body.as_slice()),
            released: false,
        });
    }

    fn mark(&mut self, alloc: Global, row: u8) -> Result<(), Memory>
        ensures ok { OnOk result (self.new ≡ record self.old { marked = row ∷ self.old.marked }) }
        ensures err { OnErr result (self.new ≡ self.old) }
    {
        let mut rows = mem::replace(&mut self.marked, Sequence::new(alloc)).into_vec();
        let added = add_first(row, &mut rows);
        self.marked = Sequence::from_vec(rows);
        added
    }

    fn extend(&mut self, alloc: Global, command: &Command) -> Result<(), Memory>
        ensures ok { OnOk result
            (self.new ≡ spec.extended_by command.now self.old.decided self.old) }
        ensures err { OnErr result (self.new ≡ self.old) }
    {
        match &mut self.decided {
            None => self.mark(alloc, command.p1),
            Some(decided) => {
                decided.released = true;
                Ok(())
            }
        }
    }

    /// An update of the family's files succeeded. `selected` is current on the basic channel.
    pub fn update(
        &mut self,
        alloc: Global,
        family: u8,
        selected: Option<&Path>,
        event: u64,
        command: &Command,
    ) -> Result<(), Memory>
        ensures ok { OnOk result (self.new ≡ spec.updated_by family
            (option_copied selected.entry) event command.now self.old) }
        ensures err { OnErr result (self.new ≡ self.old) }
    {
        if is_main_file_selected(family, selected) {
            self.decide(event, command);
            Ok(())
        } else {
            self.extend(alloc, command)
        }
    }

    /// The answer to an update of the family's files was lost.
    pub fn lose(&mut self, family: u8, selected: Option<&Path>, event: u64)
        ensures { self.new
            ≡ spec.lost_update family (option_copied selected.entry) event self.old }
    {
        if is_main_file_selected(family, selected) {
            self.lost = Some(event);
        }
    }
}
