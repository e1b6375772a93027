// The rows that an edit leaves marked, which its answer lists.
ghost use Rattle.std.specs.Prelude.{◌≡◌, true, is_some, Some, None, IsOk, IfOk, IfSome};
ghost use Rattle.std.specs.Option.{option_copied};
ghost use Rattle.editor.specs.Editing as edits;
ghost use Rattle.planner.specs.Room as room;

use crate::operations::begun_of;
use apdu::{Bytes, Memory};
use editor::{Decided, Editing};
use rules::{Begun, Kept};
use std::alloc::Global;

/// The rows that the edit under way leaves marked, made ready before its turn, or else memory for them.
#[derive(Drop)]
pub struct LeftRows {
    pub alloc: Global,
    pub ready: Option<Bytes>,
}

impl LeftRows {
    /// None are ready.
    pub fn new(alloc: Global) -> LeftRows
        ensures { result.ready ≡ None }
    {
        LeftRows { alloc, ready: None }
    }

    /// Takes what is ready, or lists the rows.
    pub(crate) fn take(&mut self, editing: &Editing, decided: Decided) -> Result<Bytes, Memory>
        requires { IfSome self.old.ready (λ rows. rows ≡ edits.left_rows editing.now decided) }
        ensures rows { IfOk result (λ rows. rows ≡ edits.left_rows editing.now decided) }
        ensures room { is_some self.old.ready ≡ true → IsOk result }
    {
        match self.ready.take() {
            Some(rows) => Ok(rows),
            None => editing.left_rows(self.alloc, decided),
        }
    }
}

fn left_of(alloc: Global, begun: Option<&Begun>) -> Result<LeftRows, Memory>
    ensures rows { IfOk result (λ left. room.AreLeft (option_copied begun.entry) left.ready) }
    ensures ready { IfOk result (λ left. room.is_decided (option_copied begun.entry) ≡ true
        → is_some left.ready ≡ true) }
{
    let Some(begun) = begun else {
        return Ok(LeftRows::new(alloc));
    };
    match begun.editing.decided {
        None => Ok(LeftRows::new(alloc)),
        Some(decided) => {
            let rows = begun.editing.left_rows(alloc, decided)?;
            Ok(LeftRows {
                alloc,
                ready: Some(rows),
            })
        }
    }
}

/// Those of an actor's edit, where it is decided.
pub fn left_rows(alloc: Global, kept: &Kept, actor: u8) -> Result<LeftRows, Memory>
    ensures rows { IfOk result
        (λ left. room.AreLeftInTurn (Some actor) kept.now.jobs left.ready) }
    ensures ready { IfOk result (λ left.
        room.turn_is_decided (Some actor) kept.now.jobs ≡ true → is_some left.ready ≡ true) }
{
    left_of(alloc, begun_of(actor, &kept.jobs))
}
