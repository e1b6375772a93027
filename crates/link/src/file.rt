// Commands to the file of a path.
ghost use Rattle.std.specs.Prelude.{◌≡◌, ◌≤◌, [], None, Some, length};
ghost use Rattle.link.specs.Commands as rule;
ghost use Rattle.link.specs.Exchanges.{Grows, Ends, Plays, FailsOnFault, added, answer_to, exchanged, file_exchanged, last_answer, response_in, seen, selection_over};
ghost use Rattle.link.specs.Selected.{KeepsTrack};

use crate::exchanges::{LinkError, transmit};
use crate::select::{select_for_reading, select_only};
use crate::selection::Selection;
use apdu::{Command, Path, Response};
use card_model::{Slot, Trail};

/// What came of a command to a file.
#[derive(Drop)]
pub enum FileAnswer {
    /// The final response to the command.
    Answered(Response),
    /// The final response to the SELECT before it, which did not succeed.
    Refused(Response),
}

/// Sends SELECT of a path, which asks for the control parameters, and gives the final response.
pub fn select_fcp<S: Slot>(
    slot: &mut S,
    selection: &mut Selection,
    path: &Path,
    trail: &mut Trail,
) -> Result<Response, LinkError>
    requires { length trail.old ≤ 12 }
    ensures trail { Grows 4 trail.old trail.new }
    ensures sends { exchanged (rule.select_for_reading path.now) None (added trail.old trail.new)
        ≡ Some (result, []) }
    ensures ends { Ends rule.most_exchanges trail.old trail.new result }
    ensures slot { Plays (seen (S.world slot.old) (S.plan slot.old) (S.faults slot.old))
        (added trail.old trail.new)
        (seen (S.world slot.new) (S.plan slot.new) (S.faults slot.new)) }
    ensures cause { FailsOnFault (S.faults slot.old) (S.faults slot.new) result }
    ensures selection { selection.new ≡ selection_over (added trail.old trail.new) selection.old }
    ensures tracked { KeepsTrack (S.world slot.old) (S.world slot.new) selection.old selection.new }
{
    transmit_followed(slot, selection, &select_for_reading(path), trail)
}

/// Sends SELECT of a path, without an answer, where the path is not current, and then the command,
/// unless the SELECT did not succeed.
pub fn file_command<S: Slot>(
    slot: &mut S,
    selection: &mut Selection,
    path: &Path,
    command: &Command,
    trail: &mut Trail,
) -> Result<FileAnswer, LinkError>
    requires { length trail.old ≤ 8 }
    ensures trail { Grows 8 trail.old trail.new }
    ensures sends { file_exchanged path.now command.now selection.old (added trail.old trail.new)
        ≡ Some (result, []) }
    ensures last { last_answer trail.new ≡ Some (response_in result) }
    ensures slot { Plays (seen (S.world slot.old) (S.plan slot.old) (S.faults slot.old))
        (added trail.old trail.new)
        (seen (S.world slot.new) (S.plan slot.new) (S.faults slot.new)) }
    ensures cause { FailsOnFault (S.faults slot.old) (S.faults slot.new) result }
    ensures selection { selection.new ≡ selection_over (added trail.old trail.new) selection.old }
    ensures tracked { KeepsTrack (S.world slot.old) (S.world slot.new) selection.old selection.new }
{
    if selection.is_at(path) {
        return answered(slot, selection, command, trail);
    }
    let response = transmit_followed(slot, selection, &select_only(path), trail)?;
    if !response.sw.is_success() {
        return Ok(FileAnswer::Refused(response));
    }
    answered(slot, selection, command, trail)
}

// Sends the command to the file that is current.
fn answered<S: Slot>(
    slot: &mut S,
    selection: &mut Selection,
    command: &Command,
    trail: &mut Trail,
) -> Result<FileAnswer, LinkError>
    requires { length trail.old ≤ 12 }
    ensures trail { Grows 4 trail.old trail.new }
    ensures sends { answer_to (exchanged command.now None (added trail.old trail.new))
        ≡ Some (result, []) }
    ensures last { last_answer trail.new ≡ Some (response_in result) }
    ensures slot { Plays (seen (S.world slot.old) (S.plan slot.old) (S.faults slot.old))
        (added trail.old trail.new)
        (seen (S.world slot.new) (S.plan slot.new) (S.faults slot.new)) }
    ensures cause { FailsOnFault (S.faults slot.old) (S.faults slot.new) result }
    ensures selection { selection.new ≡ selection_over (added trail.old trail.new) selection.old }
    ensures tracked { KeepsTrack (S.world slot.old) (S.world slot.new) selection.old selection.new }
{
    let response = transmit_followed(slot, selection, command, trail)?;
    Ok(FileAnswer::Answered(response))
}

// Sends a command, and follows what it selects.
fn transmit_followed<S: Slot>(
    slot: &mut S,
    selection: &mut Selection,
    command: &Command,
    trail: &mut Trail,
) -> Result<Response, LinkError>
    requires { length trail.old ≤ 12 }
    ensures trail { Grows 4 trail.old trail.new }
    ensures sends { exchanged command.now None (added trail.old trail.new) ≡ Some (result, []) }
    ensures ends { Ends rule.most_exchanges trail.old trail.new result }
    ensures slot { Plays (seen (S.world slot.old) (S.plan slot.old) (S.faults slot.old))
        (added trail.old trail.new)
        (seen (S.world slot.new) (S.plan slot.new) (S.faults slot.new)) }
    ensures cause { FailsOnFault (S.faults slot.old) (S.faults slot.new) result }
    ensures selection { selection.new ≡ selection_over (added trail.old trail.new) selection.old }
    ensures tracked { KeepsTrack (S.world slot.old) (S.world slot.new) selection.old selection.new }
{
    let from = trail.len();
    let answer = transmit(slot, command, trail);
    selection.follow_steps(&trail.as_slice()[from..]);
    answer
}
