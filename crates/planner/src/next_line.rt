// The line that is due next.
ghost use Rattle.std.specs.Prelude.{◌≡◌, ◌≤◌, true, false, is_some, length, IsOk, IfOk};
ghost use Rattle.rules.specs.Due as rules;
ghost use Rattle.planner.specs.Room.{AreLeftInTurn, is_given, turn_fits, turn_is_decided};

use crate::answers::answer_with;
use crate::commands::{due_command, due_publication, is_reset_due, tried_event};
use crate::left::LeftRows;
use crate::open::{has_ended, waits_on};
use crate::operations::{answered_of, begun_of};
use apdu::Memory;
use rules::{Due, Kept};
use script::Script;
use std::alloc::Global;

fn begin_or_rest(script: &Script, kept: &Kept, actor: u8) -> Due
    ensures { result ≡ rules.begin_or_rest script.now kept.now actor }
{
    let _actors = &script.actors;
    if actor != 0 && begun_of(actor, &kept.jobs).is_none() {
        Due::Begin(answered_of(actor, &kept.jobs))
    } else {
        Due::Rest
    }
}

// Directly behind a mark.
fn due_at_mark(script: &Script, kept: &Kept, actor: u8) -> Due
    requires { length script.now.actors ≤ 254 }
    ensures { result ≡ rules.due_at_mark script.now kept.now actor }
{
    if has_ended(script, kept, actor) {
        return Due::EndOfActor;
    }
    match waits_on(script, kept, actor) {
        Some(on) => Due::WaitFor(on),
        None => begin_or_rest(script, kept, actor),
    }
}

fn due_of_actor(script: &Script, kept: &Kept) -> Due
    requires { length script.now.actors ≤ 254 }
    ensures { result ≡ rules.due_of_actor script.now kept.now kept.now.turn.actor }
{
    match kept.turn.actor {
        None => Due::Rest,
        Some(actor) => {
            if kept.turn.bare {
                due_at_mark(script, kept, actor)
            } else {
                Due::Rest
            }
        }
    }
}

fn due_by_answer(left: &mut LeftRows, script: &Script, kept: &Kept) -> Result<Due, Memory>
    requires actors { length script.now.actors ≤ 254 }
    requires left { AreLeftInTurn kept.now.turn.actor kept.now.jobs left.old.ready }
    ensures value { IfOk result (λ line. line
        ≡ rules.due_by_answer script.now kept.now (rules.due_answer script.now kept.now)) }
    ensures room { turn_is_decided kept.now.turn.actor kept.now.jobs ≡ false → IsOk result }
    ensures ready { is_some left.old.ready ≡ true → IsOk result }
    ensures kept { IfOk result (λ line. is_given line ≡ false → left.new ≡ left.old) }
{
    match answer_with(left, script, kept)? {
        Some(answer) => Ok(Due::Give(answer)),
        None => Ok(due_of_actor(script, kept)),
    }
}

fn due_by_publication(left: &mut LeftRows, script: &Script, kept: &Kept) -> Result<Due, Memory>
    requires actors { length script.now.actors ≤ 254 }
    requires left { AreLeftInTurn kept.now.turn.actor kept.now.jobs left.old.ready }
    ensures value { IfOk result (λ line. line
        ≡ rules.due_by_publication script.now kept.now (rules.due_publication kept.now)) }
    ensures room { turn_is_decided kept.now.turn.actor kept.now.jobs ≡ false → IsOk result }
    ensures ready { is_some left.old.ready ≡ true → IsOk result }
    ensures kept { IfOk result (λ line. is_given line ≡ false → left.new ≡ left.old) }
{
    match due_publication(kept) {
        Some(family) => Ok(Due::Publish(family)),
        None => due_by_answer(left, script, kept),
    }
}

fn due_by_refusal(left: &mut LeftRows, script: &Script, kept: &Kept) -> Result<Due, Memory>
    requires actors { length script.now.actors ≤ 254 }
    requires left { AreLeftInTurn kept.now.turn.actor kept.now.jobs left.old.ready }
    ensures value { IfOk result (λ line. line
        ≡ rules.due_by_refusal script.now kept.now kept.now.turn.refused) }
    ensures room { turn_is_decided kept.now.turn.actor kept.now.jobs ≡ false → IsOk result }
    ensures ready { is_some left.old.ready ≡ true → IsOk result }
    ensures kept { IfOk result (λ line. is_given line ≡ false → left.new ≡ left.old) }
{
    match kept.turn.refused {
        Some((family, event)) => Ok(Due::TellRefusal(family, event)),
        None => due_by_publication(left, script, kept),
    }
}

/// The line that the turn makes next, or how it rests. Want of memory comes only where an edit is to be answered behind its deciding
/// success, and the rows that it leaves marked were not made ready.
pub fn due_with(left: &mut LeftRows, script: &Script, kept: &Kept) -> Result<Due, Memory>
    requires actors { length script.now.actors ≤ 254 }
    requires updates { turn_fits kept.now.turn.actor kept.now.jobs ≡ true }
    requires left { AreLeftInTurn kept.now.turn.actor kept.now.jobs left.old.ready }
    ensures value { IfOk result (λ line. line ≡ rules.due script.now kept.now) }
    ensures room { turn_is_decided kept.now.turn.actor kept.now.jobs ≡ false → IsOk result }
    ensures ready { is_some left.old.ready ≡ true → IsOk result }
    ensures kept { IfOk result (λ line. is_given line ≡ false → left.new ≡ left.old) }
{
    if let Some((epoch, event)) = kept.turn.ended {
        return Ok(Due::TellEnd(epoch, event));
    }
    if let Some(command) = due_command(kept) {
        return Ok(Due::Send(command));
    }
    if is_reset_due(kept) {
        return Ok(Due::ResetCard);
    }
    if let Some(event) = tried_event(kept) {
        return Ok(Due::TryEvent(event));
    }
    due_by_refusal(left, script, kept)
}

/// The same where nothing was made ready.
pub fn due(alloc: Global, script: &Script, kept: &Kept) -> Result<Due, Memory>
    requires actors { length script.now.actors ≤ 254 }
    requires updates { turn_fits kept.now.turn.actor kept.now.jobs ≡ true }
    ensures value { IfOk result (λ line. line ≡ rules.due script.now kept.now) }
    ensures room { turn_is_decided kept.now.turn.actor kept.now.jobs ≡ false → IsOk result }
{
    due_with(&mut LeftRows::new(alloc), script, kept)
}
