// The rule of answers: each answer has its cause, and stands in the earliest turn of its actor in which it has; so does each line of a
// refusal.
ghost use Rattle.std.specs.Prelude.{◌≡◌, ◌==◌, ◌&&◌, ◌||◌, IfOk};
ghost use Rattle.std.specs.Option.{option_copied};
ghost use Rattle.rules.specs.Rules as rules;
ghost use Rattle.rules.specs.Due as due;

use crate::answer_codes::same_answer;
use crate::same::is_number;
use apdu::Memory;
use card_model::World;
use planner::{begun_of, due_answer, slot_answer};
use report::{Answer, Line};
use rules::{Begun, Kept, Turn};
use script::Script;
use std::alloc::Global;

pub fn is_turn_of(actor: u8, turn: &Turn) -> bool
    ensures { result ≡ rules.is_turn_of actor turn.now }
{
    is_number(turn.actor, actor)
}

fn is_look(answer: &Answer) -> bool
    ensures { result ≡ rules.is_look answer.now }
{
    matches!(answer, Answer::Look { .. })
}

/// Whether the answer is the one that is due, where there is one. A look may show an earlier board.
fn is_answer_among(alloc: Global, given: &Answer, due: Option<&Answer>) -> Result<bool, Memory>
    ensures { IfOk result (λ among. among
        ≡ rules.is_answer_among given.now (option_copied due.entry)) }
{
    match due {
        None => Ok(false),
        Some(due) => {
            let same = same_answer(alloc, given, due)?;
            Ok(same || is_look(given) && is_look(due))
        }
    }
}

fn is_begun_at(op: u32, begun: Option<&Begun>) -> bool
    ensures { result ≡ rules.is_begun_at op (option_copied begun.entry) }
{
    match begun {
        None => false,
        Some(begun) => begun.index == op,
    }
}

/// Whether the lines so far, or the slot, give cause for the answer.
fn has_cause(
    alloc: Global,
    script: &Script,
    world: &World,
    kept: &Kept,
    given: &Answer,
) -> Result<bool, Memory>
    ensures { IfOk result (λ cause. cause
        ≡ (rules.is_answer_among given.now (due.due_answer script.now kept.now)
        || rules.is_answer_among given.now (due.slot_answer world.now kept.now))) }
{
    let from_lines = due_answer(alloc, script, kept)?;
    let from_slot = slot_answer(world, kept);
    let due = is_answer_among(alloc, given, from_lines.as_ref())?;
    let refused = is_answer_among(alloc, given, from_slot.as_ref())?;
    Ok(due || refused)
}

fn is_answer_right(
    alloc: Global,
    script: &Script,
    world: &World,
    kept: &Kept,
    actor: u8,
    op: u32,
    given: &Answer,
) -> Result<bool, Memory>
    ensures { IfOk result (λ right. right
        ≡ rules.is_answer_right script.now world.now kept.now actor op given.now) }
{
    let cause = has_cause(alloc, script, world, kept, given)?;
    let placed = is_turn_of(actor, &kept.turn) && is_begun_at(op, begun_of(actor, &kept.jobs));
    Ok(placed && cause)
}

fn is_refusal_right(kept: &Kept, family: u8, event: u64) -> bool
    ensures { result ≡ rules.is_refusal_right kept.now family event }
{
    match kept.turn.refused {
        None => false,
        Some((refused, at)) => is_turn_of(0, &kept.turn) && refused == family && at == event,
    }
}

/// The rule of answers at a line.
pub fn has_right_answer(
    alloc: Global,
    script: &Script,
    world: &World,
    kept: &Kept,
    line: &Line,
) -> Result<bool, Memory>
    ensures { IfOk result (λ right. right
        ≡ rules.has_right_answer script.now world.now kept.now line.now) }
{
    match line {
        Line::Answered { actor, op, answer } => {
            is_answer_right(alloc, script, world, kept, *actor, *op, answer)
        }
        Line::Refused { family, event } => Ok(is_refusal_right(kept, *family, *event)),
        _ => Ok(true),
    }
}

/// The rule of answers at the end of a turn: it lacks no answer, and no line of a refusal.
pub fn are_answers_given(
    alloc: Global,
    script: &Script,
    world: &World,
    kept: &Kept,
) -> Result<bool, Memory>
    ensures { IfOk result (λ given. given
        ≡ rules.are_answers_given script.now world.now kept.now) }
{
    let due = due_answer(alloc, script, kept)?;
    Ok(due.is_none() && slot_answer(world, kept).is_none() && kept.turn.refused.is_none())
}
