// The answer that is due.
ghost use Rattle.std.specs.Prelude.{◌≡◌, if◌then◌else◌, Some, None, Ok, true, false, is_some, IsOk, IfOk, IfSome};
ghost use Rattle.std.specs.Option.{option_copied};
ghost use Rattle.apdu.specs.Words.{or_else};
ghost use Rattle.report.specs.declared.answer.Answer.TheVariants as answer;
ghost use Rattle.rules.specs.Due as rules;
ghost use Rattle.rules.specs.Sessions.{has_session as has_session_of};
ghost use Rattle.rules.specs.Standing.{board_of as board_shown};
ghost use Rattle.rules.specs.Watching.{notices_of as notices_in};
ghost use Rattle.editor.specs.Editing as edits;
ghost use Rattle.planner.specs.Room.{AreLeft, AreLeftInTurn, is_decided, turn_is_decided};

use crate::holdings::{handle_of, has_session};
use crate::left::LeftRows;
use crate::operations::operation_at;
use crate::work::is_raw_ins;
use adn::PlanError;
use apdu::Memory;
use arrayvec::ArrayVec;
use editor::Decided;
use report::{Answer, Seen};
use rules::{Begun, Handle, Job, Kept, Outcome, Standing, Turn, Work};
use script::{Operation, Script};
use std::alloc::Global;
use watchers::Mailbox;

// ---- what the commands of a turn came to

fn answer_of_outcome(outcome: &Outcome) -> Answer
    ensures { result ≡ rules.answer_of_outcome outcome.now }
{
    match outcome {
        Outcome::Status { sw, event } => Answer::Status {
            sw: *sw,
            event: *event,
        },
        Outcome::Loop { event } => Answer::Loop { event: *event },
        Outcome::BadFcp { event } => Answer::BadFcp { event: *event },
        Outcome::Opened { channel } => Answer::Opened { channel: *channel },
        Outcome::Exhausted { event } => Answer::Exhausted { event: *event },
        Outcome::Raw { response } => Answer::Raw {
            response: response.copy(),
        },
        Outcome::Closed => Answer::Closed,
        Outcome::Verified => Answer::Verified,
        Outcome::Polled => Answer::Polled,
    }
}

fn outcome_answer(turn: &Turn) -> Option<Answer>
    ensures { result ≡ rules.outcome_answer turn.now }
{
    match &turn.outcome {
        None => None,
        Some(outcome) => Some(answer_of_outcome(outcome)),
    }
}

// ---- absent cards, and epochs that ended

fn with_ended(epoch: u64, ended: Option<u64>, unsure: bool, other: Option<Answer>) -> Option<Answer>
    ensures { result ≡ rules.with_ended epoch ended unsure other }
{
    match ended {
        None => other,
        Some(event) => Some(Answer::EpochEnded {
            epoch,
            event,
            unsure,
        }),
    }
}

// The event was the edit's own deciding UPDATE.
fn is_lost(ended: Option<u64>, lost: Option<u64>) -> bool
    ensures { result ≡ rules.is_lost ended lost }
{
    match (ended, lost) {
        (Some(ended), Some(lost)) => ended == lost,
        (_, _) => false,
    }
}

fn with_card(begun: &Begun, other: Option<Answer>) -> Option<Answer>
    ensures { result ≡ rules.with_card begun.now.epoch begun.now other }
{
    match begun.epoch {
        None => Some(Answer::Absent),
        Some(epoch) => {
            let unsure = is_lost(begun.ended, begun.editing.lost);
            with_ended(epoch, begun.ended, unsure, other)
        }
    }
}

// ---- loads

fn loaded(published: Option<u64>) -> Option<Answer>
    ensures { result ≡ rules.loaded published }
{
    match published {
        None => None,
        Some(publication) => Some(Answer::Loaded { publication }),
    }
}

fn loaded_or_outcome(turn: &Turn) -> Option<Answer>
    ensures { result ≡ or_else (rules.loaded turn.now.published) (rules.outcome_answer turn.now) }
{
    match loaded(turn.published) {
        Some(answer) => Some(answer),
        None => outcome_answer(turn),
    }
}

// ---- edits

fn done_in_turn(published: Option<u64>, came: &Option<Outcome>) -> Option<Option<u64>>
    ensures { result ≡ rules.done_in_turn published came.now }
{
    match (published, came) {
        (Some(number), _) => Some(Some(number)),
        (None, None) => None,
        (None, Some(_)) => Some(None),
    }
}

// The publication that an edit names behind its deciding success, once it can.
fn done_publication(begun: &Begun, turn: &Turn) -> Option<Option<u64>>
    ensures { result ≡ rules.done_publication begun.now turn.now }
{
    match begun.told {
        Some(number) => Some(Some(number)),
        None => {
            if turn.family.is_some() {
                done_in_turn(turn.published, &turn.outcome)
            } else {
                None
            }
        }
    }
}

fn decided_answer(
    left: &mut LeftRows,
    begun: &Begun,
    decided: &Decided,
    turn: &Turn,
) -> Result<Option<Answer>, Memory>
    requires left { IfSome left.old.ready
        (λ rows. rows ≡ edits.left_rows begun.now.editing decided.now) }
    ensures value { IfOk result (λ given. given
        ≡ rules.decided_answer begun.now decided.now turn.now) }
    ensures room { is_some left.old.ready ≡ true → IsOk result }
    ensures kept { result ≡ Ok None → left.new ≡ left.old }
{
    match done_publication(begun, turn) {
        None => Ok(None),
        Some(publication) => {
            let left = left.take(&begun.editing, *decided)?;
            Ok(Some(Answer::Done {
                event: decided.event,
                publication,
                left,
            }))
        }
    }
}

fn plan_refusal(error: PlanError) -> Answer
    ensures { result ≡ rules.plan_refusal error }
{
    match error {
        PlanError::BadFile { width } => Answer::BadFile { width },
        PlanError::NoRecord(at) => Answer::NoRecord { at },
        PlanError::Full { count } => Answer::Full { count },
        PlanError::NotWritable(found) => Answer::NotWritable { found },
        PlanError::NameTooLong { need, room } => Answer::NameTooLong { need, room },
        PlanError::BadDigit(at) => Answer::BadDigit { at },
        PlanError::NumberTooLong(count) => Answer::NumberTooLong { count },
        PlanError::ExtFull { count } => Answer::ExtFull { count },
        PlanError::Memory => Answer::NotWritable { found: '\0' },
    }
}

fn planning_answer(work: &Work) -> Option<Answer>
    ensures { result ≡ rules.planning_answer work.now }
{
    match work {
        Work::Refuses(refused) => Some(plan_refusal(*refused)),
        Work::Lacks(key) => Some(Answer::NeedsPin { key: *key }),
        _ => None,
    }
}

fn outcome_or_planning(turn: &Turn) -> Option<Answer>
    ensures { result
        ≡ or_else (rules.outcome_answer turn.now) (rules.planning_answer turn.now.work) }
{
    match outcome_answer(turn) {
        Some(answer) => Some(answer),
        None => planning_answer(&turn.work),
    }
}

fn edit_answer(left: &mut LeftRows, begun: &Begun, turn: &Turn) -> Result<Option<Answer>, Memory>
    requires left { AreLeft (Some begun.now) left.old.ready }
    ensures value { IfOk result (λ given. given
        ≡ rules.edit_answer begun.now turn.now begun.now.editing.decided) }
    ensures room { is_decided (Some begun.now) ≡ false → IsOk result }
    ensures ready { is_some left.old.ready ≡ true → IsOk result }
    ensures kept { result ≡ Ok None → left.new ≡ left.old }
{
    match &begun.editing.decided {
        Some(decided) => decided_answer(left, begun, decided, turn),
        None => Ok(with_card(begun, outcome_or_planning(turn))),
    }
}

// ---- channels

fn on_handle(handle: u8, held: Option<&Handle>, other: Option<Answer>) -> Option<Answer>
    ensures { result ≡ rules.on_handle handle (option_copied held.entry) other }
{
    match held {
        None => Some(Answer::NotHeldRef { handle }),
        Some(held) => with_ended(held.epoch, held.ended, false, other),
    }
}

fn raw_on_handle(
    handle: u8,
    held: Option<&Handle>,
    ins: u8,
    other: Option<Answer>,
) -> Option<Answer>
    ensures { result ≡ rules.raw_on_handle handle (option_copied held.entry) ins other }
{
    match held {
        None => Some(Answer::NotHeldRef { handle }),
        Some(held) => {
            if is_raw_ins(ins) {
                with_ended(held.epoch, held.ended, false, other)
            } else {
                Some(Answer::RawRefused { ins })
            }
        }
    }
}

// ---- the board and the notices

fn board_of(standings: &[Standing; 3]) -> ArrayVec<Option<u64>, 8>
    ensures { result.items ≡ board_shown standings.now }
{
    let [records, phonebook, fixed] = standings;
    let mut shown = ArrayVec::new();
    shown.push(records.shown);
    shown.push(phonebook.shown);
    shown.push(fixed.shown);
    shown
}

fn seen_now(kept: &Kept) -> Seen
    ensures { result ≡ rules.seen_now kept.now }
{
    Seen {
        count: kept.publications,
        shown: board_of(&kept.standings),
    }
}

fn notices_of(mailbox: &Option<Mailbox>) -> Answer
    ensures { result ≡ notices_in mailbox.now }
{
    match mailbox {
        None => Answer::Notices {
            dropped: 0,
            numbers: ArrayVec::new(),
        },
        Some(mailbox) => {
            let mut numbers = ArrayVec::new();
            let _ = numbers.try_extend_from_slice(mailbox.numbers.as_slice());
            Answer::Notices {
                dropped: mailbox.dropped,
                numbers,
            }
        }
    }
}

// ---- any operation

fn moved(happened: bool) -> Option<Answer>
    ensures { result ≡ (if happened then Some answer.Moved else None) }
{
    if happened { Some(Answer::Moved) } else { None }
}

fn end_answer(kept: &Kept, actor: u8, key: u8) -> Answer
    ensures { result ≡ (if has_session_of actor key kept.now.sessions then answer.Ended
        else answer.NotHeldKey key) }
{
    if has_session(actor, key, &kept.sessions) {
        Answer::Ended
    } else {
        Answer::NotHeldKey { key }
    }
}

fn answer_of(
    left: &mut LeftRows,
    kept: &Kept,
    actor: u8,
    job: &Job,
    begun: &Begun,
    operation: &Operation,
) -> Result<Option<Answer>, Memory>
    requires left { AreLeft (Some begun.now) left.old.ready }
    ensures value { IfOk result (λ given. given
        ≡ rules.answer_of kept.now actor job.now begun.now operation.now) }
    ensures room { is_decided (Some begun.now) ≡ false → IsOk result }
    ensures ready { is_some left.old.ready ≡ true → IsOk result }
    ensures kept { result ≡ Ok None → left.new ≡ left.old }
{
    let turn = &kept.turn;
    match operation {
        Operation::Insert { .. } | Operation::Out | Operation::Arm { .. } => Ok(moved(
            turn.happened,
        )),
        Operation::Load { .. } => Ok(with_card(begun, loaded_or_outcome(turn))),
        Operation::OpenChannel { .. } | Operation::Verify { .. } | Operation::Poll => {
            Ok(with_card(begun, outcome_answer(turn)))
        }
        Operation::Raw { handle, apdu } => {
            let held = handle_of(actor, *handle, &kept.handles);
            Ok(raw_on_handle(*handle, held, apdu.ins, outcome_answer(turn)))
        }
        Operation::Close { handle } => {
            let held = handle_of(actor, *handle, &kept.handles);
            Ok(on_handle(*handle, held, outcome_answer(turn)))
        }
        Operation::End { key } => Ok(Some(end_answer(kept, actor, *key))),
        Operation::Look => Ok(Some(Answer::Look {
            seen: seen_now(kept),
        })),
        Operation::Watch { .. } => Ok(Some(Answer::Watching)),
        Operation::Notices => Ok(Some(notices_of(&job.mailbox))),
        Operation::Set { .. } | Operation::Clear { .. } => edit_answer(left, begun, turn),
    }
}

/// The answer that the lines so far give cause for.
pub fn due_answer(alloc: Global, script: &Script, kept: &Kept) -> Result<Option<Answer>, Memory>
    ensures value { IfOk result (λ given. given ≡ rules.due_answer script.now kept.now) }
    ensures room { turn_is_decided kept.now.turn.actor kept.now.jobs ≡ false → IsOk result }
{
    answer_with(&mut LeftRows::new(alloc), script, kept)
}

/// The same, with the rows that an edit leaves marked.
pub(crate) fn answer_with(
    left: &mut LeftRows,
    script: &Script,
    kept: &Kept,
) -> Result<Option<Answer>, Memory>
    requires left { AreLeftInTurn kept.now.turn.actor kept.now.jobs left.old.ready }
    ensures value { IfOk result (λ given. given ≡ rules.due_answer script.now kept.now) }
    ensures room { turn_is_decided kept.now.turn.actor kept.now.jobs ≡ false → IsOk result }
    ensures ready { is_some left.old.ready ≡ true → IsOk result }
    ensures kept { result ≡ Ok None → left.new ≡ left.old }
{
    let Some(actor) = kept.turn.actor else {
        return Ok(None);
    };
    let Some(job) = kept.jobs.get(actor as usize) else {
        return Ok(None);
    };
    let Some(begun) = &job.begun else {
        return Ok(None);
    };
    match operation_at(script, actor, begun.index) {
        None => Ok(None),
        Some(operation) => answer_of(left, kept, actor, job, begun, operation),
    }
}
