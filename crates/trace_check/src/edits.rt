// The rule of edits: outside raw operations an UPDATE stands in the lines of one edit. The updates of an attempt are a front of the plan
// for the card at its first, in order, one in a turn, and for each the actor holds the session of the key that its file asks for. Behind a
// deciding success the book is the edited one; behind a deciding update that failed it is one of the two; behind every other update it is
// the one before. An edit that is done names the deciding success and the rows that stay marked, and no update is left to send.
ghost use Rattle.std.specs.Prelude.{◌≡◌, ◌&&◌, [], true, false, Some, is_some, option_map, slice_get, unwrap_or, IfOk, IfSome};
ghost use Rattle.std.specs.Option.{option_copied};
ghost use Rattle.apdu.specs.Apdu.{is_success, is_update_ins as is_update, same_command as same_commands};
ghost use Rattle.apdu.specs.Words.{has_value, same_bytes as same_paths};
ghost use Rattle.card_model.specs.declared.world.World.{World as WorldValue};
ghost use Rattle.editor.specs.Editing as editing;
ghost use Rattle.families.specs.Families as families;
ghost use Rattle.families.specs.Plans.{edited as edited_book, same_book as same_books};
ghost use Rattle.link.specs.Commands.{continued};
ghost use Rattle.rules.specs.Due.{planning_answer};
ghost use Rattle.rules.specs.Rules as rules;
ghost use Rattle.trace_check.specs.Edits as spec;
ghost use Rattle.trace_check.specs.Judging.{is_sent};

use crate::books::{book_in, edit_of, make_edit, same_book};
use crate::card::card_inside;
use crate::holdings::{has_needed_session, lives_in};
use crate::plans::{first_update, has_updates, is_update, plan_now};
use crate::same::same_bytes;
use crate::verifications::turn_operation;
use adn::{Book, Edit, Plan, PlanError, RowUpdate};
use apdu::{Command, Memory, Path, Response};
use card_model::{CardState, World};
use card_rows::{file_of, rule_of};
use editor::{Attempt, family_paths};
use fcp::Need;
use link::{Chain, same_command};
use planner::{begun_of, operation_now};
use report::{Answer, Line};
use rules::{Begun, Kept, Work};
use script::{Operation, Script};
use std::alloc::Global;

/// The edit whose turn it is.
#[derive(Drop)]
pub struct EditTurn<'a> {
    pub actor: u8,
    pub family: u8,
    pub edit: Edit,
    pub begun: &'a Begun,
}

fn edit_turn_of<'a>(
    alloc: Global,
    actor: u8,
    begun: &'a Begun,
    operation: &Operation,
) -> Result<Option<EditTurn<'a>>, Memory>
    ensures { IfOk result (λ turn. option_map spec.turn_of turn
        ≡ rules.edit_turn_of actor (Some begun.now) (Some operation.now)) }
{
    match edit_of(alloc, operation)? {
        None => Ok(None),
        Some((family, edit)) => Ok(Some(EditTurn {
            actor,
            family,
            edit,
            begun,
        })),
    }
}

/// The edit whose turn it is, if it is one's.
fn edit_turn<'a>(
    alloc: Global,
    script: &Script,
    kept: &'a Kept,
) -> Result<Option<EditTurn<'a>>, Memory>
    ensures { IfOk result (λ turn. option_map spec.turn_of turn
        ≡ rules.edit_turn script.now kept.now) }
{
    let Some(actor) = kept.turn.actor else {
        return Ok(None);
    };
    let Some(begun) = begun_of(actor, &kept.jobs) else {
        return Ok(None);
    };
    match operation_now(script, actor, &kept.jobs) {
        None => Ok(None),
        Some(operation) => edit_turn_of(alloc, actor, begun, operation),
    }
}

// ---- the update that is next

fn need_of(card: &CardState, ids: &[u16]) -> Need
    ensures { result ≡ editing.card_need card.now ids.now }
{
    match file_of(ids, card) {
        None => Need::Always,
        Some(file) => rule_of(card, file).update,
    }
}

/// What the card asks for where a file of a family is updated.
fn family_need(card: &CardState, family: u8, file: u8) -> Need
    ensures { result ≡ editing.card_need card.now (families.family_path family file) }
{
    let paths = family_paths(family);
    match paths.as_slice().get(file as usize) {
        None => need_of(card, &[]),
        Some(path) => need_of(card, path.ids()),
    }
}

fn allowed_on<'a>(
    kept: &Kept,
    turn: &EditTurn,
    card: &CardState,
    update: &'a RowUpdate,
) -> Option<&'a RowUpdate>
    ensures { option_copied result
        ≡ rules.allowed_on kept.now (spec.turn_of turn.now) card.now update.now }
{
    let need = family_need(card, turn.family, update.file);
    if has_needed_session(kept.history, turn.actor, &kept.sessions, need) {
        Some(update)
    } else {
        None
    }
}

/// The update, where the actor holds the session that its file asks for.
fn allowed_in<'a>(
    world: &World,
    kept: &Kept,
    turn: &EditTurn,
    update: &'a RowUpdate,
) -> Option<&'a RowUpdate>
    ensures { option_copied result
        ≡ rules.allowed_in world.now kept.now (spec.turn_of turn.now) update.now }
{
    match card_inside(world) {
        None => None,
        Some(card) => allowed_on(kept, turn, card, update),
    }
}

/// The first update of a new attempt.
fn new_attempt<'a>(
    world: &World,
    kept: &Kept,
    turn: &EditTurn,
    planned: &'a Result<Plan, PlanError>,
) -> Option<&'a RowUpdate>
    requires { planned.now ≡ spec.plan_of world.now (spec.turn_of turn.now) }
    ensures { option_copied result
        ≡ rules.new_attempt world.now kept.now (spec.turn_of turn.now) }
{
    match first_update(planned) {
        None => None,
        Some(update) => allowed_in(world, kept, turn, update),
    }
}

/// Before the deciding success: the next update of the attempt under way, or the first of a new attempt.
fn undecided_update<'a>(
    world: &World,
    kept: &Kept,
    turn: &EditTurn,
    planned: &'a Result<Plan, PlanError>,
    attempt: Option<&'a Attempt>,
) -> Option<&'a RowUpdate>
    requires { planned.now ≡ spec.plan_of world.now (spec.turn_of turn.now) }
    ensures { option_copied result ≡ rules.undecided_update world.now kept.now
        (spec.turn_of turn.now) (option_copied attempt.entry) }
{
    match attempt {
        None => new_attempt(world, kept, turn, planned),
        Some(attempt) => {
            if attempt.sent == 0 {
                new_attempt(world, kept, turn, planned)
            } else {
                attempt.next_update()
            }
        }
    }
}

/// The update that is next. Behind the deciding success no attempt begins.
fn ordered_update<'a>(
    world: &World,
    kept: &Kept,
    turn: &EditTurn<'a>,
    planned: &'a Result<Plan, PlanError>,
) -> Option<&'a RowUpdate>
    requires { planned.now ≡ spec.plan_of world.now (spec.turn_of turn.now) }
    ensures { option_copied result ≡ rules.ordered_update world.now kept.now
        (spec.turn_of turn.now) (spec.turn_of turn.now).begun.editing.decided }
{
    let editing = &turn.begun.editing;
    match &editing.decided {
        None => undecided_update(world, kept, turn, planned, editing.attempt.as_ref()),
        Some(_) => editing.owed_update(true),
    }
}

fn is_update_at(command: &Command, update: Option<&RowUpdate>) -> bool
    ensures { result ≡ has_value (λ u. same_commands command.now (editing.update_command u))
        (option_copied update.entry) }
{
    match update {
        None => false,
        Some(update) => is_update(command, update),
    }
}

/// An attempt that has sent nothing yet has the updates of the plan for the card as it is.
fn is_planned_right(
    world: &World,
    turn: &EditTurn,
    planned: &Result<Plan, PlanError>,
    attempt: Option<&Attempt>,
) -> bool
    requires { planned.now ≡ spec.plan_of world.now (spec.turn_of turn.now) }
    ensures { result ≡ rules.is_planned_right world.now (spec.turn_of turn.now)
        (option_copied attempt.entry) }
{
    match attempt {
        None => true,
        Some(attempt) => attempt.sent != 0 || has_updates(&attempt.plan, planned),
    }
}

fn refuses(work: &Work) -> bool
    ensures { result ≡ is_some (planning_answer work.now) }
{
    matches!(work, Work::Refuses(_) | Work::Lacks(_))
}

/// One update in a turn, in the epoch in which the edit began, and where its answer has no cause yet.
fn may_update(kept: &Kept, turn: &EditTurn) -> bool
    ensures { result ≡ rules.may_update kept.now (spec.turn_of turn.now) }
{
    lives_in(kept.history, turn.begun.epoch)
        && !kept.turn.updated
        && kept.turn.outcome.is_none()
        && !refuses(&kept.turn.work)
}

fn is_ordered(
    alloc: Global,
    world: &World,
    kept: &Kept,
    turn: &EditTurn,
    command: &Command,
) -> Result<bool, Memory>
    ensures { IfOk result (λ ordered. ordered
        ≡ rules.is_ordered world.now kept.now (spec.turn_of turn.now) command.now) }
{
    let planned = plan_now(alloc, world, turn.family, &turn.edit)?;
    let attempt = turn.begun.editing.attempt.as_ref();
    let right = is_planned_right(world, turn, &planned, attempt);
    let next = is_update_at(command, ordered_update(world, kept, turn, &planned));
    Ok(may_update(kept, turn) && (right && next))
}

// ---- an UPDATE, before the card has it and behind it

/// The command that is being sent, where this is a further exchange of it.
fn continued<'a>(command: &Command, chain: Option<&'a Chain>) -> Option<&'a Chain>
    ensures { option_copied result ≡ continued command.now (option_copied chain.entry) }
{
    let chain = chain?;
    if same_command(command, &chain.next) {
        Some(chain)
    } else {
        None
    }
}

/// A further exchange of a command is tested by its book alone.
fn is_sent_right(
    alloc: Global,
    world: &World,
    kept: &Kept,
    turn: &EditTurn,
    command: &Command,
) -> Result<bool, Memory>
    ensures { IfOk result (λ right. right ≡ rules.is_sent_right world.now kept.now
        (spec.turn_of turn.now) command.now (continued command.now kept.now.chain)) }
{
    match continued(command, kept.chain.as_ref()) {
        None => is_ordered(alloc, world, kept, turn, command),
        Some(_) => Ok(true),
    }
}

/// What an UPDATE is held against, as it stands before the card has the command.
#[derive(Drop)]
pub enum Update {
    /// It is none, or an application's.
    Free,
    /// It stands in the lines of no edit.
    Stray,
    /// It is an edit's.
    OfEdit {
        /// It is the one that is next.
        ordered: bool,
        /// It is of the main file, which the deciding one alone is.
        deciding: bool,
        family: u8,
        edit: Edit,
        /// The book before it.
        book: Book,
    },
}

fn is_first(paths: &[Path], path: &Path) -> bool
    ensures { result ≡ same_paths (unwrap_or (slice_get paths.now 0) []) path.now }
{
    match paths {
        [] => path.ids().is_empty(),
        [first, ..] => first.equals(path),
    }
}

/// Whether the main file of the family is selected on the basic channel, which the deciding update alone is of.
fn is_deciding(kept: &Kept, turn: &EditTurn) -> bool
    ensures { result ≡ rules.is_deciding kept.now (spec.turn_of turn.now) }
{
    match &kept.selected {
        None => false,
        Some(selected) => is_first(family_paths(turn.family).as_slice(), selected),
    }
}

fn update_of_edit(
    alloc: Global,
    world: &World,
    kept: &Kept,
    turn: EditTurn,
    command: &Command,
) -> Result<Update, Memory>
    ensures { IfOk result (λ update. update
        ≡ spec.update_of_edit world.now kept.now command.now (spec.turn_of turn.entry)) }
{
    let ordered = is_sent_right(alloc, world, kept, &turn, command)?;
    let book = book_in(alloc, world, turn.family)?;
    Ok(Update::OfEdit {
        ordered,
        deciding: is_deciding(kept, &turn),
        family: turn.family,
        edit: turn.edit,
        book,
    })
}

/// Whether the instruction is UPDATE BINARY or UPDATE RECORD.
pub fn is_update_ins(ins: u8) -> bool
    ensures { result ≡ is_update ins }
{
    matches!(ins, 0xD6 | 0xDC)
}

fn is_outside_raw(script: &Script, kept: &Kept, command: &Command) -> bool
    ensures { result ≡ rules.is_outside_raw script.now kept.now command.now }
{
    is_update_ins(command.ins)
        && !matches!(turn_operation(script, kept), Some(Operation::Raw { .. }))
}

/// What the command is held against, if it is an UPDATE outside raw operations.
pub fn update_before(
    alloc: Global,
    script: &Script,
    world: &World,
    kept: &Kept,
    command: &Command,
) -> Result<Update, Memory>
    ensures { IfOk result (λ update. update
        ≡ spec.update_before script.now world.now kept.now command.now) }
{
    if !is_outside_raw(script, kept, command) {
        return Ok(Update::Free);
    }
    match edit_turn(alloc, script, kept)? {
        None => Ok(Update::Stray),
        Some(turn) => update_of_edit(alloc, world, kept, turn, command),
    }
}

/// Whether the book behind an edit's deciding success is the edited one.
fn is_book_edited(alloc: Global, edit: &Edit, book: Book, behind: &Book) -> Result<bool, Memory>
    ensures { IfOk result (λ edited. edited
        ≡ same_books behind.now (edited_book book edit.now)) }
{
    let mut book = book;
    make_edit(alloc, edit, &mut book)?;
    Ok(same_book(behind.as_slice(), book.as_slice()))
}

fn is_deciding_success(deciding: bool, response: &Response) -> bool
    ensures { result ≡ (deciding && is_success response.now.sw) }
{
    deciding && response.sw.is_success()
}

/// Whether the book behind an update is right: the edited one behind a deciding success, and behind any other update the one before it.
fn is_book_right(
    alloc: Global,
    decides: bool,
    edit: &Edit,
    book: Book,
    behind: &Book,
) -> Result<bool, Memory>
    ensures { IfOk result (λ right. right ≡ spec.is_book_right decides edit.now book behind.now) }
{
    if decides {
        is_book_edited(alloc, edit, book, behind)
    } else {
        Ok(same_book(behind.as_slice(), book.as_slice()))
    }
}

/// The rule of edits at an exchange; `world` is the one behind it.
pub fn is_update_right(
    alloc: Global,
    update: Update,
    response: &Response,
    world: &World,
) -> Result<bool, Memory>
    ensures { IfOk result (λ right. right
        ≡ spec.is_right_behind world.now response.now update) }
{
    match update {
        Update::Free => Ok(true),
        Update::Stray => Ok(false),
        Update::OfEdit {
            ordered,
            deciding,
            family,
            edit,
            book,
        } => {
            let behind = book_in(alloc, world, family)?;
            let decides = is_deciding_success(deciding, response);
            let right = is_book_right(alloc, decides, &edit, book, &behind)?;
            Ok(ordered && right)
        }
    }
}

/// The rule of edits at a failed exchange; `world` is the one behind it.
pub fn is_lost_update_right(alloc: Global, update: Update, world: &World) -> Result<bool, Memory>
    ensures { IfOk result (λ right. right ≡ spec.is_right_lost world.now update) }
{
    match update {
        Update::Free => Ok(true),
        Update::Stray => Ok(false),
        Update::OfEdit {
            ordered,
            deciding,
            family,
            edit,
            book,
        } => {
            let behind = book_in(alloc, world, family)?;
            let same = same_book(behind.as_slice(), book.as_slice());
            let edited = is_book_edited(alloc, &edit, book, &behind)?;
            Ok(ordered && (same || deciding && edited))
        }
    }
}

// ---- an edit that is done

fn is_done_by(
    alloc: Global,
    kept: &Kept,
    event: u64,
    left: &[u8],
    begun: &Begun,
) -> Result<bool, Memory>
    ensures { IfOk result (λ done. done ≡ rules.is_done_by kept.now event left.now begun.now
        begun.now.editing.decided) }
{
    let Some(decided) = begun.editing.decided else {
        return Ok(false);
    };
    let marked = begun.editing.left_rows(alloc, decided)?;
    let living = lives_in(kept.history, begun.epoch);
    Ok(
        decided.event == event
            && same_bytes(left, marked.as_slice())
            && begun.editing.owed_update(living).is_none(),
    )
}

fn is_done_right(
    alloc: Global,
    kept: &Kept,
    turn: &EditTurn,
    actor: u8,
    op: u32,
    event: u64,
    left: &[u8],
) -> Result<bool, Memory>
    ensures { IfOk result (λ right. right
        ≡ rules.is_done_right kept.now actor op event left.now (spec.turn_of turn.now)) }
{
    let done = is_done_by(alloc, kept, event, left, turn.begun)?;
    Ok(turn.actor == actor && turn.begun.index == op && done)
}

/// The rule of edits at an answer, and at a line that is no exchange.
pub fn has_right_done(
    alloc: Global,
    script: &Script,
    kept: &Kept,
    line: &Line,
) -> Result<bool, Memory>
    requires { is_sent line.now ≡ false }
    ensures { (world : WorldValue) → IfOk result (λ right. right
        ≡ rules.has_right_edit script.now world kept.now line.now) }
{
    let Line::Answered { actor, op, answer } = line else {
        return Ok(true);
    };
    let Answer::Done { event, left, .. } = answer else {
        return Ok(true);
    };
    match edit_turn(alloc, script, kept)? {
        None => Ok(false),
        Some(turn) => { is_done_right(alloc, kept, &turn, *actor, *op, *event, left.as_slice()) }
    }
}
