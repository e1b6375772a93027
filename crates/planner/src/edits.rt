// What a turn of an edit has to do.
ghost use Rattle.std.specs.Prelude.{◌≡◌, ◌∷◌, ◌++◌, [], Some, true, filter_map, IfOk, OnOk};
ghost use Rattle.std.specs.List.{list_all};
ghost use Rattle.std.specs.Option.{option_copied};
ghost use Rattle.adn.specs.declared.edit.Edit.TheVariants as edit_kind;
ghost use Rattle.editor.specs.Editing as edits;
ghost use Rattle.families.specs.Plans.{plan_updates, some_first};
ghost use Rattle.rules.specs.Editing as rules;
ghost use Rattle.rules.specs.Work as spec;
ghost use Rattle.planner.specs.Room as room;

use crate::access::{family_need, rule_path};
use crate::holdings::{lacking_key, lives_in};
use crate::work::{decides, reads_family};
use adn::{AdnEntry, Edit, Plan, PlanError, RowUpdate};
use apdu::{Memory, Path, Sequence, Text};
use card_model::PathList;
use editor::{Attempt, Editing, family_paths};
use epoch_cache::{CachedFiles, first_missing};
use rules::{Begun, Decision, Kept, Work};
use std::alloc::Global;

/// Plans the updates of rows by which an edit is made.
pub trait EditPlans {
    ghost use Rattle.std.specs.Prelude.{◌≡◌, true, IfOk};
    ghost use Rattle.std.specs.List.{list_all};
    ghost use Rattle.epoch_cache.specs.Cache.{view_of_files};
    ghost use Rattle.families.specs.Plans.{plan_updates};
    ghost use Rattle.planner.specs.Room.{is_short};
    ghost use Rattle.families.specs.Families.{family_plan};

    /// The plan of an edit of a family for what its current files hold, or why there is none.
    fn plan(
        &self,
        alloc: Global,
        family: u8,
        edit: &Edit,
        files: &CachedFiles,
    ) -> Result<Result<Plan, PlanError>, Memory>
        ensures value { IfOk result (λ planned.
            planned ≡ family_plan family edit.now (view_of_files files.now)) }
        ensures short { IfOk result (λ planned.
            IfOk planned (λ plan. list_all is_short (plan_updates plan) ≡ true)) };
}

// ---- the paths of an edit

fn add_copies(from: &[Path], paths: &mut PathList) -> Result<(), Memory>
    ensures { OnOk result (paths.new ≡ paths.old ++ from.now) }
{
    for path in from {
        paths.push(path.copy())?;
    }
    Ok(())
}

fn add_rule_path(files: &CachedFiles, path: &Path, paths: &mut PathList) -> Result<(), Memory>
    ensures { OnOk result
        (paths.new ≡ paths.old ++ filter_map (edits.rule_path files.now) (path.now ∷ [])) }
{
    match rule_path(files, path) {
        None => Ok(()),
        Some(rule) => paths.push(rule),
    }
}

#[tactic(auto, using(crate::proofs::Paths::one_more_rule))]
fn add_rule_paths(files: &CachedFiles, of: &[Path], paths: &mut PathList) -> Result<(), Memory>
    ensures { OnOk result
        (paths.new ≡ paths.old ++ filter_map (edits.rule_path files.now) of.now) }
{
    for path in of {
        add_rule_path(files, path, paths)?;
    }
    Ok(())
}

/// The paths of a family, and behind them those of the EF_ARR which its current files name.
fn edit_paths(alloc: Global, files: &CachedFiles, family: u8) -> Result<PathList, Memory>
    ensures { IfOk result (λ paths. paths ≡ edits.edit_paths files.now family) }
{
    let own = family_paths(family);
    let mut paths = Sequence::new(alloc);
    add_copies(own.as_slice(), &mut paths)?;
    add_rule_paths(files, own.as_slice(), &mut paths)?;
    Ok(paths)
}

// ---- the sessions that its updates ask for

fn lacks_for(kept: &Kept, actor: u8, family: u8, update: &RowUpdate) -> Option<u8>
    ensures { result ≡ rules.lacks_for kept.now.history actor kept.now.sessions kept.now.files
        family update.now }
{
    let need = family_need(&kept.files, family, update.file);
    lacking_key(kept.history, actor, &kept.sessions, need)
}

fn lack_behind(kept: &Kept, actor: u8, family: u8, after: Option<&RowUpdate>) -> Option<u8>
    ensures { result ≡ rules.first_lack kept.now.history actor kept.now.sessions kept.now.files
        family (some_first (option_copied after.entry) []) }
{
    lacks_for(kept, actor, family, after?)
}

fn lack_from_deciding(kept: &Kept, actor: u8, family: u8, plan: &Plan) -> Option<u8>
    ensures { result ≡ rules.first_lack kept.now.history actor kept.now.sessions kept.now.files
        family (plan.now.deciding ∷ some_first plan.now.after []) }
{
    match lacks_for(kept, actor, family, &plan.deciding) {
        Some(key) => Some(key),
        None => lack_behind(kept, actor, family, plan.after.as_ref()),
    }
}

/// The key of the first session that an actor lacks for the updates of a plan.
fn first_lack(kept: &Kept, actor: u8, family: u8, plan: &Plan) -> Option<u8>
    ensures { result ≡ rules.first_lack kept.now.history actor kept.now.sessions kept.now.files
        family (plan_updates plan.now) }
{
    match &plan.before {
        None => lack_from_deciding(kept, actor, family, plan),
        Some(before) => match lacks_for(kept, actor, family, before) {
            Some(key) => Some(key),
            None => lack_from_deciding(kept, actor, family, plan),
        },
    }
}

// ---- what it does

fn begins_plan(kept: &Kept, actor: u8, family: u8, plan: Plan, paths: PathList) -> Decision
    requires { list_all room.is_short (plan_updates plan) ≡ true }
    ensures value { result ≡ spec.begins_plan kept.now actor family plan paths }
    ensures short { room.is_new_attempt result.attempt ≡ true }
{
    match first_lack(kept, actor, family, &plan) {
        Some(key) => decides(Work::Lacks(key)),
        None => Decision {
            work: Work::Writes,
            attempt: Some(Attempt::new(family, plan, paths)),
        },
    }
}

fn plans<P: EditPlans>(
    alloc: Global,
    planner: &P,
    kept: &Kept,
    actor: u8,
    family: u8,
    edit: &Edit,
    paths: PathList,
) -> Result<Decision, Memory>
    ensures value { IfOk result (λ d. d ≡ spec.plans kept.now actor family edit.now paths) }
    ensures short { IfOk result (λ d. room.is_new_attempt d.attempt ≡ true) }
{
    match planner.plan(alloc, family, edit, &kept.files)? {
        Err(refusal) => Ok(decides(Work::Refuses(refusal))),
        Ok(plan) => Ok(begins_plan(kept, actor, family, plan, paths)),
    }
}

fn goes_on(attempt: &Attempt) -> Work
    ensures { result ≡ spec.goes_on attempt.now }
{
    if attempt.next_update().is_some() {
        Work::Writes
    } else {
        Work::Rests
    }
}

fn attempts<P: EditPlans>(
    alloc: Global,
    planner: &P,
    kept: &Kept,
    actor: u8,
    family: u8,
    edit: &Edit,
    attempt: Option<&Attempt>,
    paths: PathList,
) -> Result<Decision, Memory>
    ensures value { IfOk result (λ d. d ≡ spec.attempts kept.now actor family edit.now
        (option_copied attempt.entry) paths) }
    ensures short { IfOk result (λ d. room.is_new_attempt d.attempt ≡ true) }
{
    match attempt {
        Some(attempt) => Ok(decides(goes_on(attempt))),
        None => plans(alloc, planner, kept, actor, family, edit, paths),
    }
}

// Before the deciding success.
fn undecided_work<P: EditPlans>(
    alloc: Global,
    planner: &P,
    kept: &Kept,
    actor: u8,
    family: u8,
    edit: &Edit,
    attempt: Option<&Attempt>,
) -> Result<Decision, Memory>
    ensures value { IfOk result (λ d. d ≡ spec.undecided_work kept.now actor family edit.now
        (option_copied attempt.entry)) }
    ensures short { IfOk result (λ d. room.is_new_attempt d.attempt ≡ true) }
{
    let paths = edit_paths(alloc, &kept.files, family)?;
    if let Some(path) = first_missing(&kept.files, paths.as_slice()) {
        return Ok(decides(Work::Reads(path.copy())));
    }
    attempts(alloc, planner, kept, actor, family, edit, attempt, paths)
}

// Behind the deciding success.
fn decided_work(kept: &Kept, family: u8, editing: &Editing) -> Work
    ensures { result ≡ spec.decided_work kept.now family editing.now }
{
    if editing.owed_update(true).is_some() {
        Work::Writes
    } else {
        reads_family(&kept.files, family)
    }
}

fn edit_work<P: EditPlans>(
    alloc: Global,
    planner: &P,
    kept: &Kept,
    actor: u8,
    family: u8,
    edit: &Edit,
    editing: &Editing,
) -> Result<Decision, Memory>
    ensures value { IfOk result (λ d. d
        ≡ spec.edit_work kept.now actor family edit.now editing.now) }
    ensures short { IfOk result (λ d. room.is_new_attempt d.attempt ≡ true) }
{
    match editing.decided {
        None => undecided_work(
            alloc,
            planner,
            kept,
            actor,
            family,
            edit,
            editing.attempt.as_ref(),
        ),
        Some(_) => Ok(decides(decided_work(kept, family, editing))),
    }
}

fn work_of_edit<P: EditPlans>(
    alloc: Global,
    planner: &P,
    kept: &Kept,
    actor: u8,
    begun: &Begun,
    family: u8,
    edit: &Edit,
) -> Result<Decision, Memory>
    ensures value { IfOk result (λ d. d
        ≡ spec.work_of_edit kept.now actor begun.now (Some (family, edit.now))) }
    ensures short { IfOk result (λ d. room.is_new_attempt d.attempt ≡ true) }
{
    if lives_in(kept.history, begun.epoch) {
        edit_work(alloc, planner, kept, actor, family, edit, &begun.editing)
    } else {
        Ok(decides(Work::Rests))
    }
}

/// What a turn has to do that writes an entry.
pub fn work_of_set<P: EditPlans>(
    alloc: Global,
    planner: &P,
    kept: &Kept,
    actor: u8,
    begun: &Begun,
    family: u8,
    at: Option<u8>,
    name: &Text,
    number: &Text,
) -> Result<Decision, Memory>
    ensures value { IfOk result (λ d. d ≡ spec.work_of_edit kept.now actor begun.now
        (Some (family, edit_kind.Set at (record { name = name.now; number = number.now })))) }
    ensures short { IfOk result (λ d. room.is_new_attempt d.attempt ≡ true) }
{
    let entry = AdnEntry {
        name: Text::from_str(alloc, name.as_str())?,
        number: Text::from_str(alloc, number.as_str())?,
    };
    let edit = Edit::Set { at, entry };
    work_of_edit(alloc, planner, kept, actor, begun, family, &edit)
}

/// What a turn has to do that frees a row.
pub fn work_of_clear<P: EditPlans>(
    alloc: Global,
    planner: &P,
    kept: &Kept,
    actor: u8,
    begun: &Begun,
    family: u8,
    at: u8,
) -> Result<Decision, Memory>
    ensures value { IfOk result (λ d. d
        ≡ spec.work_of_edit kept.now actor begun.now (Some (family, edit_kind.Clear at))) }
    ensures short { IfOk result (λ d. room.is_new_attempt d.attempt ≡ true) }
{
    let edit = Edit::Clear { at };
    work_of_edit(alloc, planner, kept, actor, begun, family, &edit)
}
