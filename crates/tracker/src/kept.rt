// What a line leaves of all that is kept, but for the turn and the job of its actor.
ghost use Rattle.std.specs.Prelude.{◌≡◌, true};
ghost use Rattle.std.specs.List.{list_all};
ghost use Rattle.std.specs.Option.{option_copied};
ghost use Rattle.rules.specs.After as rules;
ghost use Rattle.tracker.specs.Fields as fields;
ghost use Rattle.tracker.specs.Room.{CountsOn, HasRoom, own_has_room};

use crate::facts::facts_of;
use crate::fields::{chain_behind, files_beside, owed_behind, selection_behind, startup_behind};
use crate::history::history_after;
use crate::holdings::handles_beside;
use crate::jobs::jobs_beside;
use crate::lines::{counted, is_mark, is_publication};
use crate::standings::{Look, family_begun, standings_behind};
use loader::RefusedReading;
use report::Line;
use rules::{Facts, Kept};
use script::Script;
use std::alloc::Global;

/// The fields that a line changes alike, whoever's it is.
pub fn keep_fields(
    script: &Script,
    line: &Line,
    facts: &Facts,
    refused: Option<&RefusedReading>,
    kept: &mut Kept,
)
    requires { CountsOn kept.old.history kept.old.publications kept.old.marks }
    ensures { kept.new ≡ fields.fields_behind script.now line.now facts.now
        (option_copied refused.entry) kept.old }
{
    let look = Look {
        line,
        event: facts.event,
        touch: &facts.touch,
        refused,
        begun: family_begun(script, line),
    };
    standings_behind(&look, &mut kept.standings);
    kept.owed = owed_behind(
        line,
        facts.touch.refresh.as_ref(),
        facts.answered.as_ref(),
        kept.owed.take(),
    );
    kept.startup = startup_behind(line, facts.answered.as_ref(), kept.startup);
    kept.selected = selection_behind(line, kept.selected.take());
    kept.chain = chain_behind(line, kept.chain.as_ref());
    kept.history = history_after(line, kept.history);
    kept.publications = counted(is_publication(line), kept.publications);
    kept.marks = counted(is_mark(line), kept.marks);
}

/// What the line does to every job.
pub fn keep_jobs(alloc: Global, line: &Line, facts: &Facts, kept: &mut Kept)
    requires { HasRoom kept.old }
    ensures jobs { kept.new ≡ record kept.old {
      jobs = rules.jobs_beside line.now
          kept.old.history.epoch facts.now kept.old.selected kept.old.jobs;
    } }
    ensures room { list_all own_has_room kept.new.jobs ≡ true }
{
    jobs_beside(
        alloc,
        line,
        kept.history.epoch,
        facts,
        kept.selected.as_ref(),
        &mut kept.jobs,
    );
}

/// All but the jobs and the turn, behind a line that is no exchange.
pub fn keep_rest(alloc: Global, script: &Script, line: &Line, facts: &Facts, kept: &mut Kept)
    requires { CountsOn kept.old.history kept.old.publications kept.old.marks }
    ensures { kept.new ≡ fields.rest_behind script.now line.now facts.now kept.old }
{
    handles_beside(alloc, kept.history.epoch, facts, &mut kept.handles);
    files_beside(alloc, line, &facts.touch, &mut kept.files);
    keep_fields(script, line, facts, None, kept);
}

/// All but the turn, behind a line that is no exchange and belongs to no operation. Gives what the line says.
pub fn keep_plain(alloc: Global, script: &Script, line: &Line, kept: &mut Kept) -> Facts
    requires { HasRoom kept.old }
    ensures facts { result ≡ rules.facts_of script.now line.now kept.old }
    ensures kept { kept.new ≡ fields.plain_behind script.now line.now result kept.old }
    ensures room { list_all own_has_room kept.new.jobs ≡ true }
{
    let facts = facts_of(script, line, kept);
    keep_jobs(alloc, line, &facts, kept);
    keep_rest(alloc, script, line, &facts, kept);
    facts
}
