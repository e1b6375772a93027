// What a line does to every job.
ghost use Rattle.std.specs.Prelude.{◌≡◌, ◌+◌, ◌<◌, ◌^◌, true, Some, option_map};
ghost use Rattle.std.specs.List.{list_all};
ghost use Rattle.std.specs.Option.{option_copied};
ghost use Rattle.apdu.specs.Words.{same_number as same_numbers};
ghost use Rattle.rules.specs.After as rules;
ghost use Rattle.watchers.specs.Watching.{offered_to};
ghost use Rattle.tracker.specs.Room.{job_has_room, mailbox_has_room, own_has_room};

use crate::lines::stops_epoch;
use crate::lists::{Change, change_each};
use apdu::Path;
use loader::{Readings, drop_spoiled};
use report::Line;
use rules::{Begun, Facts, Job, Jobs};
use std::alloc::Global;
use watchers::Mailbox;

fn is_number(a: Option<u64>, b: u64) -> bool
    ensures { result ≡ same_numbers a (Some b) }
{
    match a {
        None => false,
        Some(a) => a == b,
    }
}

fn ended_by(
    ends: bool,
    epoch: u64,
    event: u64,
    begun: Option<u64>,
    before: Option<u64>,
) -> Option<u64>
    ensures { result ≡ rules.ended_by ends epoch event begun before }
{
    if ends && is_number(begun, epoch) {
        Some(event)
    } else {
        before
    }
}

fn told_by(line: &Line, epoch: Option<u64>, before: Option<u64>) -> Option<u64>
    ensures { result ≡ rules.told_by line.now epoch before }
{
    match line {
        Line::EpochEnd {
            number,
            epoch: ended,
            ..
        } => if is_number(epoch, *ended) {
            Some(*number)
        } else {
            before
        },
        _ => before,
    }
}

fn offer_to(family: Option<u8>, number: u64, mailbox: &mut Option<Mailbox>)
    requires { mailbox_has_room mailbox.old ≡ true }
    ensures { mailbox.new ≡ offered_to family number mailbox.old }
{
    if let Some(mailbox) = mailbox {
        mailbox.offer(family, number);
    }
}

fn mailbox_behind(line: &Line, mailbox: &mut Option<Mailbox>)
    requires { mailbox_has_room mailbox.old ≡ true }
    ensures { mailbox.new ≡ rules.mailbox_behind line.now mailbox.old }
{
    match line {
        Line::Published { number, family, .. } => offer_to(Some(*family), *number, mailbox),
        Line::EpochEnd { number, .. } => offer_to(None, *number, mailbox),
        _ => {}
    }
}

/// What a line does to every job.
#[derive(Drop)]
struct Beside<'a> {
    alloc: Global,
    line: &'a Line,
    /// The epoch before the line.
    epoch: u64,
    facts: &'a Facts,
    /// What was current on the basic channel before the line.
    selected: Option<&'a Path>,
}

fn begun_beside(p: &Beside, b: &mut Begun)
    ensures { b.new ≡ rules.begun_beside p.now.line.now p.now.epoch p.now.facts.now b.old }
{
    b.ended = ended_by(p.facts.ends, p.epoch, p.facts.event, b.epoch, b.ended);
    b.told = told_by(p.line, b.epoch, b.told);
    b.editing.move_by(&p.facts.touch);
}

fn begun_of_beside(p: &Beside, begun: &mut Option<Begun>)
    ensures { begun.new ≡ option_map (rules.begun_beside p.now.line.now p.now.epoch p.now.facts.now)
        begun.old }
{
    if let Some(b) = begun {
        begun_beside(p, b);
    }
}

fn readings_beside(p: &Beside, readings: &mut Readings)
    ensures { readings.new ≡ rules.readings_beside p.now.line.now p.now.facts.now
        (option_copied p.now.selected) readings.old }
{
    if stops_epoch(p.line) {
        readings.truncate(0);
    } else {
        drop_spoiled(p.alloc, &p.facts.touch, p.selected, readings);
    }
}

impl Change<Job> for Beside<'_> {
    ghost use Rattle.std.specs.Option.{option_copied};
    ghost use Rattle.rules.specs.After.{job_beside};
    ghost use Rattle.tracker.specs.Room.{job_has_room};

    ghost after = { λ p. job_beside p.line.now p.epoch p.facts.now (option_copied p.selected) };

    ghost fits = { λ p. job_has_room };

    fn apply(&self, job: &mut Job) {
        begun_of_beside(self, &mut job.begun);
        readings_beside(self, &mut job.readings);
        mailbox_behind(self.line, &mut job.mailbox);
    }
}

/// What a line does to every job. `epoch` is the one before the line, and `selected` was current on the basic channel.
#[tactic(auto, using(crate::proofs::RoomLeft::jobs_have_it))]
pub fn jobs_beside<'x>(
    alloc: Global,
    line: &'x Line,
    epoch: u64,
    facts: &'x Facts,
    selected: Option<&'x Path>,
    jobs: &mut Jobs,
)
    requires { list_all job_has_room jobs.old ≡ true }
    ensures jobs { jobs.new ≡ rules.jobs_beside line.now epoch facts.now
        (option_copied selected.entry) jobs.old }
    ensures room { list_all own_has_room jobs.new ≡ true }
{
    let beside = Beside {
        alloc,
        line,
        epoch,
        facts,
        selected,
    };
    change_each(alloc, jobs, &beside);
}
