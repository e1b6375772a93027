// What is kept before the first line.
ghost use Rattle.std.specs.Prelude.{◌≡◌, ◌+◌, ◌<◌, ◌^◌, ◌++◌, replicate, length, IfOk, OnOk};
ghost use Rattle.rules.specs.Kept as rules;
ghost use Rattle.rules.specs.Standing.{first_standing as first_standing_of};

use crate::actors::first_job;
use apdu::{Memory, Sequence};
use epoch_cache::Past;
use rules::{Jobs, Kept, Stage, Standing, Turn, Work};
use script::Script;
use std::alloc::Global;

fn first_standing(family: u8) -> Standing
    ensures { result ≡ first_standing_of family }
{
    Standing {
        family,
        wanted: false,
        stale: None,
        renewed: 0,
        refused: None,
        shown: None,
    }
}

fn no_turn() -> Turn
    ensures { result ≡ rules.no_turn }
{
    Turn {
        actor: None,
        bare: false,
        idle: false,
        work: Work::Rests,
        family: None,
        stage: Stage::Over,
        opened: None,
        outcome: None,
        happened: false,
        updated: false,
        published: None,
        ended: None,
        refused: None,
    }
}

#[tactic(auto, using(crate::proofs::FirstJobs::one_more))]
fn add_jobs(alloc: Global, count: usize, jobs: &mut Jobs) -> Result<(), Memory>
    ensures { OnOk result (jobs.new ≡ jobs.old ++ replicate count rules.first_job) }
{
    if count == 0 {
        return Ok(());
    }
    jobs.push(first_job(alloc))?;
    add_jobs(alloc, count - 1, jobs)
}

/// What is kept before the first line.
pub fn nothing_kept(alloc: Global, script: &Script) -> Result<Kept, Memory>
    requires { length script.now.actors + 1 < 2 ^ 64 }
    ensures { IfOk result (λ kept. kept ≡ rules.nothing_kept script.now) }
{
    let mut jobs = Sequence::new(alloc);
    add_jobs(alloc, script.actors.len() + 1, &mut jobs)?;
    Ok(Kept {
        history: Past::new(),
        publications: 0,
        marks: 0,
        chain: None,
        selected: None,
        startup: 0,
        owed: None,
        files: Sequence::new(alloc),
        handles: Sequence::new(alloc),
        sessions: Sequence::new(alloc),
        standings: [first_standing(0), first_standing(1), first_standing(2)],
        jobs,
        turn: no_turn(),
    })
}
