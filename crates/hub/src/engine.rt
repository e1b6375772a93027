// The parts of a hub.

use adn::{Edit, Plan, PlanError};
use apdu::{Memory, Text};
use epoch_cache::CachedFiles;
use family_files::plan_of_family;
use planner::{EditPlans, LeftRows};
use report::ReservedLines;
use rules::Decision;
use script::Script;
use std::alloc::Global;
use watched_tracker::WatchedTracker;
use watchers::Filter;

/// A turn has so many lines at most, its mark among them.
pub const LINES_OF_TURN: usize = 98;

/// They take so many bytes at most, beside those of texts.
pub const BYTES_OF_TURN: usize = 59_008;

/// A publication takes so many bytes at most, beside its text.
pub const BYTES_OF_PUBLICATION: usize = 32;

/// The parts of a hub.
#[derive(Drop)]
pub struct Engine<S, P: Filter> {
    pub alloc: Global,
    pub slot: S,
    pub script: Script,
    pub lines: ReservedLines,
    pub tracker: WatchedTracker<P>,
}

/// Plans edits for the files that are current.
#[derive(Drop)]
pub struct FilePlans;

impl EditPlans for FilePlans {
    fn plan(
        &self,
        alloc: Global,
        family: u8,
        edit: &Edit,
        files: &CachedFiles,
    ) -> Result<Result<Plan, PlanError>, Memory> {
        plan_of_family(alloc, family, edit, files)
    }
}

/// What is made ready before a turn, since nothing may fail in it before its first event.
#[derive(Drop)]
pub struct Ready {
    /// The text that the turn publishes before any event of its own.
    pub text: Option<Text>,
    /// What its mark decides.
    pub mark: Decision,
    /// What the first line of an operation decides that begins in it.
    pub begin: Option<Decision>,
    /// The rows that its edit leaves marked, where that is decided.
    pub left: LeftRows,
}
