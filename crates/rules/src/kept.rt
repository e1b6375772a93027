// What is kept of the lines so far: all that the rules, and what is due, look back for.

use crate::{Handles, Sessions, Standing};
use adn::PlanError;
use apdu::{Command, Path, Response, Sequence, Sw};
use card_model::WorldEvent;
use editor::{Attempt, Editing};
use epoch_cache::{CachedFiles, Past, Touch};
use link::{Chain, Final};
use loader::Readings;
use watchers::Mailbox;

/// An operation that has begun and is not answered.
#[derive(Drop)]
pub struct Begun {
    pub index: u32,
    /// The epoch that lived at its first line.
    pub epoch: Option<u64>,
    /// The event that ended that epoch since.
    pub ended: Option<u64>,
    /// The publication of that end.
    pub told: Option<u64>,
    /// A VERIFY was sent.
    pub verified: bool,
    pub editing: Editing,
}

/// What is kept of an actor; actor 0 is the framework.
#[derive(Drop)]
pub struct Job {
    /// How many of its operations are answered.
    pub answered: u32,
    /// How many publications there were before its last answer.
    pub seen: u64,
    pub begun: Option<Begun>,
    /// The readings that its present operation has under way; of the framework, those of the family that its last
    /// turn read.
    pub readings: Readings,
    /// The family that the framework's last turn read.
    pub family: Option<u8>,
    pub mailbox: Option<Mailbox>,
}

/// What a turn has to do, as its beginning decides it.
#[derive(Drop)]
pub enum Work {
    /// Nothing, or what needs no command and no event.
    Rests,
    /// The edit cannot be planned.
    Refuses(PlanError),
    /// The actor has no session of this key, which an update needs.
    Lacks(u8),
    /// This command.
    Sends(Command),
    /// One READ of this path, or the SELECT that begins its reading.
    Reads(Path),
    /// The next update of the attempt that is under way.
    Writes,
    /// A reset of the card.
    Resets,
    /// An event of the world.
    Happens(WorldEvent),
}

/// What the beginning of a turn decides.
#[derive(Drop)]
pub struct Decision {
    pub work: Work,
    /// The attempt that an edit begins.
    pub attempt: Option<Attempt>,
}

/// How far a turn has come.
#[derive(Drop)]
pub enum Stage {
    /// Nothing was sent, and nothing has happened.
    Fresh,
    /// This command is due.
    Next(Command),
    /// A reset is due, which a fetched REFRESH asks for.
    Resetting,
    /// No further command, reset or event is due.
    Over,
}

/// What the commands of a turn came to, where that is the cause of an answer.
#[derive(Drop)]
pub enum Outcome {
    /// A command was refused with this status word.
    Status { sw: Sw, event: u64 },
    /// The fourth exchange of a command asked for one more.
    Loop { event: u64 },
    /// A SELECT was answered by a body that is no template of control parameters.
    BadFcp { event: u64 },
    /// This channel was opened.
    Opened { channel: u8 },
    /// The card has no further channel.
    Exhausted { event: u64 },
    /// What the card answered to an application's command.
    Raw { response: Response },
    /// The channel was closed.
    Closed,
    /// The PIN was verified.
    Verified,
    /// STATUS was sent.
    Polled,
}

/// The turn that the last lines belong to.
#[derive(Drop)]
pub struct Turn {
    pub actor: Option<u8>,
    /// The last line is its mark.
    pub bare: bool,
    /// At its mark the actor waited or had nothing left.
    pub idle: bool,
    pub work: Work,
    /// The family that it publishes once all files of it are current.
    pub family: Option<u8>,
    pub stage: Stage,
    /// The channel that MANAGE CHANNEL opened in it.
    pub opened: Option<u8>,
    /// What its commands came to.
    pub outcome: Option<Outcome>,
    /// Its world event happened.
    pub happened: bool,
    /// An UPDATE was sent in it.
    pub updated: bool,
    /// The publication of its family.
    pub published: Option<u64>,
    /// The epoch that an event of it ended, and that event, while that is not published.
    pub ended: Option<(u64, u64)>,
    /// The family whose reading by the framework was refused, and the event that refused it, while that is not told.
    pub refused: Option<(u8, u64)>,
}

pub type Jobs = Sequence<Job>;

/// All that is kept.
#[derive(Drop)]
pub struct Kept {
    pub history: Past,
    /// How many publications there were.
    pub publications: u64,
    /// How many turns have begun.
    pub marks: u64,
    /// The chain of exchanges of which the last line is one.
    pub chain: Option<Chain>,
    /// What is current on the basic channel, where that is known and no directory of an application.
    pub selected: Option<Path>,
    /// The steps of start-up that are done.
    pub startup: u8,
    /// The TERMINAL RESPONSE that is owed.
    pub owed: Option<Command>,
    /// The files whose rows are current.
    pub files: CachedFiles,
    pub handles: Handles,
    pub sessions: Sessions,
    /// By family.
    pub standings: [Standing; 3],
    /// By actor.
    pub jobs: Jobs,
    pub turn: Turn,
}

/// What a line says, by what is kept before it.
#[derive(Drop)]
pub struct Facts {
    /// The number of the event that the line is, where it is one.
    pub event: u64,
    /// The command that the line answers.
    pub answered: Option<Final>,
    pub touch: Touch,
    /// It ends the epoch that lived.
    pub ends: bool,
}
