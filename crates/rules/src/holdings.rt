// What an actor holds.

use apdu::Sequence;

/// A channel that an actor holds.
#[derive(Clone, Copy)]
pub struct Handle {
    pub actor: u8,
    /// The reference by which the actor's operations name it.
    pub handle: u8,
    pub number: u8,
    /// The epoch in which it was opened.
    pub epoch: u64,
    /// The event that ended that epoch.
    pub ended: Option<u64>,
}

/// A PIN session that an actor holds.
#[derive(Clone, Copy)]
pub struct Session {
    pub actor: u8,
    pub key: u8,
    /// The epoch in which the PIN was verified.
    pub epoch: u64,
}

pub type Handles = Sequence<Handle>;

pub type Sessions = Sequence<Session>;
