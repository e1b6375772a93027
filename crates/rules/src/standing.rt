// How a family stands.

/// How a family stands.
#[derive(Clone, Copy)]
pub struct Standing {
    pub family: u8,
    pub wanted: bool,
    /// The event since which it is stale.
    pub stale: Option<u64>,
    /// The last event that made it stale, or 0.
    pub renewed: u64,
    /// Where the latest of its refused readings began.
    pub refused: Option<u64>,
    /// The publication that the board shows of it.
    pub shown: Option<u64>,
}
