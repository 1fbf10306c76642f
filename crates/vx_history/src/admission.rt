// What becomes of a write, and of a link, where the log has too little room beside what the link still needs.

/// What a full log does to a write, or to the link for which it is full.
#[derive(Clone, Copy, Debug, PartialEq, Eq)]
pub enum FullLog {
    /// The write has to wait.
    Stalls,
    /// The write is refused.
    Fails,
    /// The link is given up: all regions have to be copied.
    TurnsStale,
    /// The link goes by a map of changed regions from now on.
    TurnsDcm,
}

/// What becomes of a link as a write is let in.
#[derive(Clone, Copy, Debug, PartialEq, Eq)]
pub enum Change {
    Stays,
    ToStale,
    ToDcm,
}
