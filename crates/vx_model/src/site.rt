// What a site is, by itself and to others.

/// Whether a site can work.
#[derive(Clone, Copy, Debug, PartialEq, Eq)]
pub enum SiteState {
    /// It has disks, and nothing is made of them.
    Bare,
    Up,
    /// Its disk group was deported.
    Deported,
    /// It crashed.
    Down,
}

/// What part a site has in replication.
#[derive(Clone, Copy, Debug, PartialEq, Eq)]
pub enum Role {
    /// It takes writes.
    Primary,
    /// It receives the writes of a primary.
    Secondary,
    /// It was a primary, and hands over to this site.
    Handing { to: u32 },
    /// It keeps the log of a primary, and no volumes.
    Bunker,
}

/// Whether a site's volumes hold the first writes of its line, in order.
#[derive(Clone, Copy, Debug, PartialEq, Eq)]
pub enum Mark {
    Consistent,
    Inconsistent,
}

/// How far a receiver is in a replay.
#[derive(Clone, Copy, Debug, PartialEq, Eq)]
pub enum SPhase {
    /// It is in none.
    Quiet,
    /// It stores regions.
    Regions,
    /// It has every region, and takes updates.
    Log,
    /// It keeps the map of a fork.
    ForkKept,
}

/// Whether a plex takes part in reads and writes.
#[derive(Clone, Copy, Debug, PartialEq, Eq)]
pub enum PlexState {
    Active,
    /// Its group was deported while it was active.
    Clean,
    /// It missed writes.
    Stale,
}
