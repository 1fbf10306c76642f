// A link from a site to one that receives its writes.

/// Whether a write waits for the link's site.
#[derive(Clone, Copy, Debug, Default, PartialEq, Eq)]
pub enum SyncMode {
    /// It never waits.
    #[default]
    Off,
    /// It waits where the link is live.
    Override,
    /// It fails where the link is not live.
    Fail,
}

/// What a write does where the log is full for the link.
#[derive(Clone, Copy, Debug, Default, PartialEq, Eq)]
pub enum Prot {
    #[default]
    Off,
    Override,
    Fail,
    Dcm,
    Autodcm,
}

/// How far a replay is at its sending end.
#[derive(Clone, Copy, Debug, PartialEq, Eq)]
pub enum Phase {
    Start,
    Regions,
    Done,
    Log,
}

/// By what a link brings its site up to date.
#[derive(Clone, Copy, Debug, PartialEq, Eq)]
pub enum Mode {
    /// By the log.
    Log,
    /// By a map of changed regions, which no replay carries over yet.
    Dcm,
    /// By a replay of the map: its id, its phase, the regions left, and the numbers between which regions were read.
    Replay {
        id: u64,
        phase: Phase,
        left: u32,
        start: u64,
        end: u64,
    },
    /// By the maps of a fork, of which so many have come.
    Fork {
        maps: u32,
    },
    /// By nothing: all regions have to be copied.
    Stale,
}

/// A link, at the site that sends.
#[derive(Clone, Copy, Debug, PartialEq, Eq)]
pub struct Link {
    /// The number of the site that receives.
    pub site: u32,
    pub bunker: bool,
    pub attached: bool,
    pub connected: bool,
    pub paused: bool,
    pub sync: SyncMode,
    pub prot: Prot,
    /// The session of the receiver that acknowledgements belong to.
    pub session: u64,
    /// The greatest number acknowledged from memory.
    pub net: u64,
    /// The greatest number acknowledged from disk.
    pub stored: u64,
    /// The greatest number sent.
    pub sent: u64,
    /// The number of the last trim sent.
    pub trimmed: u64,
    pub mode: Mode,
}
