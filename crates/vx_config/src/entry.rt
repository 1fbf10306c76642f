// What a configuration says of each disk, volume, log, plex and subdisk.
use crate::{Plexes, Subdisks};
use vx_model::{Name, PlexState};

/// A disk of the group.
#[derive(Clone, Copy, Debug, Default, PartialEq, Eq)]
pub struct DiskEntry {
    /// The blocks of the whole disk.
    pub blocks: u64,
    /// It is held as failed: its plexes are stale.
    pub failed: bool,
}

/// A run of blocks of a disk, which is a part of a plex.
#[derive(Clone, Copy, Debug, Default, PartialEq, Eq)]
pub struct Subdisk {
    pub disk: u8,
    /// Its first block on the disk.
    pub start: u64,
    pub blocks: u64,
}

/// The run of blocks of a disk that holds the maps of a volume.
#[derive(Clone, Copy, Debug, PartialEq, Eq)]
pub struct LogEntry {
    /// What the maps say is not to be trusted.
    pub lost: bool,
    pub disk: u8,
    /// Its first block on the disk.
    pub start: u64,
    pub blocks: u64,
}

/// Which log of a volume.
#[derive(Clone, Copy, Debug, PartialEq, Eq)]
pub enum VolumeLog {
    Drl,
    Fmr,
}

/// One copy of a volume.
#[derive(Drop)]
pub struct PlexEntry {
    pub state: PlexState,
    /// The next attach has to copy all regions.
    pub whole: bool,
    /// The parts of the copy in order, column after column where it is striped.
    pub subdisks: Subdisks,
}

/// A volume, and where its copies and maps lie.
#[derive(Drop)]
pub struct VolumeEntry {
    pub name: Name,
    pub blocks: u64,
    /// The columns of each plex; 1 where they are concatenated.
    pub ncol: u8,
    /// The blocks of a stripe unit; 0 where the plexes are concatenated.
    pub width: u32,
    /// The plex that reads begin at; where there is none, they take the plexes in turn.
    pub prefer: Option<u8>,
    /// The dirty region log.
    pub drl: Option<LogEntry>,
    /// The log of the regions that detached plexes missed.
    pub fmr: Option<LogEntry>,
    pub plexes: Plexes,
}
