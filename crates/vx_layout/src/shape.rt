// What a new volume is to be, and where it finds space.
ghost use Rattle.std.specs.Prelude.{◌≡◌};

use std::marker::Model;
use vx_config::Subdisk;

/// What a new volume is to be.
#[derive(Clone, Copy, Debug, PartialEq, Eq)]
pub struct Shape {
    /// 1 to 2^40 blocks.
    pub blocks: u64,
    /// The number of plexes, 1 to 8.
    pub mirrors: u32,
    /// The columns of each plex, 1 to 8; 1 where the plexes are concatenated.
    pub ncol: u32,
    /// The blocks of a stripe unit; 0 where the plexes are concatenated.
    pub width: u32,
    /// It has a dirty region log.
    pub drl: bool,
    /// It has a log of the regions that detached plexes missed.
    pub fmr: bool,
    /// The plex that reads begin at; where there is none, they take the plexes in turn.
    pub prefer: Option<u32>,
}

/// Runs of blocks in order. Contracts see their list.
#[derive(Drop)]
pub struct Runs {
    runs: Vec<Subdisk>,
}

impl Model for Runs {
    ghost use Rattle.std.specs.Prelude.{List};
    ghost use Rattle.vx_config.specs.declared.entry.Subdisk.{Subdisk};

    ghost Value = { List Subdisk };

    ghost view = { λ l. l.runs.items };
}

impl Runs {
    /// These runs.
    pub fn of(runs: Vec<Subdisk>) -> Runs
        ensures { result ≡ runs.items }
    {
        Runs { runs: runs }
    }

    /// The runs, in order.
    pub fn as_slice(&self) -> &[Subdisk]
        ensures { result.now ≡ self.now }
    {
        &self.runs
    }
}

/// Where a new volume finds space.
#[derive(Drop)]
pub struct Found {
    /// The subdisks of each plex, column after column where it is striped.
    pub plexes: Vec<Runs>,
    /// The dirty region log, where one is wanted, then the log of missed regions, where one is wanted.
    pub logs: Runs,
}
