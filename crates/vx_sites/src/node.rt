// A site of a world.
ghost use Rattle.std.specs.Prelude.{◌≡◌};
ghost use Rattle.vx_history.specs.World.{bare_site};
ghost use Rattle.vx_sites.specs.Shapes.{node_of};

use crate::{Content, Write};
use std::alloc::Global;
use vx_model::{Line, Mark, Name, Role, SPhase, SiteState};

/// A site. Its line came from no other, it keeps no map, and notes no fuse and no group of disks.
#[derive(Drop)]
pub struct Node {
    pub name: Name,
    pub state: SiteState,
    /// How many disks it has, and the blocks of each.
    pub disks: u32,
    pub blocks: u64,
    /// The blocks of its log that hold records.
    pub ring: u32,
    /// The blocks of each data volume of its replicated volume group.
    pub volumes: Vec<u64>,
    /// Their names, where they are not d1, d2 and so on.
    pub names: Vec<Name>,
    pub role: Role,
    pub line: Line,
    /// The greatest generation that it ever stood on.
    pub top: u64,
    /// The lines on which it ever stood, the first of them first.
    pub stood: Vec<Line>,
    pub session: u64,
    pub mark: Mark,
    pub phase: SPhase,
    pub replay: u64,
    pub end: u64,
    pub other: u32,
    /// Who sent the last update that it took; its primary, where it took none since it came up or joined its line.
    pub fed_by: u32,
    /// What its volumes held at number 0 of its line.
    pub start: Content,
    /// What a crash keeps with the first `safe` writes.
    pub base: Content,
    /// All writes of its line, number 1 first.
    pub log: Vec<Write>,
    /// How many of them a crash keeps for certain.
    pub safe: u64,
    /// The disk that halted it.
    pub halted: Option<u32>,
}

impl Node {
    /// A site of which nothing is made yet.
    pub fn bare(alloc: Global, name: Name, disks: u32, blocks: u64) -> Node
        ensures { node_of result ≡ bare_site name disks blocks }
    {
        Node {
            name,
            state: SiteState::Bare,
            disks,
            blocks,
            ring: 0,
            volumes: Vec::new(alloc),
            names: Vec::new(alloc),
            role: Role::Primary,
            line: Line {
                generation: 0,
                origin: 0,
            },
            top: 0,
            stood: Vec::new(alloc),
            session: 0,
            mark: Mark::Consistent,
            phase: SPhase::Quiet,
            replay: 0,
            end: 0,
            other: 0xffff_ffff,
            fed_by: 0xffff_ffff,
            start: Content::none(alloc),
            base: Content::none(alloc),
            log: Vec::new(alloc),
            safe: 0,
            halted: None,
        }
    }
}
