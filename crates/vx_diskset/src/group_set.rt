// The disks of a site that has a group of disks, and no replicated volume group.

use vx_disk::Rack;
use vx_grouped::GroupSite;
use vx_model::Blocks;
use vx_model::limits::MOST_CALL_BLOCKS;

/// A write to a volume of a group in which the fuse of its site ran out. The volume goes by its place in the configuration.
#[derive(Clone, Copy)]
pub struct CutWrite {
    pub volume: u32,
    pub block: u64,
    pub bytes: Blocks,
}

/// Of each block of such a write, whether the block has what was to be written. Those behind the write are false.
#[derive(Clone, Copy)]
pub struct KeptWrite {
    pub write: CutWrite,
    pub bits: [bool; MOST_CALL_BLOCKS as usize],
}

/// The disks, and the write that is cut, until the next recovery.
#[derive(Drop)]
pub struct GroupSet<R: Rack> {
    pub site: GroupSite<R>,
    pub cut: Option<CutWrite>,
}
