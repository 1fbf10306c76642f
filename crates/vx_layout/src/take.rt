// The lowest free blocks of a disk.
ghost use Rattle.std.specs.Prelude.{◌≡◌, ◌-◌, ◌≤◌, OnOk};
ghost use Rattle.vx_layout.specs.Free.{AddsLowest, free_in};

use crate::gap::next_gap;
use vx_config::Subdisk;
use vx_model::OutOfMemory;
use vx_model::limits::PUBLIC_START;

/// Puts so many of the lowest free blocks of a disk with so many blocks behind the runs that were found before.
pub fn take_lowest(
    used: &[Subdisk],
    disk: u8,
    end: u64,
    wanted: u64,
    found: &mut Vec<Subdisk>,
) -> Result<(), OutOfMemory>
    requires { wanted ≤ free_in used.now disk PUBLIC_START (end - PUBLIC_START) }
    ensures { OnOk result (AddsLowest used.now disk end wanted found.old.items found.new.items) }
{
    let mut block = PUBLIC_START;
    let mut left = wanted;
    while left > 0 {
        let gap = next_gap(used, disk, block, end);
        let blocks = gap.blocks.min(left);
        found.push(Subdisk {
            disk: disk,
            start: gap.start,
            blocks: blocks,
        })?;
        block = gap.start + blocks;
        left -= blocks;
    }
    Ok(())
}
