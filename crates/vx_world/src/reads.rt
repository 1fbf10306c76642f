// Reads of volumes.
ghost use Rattle.std.specs.Prelude.{◌≡◌, ◌+◌, ◌<◌, ◌≤◌, ◌^◌, IfOk};
ghost use Rattle.vx_model.specs.Content.{blocks_from};
ghost use Rattle.vx_history.specs.Refusals.{says};
ghost use Rattle.vx_history.specs.Step.{outcome_of, joined_blocks};
ghost use Rattle.vx_history.specs.declared.event.Event.TheVariants.{Read};
ghost use Rattle.vx_sites.specs.Shapes.{world_of, content_of};

use std::alloc::Global;
use vx_history::Said;
use vx_model::limits::MOST_CALL_BLOCKS;
use vx_model::{Blocks, No, OutOfMemory};
use vx_sites::bounds::{refuse_range, refuse_volume};
use vx_sites::{Content, World};

/// Reads 1 to 16 blocks of a volume. Refused with 1, 3, 4, 5, 6 and 20.
pub fn read(
    world: &World,
    site: u32,
    volume: u32,
    start: u64,
    count: u32,
) -> Result<Said, OutOfMemory>
    ensures { let w = world_of world.now in IfOk result (λ said. says w said ≡ outcome_of w (Read site volume start count)) }
{
    if let Some(no) = refuse_volume(world, site, volume) {
        return Ok(Said::Refused(no));
    }
    if count == 0 || count > MOST_CALL_BLOCKS as u32 {
        return Ok(Said::Refused(No::Size));
    }
    if let Some(no) = refuse_range(world, site, volume, start, u64::from(count)) {
        return Ok(Said::Refused(no));
    }
    let blocks = blocks_at(world.alloc, &world.node(site).base, volume, start, count)?;
    Ok(Said::Got(blocks))
}

// So many blocks of a volume, one after another.
fn blocks_at(
    alloc: Global,
    content: &Content,
    volume: u32,
    start: u64,
    count: u32,
) -> Result<Blocks, OutOfMemory>
    requires some { 0 < count }
    requires few { count ≤ MOST_CALL_BLOCKS }
    requires ends { start + count < 2 ^ 64 }
    ensures { IfOk result (λ blocks. blocks ≡ joined_blocks (blocks_from (content_of content.now) volume start count)) }
{
    let mut bytes = Vec::new(alloc);
    for k in 0..count {
        let block = content.block(volume, start + u64::from(k));
        bytes.extend_from_slice(&block)?;
    }
    Ok(Blocks::new(&bytes))
}
