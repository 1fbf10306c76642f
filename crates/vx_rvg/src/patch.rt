// The blocks that wait, over what was read, and those of a write behind the others.
ghost use Rattle.std.specs.Prelude.{◌≡◌, ◌+◌, ◌<◌, ◌≤◌, ◌++◌, ◌^◌, length};
ghost use Rattle.vx_model.specs.Content.{blocks_in};
ghost use Rattle.vx_ringio.specs.Bodies.{IsBlocks};
ghost use Rattle.vx_overlay.specs.Writes.{entries_at};
ghost use Rattle.vx_rvg.specs.Groups.{IsPatched};

use vx_model::limits::BLOCK;
use vx_overlay::Overlay;

/// Puts the newest of the blocks that wait over what was read.
pub fn patch(pending: &Overlay, vol: u32, start: u64, into: &mut [u8])
    requires blocks { IsBlocks into.old }
    requires end { start + blocks_in into.old < 2 ^ 64 }
    ensures { IsPatched pending.now.entries vol start into.old into.new }
{
    for k in 0..into.len() / BLOCK {
        let mut block = [0; BLOCK];
        if pending.get(vol, start + k as u64, &mut block) {
            into[BLOCK * k..BLOCK * k + BLOCK].copy_from_slice(&block);
        }
    }
}

/// Adds the blocks of a write behind those that wait.
pub fn add_all(pending: &mut Overlay, vol: u32, start: u64, bytes: &[u8])
    requires blocks { IsBlocks bytes.now }
    requires end { start + blocks_in bytes.now < 2 ^ 64 }
    requires room { length pending.old.entries + blocks_in bytes.now ≤ pending.old.capacity }
    ensures entries { pending.new.entries ≡ pending.old.entries ++ entries_at vol start (blocks_in bytes.now) bytes.now }
    ensures capacity { pending.new.capacity ≡ pending.old.capacity }
{
    for k in 0..bytes.len() / BLOCK {
        let mut block = [0; BLOCK];
        block.copy_from_slice(&bytes[BLOCK * k..BLOCK * k + BLOCK]);
        pending.insert(vol, start + k as u64, &block);
    }
}
