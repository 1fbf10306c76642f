// A run of regions within one block.
ghost use Rattle.std.specs.Prelude.{◌≡◌, ◌<◌, ◌≤◌, ℕ, length};
ghost use Rattle.vx_model.specs.declared.limits.TheConstants.{MAP_REGIONS};
ghost use Rattle.vx_bitmap.specs.Bits.{AllAre, Changed, is_marked};

use crate::bit::with_bit;
use vx_model::limits::BLOCK;

/// Marks the regions of a block from `start` to `end`, both included, or takes their marks off.
pub(crate) fn mark_run(block: &mut [u8; BLOCK], start: u64, end: u64, value: bool)
    requires last { end < MAP_REGIONS }
    ensures changed { Changed start end value MAP_REGIONS (is_marked block.old) (is_marked block.new) }
    ensures still { AllAre start end value (is_marked block.old) → block.new ≡ block.old }
{
    for r in start..end + 1 {
        let place = (r / 8) as usize;
        block[place] = with_bit(block[place], (r % 8) as u32, value);
    }
}
