// How many regions of a run are marked.
ghost use Rattle.std.specs.Prelude.{◌≡◌, ◌+◌, ◌<◌, ◌≤◌, ◌^◌, ℕ};
ghost use Rattle.vx_bitmap.specs.Bits.{is_marked};
ghost use Rattle.vx_bitmap.specs.Maps.{regions_mapped};
ghost use Rattle.vx_dcm.specs.Counts.{marks_below};

use vx_bitmap::Bitmap;

/// How many of so many regions of a map are marked, from this one on.
pub(crate) fn count_run(map: &Bitmap, base: u64, regions: u64) -> u32
    requires inside { base + regions ≤ regions_mapped map.now }
    requires few { regions < 2 ^ 32 }
    requires end { base + regions < 2 ^ 64 }
    ensures { result ≡ marks_below (λ r. is_marked map.now.bytes (base + r)) regions }
{
    let mut total = 0;
    for r in 0..regions {
        total += u32::from(map.test(base + r));
    }
    total
}
