// Whether a run of regions is marked, and how many marks are held.
ghost use Rattle.std.specs.Prelude.{◌≡◌, ◌+◌, ◌<◌, ◌≤◌, ◌^◌, true};
ghost use Rattle.vx_bitmap.specs.Bits.{AllAre, is_marked};
ghost use Rattle.vx_bitmap.specs.Maps.{regions_mapped};
ghost use Rattle.vx_drl.specs.Dirty.{held_with as held_with_is};

use vx_bitmap::Bitmap;

/// The most marks that are held before `flushed` takes them off.
pub const MOST_HELD: u64 = 64;

/// Whether the regions from `first` to `last`, both included, are marked.
pub(crate) fn are_marked(map: &Bitmap, first: u64, last: u64) -> bool
    requires inside { last < regions_mapped map.now }
    requires few { last + 1 < 2 ^ 64 }
    ensures all { result ≡ true → AllAre first last true (is_marked map.now.bytes) }
    ensures each { AllAre first last true (is_marked map.now.bytes) → result ≡ true }
{
    for region in first..last + 1 {
        if !map.test(region) {
            return false;
        }
    }
    true
}

/// How many marks are held behind a mark of these regions, of which all were marked before or not.
pub(crate) fn held_with(held: u64, marked: bool, first: u64, last: u64) -> u64
    requires { first ≤ last }
    ensures { result ≡ held_with_is marked first last held }
{
    if marked {
        held
    } else {
        held.saturating_add(last - first)
            .saturating_add(1)
            .min(MOST_HELD + 1)
    }
}
