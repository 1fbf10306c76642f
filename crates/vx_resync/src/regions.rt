// The regions of a volume that are copied, one after the other.
ghost use Rattle.std.specs.Prelude.{◌≡◌, ◌*◌, ◌<◌, ℕ, IfErr, IfOk, OnOk};
ghost use Rattle.std.specs.Option.{option_copied};
ghost use Rattle.vx_config.specs.Checks.{blocks_of as blocks_of_is};
ghost use Rattle.vx_disk.specs.Causes.{DeviceCause};
ghost use Rattle.vx_disk.specs.Shelf.{Goes};
ghost use Rattle.vx_model.specs.Sizes.{regions_of};
ghost use Rattle.vx_model.specs.declared.limits.TheConstants.{REGION};
ghost use Rattle.vx_resync.specs.Copies.{FromPlex, CanCopy, ReadAlike};
ghost use Rattle.vx_resync.specs.Gathers.{CopyRefused};
ghost use Rattle.vx_resync.specs.Picks.{LiesInRegion, InPicked, MapsReach, is_picked as is_picked_is, picked_below};

use crate::copying::copy_run;
use crate::picks::is_picked;
use vx_config::{Config, blocks_of};
use vx_disk::Shelf;
use vx_drl::Drl;
use vx_fmr::Fmr;
use vx_model::No;
use vx_model::limits::{BLOCK, REGION};

// The bytes of a region.
const REGION_BYTES: usize = 32_768;

fn copy_region<S: Shelf>(
    config: &Config,
    vol: u32,
    source: u32,
    to: Option<u32>,
    shelf: &mut S,
    region: u64,
    buffer: &mut [u8; REGION_BYTES],
) -> Result<(), No>
    requires ready { CanCopy config.now vol source to (S.meaning shelf.old) }
    requires inside { region * REGION < blocks_of_is config.now.volumes vol }
    ensures goes { Goes (FromPlex config.now vol source to (LiesInRegion region) (S.meaning shelf.old)) (S.meaning shelf.old) (S.meaning shelf.new) }
    ensures ok { OnOk result (ReadAlike config.now vol source to (LiesInRegion region) (S.meaning shelf.old) (S.meaning shelf.new)) }
    ensures cause { IfErr result (DeviceCause (S.meaning shelf.old) (S.meaning shelf.new)) }
    ensures blamed { CopyRefused config.now vol source to (S.meaning shelf.old) (S.meaning shelf.new) result }
{
    let total = blocks_of(config, vol);
    let block = region * REGION;
    let count = (total - block).min(REGION);
    let bytes = &mut buffer[..BLOCK * count as usize];
    copy_run(config, vol, source, to, shelf, block, bytes)
}

/// Copies the regions that are picked by log or map, or all where there is none. Answers how many they are.
pub fn copy_regions<S: Shelf>(
    config: &Config,
    vol: u32,
    source: u32,
    to: Option<u32>,
    drl: Option<&Drl>,
    fmr: Option<&Fmr>,
    shelf: &mut S,
) -> Result<u64, No>
    requires ready { CanCopy config.now vol source to (S.meaning shelf.old) }
    requires reach { MapsReach (regions_of (blocks_of_is config.now.volumes vol)) to (option_copied drl) (option_copied fmr) }
    ensures goes { Goes (FromPlex config.now vol source to (InPicked (is_picked_is to (option_copied drl.entry) (option_copied fmr.entry))) (S.meaning shelf.old)) (S.meaning shelf.old) (S.meaning shelf.new) }
    ensures ok { OnOk result (ReadAlike config.now vol source to (InPicked (is_picked_is to (option_copied drl.entry) (option_copied fmr.entry))) (S.meaning shelf.old) (S.meaning shelf.new)) }
    ensures count { IfOk result (λ n. n ≡ picked_below (is_picked_is to (option_copied drl.entry) (option_copied fmr.entry)) (regions_of (blocks_of_is config.now.volumes vol))) }
    ensures cause { IfErr result (DeviceCause (S.meaning shelf.old) (S.meaning shelf.new)) }
    ensures blamed { CopyRefused config.now vol source to (S.meaning shelf.old) (S.meaning shelf.new) result }
{
    let regions = blocks_of(config, vol).div_ceil(REGION);
    let mut buffer = [0; REGION_BYTES];
    let mut copied = 0;
    for region in 0..regions {
        if is_picked(to, drl, fmr, region) {
            match copy_region(config, vol, source, to, shelf, region, &mut buffer) {
                Ok(()) => copied += 1,
                Err(no) => return Err(no),
            }
        }
    }
    Ok(copied)
}
