// A volume of which regions of one plex are copied to all that are ACTIVE.
ghost use Rattle.std.specs.Prelude.{◌≡◌, ◌*◌, ◌/◌, ◌<◌, length, true, false, IfErr, IsTrue, OnOk};
ghost use Rattle.std.specs.Option.{option_copied};
ghost use Rattle.vx_config.specs.Checks.{blocks_of as blocks_of_is};
ghost use Rattle.vx_disk.specs.Shelf.{Fits};
ghost use Rattle.vx_group.specs.Blames.{Blames};
ghost use Rattle.vx_group.specs.Copying.{RunCopied, Mirrored, CopyMoved};
ghost use Rattle.vx_group.specs.Stands.{InnerStands, inner_meaning};
ghost use Rattle.vx_model.specs.Sizes.{regions_of};
ghost use Rattle.vx_model.specs.declared.limits.TheConstants.{REGION};
ghost use Rattle.vx_resync.specs.Picks.{DrlReaches, InPicked, LiesInRegion, marked_or};
ghost use Rattle.vx_volume.specs.Plexes.{InRun, active};

use crate::detaching::{detach, fault_of};
use crate::flushing::flush_plexes;
use crate::inner::Inner;
use vx_config::blocks_of;
use vx_copyio::is_member;
use vx_disk::{Shelf, ShelfError};
use vx_drl::Drl;
use vx_model::limits::{BLOCK, REGION};
use vx_resync::is_picked;
use vx_volume::{read_plex, write_all};

// The bytes of a region.
const REGION_BYTES: usize = 32_768;

// Copies a run of blocks: the source is read, and each plex that is ACTIVE written. Those that fail are detached, and where the source
// fails the copy is given up.
fn copy_run<S: Shelf>(
    shelf: &mut S,
    core: &mut Inner,
    vol: u32,
    source: u32,
    block: u64,
    bytes: &mut [u8],
) -> Result<(), ShelfError>
    requires stands { InnerStands core.old (S.meaning shelf.old) }
    requires settled { core.old.unsettled ≡ false }
    requires is_on { IsTrue (active core.old.config vol source) }
    requires fits { Fits (inner_meaning core.old (S.meaning shelf.old)) vol block (length bytes.old) }
    requires up { IsTrue (S.meaning shelf.old).down → ⊥ }
    ensures moved { CopyMoved core.old vol source (InRun block (length bytes.old / BLOCK)) core.new (S.meaning shelf.old) (S.meaning shelf.new) }
    ensures copied { OnOk result (RunCopied core.old vol source (InRun block (length bytes.old / BLOCK)) core.new (S.meaning shelf.old) (S.meaning shelf.new)) }
    ensures agreed { IfErr result (λ e. core.old.committed ≡ true → core.new.agreed ≡ true) }
    ensures cause { Blames (S.meaning shelf.old) (S.meaning shelf.new) result }
{
    match read_plex(&core.config, vol, source, shelf, block, bytes) {
        Ok(()) => {}
        Err(error) => return Err(error),
    }
    match write_all(&core.config, vol, shelf, block, bytes) {
        Ok(failed) => {
            if failed.set == 0 {
                return Ok(());
            }
            if is_member(failed.set, source) {
                return Err(ShelfError::Fault { disk: failed.disk });
            }
            detach(shelf, core, vol, failed)
        }
        Err(no) => Err(fault_of(no, 0)),
    }
}

// Copies a region.
fn copy_region<S: Shelf>(
    shelf: &mut S,
    core: &mut Inner,
    vol: u32,
    source: u32,
    region: u64,
    buffer: &mut [u8; REGION_BYTES],
) -> Result<(), ShelfError>
    requires stands { InnerStands core.old (S.meaning shelf.old) }
    requires settled { core.old.unsettled ≡ false }
    requires there { vol < length core.old.config.volumes }
    requires inside { region * REGION < blocks_of_is core.old.config.volumes vol }
    requires is_on { IsTrue (active core.old.config vol source) }
    requires up { IsTrue (S.meaning shelf.old).down → ⊥ }
    ensures moved { CopyMoved core.old vol source (LiesInRegion region) core.new (S.meaning shelf.old) (S.meaning shelf.new) }
    ensures copied { OnOk result (RunCopied core.old vol source (LiesInRegion region) core.new (S.meaning shelf.old) (S.meaning shelf.new)) }
    ensures agreed { IfErr result (λ e. core.old.committed ≡ true → core.new.agreed ≡ true) }
    ensures cause { Blames (S.meaning shelf.old) (S.meaning shelf.new) result }
{
    let total = blocks_of(&core.config, vol);
    let block = region * REGION;
    let count = (total - block).min(REGION);
    let bytes = &mut buffer[..BLOCK * count as usize];
    copy_run(shelf, core, vol, source, block, bytes)
}

// Copies the regions that are marked in the log, or all where there is none.
fn copy_regions<S: Shelf>(
    shelf: &mut S,
    core: &mut Inner,
    vol: u32,
    source: u32,
    drl: Option<&Drl>,
) -> Result<(), ShelfError>
    requires stands { InnerStands core.old (S.meaning shelf.old) }
    requires settled { core.old.unsettled ≡ false }
    requires there { vol < length core.old.config.volumes }
    requires is_on { IsTrue (active core.old.config vol source) }
    requires up { IsTrue (S.meaning shelf.old).down → ⊥ }
    requires reach { DrlReaches (regions_of (blocks_of_is core.old.config.volumes vol)) (option_copied drl) }
    ensures moved { CopyMoved core.old vol source (InPicked (marked_or (option_copied drl.entry))) core.new (S.meaning shelf.old) (S.meaning shelf.new) }
    ensures copied { OnOk result (RunCopied core.old vol source (InPicked (marked_or (option_copied drl.entry))) core.new (S.meaning shelf.old) (S.meaning shelf.new)) }
    ensures agreed { IfErr result (λ e. core.old.committed ≡ true → core.new.agreed ≡ true) }
    ensures cause { Blames (S.meaning shelf.old) (S.meaning shelf.new) result }
{
    let regions = blocks_of(&core.config, vol).div_ceil(REGION);
    let mut buffer = [0; REGION_BYTES];
    for region in 0..regions {
        if is_picked(None, drl, None, region) {
            match copy_region(shelf, core, vol, source, region, &mut buffer) {
                Ok(()) => {}
                Err(error) => return Err(error),
            }
        }
    }
    Ok(())
}

/// Copies the regions of a volume that are marked in its log, or all where there is none, from a plex to each plex that is ACTIVE, itself
/// too, and makes them durable: after it a crash leaves of each block of these regions one value, which the source read. No other block gets
/// a value. Plexes that fail are detached.
///
/// A fault comes only where the count of its disk rose, and where the source failed; then blocks were copied, or not.
pub fn copy_volume<S: Shelf>(
    shelf: &mut S,
    core: &mut Inner,
    vol: u32,
    source: u32,
    drl: Option<&Drl>,
) -> Result<(), ShelfError>
    requires stands { InnerStands core.old (S.meaning shelf.old) }
    requires settled { core.old.unsettled ≡ false }
    requires there { vol < length core.old.config.volumes }
    requires is_on { IsTrue (active core.old.config vol source) }
    requires up { IsTrue (S.meaning shelf.old).down → ⊥ }
    requires reach { DrlReaches (regions_of (blocks_of_is core.old.config.volumes vol)) (option_copied drl) }
    ensures moved { CopyMoved core.old vol source (InPicked (marked_or (option_copied drl.entry))) core.new (S.meaning shelf.old) (S.meaning shelf.new) }
    ensures mirrored { OnOk result (Mirrored core.old vol source (marked_or (option_copied drl.entry)) core.new (S.meaning shelf.old) (S.meaning shelf.new)) }
    ensures agreed { IfErr result (λ e. core.old.committed ≡ true → core.new.agreed ≡ true) }
    ensures cause { Blames (S.meaning shelf.old) (S.meaning shelf.new) result }
{
    match copy_regions(shelf, core, vol, source, drl) {
        Ok(()) => {}
        Err(error) => return Err(error),
    }
    flush_plexes(shelf, core, vol)
}
