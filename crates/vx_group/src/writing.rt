// A write of a volume.
ghost use Rattle.vx_group.specs.Finds.{CoreFinds, GroupFinds};
ghost use Rattle.std.specs.Prelude.{◌≡◌, ◌/◌, ◌<◌, ◌≤◌, ℕ, length, IsTrue, None, OnOk, true, IfErr};
ghost use Rattle.vx_disk.specs.Causes.{Cause};
ghost use Rattle.vx_disk.specs.Shelf.{Fits, Goes, Written, Wrote};
ghost use Rattle.vx_config.specs.Table.{greatest};
ghost use Rattle.vx_group.specs.Blames.{Blames, MarksOn};
ghost use Rattle.vx_group.specs.GivesUp.{GivesUp, MissesNone};
ghost use Rattle.vx_group.specs.Holding.{GroupStands, wide};
ghost use Rattle.vx_group.specs.Loses.{LosesPlexes, TrustsStill};
ghost use Rattle.vx_group.specs.Moves.{AllWrote};
ghost use Rattle.vx_kept.specs.PlexActs.{PlexActs};
ghost use Rattle.vx_volume.specs.Volumes.{OnPlexes};
ghost use Rattle.vx_group.specs.Settles.{CoreSettles};
ghost use Rattle.vx_group.specs.Stands.{InnerStands, inner_meaning};

use crate::counting::give_up;
use crate::detaching::{detach, fault_of};
use crate::group_core::GroupCore;
use crate::holding::{close_held, open_held};
use crate::inner::Inner;
use crate::releasing::release;
use crate::settling::make_ready;
use vx_disk::{Shelf, ShelfError};
use vx_model::limits::BLOCK;
use vx_volume::write_all;

// Writes to each plex that is ACTIVE, and detaches those that failed.
fn write_plexes<S: Shelf>(
    shelf: &mut S,
    core: &mut Inner,
    vol: u32,
    block: u64,
    bytes: &[u8],
) -> Result<(), ShelfError>
    requires stands { InnerStands core.old (S.meaning shelf.old) }
    requires fits { Fits (inner_meaning core.old (S.meaning shelf.old)) vol block (length bytes.now) }
    requires up { IsTrue (S.meaning shelf.old).down → ⊥ }
    requires ready { core.old.unsettled ≡ true → greatest ≤ core.old.config.serial }
    ensures stands { InnerStands core.new (S.meaning shelf.new) }
    ensures goes { Goes (Written vol block bytes.now) (inner_meaning core.old (S.meaning shelf.old)) (inner_meaning core.new (S.meaning shelf.new)) }
    ensures ok { OnOk result (Wrote vol block bytes.now (inner_meaning core.old (S.meaning shelf.old)) (inner_meaning core.new (S.meaning shelf.new))) }
    ensures acts { PlexActs (OnPlexes core.old.config vol block (length bytes.now / BLOCK) bytes.now) core.old.config core.new.config (S.meaning shelf.old) (S.meaning shelf.new) }
    ensures all { OnOk result (AllWrote core.new.config vol block bytes.now (S.meaning shelf.old) (S.meaning shelf.new)) }
    ensures faults { core.new.faults ≡ core.old.faults }
    ensures unsure { core.new.unsure ≡ core.old.unsure }
    ensures unit_faults { (u : ℕ) → (S.meaning shelf.old).faults u ≤ (S.meaning shelf.new).faults u }
    ensures ready { MissesNone core.old → OnOk result (MissesNone core.new) }
    ensures gave_up { GivesUp vol core.old core.new (S.meaning shelf.old) (S.meaning shelf.new) result }
    ensures loses { LosesPlexes core.old.config core.new.config (S.meaning shelf.old) (S.meaning shelf.new) }
    ensures trust { OnOk result (core.old.committed ≡ true → core.new.committed ≡ true) }
    ensures agreed { IfErr result (λ e. core.old.committed ≡ true → core.new.agreed ≡ true) }
    ensures finds { CoreFinds core.old core.new (S.meaning shelf.old) (S.meaning shelf.new) }
    ensures settles { CoreSettles core.old core.new (S.meaning shelf.old) (S.meaning shelf.new) }
    ensures logs { TrustsStill core.old.config core.new.config }
    ensures cause { Blames (S.meaning shelf.old) (S.meaning shelf.new) result }
{
    match write_all(&core.config, vol, shelf, block, bytes) {
        Ok(failed) => {
            if failed.set == 0 {
                return Ok(());
            }
            if core.unsettled {
                return Err(ShelfError::Fault { disk: failed.disk });
            }
            detach(shelf, core, vol, failed)
        }
        Err(no) => Err(fault_of(no, 0)),
    }
}

/// Writes a run of blocks of a volume.
pub fn write_in<S: Shelf>(
    shelf: &mut S,
    core: &mut Inner,
    vol: u32,
    block: u64,
    bytes: &[u8],
) -> Result<(), ShelfError>
    requires stands { InnerStands core.old (S.meaning shelf.old) }
    requires fits { Fits (inner_meaning core.old (S.meaning shelf.old)) vol block (length bytes.now) }
    ensures stands { InnerStands core.new (S.meaning shelf.new) }
    ensures goes { Goes (Written vol block bytes.now) (inner_meaning core.old (S.meaning shelf.old)) (inner_meaning core.new (S.meaning shelf.new)) }
    ensures ok { OnOk result (Wrote vol block bytes.now (inner_meaning core.old (S.meaning shelf.old)) (inner_meaning core.new (S.meaning shelf.new))) }
    ensures acts { PlexActs (OnPlexes core.old.config vol block (length bytes.now / BLOCK) bytes.now) core.old.config core.new.config (S.meaning shelf.old) (S.meaning shelf.new) }
    ensures ready { OnOk result (MissesNone core.new) }
    ensures gave_up { GivesUp vol core.old core.new (S.meaning shelf.old) (S.meaning shelf.new) result }
    ensures loses { LosesPlexes core.old.config core.new.config (S.meaning shelf.old) (S.meaning shelf.new) }
    ensures trust { OnOk result (core.old.committed ≡ true → core.new.committed ≡ true) }
    ensures agreed { IfErr result (λ e. core.old.committed ≡ true → core.new.agreed ≡ true) }
    ensures finds { CoreFinds core.old core.new (S.meaning shelf.old) (S.meaning shelf.new) }
    ensures settles { CoreSettles core.old core.new (S.meaning shelf.old) (S.meaning shelf.new) }
    ensures logs { TrustsStill core.old.config core.new.config }
    ensures cause { Cause (inner_meaning core.old (S.meaning shelf.old)) (inner_meaning core.new (S.meaning shelf.new)) vol result }
    ensures unit_faults { (u : ℕ) → (S.meaning shelf.old).faults u ≤ (S.meaning shelf.new).faults u }
    ensures marks { MarksOn vol core.old.unsure core.new.unsure result }
{
    if shelf.is_down() {
        return Err(ShelfError::Down);
    }
    match make_ready(shelf, core) {
        Ok(()) => {}
        Err(error) => {
            give_up(&mut core.faults, &mut core.unsure, vol, error);
            return Err(error);
        }
    }
    match write_plexes(shelf, core, vol, block, bytes) {
        Ok(()) => Ok(()),
        Err(error) => {
            give_up(&mut core.faults, &mut core.unsure, vol, error);
            Err(error)
        }
    }
}

/// The same of a group of which a plex may be held back, which is detached first. Where no serial is left to do so the write goes to it too.
pub fn write_group<S: Shelf>(
    shelf: &mut S,
    core: &mut GroupCore,
    vol: u32,
    block: u64,
    bytes: &[u8],
) -> Result<(), ShelfError>
    requires stands { GroupStands core.old (S.meaning shelf.old) }
    requires fits { Fits (inner_meaning (wide core.old) (S.meaning shelf.old)) vol block (length bytes.now) }
    ensures stands { GroupStands core.new (S.meaning shelf.new) }
    ensures goes { Goes (Written vol block bytes.now) (inner_meaning (wide core.old) (S.meaning shelf.old)) (inner_meaning (wide core.new) (S.meaning shelf.new)) }
    ensures ok { OnOk result (Wrote vol block bytes.now (inner_meaning (wide core.old) (S.meaning shelf.old)) (inner_meaning (wide core.new) (S.meaning shelf.new))) }
    ensures acts { PlexActs (OnPlexes (wide core.old).config vol block (length bytes.now / BLOCK) bytes.now) (wide core.old).config (wide core.new).config (S.meaning shelf.old) (S.meaning shelf.new) }
    ensures ready { OnOk result (MissesNone core.new.inner) }
    ensures gave_up { GivesUp vol core.old.inner core.new.inner (S.meaning shelf.old) (S.meaning shelf.new) result }
    ensures loses { LosesPlexes core.old.inner.config core.new.inner.config (S.meaning shelf.old) (S.meaning shelf.new) }
    ensures clear { core.old.inner.config.serial < greatest → OnOk result (core.new.held ≡ None) }
    ensures trust { OnOk result (core.old.inner.committed ≡ true → core.new.inner.committed ≡ true) }
    ensures agreed { IfErr result (λ e. core.old.inner.committed ≡ true → core.new.inner.agreed ≡ true) }
    ensures finds { GroupFinds core.old core.new (S.meaning shelf.old) (S.meaning shelf.new) }
    ensures logs { TrustsStill core.old.inner.config core.new.inner.config }
    ensures marks { MarksOn vol core.old.inner.unsure core.new.inner.unsure result }
    ensures cause { Cause (inner_meaning (wide core.old) (S.meaning shelf.old)) (inner_meaning (wide core.new) (S.meaning shelf.new)) vol result }
{
    if shelf.is_down() {
        return Err(ShelfError::Down);
    }
    match release(shelf, core) {
        Ok(()) => {}
        Err(error) => {
            give_up(&mut core.inner.faults, &mut core.inner.unsure, vol, error);
            return Err(error);
        }
    }
    let held = open_held(core);
    let result = write_in(shelf, &mut core.inner, vol, block, bytes);
    close_held(core, held);
    result
}
