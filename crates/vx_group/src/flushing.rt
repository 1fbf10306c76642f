// A flush of a volume.
ghost use Rattle.vx_group.specs.Finds.{CoreFinds, GroupFinds};
ghost use Rattle.std.specs.Prelude.{◌≡◌, ◌<◌, ◌≤◌, ℕ, false, IsTrue, None, OnOk, true, IfErr};
ghost use Rattle.vx_disk.specs.Causes.{Cause};
ghost use Rattle.vx_disk.specs.Shelf.{Flushed, Goes, Nothing};
ghost use Rattle.vx_config.specs.Table.{greatest};
ghost use Rattle.vx_group.specs.Blames.{Blames, MarksOn};
ghost use Rattle.vx_group.specs.Copying.{SpentBy};
ghost use Rattle.vx_group.specs.GivesUp.{GivesUp, MissesNone};
ghost use Rattle.vx_group.specs.Holding.{GroupStands, wide};
ghost use Rattle.vx_group.specs.Loses.{LosesPlexes, TrustsStill};
ghost use Rattle.vx_group.specs.Moves.{AllFlushed, Narrows};
ghost use Rattle.vx_kept.specs.PlexActs.{PlexActs};
ghost use Rattle.vx_group.specs.Settles.{CoreSettles};
ghost use Rattle.vx_group.specs.Stands.{InnerStands, inner_meaning};
ghost use Rattle.vx_volume.specs.Plexes.{active};

use crate::counting::give_up;
use crate::detaching::{detach, fault_of};
use crate::group_core::GroupCore;
use crate::holding::{close_held, open_held};
use crate::inner::Inner;
use crate::releasing::release;
use crate::settling::make_ready;
use vx_disk::{Shelf, ShelfError};
use vx_volume::flush_all;

/// Flushes each plex that is ACTIVE, and detaches those that failed.
pub fn flush_plexes<S: Shelf>(shelf: &mut S, core: &mut Inner, vol: u32) -> Result<(), ShelfError>
    requires stands { InnerStands core.old (S.meaning shelf.old) }
    requires there { vol < (inner_meaning core.old (S.meaning shelf.old)).units }
    requires up { IsTrue (S.meaning shelf.old).down → ⊥ }
    ensures stands { InnerStands core.new (S.meaning shelf.new) }
    ensures goes { Goes Nothing (inner_meaning core.old (S.meaning shelf.old)) (inner_meaning core.new (S.meaning shelf.new)) }
    ensures ok { OnOk result (Flushed vol (inner_meaning core.old (S.meaning shelf.old)) (inner_meaning core.new (S.meaning shelf.new))) }
    ensures all { OnOk result (AllFlushed core.new.config vol (S.meaning shelf.old) (S.meaning shelf.new)) }
    ensures narrows { Narrows core.old core.new (S.meaning shelf.old) (S.meaning shelf.new) }
    ensures settled { core.old.unsettled ≡ false → OnOk result (core.new.unsettled ≡ false) }
    ensures others { (w p : ℕ) → (w ≡ vol → ⊥) → active core.new.config w p ≡ active core.old.config w p }
    ensures spent { SpentBy core.old.config core.new.config (S.meaning shelf.old) (S.meaning shelf.new) }
    ensures faults { core.new.faults ≡ core.old.faults }
    ensures unsure { core.new.unsure ≡ core.old.unsure }
    ensures ready { MissesNone core.old → OnOk result (MissesNone core.new) }
    ensures gave_up { GivesUp vol core.old core.new (S.meaning shelf.old) (S.meaning shelf.new) result }
    ensures full { greatest ≤ core.old.config.serial → OnOk result (core.new.config.volumes ≡ core.old.config.volumes) }
    ensures trust { OnOk result (core.old.committed ≡ true → core.new.committed ≡ true) }
    ensures agreed { IfErr result (λ e. core.old.committed ≡ true → core.new.agreed ≡ true) }
    ensures finds { CoreFinds core.old core.new (S.meaning shelf.old) (S.meaning shelf.new) }
    ensures settles { CoreSettles core.old core.new (S.meaning shelf.old) (S.meaning shelf.new) }
    ensures logs { TrustsStill core.old.config core.new.config }
    ensures cause { Blames (S.meaning shelf.old) (S.meaning shelf.new) result }
{
    match flush_all(&core.config, vol, shelf) {
        Ok(failed) => {
            if failed.set == 0 {
                return Ok(());
            }
            if core.unsettled {
                return Err(ShelfError::Fault { disk: failed.disk });
            }
            detach(shelf, core, vol, failed)
        }
        Err(no) => Err(fault_of(no, 0)),
    }
}

/// Makes a volume durable.
pub fn flush_in<S: Shelf>(shelf: &mut S, core: &mut Inner, vol: u32) -> Result<(), ShelfError>
    requires stands { InnerStands core.old (S.meaning shelf.old) }
    requires there { vol < (inner_meaning core.old (S.meaning shelf.old)).units }
    ensures stands { InnerStands core.new (S.meaning shelf.new) }
    ensures goes { Goes Nothing (inner_meaning core.old (S.meaning shelf.old)) (inner_meaning core.new (S.meaning shelf.new)) }
    ensures ok { OnOk result (Flushed vol (inner_meaning core.old (S.meaning shelf.old)) (inner_meaning core.new (S.meaning shelf.new))) }
    ensures acts { PlexActs Nothing core.old.config core.new.config (S.meaning shelf.old) (S.meaning shelf.new) }
    ensures ready { OnOk result (MissesNone core.new) }
    ensures gave_up { GivesUp vol core.old core.new (S.meaning shelf.old) (S.meaning shelf.new) result }
    ensures full { greatest ≤ core.old.config.serial → OnOk result (core.new.config.volumes ≡ core.old.config.volumes) }
    ensures loses { LosesPlexes core.old.config core.new.config (S.meaning shelf.old) (S.meaning shelf.new) }
    ensures trust { OnOk result (core.old.committed ≡ true → core.new.committed ≡ true) }
    ensures agreed { IfErr result (λ e. core.old.committed ≡ true → core.new.agreed ≡ true) }
    ensures finds { CoreFinds core.old core.new (S.meaning shelf.old) (S.meaning shelf.new) }
    ensures settles { CoreSettles core.old core.new (S.meaning shelf.old) (S.meaning shelf.new) }
    ensures logs { TrustsStill core.old.config core.new.config }
    ensures cause { Cause (inner_meaning core.old (S.meaning shelf.old)) (inner_meaning core.new (S.meaning shelf.new)) vol result }
    ensures unit_faults { (u : ℕ) → (S.meaning shelf.old).faults u ≤ (S.meaning shelf.new).faults u }
    ensures marks { MarksOn vol core.old.unsure core.new.unsure result }
{
    if shelf.is_down() {
        return Err(ShelfError::Down);
    }
    match make_ready(shelf, core) {
        Ok(()) => {}
        Err(error) => {
            give_up(&mut core.faults, &mut core.unsure, vol, error);
            return Err(error);
        }
    }
    match flush_plexes(shelf, core, vol) {
        Ok(()) => Ok(()),
        Err(error) => {
            give_up(&mut core.faults, &mut core.unsure, vol, error);
            Err(error)
        }
    }
}

/// The same of a group of which a plex may be held back, which is detached first. Where no serial is left to do so it is flushed too.
pub fn flush_group<S: Shelf>(
    shelf: &mut S,
    core: &mut GroupCore,
    vol: u32,
) -> Result<(), ShelfError>
    requires stands { GroupStands core.old (S.meaning shelf.old) }
    requires there { vol < (inner_meaning (wide core.old) (S.meaning shelf.old)).units }
    ensures stands { GroupStands core.new (S.meaning shelf.new) }
    ensures goes { Goes Nothing (inner_meaning (wide core.old) (S.meaning shelf.old)) (inner_meaning (wide core.new) (S.meaning shelf.new)) }
    ensures ok { OnOk result (Flushed vol (inner_meaning (wide core.old) (S.meaning shelf.old)) (inner_meaning (wide core.new) (S.meaning shelf.new))) }
    ensures acts { PlexActs Nothing (wide core.old).config (wide core.new).config (S.meaning shelf.old) (S.meaning shelf.new) }
    ensures ready { OnOk result (MissesNone core.new.inner) }
    ensures gave_up { GivesUp vol core.old.inner core.new.inner (S.meaning shelf.old) (S.meaning shelf.new) result }
    ensures loses { LosesPlexes core.old.inner.config core.new.inner.config (S.meaning shelf.old) (S.meaning shelf.new) }
    ensures clear { core.old.inner.config.serial < greatest → OnOk result (core.new.held ≡ None) }
    ensures full { greatest ≤ core.old.inner.config.serial → OnOk result (core.new.inner.config.volumes ≡ core.old.inner.config.volumes) }
    ensures trust { OnOk result (core.old.inner.committed ≡ true → core.new.inner.committed ≡ true) }
    ensures agreed { IfErr result (λ e. core.old.inner.committed ≡ true → core.new.inner.agreed ≡ true) }
    ensures finds { GroupFinds core.old core.new (S.meaning shelf.old) (S.meaning shelf.new) }
    ensures logs { TrustsStill core.old.inner.config core.new.inner.config }
    ensures marks { MarksOn vol core.old.inner.unsure core.new.inner.unsure result }
    ensures cause { Cause (inner_meaning (wide core.old) (S.meaning shelf.old)) (inner_meaning (wide core.new) (S.meaning shelf.new)) vol result }
{
    if shelf.is_down() {
        return Err(ShelfError::Down);
    }
    match release(shelf, core) {
        Ok(()) => {}
        Err(error) => {
            give_up(&mut core.inner.faults, &mut core.inner.unsure, vol, error);
            return Err(error);
        }
    }
    let held = open_held(core);
    let result = flush_in(shelf, &mut core.inner, vol);
    close_held(core, held);
    result
}
