// The flushes and the commit by which a group is deported.
ghost use Rattle.vx_group.specs.Loses.{TrustsStill};
ghost use Rattle.vx_group.specs.Finds.{CoreFinds, GroupImages};
ghost use Rattle.std.specs.Prelude.{Err, IfErr, IsTrue, OnOk, false, true, ◌-◌, ◌<◌, ◌≡◌, ◌≤◌};
ghost use Rattle.vx_disk.specs.Shelf.{Goes, Nothing};
ghost use Rattle.vx_config.specs.Table.{greatest};
ghost use Rattle.vx_group.specs.Blames.{StopsByDevice};
ghost use Rattle.vx_group.specs.Deports.{Closes, CommitCloses};
ghost use Rattle.vx_group.specs.Dets.{DetStops, margin};
ghost use Rattle.vx_group.specs.Calls.{GroupCloses};
ghost use Rattle.vx_group.specs.Holding.{GroupStands, wide};
ghost use Rattle.vx_group.specs.Stands.{InnerStands, inner_meaning};
ghost use Rattle.vx_model.specs.declared.errors.Stop.TheVariants.{No as Refused};
ghost use Rattle.vx_model.specs.declared.no.Counted.TheVariants.{Number as Numbers};
ghost use Rattle.vx_model.specs.declared.no.No.TheVariants.{Limit};
ghost use Rattle.vx_copyio.specs.Putting.{KeepsUp};
ghost use Rattle.vx_group.specs.Settles.{ClosesSettled, CoreSettles, ReadsSure};

use crate::detaching::fault_of;
use crate::group_core::GroupCore;
use crate::inner::Inner;
use crate::quiescing::flush_volumes;
use crate::releasing::release;
use crate::settling::settle_headers;
use vx_disk::{Shelf, ShelfError, refusal};
use vx_kept::commit_clean;
use vx_model::limits::{COMMIT_MARGIN, MOST_NUMBER};
use vx_model::{Counted, No, Stop};

// Commits the configuration with plexes CLEAN.
fn commit_closed<S: Shelf>(shelf: &mut S, core: &mut Inner) -> Result<(), ShelfError>
    requires stands { InnerStands core.old (S.meaning shelf.old) }
    requires settled { core.old.unsettled ≡ false }
    requires more { core.old.config.serial < greatest }
    ensures ends { CommitCloses core.old core.new (S.meaning shelf.old) (S.meaning shelf.new) result }
    ensures up { OnOk result (KeepsUp (S.meaning shelf.old) (S.meaning shelf.new)) }
    ensures agreed { IfErr result (λ e. core.old.committed ≡ true → core.new.agreed ≡ true) }
    ensures finds { IfErr result (λ e. CoreFinds core.old core.new (S.meaning shelf.old) (S.meaning shelf.new)) }
    ensures settles { IfErr result (λ e. ClosesSettled core.old core.new (S.meaning shelf.old) (S.meaning shelf.new)) }
    ensures logs { IfErr result (λ e. TrustsStill core.old.config core.new.config) }
    ensures cause { StopsByDevice (S.meaning shelf.old) (S.meaning shelf.new) result }
{
    match commit_clean(
        shelf,
        &mut core.config,
        &core.unsure,
        core.good,
        &mut core.room,
    ) {
        Ok(()) => Ok(()),
        Err(no) => {
            core.unsettled = true;
            core.agreed = core.committed;
            core.committed = false;
            if shelf.is_down() {
                return Err(ShelfError::Down);
            }
            Err(fault_of(no, 0))
        }
    }
}

// The same, behind the headers that a refused commit asks for, and a flush of every volume.
fn close<S: Shelf>(shelf: &mut S, core: &mut Inner) -> Result<(), ShelfError>
    requires stands { InnerStands core.old (S.meaning shelf.old) }
    requires more { core.old.config.serial < greatest }
    requires up { IsTrue (S.meaning shelf.old).down → ⊥ }
    ensures ends { Closes core.old core.new (S.meaning shelf.old) (S.meaning shelf.new) result }
    ensures up { OnOk result (IsTrue (S.meaning shelf.new).down → ⊥) }
    ensures agreed { IfErr result (λ e. core.old.committed ≡ true → core.new.agreed ≡ true) }
    ensures finds { IfErr result (λ e. CoreFinds core.old core.new (S.meaning shelf.old) (S.meaning shelf.new)) }
    ensures settles { ReadsSure core.old (S.meaning shelf.old) → IfErr result (λ e. CoreSettles core.old core.new (S.meaning shelf.old) (S.meaning shelf.new)) }
    ensures logs { IfErr result (λ e. TrustsStill core.old.config core.new.config) }
    ensures cause { StopsByDevice (S.meaning shelf.old) (S.meaning shelf.new) result }
{
    match settle_headers(shelf, core) {
        Ok(()) => {}
        Err(error) => return Err(error),
    }
    match flush_volumes(shelf, core) {
        Ok(()) => {}
        Err(error) => return Err(error),
    }
    commit_closed(shelf, core)
}

/// Deports a group: every volume is flushed, and then a commit puts the plexes that are ACTIVE into the state CLEAN, but those of the
/// volumes of which a write or a flush failed.
///
/// Answers 19 exactly where fewer than 65,536 serials are left, and then nothing has changed; else 7 only where the count of the disk that
/// it names rose, and 6 only where the shelf is then down. After a refusal the group stands, without the plexes that were detached, and to
/// its volumes nothing was written. It takes no memory.
pub fn deport_in<S: Shelf>(shelf: &mut S, core: &mut GroupCore) -> Result<(), Stop>
    requires stands { GroupStands core.old (S.meaning shelf.old) }
    ensures limit { greatest - margin < core.old.inner.config.serial → (result ≡ Err (Refused (Limit Numbers greatest))) × (core.new ≡ core.old) × (shelf.new ≡ shelf.old) }
    ensures ends { GroupCloses core.old core.new (S.meaning shelf.old) (S.meaning shelf.new) result }
    ensures up { OnOk result (IsTrue (S.meaning shelf.new).down → ⊥) }
    ensures back { IfErr result (λ e. Goes Nothing (inner_meaning (wide core.old) (S.meaning shelf.old)) (inner_meaning (wide core.new) (S.meaning shelf.new))) }
    ensures agreed { IfErr result (λ e. core.old.inner.committed ≡ true → core.new.inner.agreed ≡ true) }
    ensures finds { IfErr result (λ e. GroupImages core.old core.new (S.meaning shelf.old) (S.meaning shelf.new)) }
    ensures settles { ((IsTrue (S.meaning shelf.old).down → ⊥) → ReadsSure (wide core.old) (S.meaning shelf.old)) → IfErr result (λ e. CoreSettles (wide core.old) (wide core.new) (S.meaning shelf.old) (S.meaning shelf.new)) }
    ensures logs { IfErr result (λ e. TrustsStill core.old.inner.config core.new.inner.config) }
    ensures cause { core.old.inner.config.serial ≤ greatest - margin → DetStops (S.meaning shelf.old) (S.meaning shelf.new) result }
{
    if MOST_NUMBER - COMMIT_MARGIN < core.inner.config.serial {
        return Err(Stop::No(No::Limit {
            what: Counted::Number,
            most: MOST_NUMBER,
        }));
    }
    if shelf.is_down() {
        return Err(Stop::No(No::Down));
    }
    match release(shelf, core) {
        Ok(()) => {}
        Err(error) => return Err(Stop::No(refusal(error))),
    }
    match close(shelf, &mut core.inner) {
        Ok(()) => Ok(()),
        Err(error) => Err(Stop::No(refusal(error))),
    }
}
