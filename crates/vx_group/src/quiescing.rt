// The flushes that come before the commit of a deport.
ghost use Rattle.vx_group.specs.Loses.{TrustsStill};
ghost use Rattle.vx_group.specs.Finds.{CoreFinds};
ghost use Rattle.std.specs.Prelude.{IfErr, IsTrue, false, length, true, ℕ, ◌<◌, ◌≡◌};
ghost use Rattle.vx_config.specs.Table.{greatest};
ghost use Rattle.vx_group.specs.Blames.{Blames, MarksUnsure};
ghost use Rattle.vx_group.specs.Deports.{IsVolumeOf};
ghost use Rattle.vx_group.specs.Quiesces.{GoesOnBy, QuiesceEnds};
ghost use Rattle.vx_group.specs.Settles.{EndsSettled, KeepsAlike};
ghost use Rattle.vx_group.specs.Stands.{InnerStands};
ghost use Rattle.vx_model.specs.declared.limits.TheConstants.{MOST_VOLUMES};

use crate::counting::mark_unsure;
use crate::detaching::{detach, fault_of};
use crate::inner::Inner;
use vx_disk::{Shelf, ShelfError};
use vx_model::limits::{MOST_NUMBER, MOST_VOLUMES};
use vx_volume::flush_all;

// Marks a volume as unsure, of which a flush failed with a fault.
fn mark_failed(unsure: &mut [bool; MOST_VOLUMES], vol: u32, error: ShelfError)
    requires inside { vol < MOST_VOLUMES }
    ensures { MarksUnsure error vol unsure.old unsure.new }
{
    match error {
        ShelfError::Fault { .. } => mark_unsure(unsure, vol),
        ShelfError::Down => {}
    }
}

// Leaves a volume unsure of which each plex failed, where the shelf is not down.
fn leave_unsure(
    unsure: &mut [bool; MOST_VOLUMES],
    vol: u32,
    error: ShelfError,
) -> Result<(), ShelfError>
    requires inside { vol < MOST_VOLUMES }
    ensures marks { MarksUnsure error vol unsure.old unsure.new }
    ensures goes_on { GoesOnBy error result }
{
    match error {
        ShelfError::Fault { .. } => {
            mark_unsure(unsure, vol);
            Ok(())
        }
        ShelfError::Down => Err(ShelfError::Down),
    }
}

// Flushes a volume, and detaches its plexes that failed. Where each failed it becomes unsure.
fn flush_one<S: Shelf>(shelf: &mut S, core: &mut Inner, vol: u32) -> Result<(), ShelfError>
    requires stands { InnerStands core.old (S.meaning shelf.old) }
    requires there { vol < length core.old.config.volumes }
    requires settled { core.old.unsettled ≡ false }
    requires up { IsTrue (S.meaning shelf.old).down → ⊥ }
    requires more { core.old.config.serial < greatest }
    ensures ends { QuiesceEnds (λ (v : ℕ). v ≡ vol) core.old core.new (S.meaning shelf.old) (S.meaning shelf.new) result }
    ensures agreed { IfErr result (λ e. core.old.committed ≡ true → core.new.agreed ≡ true) }
    ensures finds { CoreFinds core.old core.new (S.meaning shelf.old) (S.meaning shelf.new) }
    ensures alikes { KeepsAlike (S.meaning shelf.old) (S.meaning shelf.new) }
    ensures settles { IfErr result (λ e. EndsSettled core.new (S.meaning shelf.old) (S.meaning shelf.new)) }
    ensures logs { TrustsStill core.old.config core.new.config }
    ensures cause { Blames (S.meaning shelf.old) (S.meaning shelf.new) result }
{
    match flush_all(&core.config, vol, shelf) {
        Ok(failed) => {
            if failed.set == 0 {
                return Ok(());
            }
            let disk = failed.disk;
            match detach(shelf, core, vol, failed) {
                Ok(()) => {
                    if core.config.serial >= MOST_NUMBER {
                        return Err(ShelfError::Fault { disk });
                    }
                    Ok(())
                }
                Err(error) => {
                    mark_failed(&mut core.unsure, vol, error);
                    Err(error)
                }
            }
        }
        Err(no) => leave_unsure(&mut core.unsure, vol, fault_of(no, 0)),
    }
}

/// Flushes every volume, and detaches plexes that failed. A volume of which each plex failed becomes unsure. A refusal comes where a plex
/// could not be detached.
pub fn flush_volumes<S: Shelf>(shelf: &mut S, core: &mut Inner) -> Result<(), ShelfError>
    requires stands { InnerStands core.old (S.meaning shelf.old) }
    requires settled { core.old.unsettled ≡ false }
    requires up { IsTrue (S.meaning shelf.old).down → ⊥ }
    requires more { core.old.config.serial < greatest }
    ensures ends { QuiesceEnds (IsVolumeOf core.old) core.old core.new (S.meaning shelf.old) (S.meaning shelf.new) result }
    ensures agreed { IfErr result (λ e. core.old.committed ≡ true → core.new.agreed ≡ true) }
    ensures finds { CoreFinds core.old core.new (S.meaning shelf.old) (S.meaning shelf.new) }
    ensures alikes { KeepsAlike (S.meaning shelf.old) (S.meaning shelf.new) }
    ensures settles { IfErr result (λ e. EndsSettled core.new (S.meaning shelf.old) (S.meaning shelf.new)) }
    ensures logs { TrustsStill core.old.config core.new.config }
    ensures cause { Blames (S.meaning shelf.old) (S.meaning shelf.new) result }
{
    for vol in 0..core.config.volumes.as_slice().len() {
        match flush_one(shelf, core, vol as u32) {
            Ok(()) => {}
            Err(error) => return Err(error),
        }
    }
    Ok(())
}
