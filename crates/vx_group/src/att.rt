// A plex that is attached by its name.
ghost use Rattle.vx_group.specs.Loses.{TrustsStill};
ghost use Rattle.vx_group.specs.Finds.{CoreFinds};
ghost use Rattle.std.specs.Prelude.{◌≡◌, ◌+◌, ◌<◌, false, IfOk, IsTrue, OnOk, Some, None, Ok, Err, true};
ghost use Rattle.std.specs.Option.{option_copied};
ghost use Rattle.vx_config.specs.Table.{greatest};
ghost use Rattle.vx_group.specs.Attaches.{AttachEnds, Attaches, GroupAttachEnds, KnowsMissed, MayAttach, att_refusal, missed_regions};
ghost use Rattle.vx_group.specs.Blames.{Blames};
ghost use Rattle.vx_group.specs.Dets.{DetStops};
ghost use Rattle.vx_group.specs.Calls.{GroupAttaches};
ghost use Rattle.vx_group.specs.Holding.{GroupStands, wide};
ghost use Rattle.vx_group.specs.Regains.{HoldsPlex, Regains};
ghost use Rattle.vx_group.specs.Stands.{InnerStands};
ghost use Rattle.vx_model.specs.declared.errors.Stop.TheVariants.{No as Refused};
ghost use Rattle.vx_model.specs.declared.no.No.{No as NoValue};
ghost use Rattle.vx_volume.specs.Plexes.{active};
ghost use Rattle.vx_group.specs.Settles.{CoreSettles};

use crate::attaching::attach;
use crate::group_core::GroupCore;
use crate::holding::hold_back;
use crate::inner::Inner;
use crate::regaining::regain;
use crate::releasing::release;
use vx_config::Config;
use vx_disk::{Shelf, ShelfError, refusal};
use vx_fmr::Fmr;
use vx_model::limits::{COMMIT_MARGIN, COMMIT_SERIALS, MOST_NUMBER};
use vx_model::{Counted, Named, No, Stop};
use vx_volume::{is_active, plex_count};

// Why a plex may not be attached.
fn refuse(config: &Config, vol: u32, plex: u32) -> Option<No>
    ensures { result ≡ att_refusal config.now vol plex }
{
    if config.volumes.as_slice().len() <= vol as usize {
        return Some(No::Unknown {
            what: Named::Number(u64::from(vol)),
        });
    }
    if plex_count(config, vol) <= plex {
        return Some(No::Unknown {
            what: Named::Number(u64::from(plex)),
        });
    }
    if MOST_NUMBER - COMMIT_MARGIN < config.serial {
        return Some(No::Limit {
            what: Counted::Number,
            most: MOST_NUMBER,
        });
    }
    None
}

// Attaches a plex that is not ACTIVE, where first the disks on which it lies are held as good.
fn attach_held<S: Shelf>(
    shelf: &mut S,
    core: &mut Inner,
    vol: u32,
    plex: u32,
    fmr: Option<&Fmr>,
) -> Result<u64, ShelfError>
    requires stands { InnerStands core.old (S.meaning shelf.old) }
    requires may { MayAttach core.old.config vol plex }
    requires more { core.old.config.serial + COMMIT_SERIALS < greatest }
    requires off { active core.old.config vol plex ≡ false }
    requires knows { KnowsMissed core.old.config vol plex (option_copied fmr) (S.meaning shelf.old) }
    requires up { IsTrue (S.meaning shelf.old).down → ⊥ }
    ensures stands { InnerStands core.new (S.meaning shelf.new) }
    ensures attaches { Attaches vol plex (option_copied fmr.entry) core.old core.new (S.meaning shelf.old) (S.meaning shelf.new) }
    ensures ends { AttachEnds vol plex core.new (S.meaning shelf.new) result }
    ensures regains { Regains core.old.config core.new.config vol plex (S.meaning shelf.old) (S.meaning shelf.new) }
    ensures held { OnOk result (HoldsPlex (λ s. S.meaning s) core.old.config core.new.config vol plex shelf.new) }
    ensures trust { OnOk result (core.old.committed ≡ true → core.new.committed ≡ true) }
    ensures finds { CoreFinds core.old core.new (S.meaning shelf.old) (S.meaning shelf.new) }
    ensures settles { CoreSettles core.old core.new (S.meaning shelf.old) (S.meaning shelf.new) }
    ensures logs { TrustsStill core.old.config core.new.config }
    ensures cause { Blames (S.meaning shelf.old) (S.meaning shelf.new) result }
    ensures count { IfOk result (λ n. n ≡ missed_regions core.old.config vol plex (option_copied fmr.entry)) }
{
    match regain(shelf, core, vol, plex) {
        Ok(()) => {}
        Err(error) => return Err(error),
    }
    attach(shelf, core, vol, plex, fmr)
}

/// Attaches a plex, and answers how many regions were copied: those that it has missed by its map, or all of the volume where there is none, and
/// none where the plex is ACTIVE already; then nothing changes. It writes blocks of these regions of the plex alone. Disks of the plex that are held as failed are held as good first, by a commit of their own; where one fails in
/// that, it stays held as failed, and this is refused.
///
/// Answers 1 exactly where there is no such volume or plex, else 19 exactly where fewer than 65,536 serials are left, and then nothing has
/// changed; else 7 only where the count of the disk that it names rose, and 6 only where the shelf is then down. Then the plex is not
/// ACTIVE: where the commit that takes it back was refused too, it is held back. It takes no memory.
pub fn att_in<S: Shelf>(
    shelf: &mut S,
    core: &mut GroupCore,
    vol: u32,
    plex: u32,
    fmr: Option<&Fmr>,
) -> Result<u64, Stop>
    requires stands { GroupStands core.old (S.meaning shelf.old) }
    requires knows { KnowsMissed core.old.inner.config vol plex (option_copied fmr) (S.meaning shelf.old) }
    ensures stands { GroupStands core.new (S.meaning shelf.new) }
    ensures refused { (no : NoValue) → att_refusal core.old.inner.config vol plex ≡ Some no → (result ≡ Err (Refused no)) × (core.new ≡ core.old) × (shelf.new ≡ shelf.old) }
    ensures already { att_refusal core.old.inner.config vol plex ≡ None → IsTrue (active core.old.inner.config vol plex) → (result ≡ Ok 0) × (core.new ≡ core.old) × (shelf.new ≡ shelf.old) }
    ensures count { active core.old.inner.config vol plex ≡ false → IfOk result (λ n. n ≡ missed_regions core.old.inner.config vol plex (option_copied fmr.entry)) }
    ensures attaches { GroupAttaches vol plex (option_copied fmr.entry) core.old core.new (S.meaning shelf.old) (S.meaning shelf.new) }
    ensures ends { active core.old.inner.config vol plex ≡ false → GroupAttachEnds vol plex core.new.inner.config (S.meaning shelf.new) result }
    ensures regains { Regains core.old.inner.config core.new.inner.config vol plex (S.meaning shelf.old) (S.meaning shelf.new) }
    ensures held { active core.old.inner.config vol plex ≡ false → OnOk result (HoldsPlex (λ s. S.meaning s) core.old.inner.config core.new.inner.config vol plex shelf.new) }
    ensures trust { OnOk result (core.old.inner.committed ≡ true → core.new.inner.committed ≡ true) }
    ensures finds { CoreFinds (wide core.old) (wide core.new) (S.meaning shelf.old) (S.meaning shelf.new) }
    ensures settles { CoreSettles (wide core.old) (wide core.new) (S.meaning shelf.old) (S.meaning shelf.new) }
    ensures free { OnOk result (core.old.held ≡ None → core.new.held ≡ None) }
    ensures alone { active core.old.inner.config vol plex ≡ false → OnOk result (core.new.held ≡ None) }
    ensures logs { TrustsStill core.old.inner.config core.new.inner.config }
    ensures cause { att_refusal core.old.inner.config vol plex ≡ None → DetStops (S.meaning shelf.old) (S.meaning shelf.new) result }
{
    if let Some(no) = refuse(&core.inner.config, vol, plex) {
        return Err(Stop::No(no));
    }
    if is_active(&core.inner.config, vol, plex) {
        return Ok(0);
    }
    if shelf.is_down() {
        return Err(Stop::No(No::Down));
    }
    match release(shelf, core) {
        Ok(()) => {}
        Err(error) => return Err(Stop::No(refusal(error))),
    }
    match attach_held(shelf, &mut core.inner, vol, plex, fmr) {
        Ok(copied) => Ok(copied),
        Err(error) => {
            hold_back(core, vol, plex);
            Err(Stop::No(refusal(error)))
        }
    }
}
