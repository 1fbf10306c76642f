// The content of a volume that is copied to a plex, and the commit that makes the plex ACTIVE.
ghost use Rattle.vx_group.specs.Loses.{TrustsStill};
ghost use Rattle.vx_group.specs.Finds.{CoreFinds, CoreEnds};
ghost use Rattle.vx_kept.specs.Finds.{FindsFrom, NoConfiguration};
ghost use Rattle.std.specs.Prelude.{◌≡◌, ◌⊎◌, ◌<◌, false, IfErr, IfOk, IsTrue, Option, true, OnOk};
ghost use Rattle.std.specs.Option.{option_copied};
ghost use Rattle.vx_config.specs.Table.{greatest};
ghost use Rattle.vx_copies.specs.Commits.{MoreFailed};
ghost use Rattle.vx_fmr.specs.Missed.{Missed};
ghost use Rattle.vx_group.specs.Attaches.{AttachEnds, Attaches, CopyTried, HasOther, KnowsMissed, MayAttach, NoSource, Opens, missed_regions};
ghost use Rattle.vx_group.specs.Blames.{Blames};
ghost use Rattle.vx_group.specs.GivesUp.{MissesOrHas, NoCommit};
ghost use Rattle.vx_group.specs.Stands.{InnerStands};
ghost use Rattle.vx_volume.specs.Copies.{CopyCause};
ghost use Rattle.vx_volume.specs.Plexes.{active};
ghost use Rattle.vx_group.specs.Settles.{CoreSettles, EndsSettled, KeepsSettled};

use crate::detaching::{detach, fault_of};
use crate::inner::Inner;
use crate::settling::settle_headers;
use vx_config::PlexState;
use vx_disk::{Shelf, ShelfError};
use vx_fmr::Fmr;
use vx_kept::whole_of;
use vx_model::limits::MOST_PLEXES;
use vx_resync::attach_from;
use vx_volume::{Failed, is_active, set_of};

// Copies the regions that a plex has missed, or all where there is no map, from a plex of the volume that is ACTIVE. The plex is then ACTIVE in
// memory. Where the copy fails nothing has changed in memory.
fn copy_from<S: Shelf>(
    shelf: &mut S,
    core: &mut Inner,
    vol: u32,
    source: u32,
    plex: u32,
    fmr: Option<&Fmr>,
) -> Result<u64, ShelfError>
    requires stands { InnerStands core.old (S.meaning shelf.old) }
    requires may { MayAttach core.old.config vol plex }
    requires off { active core.old.config vol plex ≡ false }
    requires from { IsTrue (active core.old.config vol source) }
    requires knows { KnowsMissed core.old.config vol plex (option_copied fmr) (S.meaning shelf.old) }
    requires up { IsTrue (S.meaning shelf.old).down → ⊥ }
    ensures stands { InnerStands core.new (S.meaning shelf.new) }
    ensures attaches { Attaches vol plex (option_copied fmr.entry) core.old core.new (S.meaning shelf.old) (S.meaning shelf.new) }
    ensures opens { Opens vol plex core.new.config result }
    ensures settled { core.new.unsettled ≡ core.old.unsettled }
    ensures trust { core.new.committed ≡ core.old.committed }
    ensures serial { core.new.config.serial ≡ core.old.config.serial }
    ensures disks { core.new.config.disks ≡ core.old.config.disks }
    ensures same { IfErr result (λ e. core.new ≡ core.old) }
    ensures logs { TrustsStill core.old.config core.new.config }
    ensures less { FindsFrom NoConfiguration (S.meaning shelf.old) (S.meaning shelf.new) }
    ensures cause { CopyCause core.old.config vol source plex (S.meaning shelf.old) (S.meaning shelf.new) result }
    ensures count { IfOk result (λ n. n ≡ missed_regions core.old.config vol plex (option_copied fmr.entry)) }
    ensures knows { (IsTrue (S.meaning shelf.new).down → ⊥) → KnowsMissed core.old.config vol plex (option_copied fmr.entry) (S.meaning shelf.new) }
{
    let whole = whole_of(&core.config, vol, plex);
    core.config
        .set_state(vol as usize, plex as usize, PlexState::Active, false);
    match attach_from(&core.config, vol, source, plex, fmr, shelf) {
        Ok(copied) => Ok(copied),
        Err(no) => {
            core.config
                .set_state(vol as usize, plex as usize, PlexState::Stale, whole);
            Err(fault_of(no, 0))
        }
    }
}

// The same of any plex: one that is not ACTIVE is none to copy from, which is answered as a fault of this device.
fn try_from<S: Shelf>(
    shelf: &mut S,
    core: &mut Inner,
    vol: u32,
    source: u32,
    plex: u32,
    fmr: Option<&Fmr>,
    device: u32,
) -> Result<u64, ShelfError>
    requires stands { InnerStands core.old (S.meaning shelf.old) }
    requires may { MayAttach core.old.config vol plex }
    requires off { active core.old.config vol plex ≡ false }
    requires knows { KnowsMissed core.old.config vol plex (option_copied fmr) (S.meaning shelf.old) }
    requires up { IsTrue (S.meaning shelf.old).down → ⊥ }
    ensures stands { InnerStands core.new (S.meaning shelf.new) }
    ensures attaches { Attaches vol plex (option_copied fmr.entry) core.old core.new (S.meaning shelf.old) (S.meaning shelf.new) }
    ensures opens { Opens vol plex core.new.config result }
    ensures settled { core.new.unsettled ≡ core.old.unsettled }
    ensures trust { core.new.committed ≡ core.old.committed }
    ensures serial { core.new.config.serial ≡ core.old.config.serial }
    ensures disks { core.new.config.disks ≡ core.old.config.disks }
    ensures same { IfErr result (λ e. core.new ≡ core.old) }
    ensures tried { CopyTried core.old.config vol source plex device (S.meaning shelf.old) (S.meaning shelf.new) result }
    ensures count { IfOk result (λ n. n ≡ missed_regions core.old.config vol plex (option_copied fmr.entry)) }
    ensures knows { (IsTrue (S.meaning shelf.new).down → ⊥) → KnowsMissed core.old.config vol plex (option_copied fmr.entry) (S.meaning shelf.new) }
    ensures logs { TrustsStill core.old.config core.new.config }
    ensures less { FindsFrom NoConfiguration (S.meaning shelf.old) (S.meaning shelf.new) }
{
    if !is_active(&core.config, vol, source) {
        return Err(ShelfError::Fault { disk: device });
    }
    copy_from(shelf, core, vol, source, plex, fmr)
}

// Copies the regions that a plex has missed, or all where there is no map, which is then ACTIVE in memory, from the first plex that is ACTIVE and of which the copy does not
// fail. Where each fails nothing has changed in memory.
fn copy_to<S: Shelf>(
    shelf: &mut S,
    core: &mut Inner,
    vol: u32,
    plex: u32,
    fmr: Option<&Fmr>,
) -> Result<u64, ShelfError>
    requires stands { InnerStands core.old (S.meaning shelf.old) }
    requires may { MayAttach core.old.config vol plex }
    requires off { active core.old.config vol plex ≡ false }
    requires knows { KnowsMissed core.old.config vol plex (option_copied fmr) (S.meaning shelf.old) }
    requires up { IsTrue (S.meaning shelf.old).down → ⊥ }
    ensures stands { InnerStands core.new (S.meaning shelf.new) }
    ensures attaches { Attaches vol plex (option_copied fmr.entry) core.old core.new (S.meaning shelf.old) (S.meaning shelf.new) }
    ensures opens { Opens vol plex core.new.config result }
    ensures settled { core.new.unsettled ≡ core.old.unsettled }
    ensures trust { core.new.committed ≡ core.old.committed }
    ensures serial { core.new.config.serial ≡ core.old.config.serial }
    ensures disks { core.new.config.disks ≡ core.old.config.disks }
    ensures same { IfErr result (λ e. core.new ≡ core.old) }
    ensures no_source { NoSource core.old.config vol plex (S.meaning shelf.old) (S.meaning shelf.new) result }
    ensures logs { TrustsStill core.old.config core.new.config }
    ensures less { FindsFrom NoConfiguration (S.meaning shelf.old) (S.meaning shelf.new) }
    ensures cause { Blames (S.meaning shelf.old) (S.meaning shelf.new) result }
    ensures count { IfOk result (λ n. n ≡ missed_regions core.old.config vol plex (option_copied fmr.entry)) }
{
    let mut device = 0;
    for source in 0..MOST_PLEXES as u32 {
        match try_from(shelf, core, vol, source, plex, fmr, device) {
            Ok(copied) => return Ok(copied),
            Err(ShelfError::Fault { disk }) => device = disk,
            Err(ShelfError::Down) => return Err(ShelfError::Down),
        }
    }
    Err(ShelfError::Fault { disk: device })
}

// Detaches a plex that is ACTIVE, where it can.
fn take_back<S: Shelf>(shelf: &mut S, core: &mut Inner, vol: u32, plex: u32)
    requires stands { InnerStands core.old (S.meaning shelf.old) }
    requires is_on { IsTrue (active core.old.config vol plex) }
    requires other { HasOther core.old.config vol plex }
    ensures stands { InnerStands core.new (S.meaning shelf.new) }
    ensures attaches { (map : Option Missed) → Attaches vol plex map core.old core.new (S.meaning shelf.old) (S.meaning shelf.new) }
    ensures off { (active core.new.config vol plex ≡ false) ⊎ NoCommit core.new (S.meaning shelf.new) }
    ensures missed { NoCommit core.old (S.meaning shelf.old) → MissesOrHas core.new (S.meaning shelf.new) }
    ensures failing { MoreFailed (S.meaning shelf.old) (S.meaning shelf.new) core.old.config.disks core.new.config.disks }
    ensures finds { CoreFinds core.old core.new (S.meaning shelf.old) (S.meaning shelf.new) }
    ensures settles { KeepsSettled core.old core.new (S.meaning shelf.old) (S.meaning shelf.new) }
    ensures logs { TrustsStill core.old.config core.new.config }
{
    if shelf.is_down() {
        return;
    }
    match settle_headers(shelf, core) {
        Ok(()) => {}
        Err(_) => return,
    }
    let mut flags = [false; MOST_PLEXES];
    flags[plex as usize] = true;
    let set = set_of(&flags);
    match detach(shelf, core, vol, Failed { set, disk: 0 }) {
        Ok(()) => {}
        Err(_) => {}
    }
}

// Commits the configuration in which the plex is ACTIVE, and answers how many regions were copied. Where this is refused the plex is detached
// again.
fn commit_open<S: Shelf>(
    shelf: &mut S,
    core: &mut Inner,
    vol: u32,
    plex: u32,
    copied: u64,
) -> Result<u64, ShelfError>
    requires stands { InnerStands core.old (S.meaning shelf.old) }
    requires settled { core.old.unsettled ≡ false }
    requires more { core.old.config.serial < greatest }
    requires is_on { IsTrue (active core.old.config vol plex) }
    requires other { HasOther core.old.config vol plex }
    ensures stands { InnerStands core.new (S.meaning shelf.new) }
    ensures attaches { (map : Option Missed) → Attaches vol plex map core.old core.new (S.meaning shelf.old) (S.meaning shelf.new) }
    ensures ends { AttachEnds vol plex core.new (S.meaning shelf.new) result }
    ensures count { IfOk result (λ n. n ≡ copied) }
    ensures failing { MoreFailed (S.meaning shelf.old) (S.meaning shelf.new) core.old.config.disks core.new.config.disks }
    ensures trust { OnOk result (core.old.committed ≡ true → core.new.committed ≡ true) }
    ensures missed { IfErr result (λ e. MissesOrHas core.new (S.meaning shelf.new)) }
    ensures finds { CoreEnds core.new (S.meaning shelf.old) (S.meaning shelf.new) }
    ensures settles { EndsSettled core.new (S.meaning shelf.old) (S.meaning shelf.new) }
    ensures logs { TrustsStill core.old.config core.new.config }
    ensures cause { Blames (S.meaning shelf.old) (S.meaning shelf.new) result }
{
    match detach(shelf, core, 0, Failed { set: 0, disk: 0 }) {
        Ok(()) => Ok(copied),
        Err(error) => {
            take_back(shelf, core, vol, plex);
            if shelf.is_down() {
                return Err(ShelfError::Down);
            }
            Err(error)
        }
    }
}

/// Attaches a plex that is not ACTIVE: the regions that it has missed, or all where there is no map, are copied to it, and a commit makes it
/// ACTIVE. Where that is refused, a further commit takes it back. Answers how many regions were copied.
///
/// A commit that is missed stays so where none is done in this call.
pub fn attach<S: Shelf>(
    shelf: &mut S,
    core: &mut Inner,
    vol: u32,
    plex: u32,
    fmr: Option<&Fmr>,
) -> Result<u64, ShelfError>
    requires stands { InnerStands core.old (S.meaning shelf.old) }
    requires may { MayAttach core.old.config vol plex }
    requires off { active core.old.config vol plex ≡ false }
    requires knows { KnowsMissed core.old.config vol plex (option_copied fmr) (S.meaning shelf.old) }
    requires up { IsTrue (S.meaning shelf.old).down → ⊥ }
    ensures stands { InnerStands core.new (S.meaning shelf.new) }
    ensures attaches { Attaches vol plex (option_copied fmr.entry) core.old core.new (S.meaning shelf.old) (S.meaning shelf.new) }
    ensures ends { AttachEnds vol plex core.new (S.meaning shelf.new) result }
    ensures failing { MoreFailed (S.meaning shelf.old) (S.meaning shelf.new) core.old.config.disks core.new.config.disks }
    ensures trust { OnOk result (core.old.committed ≡ true → core.new.committed ≡ true) }
    ensures missed { core.old.unsettled ≡ true → IfErr result (λ e. MissesOrHas core.new (S.meaning shelf.new)) }
    ensures finds { CoreFinds core.old core.new (S.meaning shelf.old) (S.meaning shelf.new) }
    ensures settles { CoreSettles core.old core.new (S.meaning shelf.old) (S.meaning shelf.new) }
    ensures logs { TrustsStill core.old.config core.new.config }
    ensures cause { Blames (S.meaning shelf.old) (S.meaning shelf.new) result }
    ensures count { IfOk result (λ n. n ≡ missed_regions core.old.config vol plex (option_copied fmr.entry)) }
{
    let unsettled = core.unsettled;
    match settle_headers(shelf, core) {
        Ok(()) => {}
        Err(error) => return Err(error),
    }
    let copied = match copy_to(shelf, core, vol, plex, fmr) {
        Ok(copied) => copied,
        Err(error) => {
            core.unsettled = unsettled;
            return Err(error);
        }
    };
    commit_open(shelf, core, vol, plex, copied)
}
