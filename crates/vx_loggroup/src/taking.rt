// The logs of missed regions that an import takes up.
ghost use Rattle.std.specs.Prelude.{◌≡◌, ◌<◌, ℕ, false, IsTrue, length, None, Some, slice_get, true};
ghost use Rattle.vx_config.specs.declared.entry.VolumeLog.TheVariants.{Fmr as FmrLog};
ghost use Rattle.vx_disk.specs.Shelf.{Goes, Nothing};
ghost use Rattle.vx_group.specs.Holding.{GroupStands};
ghost use Rattle.vx_kept.specs.Cleans.{is_unsure};
ghost use Rattle.vx_logged.specs.Logged.{Known, LogOn};
ghost use Rattle.vx_loggroup.specs.LoggedVolumes.{LoggedStands, is_alike as is_alike_is};
ghost use Rattle.vx_loggroup.specs.Taking.{MapWas, MapsWere, MapsWhy, SameDrls, TakesMap};
ghost use Rattle.vx_fmr.specs.Missed.{Missed};
ghost use Rattle.vx_logimport.specs.Marked.{log_within};
ghost use Rattle.vx_logimport.specs.Rests.{MapsTell, rests};
ghost use Rattle.vx_maplog.specs.Logs.{is_used};
ghost use Rattle.vx_logs.specs.declared.logs.Logs.{Logs as LogsValue};
ghost use Rattle.vx_model.specs.declared.limits.TheConstants.{MOST_VOLUMES};

use std::alloc::Global;
use vx_config::{Config, VolumeLog, blocks_of};
use vx_disk::Shelf;
use vx_group::GroupCore;
use vx_groupmaps::{LoadedMaps, load_maps};
use vx_logimport::{Rested, lies_within};
use vx_logs::Logs;
use vx_model::limits::MOST_VOLUMES;

// Reads the log of missed regions of a volume, where one is in use. It is in memory then, unless it could not be read.
fn take_one<S: Shelf>(alloc: Global, shelf: &mut S, core: &GroupCore, one: &mut Logs, vol: u32)
    requires stands { GroupStands core.now (S.meaning shelf.old) }
    requires none { core.now.held ≡ None }
    requires plain { one.old.fmr ≡ None }
    requires log { LogOn core.now vol one.old (S.meaning shelf.old) }
    requires tells { (IsTrue (S.meaning shelf.old).down → ⊥) → MapsTell core.now.inner.config vol (S.meaning shelf.old) }
    ensures goes { Goes Nothing (S.meaning shelf.old) (S.meaning shelf.new) }
    ensures log { LogOn core.now vol one.new (S.meaning shelf.new) }
    ensures known { Known core.now vol one.new (S.meaning shelf.new) }
    ensures drl { one.new.drl ≡ one.old.drl }
    ensures used { (one.new.fmr ≡ None → ⊥) → is_used core.now.inner.config vol FmrLog ≡ true }
    ensures was { (f : Missed) → one.new.fmr ≡ Some f → MapWas core.now.inner.config vol f (S.meaning shelf.old) }
{
    if blocks_of(&core.inner.config, vol) == 0 {
        return;
    }
    if shelf.is_down() {
        return;
    }
    match load_maps(alloc, shelf, &core.inner.config, vol) {
        Ok(loaded) => {
            let LoadedMaps { fmr, gone: _ } = loaded;
            one.fmr = fmr;
        }
        Err(_) => {}
    }
}

// The same of a volume in its place, where it may be read.
fn take_at<S: Shelf>(
    alloc: Global,
    shelf: &mut S,
    core: &GroupCore,
    logs: &mut Vec<Logs>,
    alike: &[bool; MOST_VOLUMES],
    may: bool,
    vol: u32,
)
    requires stands { LoggedStands core.now logs.old.items alike.now false (S.meaning shelf.old) }
    requires none { core.now.held ≡ None }
    requires there { vol < length core.now.inner.config.volumes }
    requires plain { (l : LogsValue) → slice_get logs.old.items vol ≡ Some l → l.fmr ≡ None }
    requires tells { may ≡ true → (IsTrue (S.meaning shelf.old).down → ⊥) → MapsTell core.now.inner.config vol (S.meaning shelf.old) }
    ensures stands { LoggedStands core.now logs.new.items alike.now false (S.meaning shelf.new) }
    ensures goes { Goes Nothing (S.meaning shelf.old) (S.meaning shelf.new) }
    ensures takes { TakesMap core.now.inner.config may vol logs.old.items logs.new.items }
    ensures was { (k : LogsValue) (f : Missed) → slice_get logs.new.items vol ≡ Some k → k.fmr ≡ Some f → MapWas core.now.inner.config vol f (S.meaning shelf.old) }
{
    if !may {
        return;
    }
    take_one(alloc, shelf, core, &mut logs[vol as usize], vol);
}

// Whether a volume stopped cleanly, and its log knows what its plexes miss and lies on a disk that was held as good.
fn may_take(
    config: &Config,
    good: u8,
    stopped: &[bool; MOST_VOLUMES],
    rested: &Rested,
    vol: u32,
) -> bool
    requires inside { vol < MOST_VOLUMES }
    ensures clean { result ≡ true → is_unsure stopped.now vol ≡ false }
    ensures maps { result ≡ true → rests rested.now.maps vol ≡ true }
    ensures within { result ≡ true → log_within good config.now vol FmrLog ≡ true }
    ensures may { is_unsure stopped.now vol ≡ false → rests rested.now.maps vol ≡ true → log_within good config.now vol FmrLog ≡ true → result ≡ true }
{
    if stopped[vol as usize] {
        return false;
    }
    if !lies_within(config, good, vol, VolumeLog::Fmr) {
        return false;
    }
    rested.maps[vol as usize]
}

/// Reads the log of missed regions of each volume that stopped cleanly, where it is in use, lies on a disk of the set, those that were held as good,
/// and knows what plexes miss. It changes nothing, and takes the memory of the maps; where this is wanting none is in memory, as where a call on a disk
/// fails.
pub fn take_all<S: Shelf>(
    alloc: Global,
    shelf: &mut S,
    core: &GroupCore,
    logs: &mut Vec<Logs>,
    alike: &[bool; MOST_VOLUMES],
    good: u8,
    stopped: &[bool; MOST_VOLUMES],
    rested: &Rested,
)
    requires stands { LoggedStands core.now logs.old.items alike.now false (S.meaning shelf.old) }
    requires none { core.now.held ≡ None }
    requires plain { (v : ℕ) (l : LogsValue) → slice_get logs.old.items v ≡ Some l → l.fmr ≡ None }
    requires tells { (v : ℕ) → v < length core.now.inner.config.volumes → is_unsure stopped.now v ≡ false → rests rested.now.maps v ≡ true → MapsTell core.now.inner.config v (S.meaning shelf.old) }
    ensures stands { LoggedStands core.now logs.new.items alike.now false (S.meaning shelf.new) }
    ensures goes { Goes Nothing (S.meaning shelf.old) (S.meaning shelf.new) }
    ensures drls { SameDrls logs.old.items logs.new.items }
    ensures why { MapsWhy good core.now.inner.config stopped.now rested.now logs.new.items }
    ensures were { MapsWere core.now.inner.config logs.new.items (S.meaning shelf.old) }
{
    for vol in 0..logs.len() {
        let may = may_take(&core.inner.config, good, stopped, rested, vol as u32);
        take_at(alloc, shelf, core, logs, alike, may, vol as u32);
    }
}

// Whether the plexes of a volume are alike behind an import.
fn alike_one(stopped: &[bool; MOST_VOLUMES], rested: &Rested, vol: u32) -> bool
    requires inside { vol < MOST_VOLUMES }
    ensures why { result ≡ true → is_unsure stopped.now vol ≡ false → rests rested.now.alike vol ≡ true }
    ensures stopped { is_unsure stopped.now vol ≡ true → result ≡ true }
    ensures rested { rests rested.now.alike vol ≡ true → result ≡ true }
{
    if stopped[vol as usize] {
        return true;
    }
    rested.alike[vol as usize]
}

/// Of each volume whether its plexes are alike behind an import: they were made so, or were so where it stopped cleanly.
pub fn alike_of(stopped: &[bool; MOST_VOLUMES], rested: &Rested) -> [bool; MOST_VOLUMES]
    ensures why { (v : ℕ) → is_alike_is result v ≡ true → is_unsure stopped.now v ≡ false → rests rested.now.alike v ≡ true }
    ensures stopped { (v : ℕ) → v < MOST_VOLUMES → is_unsure stopped.now v ≡ true → is_alike_is result v ≡ true }
    ensures rested { (v : ℕ) → v < MOST_VOLUMES → rests rested.now.alike v ≡ true → is_alike_is result v ≡ true }
{
    let mut alike = [false; MOST_VOLUMES];
    for vol in 0..MOST_VOLUMES as u32 {
        alike[vol as usize] = alike_one(stopped, rested, vol);
    }
    alike
}
